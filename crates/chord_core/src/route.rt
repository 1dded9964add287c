//! The two parts of a route.

ghost use Rattle.std.specs.Prelude.{◌≡◌, ◌≤◌, ◌*◌, ◌++◌, ◌∷◌, [], length, take, drop, IfOk, MatchOption};
ghost use Rattle.dht_ids.specs.Peers.{place};
ghost use Rattle.ring_model.specs.Circle.{number};
ghost use Rattle.ring_model.specs.Route.{owners_part, with_nearer, nearer_with};

use dht_ids::{Peer, inside, same};
use ivy_base::{Key, Memory};
use std::alloc::Global;

/// The entries of the list that aren't strictly between the node and the key, and the node itself where the list
/// isn't full.
pub(crate) fn owners(
    alloc: Global,
    replicas: u32,
    me: Peer,
    list: &[Peer],
    key: &Key,
) -> Result<Vec<Peer>, Memory>
    requires { (1 ≤ replicas) × (replicas ≤ 8) }
    ensures { IfOk result (λ owners. owners.items ≡ owners_part place replicas me list.now (number key.now)) }
{
    let mut found = Vec::new(alloc);
    for peer in list {
        if !inside(&me.id, &peer.id, key) {
            found.push(*peer)?;
        }
    }
    if list.len() < 2 * replicas as usize {
        found.push(me)?;
    }
    Ok(found)
}

/// Where the peer belongs among peers that stand nearest to the key first, or None where one of its place is among
/// them.
fn place_among(entries: &[Peer], peer: &Peer, key: &Key) -> Option<usize>
    ensures { MatchOption result (with_nearer place (number key.now) peer.now entries.now ≡ entries.now) (λ i. (i ≤ length entries.now) × (with_nearer place (number key.now) peer.now entries.now ≡ take i entries.now ++ peer.now ∷ drop i entries.now)) }
{
    for (i, old) in entries.iter().enumerate() {
        if same(&peer.id, &old.id) {
            return None;
        }
        if inside(&old.id, &peer.id, key) {
            return Some(i);
        }
    }
    Some(entries.len())
}

/// Puts the peer where it belongs.
fn put_nearer(entries: &mut Vec<Peer>, peer: Peer, key: &Key) -> Result<(), Memory>
    ensures { IfOk result (λ _. entries.new.items ≡ with_nearer place (number key.now) peer entries.old.items) }
{
    if let Some(i) = place_among(entries, &peer, key) {
        entries.insert(i, peer)?;
    }
    Ok(())
}

/// Puts the peer where it belongs, where it is strictly between the node and the key.
fn put_inside(found: &mut Vec<Peer>, peer: Peer, me: Peer, key: &Key) -> Result<(), Memory>
    ensures { IfOk result (λ _. found.new.items ≡ nearer_with place me (number key.now) (peer ∷ []) found.old.items) }
{
    if inside(&me.id, &peer.id, key) {
        put_nearer(found, peer, key)?;
    }
    Ok(())
}

/// Puts those of the peers that are strictly between the node and the key where they belong. One that stands where the
/// one before it does is passed over, since most fingers are the same few peers.
fn put_all(found: &mut Vec<Peer>, peers: &[Peer], me: Peer, key: &Key) -> Result<(), Memory>
    ensures { IfOk result (λ _. found.new.items ≡ nearer_with place me (number key.now) peers.now found.old.items) }
{
    for (i, peer) in peers.iter().enumerate() {
        if i > 0 && same(&peer.id, &peers[i - 1].id) {
            continue;
        }
        put_inside(found, *peer, me, key)?;
    }
    Ok(())
}

/// The peers of the list and of the fingers that are strictly between the node and the key, nearest to the key first.
pub(crate) fn nearer(
    alloc: Global,
    me: Peer,
    list: &[Peer],
    fingers: &[Peer],
    key: &Key,
) -> Result<Vec<Peer>, Memory>
    ensures { IfOk result (λ nearer. nearer.items ≡ nearer_with place me (number key.now) fingers.now (nearer_with place me (number key.now) list.now [])) }
{
    let mut found = Vec::new(alloc);
    put_all(&mut found, list, me, key)?;
    put_all(&mut found, fingers, me, key)?;
    Ok(found)
}
