//! Live peers in the order of their places and of their numbers.

ghost use Rattle.std.specs.Prelude.{◌≡◌, ◌++◌, filter, nat_le, nat_lt, position, IfOk, OnOk};
ghost use Rattle.ring_nodes.specs.Joining.{lesser_of};
ghost use Rattle.dht_ids.specs.Peers.{place};
ghost use Rattle.ring_model.specs.Circle.{number};
ghost use Rattle.ring_model.specs.Members.{from_place};
ghost use Rattle.world_model.specs.Ring.{in_ring_order, with_peer};

use dht_ids::{Peer, order};
use ivy_base::{Key, Memory};
use std::alloc::Global;
use std::cmp::Ordering;

/// Whether the one stands before the other.
fn is_before(a: &Key, b: &Key) -> bool
    ensures { result ≡ nat_lt (number a.now) (number b.now) }
{
    order(a, b) == Ordering::Less
}

/// Puts a peer where it belongs by its place.
pub(crate) fn put_in_order(peers: &mut Vec<Peer>, peer: Peer) -> Result<(), Memory>
    ensures { OnOk result (peers.new.items ≡ with_peer peers.old.items peer) }
{
    let place = first_behind(peers, &peer.id).unwrap_or(peers.len());
    peers.insert(place, peer)?;
    Ok(())
}

/// Where the first peer after the key is.
fn first_behind(peers: &[Peer], key: &Key) -> Option<usize>
    ensures { result ≡ position (λ q. nat_lt (number key.now) (place q)) peers.now }
{
    peers.iter().position(|peer| is_before(key, &peer.id))
}

/// The peers in the order of their places. The error is: out of memory.
pub fn in_order(alloc: Global, peers: &[Peer]) -> Result<Vec<Peer>, Memory>
    ensures { IfOk result (λ ordered. ordered.items ≡ in_ring_order peers.now) }
{
    let mut ordered = Vec::with_capacity(alloc, peers.len())?;
    'peers: for peer in peers {
        put_in_order(&mut ordered, *peer)?;
    }
    Ok(ordered)
}

/// Of peers in the order of their places those at the key or after it, and then those before it. The error is: out of
/// memory.
pub fn from_key(alloc: Global, live: &[Peer], key: &Key) -> Result<Vec<Peer>, Memory>
    ensures { IfOk result (λ peers. peers.items ≡ from_place place live.now (number key.now)) }
{
    let mut peers = Vec::with_capacity(alloc, live.len())?;
    'behind: for peer in live {
        if !is_before(&peer.id, key) {
            peers.push(*peer)?;
        }
    }
    'front: for peer in live {
        if is_before(&peer.id, key) {
            peers.push(*peer)?;
        }
    }
    Ok(peers)
}

/// Of two peers the one of the lesser number, and of two of one number the first.
pub(crate) fn lesser(first: Option<Peer>, second: Peer) -> Peer
    ensures { result ≡ lesser_of first second }
{
    match first {
        Some(peer) if peer.number <= second.number => peer,
        _ => second,
    }
}
