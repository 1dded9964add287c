//! The links of a node of a settled ring, from the ring's members.

ghost use Rattle.std.specs.Prelude.{◌≡◌, ◌≤◌, ◌<◌, ◌++◌, nat_lt, nat_le, length, take, drop, filter, Some, None, IfOk};
ghost use Rattle.std.specs.List.{last_or};
ghost use Rattle.std.specs.List.Sorted.{IsPermutation, IsNonDecreasingBy};
ghost use Rattle.dht_ids.specs.Peers.{place};
ghost use Rattle.ring_model.specs.Circle.{number, identifier_bits};
ghost use Rattle.ring_model.specs.Members.{first, from_place};
ghost use Rattle.dhash_model.specs.Settled.{AreFingers};

use dht_ids::{Peer, finger_start, order};
use ivy_base::{Key, Memory};
use std::alloc::Global;
use std::cmp::Ordering;

/// How many fingers a node has: the bits of an identifier.
pub const FINGERS: u32 = 160;

/// The members in the order of their places.
pub(crate) fn ascending(alloc: Global, members: &[Peer]) -> Result<Vec<Peer>, Memory>
    ensures same { IfOk result (λ sorted. IsPermutation members.now sorted.items) }
    ensures rising { IfOk result (λ sorted. IsNonDecreasingBy place sorted.items) }
{
    let mut sorted = members.to_vec(alloc)?;
    sorted.sort_unstable_by(|a, b| order(&a.id, &b.id));
    Ok(sorted)
}

/// How many members stand before the key. The others stand at it or after it.
fn count_before(live: &[Peer], key: &Key) -> usize
    requires { IsNonDecreasingBy place live.now }
    ensures bound { result ≤ length live.now }
    ensures front { take result live.now ≡ filter (λ m. nat_lt (place m) (number key.now)) live.now }
    ensures back { drop result live.now ≡ filter (λ m. nat_le (number key.now) (place m)) live.now }
{
    live.partition_point(|peer| order(&peer.id, key) == Ordering::Less)
}

/// The members after the one at the key, and those before it.
pub(crate) fn around<'a>(live: &'a [Peer], key: &Key) -> (&'a [Peer], &'a [Peer])
    requires { IsNonDecreasingBy place live.now }
    ensures behind { result.0.now ≡ drop 1 (filter (λ m. nat_le (number key.now) (place m)) live.now) }
    ensures front { result.1.now ≡ filter (λ m. nat_lt (place m) (number key.now)) live.now }
{
    let (front, back) = live.split_at(count_before(live, key));
    match back {
        [_, behind @ ..] => (behind, front),
        [] => (back, front),
    }
}

/// The first member at the key or after it.
fn first_from(live: &[Peer], key: &Key) -> Peer
    requires rising { IsNonDecreasingBy place live.now }
    requires some { 0 < length live.now }
    ensures { Some result ≡ first (from_place place live.now (number key.now)) }
{
    let at = count_before(live, key);
    if at < live.len() { live[at] } else { live[0] }
}

/// The fingers of the node among these members.
pub(crate) fn fingers(alloc: Global, live: &[Peer], me: Peer) -> Result<Vec<Peer>, Memory>
    requires rising { IsNonDecreasingBy place live.now }
    requires some { 0 < length live.now }
    ensures { IfOk result (λ fingers. AreFingers live.now me identifier_bits fingers.items) }
{
    let mut fingers = Vec::with_capacity(alloc, FINGERS as usize)?;
    for bit in 0..FINGERS {
        fingers.push(first_from(live, &finger_start(&me.id, bit + 1)))?;
    }
    Ok(fingers)
}

/// The first of the peers after a node, and then of those before it.
pub(crate) fn next(
    alloc: Global,
    behind: &[Peer],
    front: &[Peer],
    room: usize,
) -> Result<Vec<Peer>, Memory>
    ensures { IfOk result (λ list. list.items ≡ take room (behind.now ++ front.now)) }
{
    let mut list = Vec::with_capacity(alloc, room)?;
    let near = &behind[..behind.len().min(room)];
    list.extend_from_slice(near)?;
    let rest = room - near.len();
    list.extend_from_slice(&front[..front.len().min(rest)])?;
    Ok(list)
}

/// The last of the peers before a node, or else of those after it.
pub(crate) fn last(behind: &[Peer], front: &[Peer]) -> Option<Peer>
    ensures { result ≡ last_or None (behind.now ++ front.now) }
{
    if let [.., peer] = front {
        return Some(*peer);
    }
    if let [.., peer] = behind {
        return Some(*peer);
    }
    None
}
