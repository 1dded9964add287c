//! Nodes behind their locks.

ghost use Rattle.std.specs.Prelude.{◌≡◌, find, map, option_map, IfOk};
ghost use Rattle.std.specs.Ordering.{eq_by_cmp};
ghost use Rattle.ivy_base.specs.Naming.{key_cmp};
ghost use Rattle.world_model.specs.World.{peer_of};

use dht_ids::Peer;
use ivy_base::{Key, Memory};
use ring_nodes::RingNode;
use std::alloc::Global;
use std::sync::Mutex;

/// A live node behind its lock, and the peer that it is.
#[derive(Drop)]
pub(crate) struct Seat {
    pub(crate) peer: Peer,
    pub(crate) node: Mutex<RingNode>,
}

impl Seat {
    /// The seat of a node.
    pub(crate) fn of(node: RingNode) -> Seat
        ensures { result.peer ≡ peer_of node }
    {
        Seat {
            peer: node.peer(),
            node: Mutex::new(node),
        }
    }
}

/// The seats of these nodes, in order. The error is: out of memory.
pub(crate) fn seats_of(alloc: Global, nodes: Vec<RingNode>) -> Result<Vec<Seat>, Memory>
    ensures { IfOk result (λ seats. map (λ s. s.peer) seats.items ≡ map peer_of nodes.items) }
{
    let mut seats = Vec::with_capacity(alloc, nodes.len())?;
    'nodes: for node in nodes {
        seats.push(Seat::of(node))?;
    }
    Ok(seats)
}

/// The peers of these seats, in order. The error is: out of memory.
pub(crate) fn peers_of(alloc: Global, seats: &[Seat]) -> Result<Vec<Peer>, Memory>
    ensures { IfOk result (λ peers. peers.items ≡ map (λ s. s.peer) seats.now) }
{
    let mut peers = Vec::with_capacity(alloc, seats.len())?;
    'seats: for seat in seats {
        peers.push(seat.peer)?;
    }
    Ok(peers)
}

/// Whether both are one identifier.
pub(crate) fn is_id(a: &Key, b: &Key) -> bool
    ensures { result ≡ eq_by_cmp key_cmp a.now b.now }
{
    a == b
}

/// The seat of the peer's identifier.
pub(crate) fn seat_of<'a>(seats: &'a [Seat], peer: &Peer) -> Option<&'a Seat>
    ensures { option_map (λ s. s.now) result ≡ find (λ s. eq_by_cmp key_cmp s.peer.id peer.now.id) seats.now }
{
    seats.iter().find(|seat| is_id(&seat.peer.id, &peer.id))
}
