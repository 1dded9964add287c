//! Nodes join a ring, and stop.

ghost use Rattle.std.specs.Prelude.{◌≡◌, ◌==◌, false, filter, not, IfOk, OnOk, OnErr};
ghost use Rattle.std.specs.List.{list_any};
ghost use Rattle.dht_ids.specs.Peers.{place};
ghost use Rattle.ring_model.specs.Circle.{number};
ghost use Rattle.ring_model.specs.Members.{from_place};
ghost use Rattle.world_model.specs.Ring.{in_ring_order, is_known_id, joined_node, peer_numbered};

use crate::fault::JoinFault;
use crate::ring::LiveRing;
use crate::seat::{Seat, is_id, peers_of};
use dht_ids::{Peer, Peers, node_id};
use ivy_base::Memory;
use ring_nodes::{RingNode, from_key, in_order, put_numbered};
use std::alloc::Global;
use std::sync::Wait;

/// How many nodes may be made.
const MOST_NODES: usize = 256;

/// The peer of that number.
fn numbered(number: u32) -> Peer
    ensures { result ≡ peer_numbered number }
{
    Peer {
        number,
        id: node_id(number),
    }
}

/// Whether one of these peers has the identifier of that one.
fn is_known(peers: &[Peer], peer: &Peer) -> bool
    ensures { result ≡ is_known_id peers.now peer.now }
{
    peers.iter().any(|known| is_id(&known.id, &peer.id))
}

/// Whether the seat's node has that number.
fn is_numbered(seat: &Seat, number: u32) -> bool
    ensures { result ≡ (seat.now.peer.number == number) }
{
    seat.peer.number == number
}

/// Whether one of these seats has that number.
fn has_number(seats: &[Seat], number: u32) -> bool
    ensures { result ≡ list_any (λ s. s.peer.number == number) seats.now }
{
    seats.iter().any(|seat| is_numbered(seat, number))
}

/// Takes the seats of that number away, with their nodes.
fn drop_number(seats: &mut Vec<Seat>, number: u32)
    ensures { seats.new.items ≡ filter (λ s. not (s.peer.number == number)) seats.old.items }
{
    seats.retain(|seat| !is_numbered(seat, number));
}

impl LiveRing {
    ghost use Rattle.ring_run.specs.Changes.{Joins, has_number, with_node_more, without_number};

    /// Makes the node of that number, which lives from now on. It takes the next 2r live nodes after its place, which the
    /// ring knows, for its list, and is alone where none lives. The error is Known where a node of its identifier was made
    /// before, then Limit where 256 nodes were made, and then Memory; nothing is changed then.
    pub fn join<R: Wait>(&mut self, _rt: &R, alloc: Global, number: u32) -> Result<(), JoinFault>
        ensures { Joins self.old number result self.new }
    {
        if is_known(&self.made, &numbered(number)) {
            return Err(JoinFault::Known);
        }
        if self.made.len() >= MOST_NODES {
            return Err(JoinFault::Limit);
        }
        match self.take_in(alloc, number) {
            Ok(()) => Ok(()),
            Err(Memory) => Err(JoinFault::Memory),
        }
    }

    /// The node of that number is made, and lives. The error is: out of memory, and nothing is changed then.
    fn take_in(&mut self, alloc: Global, number: u32) -> Result<(), Memory>
        requires { is_known_id self.old.made (peer_numbered number) ≡ false }
        ensures taken { OnOk result (self.new ≡ with_node_more self.old number) }
        ensures unchanged { OnErr result (self.new ≡ self.old) }
    {
        let peer = numbered(number);
        let mut made = self.made.as_slice().to_vec(alloc)?;
        put_numbered(&mut made, peer)?;
        let node = self.newcomer(alloc, peer)?;
        self.live.push(Seat::of(node))?;
        self.made = made;
        Ok(())
    }

    /// The node of a peer that comes, which takes the next live nodes for its list. The error is: out of memory.
    fn newcomer(&self, alloc: Global, peer: Peer) -> Result<RingNode, Memory>
        ensures { IfOk result (λ node. node ≡ joined_node peer self.now.replicas (from_place place (in_ring_order self.now.live) (number peer.id))) }
    {
        let live = in_order(alloc, &peers_of(alloc, &self.live)?)?;
        let next = Peers::of(from_key(alloc, &live, &peer.id)?);
        RingNode::joined(alloc, peer, self.replicas, &next)
    }

    /// Stops the node of that number, and lets it go with all that it holds. False where no such node lives.
    pub fn stop(&mut self, number: u32) -> bool
        ensures lived { result ≡ has_number self.old number }
        ensures stopped { self.new ≡ without_number self.old number }
    {
        let lived = has_number(&self.live, number);
        drop_number(&mut self.live, number);
        lived
    }
}
