//! A node that joins.

ghost use Rattle.std.specs.Prelude.{◌≡◌, ◌≤◌, IfOk, OnOk, OnErr};
ghost use Rattle.dhash_model.specs.State.{alone_node};
ghost use Rattle.ring_model.specs.Members.{IsAmong};
ghost use Rattle.world_model.specs.Ring.{empty_node, joined_node};

use crate::node::RingNode;
use crate::nodes::RingNodes;
use chord_core::Node;
use dht_ids::{Judge, Peer, Peers, node_id};
use ivy_base::{Key, Memory};
use std::alloc::Global;

/// How many nodes there may be.
pub const MOST_NODES: usize = 256;

/// What became of a node that was to join.
#[derive(Clone, Copy)]
pub enum Join {
    /// The node stands, and lives.
    Joined,
    /// A node of its identifier was made before.
    Refused,
    /// As many nodes were made as there may be, 256.
    Full,
    /// No owner of its identifier was found, and no node was made. Asks were made.
    Failed,
}

impl RingNodes {
    ghost use Rattle.std.specs.Prelude.{Some};
    ghost use Rattle.world_model.specs.Ring.{JoinLine};
    ghost use Rattle.world_model.specs.World.{World};
    ghost use Rattle.ring_nodes.specs.Joining.{IsNewPeer, IsUndone, JoinsThrough, join_outcome, with_node_more};
    ghost use Rattle.ring_nodes.specs.NodesState.{AreAllAmong, IsNodesOf, made_peers, with_nodes};

    /// Makes the node of that number, which joins through the live node of the least number: it takes the owners of its
    /// identifier for its list, by a look-up; where no node lives it is alone. r, 1 to 8, is how many nodes own a key. The
    /// error is: out of memory, or 2^64 asks; asks may have been made then, but no node.
    pub fn join<J: Judge>(
        &mut self,
        alloc: Global,
        judge: &J,
        replicas: u32,
        number: u32,
    ) -> Result<Join, Memory>
        requires { (1 ≤ replicas) × (replicas ≤ 8) }
        ensures line { IfOk result (λ join. (w : World) → IsNodesOf w self.old → JoinLine (J.judges judge.now) w number (Some replicas) (join_outcome number join (with_nodes w self.new))) }
        ensures undone { IfOk result (λ join. IsUndone join → self.new ≡ self.old) }
        ensures made { OnErr result (made_peers self.new ≡ made_peers self.old) }
    {
        let peer = Peer {
            number,
            id: node_id(number),
        };
        if self.is_made(&peer.id) {
            return Ok(Join::Refused);
        }
        if self.count() >= MOST_NODES {
            return Ok(Join::Full);
        }
        match self.least_live() {
            Some(through) => self.join_through(alloc, judge, replicas, peer, &through),
            None => {
                self.add(RingNode::alone(alloc, peer, replicas)?)?;
                Ok(Join::Joined)
            }
        }
    }

    /// Makes the node of a new peer by a look-up through that node.
    fn join_through<J: Judge>(
        &mut self,
        alloc: Global,
        judge: &J,
        replicas: u32,
        peer: Peer,
        through: &Peer,
    ) -> Result<Join, Memory>
        requires few { (1 ≤ replicas) × (replicas ≤ 8) }
        requires new { IsNewPeer self.old peer }
        requires made { IsAmong through.now (made_peers self.old) }
        ensures joins { IfOk result (λ join. (w : World) → IsNodesOf w self.old → JoinsThrough (J.judges judge.now) w replicas peer through.now join (with_nodes w self.new)) }
        ensures done { IfOk result (λ join. IsUndone join → ⊥) }
        ensures made { OnErr result (made_peers self.new ≡ made_peers self.old) }
    {
        let Ok(owners) = self.look_up(alloc, judge, through, &peer.id)? else {
            return Ok(Join::Failed);
        };
        self.take_in(alloc, replicas, peer, &owners)?;
        Ok(Join::Joined)
    }

    /// Makes the node of a new peer, which takes its list from these owners. The error is: out of memory, and nothing is
    /// changed then.
    fn take_in(
        &mut self,
        alloc: Global,
        replicas: u32,
        peer: Peer,
        owners: &Peers,
    ) -> Result<(), Memory>
        requires few { (1 ≤ replicas) × (replicas ≤ 8) }
        requires new { IsNewPeer self.old peer }
        requires made { AreAllAmong (made_peers self.old) owners.now }
        ensures added { OnOk result (self.new ≡ with_node_more self.old (joined_node peer replicas owners.now)) }
        ensures unchanged { OnErr result (self.new ≡ self.old) }
    {
        self.add(RingNode::joined(alloc, peer, replicas, owners)?)
    }
}

impl RingNode {
    /// The live node of a peer that knows of nobody and holds nothing. r is 1 to 8. The error is: out of memory.
    pub fn alone(alloc: Global, peer: Peer, replicas: u32) -> Result<RingNode, Memory>
        requires { (1 ≤ replicas) × (replicas ≤ 8) }
        ensures { IfOk result (λ node. node ≡ empty_node (alone_node peer replicas)) }
    {
        let ring = Node::alone(alloc, peer, replicas)?;
        Ok(RingNode::empty(alloc, peer, ring))
    }

    /// The live node of a peer that takes its list from these owners and holds nothing. r is 1 to 8. The error is: out of
    /// memory.
    pub fn joined(
        alloc: Global,
        peer: Peer,
        replicas: u32,
        owners: &Peers,
    ) -> Result<RingNode, Memory>
        requires { (1 ≤ replicas) × (replicas ≤ 8) }
        ensures { IfOk result (λ node. node ≡ joined_node peer replicas owners.now) }
    {
        let mut ring = Node::alone(alloc, peer, replicas)?;
        ring.adopt(alloc, owners)?;
        Ok(RingNode::empty(alloc, peer, ring))
    }
}
