//! The nodes of a settled ring.

ghost use Rattle.std.specs.Prelude.{◌≡◌, ◌≤◌, [], ◌∷◌, ◌++◌, Contains, IfOk, OnOk, if◌then◌else◌};
ghost use Rattle.std.specs.List.{list_any};
ghost use Rattle.std.specs.Ordering.{eq_by_cmp};
ghost use Rattle.ivy_base.specs.Naming.{key_cmp};
ghost use Rattle.dhash_model.specs.Settled.{IsSettledNode};
ghost use Rattle.world_model.specs.Ring.{AreSettled, empty_node, first_peers, in_ring_order, is_known_id, peer_numbered};
ghost use Rattle.round_laws.specs.RingOf.{AreApart};

use crate::node::{RingNode, is_id};
use chord_core::Node;
use dht_ids::{Peer, Peers, node_id};
use ivy_base::{Key, Memory};
use std::alloc::Global;

/// Whether a peer of that identifier is among them.
pub(crate) fn is_known(peers: &[Peer], id: &Key) -> bool
    ensures { result ≡ list_any (λ q. eq_by_cmp key_cmp q.id id.now) peers.now }
{
    peers.iter().any(|peer| is_id(&peer.id, id))
}

/// Adds the peer of that number, where none has its identifier.
fn add(peers: &mut Vec<Peer>, number: u32) -> Result<(), Memory>
    ensures { OnOk result (peers.new.items ≡ (if is_known_id peers.old.items (peer_numbered number) then peers.old.items else peers.old.items ++ peer_numbered number ∷ [])) }
{
    let id = node_id(number);
    if !is_known(peers, &id) {
        peers.push(Peer { number, id })?;
    }
    Ok(())
}

/// The peers of the first numbers; one whose identifier stands already is left out. The error is: out of memory.
fn first(alloc: Global, count: u32) -> Result<Peers, Memory>
    ensures { IfOk result (λ peers. peers ≡ first_peers count) }
{
    let mut peers = Vec::with_capacity(alloc, count as usize)?;
    'peers: for number in 0..count {
        add(&mut peers, number)?;
    }
    Ok(Peers::of(peers))
}

/// The node of one of these members in their settled ring. The error is: out of memory.
fn member(alloc: Global, me: Peer, replicas: u32, members: &Peers) -> Result<RingNode, Memory>
    requires few { (1 ≤ replicas) × (replicas ≤ 8) }
    requires apart { AreApart members.now }
    requires member { Contains members.now me }
    ensures { IfOk result (λ node. IsSettledNode (in_ring_order members.now) me replicas node.ring × (node ≡ empty_node node.ring)) }
{
    let ring = Node::settled(alloc, me, replicas, members)?;
    Ok(RingNode::empty(alloc, me, ring))
}

/// The nodes of the settled ring of these members, no two of which stand at one place. r is 1 to 8. The error is: out of
/// memory.
fn settled(alloc: Global, replicas: u32, members: &Peers) -> Result<Vec<RingNode>, Memory>
    requires few { (1 ≤ replicas) × (replicas ≤ 8) }
    requires apart { AreApart members.now }
    ensures { IfOk result (λ nodes. AreSettled (in_ring_order members.now) replicas members.now nodes.items) }
{
    let peers = members.as_slice();
    let mut nodes = Vec::with_capacity(alloc, peers.len())?;
    'nodes: for peer in peers {
        nodes.push(member(alloc, *peer, replicas, members)?)?;
    }
    Ok(nodes)
}

/// The nodes of the settled ring of the first `count` numbers, in the order of their numbers; a number whose identifier stands
/// already is left out. r is 1 to 8. The error is: out of memory.
pub fn settled_nodes(alloc: Global, count: u32, replicas: u32) -> Result<Vec<RingNode>, Memory>
    requires { (1 ≤ replicas) × (replicas ≤ 8) }
    ensures { IfOk result (λ nodes. AreSettled (in_ring_order (first_peers count)) replicas (first_peers count) nodes.items) }
{
    let members = first(alloc, count)?;
    settled(alloc, replicas, &members)
}
