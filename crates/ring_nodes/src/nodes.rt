//! All nodes of a ring.

ghost use Rattle.std.specs.Prelude.{◌≡◌, ◌+◌, ◌<◌, ◌≤◌, [], ◌∷◌, ◌++◌, ◌==◌, filter, find, length, map, nat_lt, option_map, position, Some, None, IfOk, IfSome, OnOk, OnErr, if◌then◌else◌};
ghost use Rattle.std.specs.Bool.{OnFalse};
ghost use Rattle.std.specs.List.{list_any};
ghost use Rattle.std.specs.Ordering.{eq_by_cmp};
ghost use Rattle.ivy_base.specs.Naming.{key_cmp};
ghost use Rattle.ring_model.specs.Circle.{identifier_bits};
ghost use Rattle.ring_model.specs.Members.{IsAmong};
ghost use Rattle.world_model.specs.World.{World, entries, peer_of, with_numbered};

use crate::node::{RingNode, is_id};
use crate::order::{from_key, lesser, put_in_order};
use crate::settle::settled_nodes;
use dht_ids::{Answer, Ask, Judge, Peer, Peers, Posts};
use ivy_base::{Bytes, Key, Memory};
use std::alloc::Global;
use std::marker::Model;

/// The nodes of a ring in the order in which they were made, how many asks were made, and which asks are lost. Each node has
/// the identifier of its number, no two stand at one place, and each knows of nodes alone that were made.
pub struct RingNodes {
    nodes: Vec<RingNode>,
    asked: u64,
    /// The newest first.
    lost: Vec<u64>,
}

/// One function, so that whatever drops the nodes calls it and isn't proved over all of its parts once more.
impl Drop for RingNodes {
    fn drop(self) {
        let RingNodes {
            nodes: _,
            asked: _,
            lost: _,
        } = self;
    }
}

impl Model for RingNodes {
    ghost use Rattle.ring_nodes.specs.NodesState.{AreSound, NodesState};

    ghost Value = { NodesState };

    ghost view = { λ n. record { nodes = n.nodes.items; asked = n.asked; lost = n.lost.items } };

    ghost invariant = { λ n. AreSound n.nodes.items };
}

impl RingNodes {
    ghost use Rattle.script_driver.specs.Run.{Goes, Refuses};
    ghost use Rattle.world_model.specs.Ring.{AreSettled, first_peers, in_ring_order, least, stop_line};
    ghost use Rattle.world_model.specs.Faults.{damage_by, owner_of_key};
    ghost use Rattle.ring_nodes.specs.Spoiling.{damaged_world};
    ghost use Rattle.world_model.specs.Fates.{FateOf, IsLost, ask_counted};
    ghost use Rattle.chord_core.specs.State.{IsOfNear};
    ghost use Rattle.ring_model.specs.Members.{first};
    ghost use Rattle.ring_nodes.specs.Joining.{IsNewNode, with_node_more};
    ghost use Rattle.ring_nodes.specs.Upkeep.{Changes, HasNode, fingered, forgotten, renewed_by, without_blocks};
    ghost use Rattle.node_store.specs.Stores.{post_of};
    ghost use Rattle.ring_nodes.specs.NodesState.{AreSound, BringsOnly, IsNodesOf, IsPeerOf, NamesOnly, held_by, made_peers, no_nodes, node_of, with_nodes};

    /// No node. It takes no memory.
    pub fn new(alloc: Global) -> RingNodes
        ensures { result ≡ no_nodes }
    {
        RingNodes {
            nodes: Vec::new(alloc),
            asked: 0,
            lost: Vec::new(alloc),
        }
    }

    /// Makes the settled ring of the first `count` numbers, 1 to 256, in place of all nodes; a number whose identifier stands
    /// already is left out. r is 1 to 8. What was asked and what is lost stay. The error is: out of memory; nothing is
    /// changed then.
    pub fn settle(&mut self, alloc: Global, count: u32, replicas: u32) -> Result<(), Memory>
        requires count { (1 ≤ count) × (count ≤ 256) }
        requires few { (1 ≤ replicas) × (replicas ≤ 8) }
        ensures settled { OnOk result (AreSettled (in_ring_order (first_peers count)) replicas (first_peers count) self.new.nodes) }
        ensures unchanged { OnErr result (self.new ≡ self.old) }
        ensures asked { self.new.asked ≡ self.old.asked }
        ensures lost { self.new.lost ≡ self.old.lost }
    {
        let nodes = settled_nodes(alloc, count, replicas)?;
        self.nodes = nodes;
        Ok(())
    }

    /// What becomes of one ask of a node that was made: silence where the ask is lost or the node is stopped, and else what
    /// the node answers by what it keeps, which names nodes alone that were made. A notice is of one of these too. The error
    /// is: out of memory, or 2^64 asks; all is as before then, the count of asks too.
    pub fn ask<J: Judge>(
        &mut self,
        alloc: Global,
        judge: &J,
        to: &Peer,
        question: &Ask,
    ) -> Result<Answer, Memory>
        requires made { IsAmong to.now (made_peers self.old) }
        requires brings { BringsOnly (made_peers self.old) question.now }
        ensures fate { IfOk result (λ answer. (w : World) → IsNodesOf w self.old → FateOf (J.judges judge.now) w to.now question.now answer (with_nodes w self.new)) }
        ensures named { IfOk result (NamesOnly (made_peers self.old)) }
        ensures unchanged { OnErr result (self.new ≡ self.old) }
        ensures made { made_peers self.new ≡ made_peers self.old }
    {
        let Some(number) = self.asked.checked_add(1) else {
            return Err(Memory);
        };
        let answer = if self.lost.contains(&number) {
            Answer::Silent
        } else {
            self.reach(alloc, judge, to, question)?
        };
        self.asked = number;
        Ok(answer)
    }

    /// What becomes of an ask that isn't lost. It isn't counted.
    fn reach<J: Judge>(
        &mut self,
        alloc: Global,
        judge: &J,
        to: &Peer,
        question: &Ask,
    ) -> Result<Answer, Memory>
        requires made { IsAmong to.now (made_peers self.old) }
        requires brings { BringsOnly (made_peers self.old) question.now }
        ensures named { IfOk result (NamesOnly (made_peers self.old)) }
        ensures fate { IfOk result (λ answer. (w : World) → IsNodesOf w self.old → (IsLost w → ⊥) → FateOf (J.judges judge.now) w to.now question.now answer (ask_counted (with_nodes w self.new))) }
        ensures unchanged { OnErr result (self.new ≡ self.old) }
        ensures made { made_peers self.new ≡ made_peers self.old }
        ensures asked { self.new.asked ≡ self.old.asked }
        ensures lost { self.new.lost ≡ self.old.lost }
    {
        let Some(place) = self.place_of(&to.id) else {
            unreachable!();
        };
        let node = &mut self.nodes[place];
        if !node.is_live() {
            return Ok(Answer::Silent);
        }
        node.answer(alloc, judge, question)
    }

    /// What holds of the nodes at all times: `AreSound` in `specs/NodesState.antt`. It does nothing.
    pub fn are_sound(&self)
        ensures { AreSound self.now.nodes }
    {
        let _ = &self.nodes;
    }

    /// How many nodes were made.
    pub fn count(&self) -> usize
        ensures { result ≡ length self.now.nodes }
    {
        self.nodes.len()
    }

    /// Whether a node of that identifier was made.
    pub(crate) fn is_made(&self, id: &Key) -> bool
        ensures { result ≡ list_any (λ q. eq_by_cmp key_cmp q.id id.now) (made_peers self.now) }
    {
        has_node(&self.nodes, id)
    }

    /// Of the live nodes the one of the least number; the first where several have it.
    pub(crate) fn least_live(&self) -> Option<Peer>
        ensures { result ≡ least (map peer_of (filter (λ n. n.is_live) self.now.nodes)) }
    {
        let mut found = None;
        'live: for node in &self.nodes {
            if node.is_live() {
                found = Some(lesser(found, node.peer()));
            }
        }
        found
    }

    /// Makes one node more. The error is: out of memory, and nothing is changed then.
    pub(crate) fn add(&mut self, node: RingNode) -> Result<(), Memory>
        requires { IsNewNode self.old node }
        ensures added { OnOk result (self.new ≡ with_node_more self.old node) }
        ensures unchanged { OnErr result (self.new ≡ self.old) }
    {
        self.nodes.push(node)?;
        Ok(())
    }

    /// Where the node of the identifier is.
    fn place_of(&self, id: &Key) -> Option<usize>
        ensures { result ≡ position (λ n. eq_by_cmp key_cmp (peer_of n).id id.now) self.now.nodes }
    {
        self.nodes
            .iter()
            .position(|node| is_id(&node.peer().id, id))
    }

    /// All peers that were made, by number: those that a session knows. The error is: out of memory.
    pub fn entries(&self, alloc: Global) -> Result<Peers, Memory>
        ensures { IfOk result (λ peers. (w : World) → IsNodesOf w self.now → peers ≡ entries w) }
    {
        let mut peers = Vec::with_capacity(alloc, self.nodes.len())?;
        'numbered: for node in &self.nodes {
            put_numbered(&mut peers, node.peer())?;
        }
        Ok(Peers::of(peers))
    }

    /// From now on the ask of that number is lost, the next one being 1. The error is: out of memory, or an ask past 2^64;
    /// nothing is changed then.
    pub fn lose(&mut self, count: u64) -> Result<(), Memory>
        ensures lost { OnOk result (self.new ≡ record self.old { lost = (self.old.asked + count) ∷ self.old.lost }) }
        ensures unchanged { OnErr result (self.new ≡ self.old) }
    {
        let Some(number) = self.asked.checked_add(count) else {
            return Err(Memory);
        };
        self.lost.insert(0, number)?;
        Ok(())
    }

    /// Stops the node of the identifier, where it lives.
    pub fn stop(&mut self, id: &Key) -> bool
        ensures line { (w : World) → IsNodesOf w self.old → stop_line w (node_of self.old id.now) ≡ (if result then Goes (with_nodes w self.new) [] else Refuses) }
        ensures unchanged { OnFalse result (self.new ≡ self.old) }
        ensures made { made_peers self.new ≡ made_peers self.old }
    {
        let Some(place) = self.place_of(id) else {
            return false;
        };
        self.nodes[place].stop()
    }

    /// Changes the byte at an offset of the block that the node of the identifier holds under the key, and gives the block as
    /// it is then; None where there is no such node or byte, and nothing is changed then. The error is: out of memory, and
    /// nothing is changed then either.
    pub fn damage(
        &mut self,
        alloc: Global,
        id: &Key,
        key: &Key,
        offset: u64,
        byte: u8,
    ) -> Result<Option<Bytes>, Memory>
        ensures line { IfOk result (λ bytes. (w : World) → IsNodesOf w self.old → damage_by w (node_of self.old id.now) (Some key.now) offset byte ≡ damaged_world (with_nodes w self.new) bytes) }
        ensures refused { IfOk result (λ bytes. bytes ≡ None → self.new ≡ self.old) }
        ensures unchanged { OnErr result (self.new ≡ self.old) }
        ensures made { made_peers self.new ≡ made_peers self.old }
    {
        let Some(place) = self.place_of(id) else {
            return Ok(None);
        };
        self.nodes[place].spoil(alloc, key, offset, byte)
    }

    /// The peer of that number, where a node has it.
    pub fn numbered(&self, number: u32) -> Option<Peer>
        ensures { IsPeerOf self.now (find (λ n. (peer_of n).number == number) self.now.nodes) result }
    {
        let node = node_numbered(&self.nodes, number)?;
        Some(node.peer())
    }

    /// The key's owner of that number, from 1, among the live nodes, where r nodes own a key; None where there is none. The
    /// error is: out of memory.
    pub fn owner_of(
        &self,
        alloc: Global,
        replicas: u32,
        count: u64,
        key: &Key,
    ) -> Result<Option<Peer>, Memory>
        ensures { IfOk result (λ owner. (w : World) → IsNodesOf w self.now → owner ≡ owner_of_key w replicas count key.now) }
    {
        if count == 0 || count > replicas as u64 {
            return Ok(None);
        }
        let live = self.live_in_order(alloc)?;
        let owners = from_key(alloc, &live, key)?;
        Ok(owners.get((count - 1) as usize).copied())
    }

    /// The live peers in the order of their places. The error is: out of memory.
    pub fn live_in_order(&self, alloc: Global) -> Result<Vec<Peer>, Memory>
        ensures { IfOk result (λ peers. peers.items ≡ in_ring_order (map peer_of (filter (λ n. n.is_live) self.now.nodes))) }
    {
        let mut peers = Vec::with_capacity(alloc, self.nodes.len())?;
        'live: for node in &self.nodes {
            if node.is_live() {
                put_in_order(&mut peers, node.peer())?;
            }
        }
        Ok(peers)
    }

    /// The predecessor that the node of a peer knows, which was made too.
    pub fn before(&self, peer: &Peer) -> Option<Peer>
        requires { IsAmong peer.now (made_peers self.now) }
        ensures before { HasNode (λ n. result ≡ n.ring.links.before) self.now peer.now.id }
        ensures made { IfSome result (λ q. IsAmong q (made_peers self.now)) }
    {
        self.nodes[self.place(peer)].before()
    }

    /// The first entry of the list of a peer's node, which was made too.
    pub fn first(&self, peer: &Peer) -> Option<Peer>
        requires { IsAmong peer.now (made_peers self.now) }
        ensures first { HasNode (λ n. result ≡ first n.ring.links.list) self.now peer.now.id }
        ensures made { IfSome result (λ q. IsAmong q (made_peers self.now)) }
    {
        self.nodes[self.place(peer)].first()
    }

    /// The node of a peer forgets its predecessor.
    pub fn forget(&mut self, peer: &Peer)
        requires { IsAmong peer.now (made_peers self.old) }
        ensures changes { Changes forgotten peer.now.id self.old self.new }
        ensures made { made_peers self.new ≡ made_peers self.old }
    {
        let place = self.place(peer);
        self.nodes[place].forget();
    }

    /// The node of a peer renews its list by what the first entry answered to Near, which names nodes alone that were made.
    /// The error is: out of memory, and nothing is changed then.
    pub fn renew(&mut self, alloc: Global, peer: &Peer, heard: &Answer) -> Result<(), Memory>
        requires peer { IsAmong peer.now (made_peers self.old) }
        requires near { IsOfNear heard.now }
        requires named { NamesOnly (made_peers self.old) heard.now }
        ensures changes { OnOk result (Changes (renewed_by heard.now) peer.now.id self.old self.new) }
        ensures unchanged { OnErr result (self.new ≡ self.old) }
        ensures made { made_peers self.new ≡ made_peers self.old }
    {
        let place = self.place(peer);
        self.nodes[place].renew(alloc, heard)
    }

    /// A peer that was made becomes that finger, 0 to 159, of the node of another.
    pub fn fix_finger(&mut self, peer: &Peer, index: u32, owner: &Peer)
        requires peer { IsAmong peer.now (made_peers self.old) }
        requires index { index < identifier_bits }
        requires owner { IsAmong owner.now (made_peers self.old) }
        ensures changes { Changes (fingered index owner.now) peer.now.id self.old self.new }
        ensures made { made_peers self.new ≡ made_peers self.old }
    {
        let place = self.place(peer);
        self.nodes[place].fix_finger(index, *owner);
    }

    /// Copies of the blocks that the node of a peer holds, their keys ascending. The error is: out of memory.
    pub fn posts(&self, alloc: Global, peer: &Peer) -> Result<Posts, Memory>
        requires { IsAmong peer.now (made_peers self.now) }
        ensures { IfOk result (λ posts. HasNode (λ n. posts ≡ map post_of n.blocks) self.now peer.now.id) }
    {
        self.nodes[self.place(peer)].posts(alloc)
    }

    /// The node of a peer drops the blocks of these keys.
    pub fn drop_blocks(&mut self, peer: &Peer, keys: &[Key])
        requires { IsAmong peer.now (made_peers self.old) }
        ensures changes { Changes (without_blocks keys.now) peer.now.id self.old self.new }
        ensures made { made_peers self.new ≡ made_peers self.old }
    {
        let place = self.place(peer);
        self.nodes[place].drop_blocks(keys);
    }

    /// Where the node of a peer is that was made.
    fn place(&self, peer: &Peer) -> usize
        requires { IsAmong peer.now (made_peers self.now) }
        ensures { position (λ n. eq_by_cmp key_cmp (peer_of n).id peer.now.id) self.now.nodes ≡ Some result }
    {
        let _ = &self.nodes;
        let Some(place) = self.place_of(&peer.id) else {
            unreachable!();
        };
        place
    }

    /// Copies of the blocks that the node of the identifier holds, their keys ascending; None where there is no such node,
    /// or it is stopped. The error is: out of memory.
    pub fn held(&self, alloc: Global, id: &Key) -> Result<Option<Posts>, Memory>
        ensures { IfOk result (λ posts. posts ≡ held_by (node_of self.now id.now)) }
    {
        let Some(place) = self.place_of(id) else {
            return Ok(None);
        };
        self.nodes[place].held(alloc)
    }
}

/// Whether a node has that identifier.
fn has_node(nodes: &[RingNode], id: &Key) -> bool
    ensures { result ≡ list_any (λ n. eq_by_cmp key_cmp (peer_of n).id id.now) nodes.now }
{
    nodes.iter().any(|node| is_id(&node.peer().id, id))
}

/// The node of that number.
fn node_numbered(nodes: &[RingNode], number: u32) -> Option<&RingNode>
    ensures { option_map (λ n. n.now) result ≡ find (λ n. (peer_of n).number == number) nodes.now }
{
    nodes.iter().find(|node| node.peer().number == number)
}

/// Puts a peer where it belongs by its number, after those of its number. The error is: out of memory.
pub fn put_numbered(peers: &mut Vec<Peer>, peer: Peer) -> Result<(), Memory>
    ensures { OnOk result (peers.new.items ≡ with_numbered peers.old.items peer) }
{
    let place = first_above(peers, peer.number).unwrap_or(peers.len());
    peers.insert(place, peer)?;
    Ok(())
}

/// Where the first peer of a greater number is.
fn first_above(peers: &[Peer], number: u32) -> Option<usize>
    ensures { result ≡ position (λ q. nat_lt number q.number) peers.now }
{
    peers.iter().position(|peer| number < peer.number)
}
