//! The fourth part of a round: each block is put at its owners, and dropped where it isn't the node's to hold.

ghost use Rattle.std.specs.Prelude.{◌≡◌, ◌≢◌, ◌<◌, map, None, IfOk};
ghost use Rattle.dhash_repair.specs.Repairing.{RepairHasHeard, repair_awaited, repair_left};
ghost use Rattle.ring_model.specs.Members.{IsAmong};
ghost use Rattle.dhash_model.specs.Stores.{Blocks};
ghost use Rattle.node_store.specs.Stores.{post_of};
ghost use Rattle.world_model.specs.Rounds.{EachDoes, PutsAll, Repairs};
ghost use Rattle.world_model.specs.World.{World};
ghost use Rattle.ring_nodes.specs.Looking.{IsHeard};
ghost use Rattle.ring_nodes.specs.NodesState.{AreAllAmong, BringsOnly, IsNodesOf, made_peers, with_nodes};

use crate::RingNodes;
use dhash_repair::Repair;
use dht_ids::{Ack, Acks, Ask, Judge, Peer, Posts, Want};
use ivy_base::{Key, Memory};
use std::alloc::Global;

/// Each of these peers' nodes, one after the other, puts its blocks at their owners, and drops those that were acknowledged
/// where it isn't one of the owners that were asked. r nodes own a key. The error is: out of memory, or 2^64 asks.
pub fn move_blocks<J: Judge>(
    nodes: &mut RingNodes,
    alloc: Global,
    judge: &J,
    replicas: u32,
    live: &[Peer],
) -> Result<(), Memory>
    requires { AreAllAmong (made_peers nodes.old) live.now }
    ensures repairs { IfOk result (λ _. (w : World) → IsNodesOf w nodes.old → EachDoes (Repairs (J.judges judge.now) replicas) w live.now (with_nodes w nodes.new)) }
    ensures made { made_peers nodes.new ≡ made_peers nodes.old }
{
    'peers: for peer in live {
        repair(nodes, alloc, judge, replicas, peer)?;
    }
    Ok(())
}

/// A peer's node puts its blocks at their owners, and drops those that aren't its to hold.
fn repair<J: Judge>(
    nodes: &mut RingNodes,
    alloc: Global,
    judge: &J,
    replicas: u32,
    peer: &Peer,
) -> Result<(), Memory>
    requires { IsAmong peer.now (made_peers nodes.old) }
    ensures repairs { IfOk result (λ _. (w : World) → IsNodesOf w nodes.old → Repairs (J.judges judge.now) replicas w peer.now (with_nodes w nodes.new)) }
    ensures made { made_peers nodes.new ≡ made_peers nodes.old }
{
    let held = nodes.posts(alloc, peer)?;
    let acks = put_all(nodes, alloc, judge, replicas, peer, held)?;
    let keys = keys_of(alloc, acks.as_slice())?;
    nodes.drop_blocks(peer, &keys);
    Ok(())
}

/// A peer's node puts these blocks, which it holds, at their owners; the result is said of those that it is to drop.
fn put_all<J: Judge>(
    nodes: &mut RingNodes,
    alloc: Global,
    judge: &J,
    replicas: u32,
    peer: &Peer,
    held: Posts,
) -> Result<Acks, Memory>
    requires { IsAmong peer.now (made_peers nodes.old) }
    ensures puts { IfOk result (λ acks. (blocks : Blocks) → held ≡ map post_of blocks → (w : World) → IsNodesOf w nodes.old → PutsAll (J.judges judge.now) peer.now replicas blocks w (map (λ a. a.key) acks) (with_nodes w nodes.new)) }
    ensures made { made_peers nodes.new ≡ made_peers nodes.old }
{
    nodes.are_sound();
    let mut repair = Repair::start(alloc, *peer, held, replicas);
    'asks: loop {
        match repair.next()? {
            Want::Ask(node, question) => {
                step(nodes, alloc, judge, &mut repair, &node, &question)?;
            }
            Want::Done(acks) => return Ok(acks),
        }
    }
}

/// One ask of a repair, which hears its answer.
fn step<J: Judge>(
    nodes: &mut RingNodes,
    alloc: Global,
    judge: &J,
    repair: &mut Repair,
    node: &Peer,
    question: &Ask,
) -> Result<(), Memory>
    requires waiting { repair_awaited repair.old ≢ None }
    requires made { IsAmong node.now (made_peers nodes.old) }
    requires brings { BringsOnly (made_peers nodes.old) question.now }
    ensures steps { IfOk result (λ _. IsHeard RepairHasHeard (J.judges judge.now) node.now question.now nodes.old nodes.new repair.old repair.new) }
    ensures left { IfOk result (λ _. repair_left repair.new < repair_left repair.old) }
    ensures made { made_peers nodes.new ≡ made_peers nodes.old }
{
    let answer = nodes.ask(alloc, judge, node, question)?;
    repair.heard(answer)?;
    Ok(())
}

/// The keys of what is said of blocks, in order. The error is: out of memory.
fn keys_of(alloc: Global, acks: &[Ack]) -> Result<Vec<Key>, Memory>
    ensures { IfOk result (λ keys. keys.items ≡ map (λ a. a.key) acks.now) }
{
    let mut keys = Vec::with_capacity(alloc, acks.len())?;
    'acks: for ack in acks {
        keys.push(ack.key)?;
    }
    Ok(keys)
}
