//! The third part of a round: fingers are fixed by look-ups.

ghost use Rattle.std.specs.Prelude.{◌≡◌, ◌<◌, IfOk};
ghost use Rattle.log_model.specs.Spelling.{IsKey};
ghost use Rattle.ring_model.specs.Circle.{number, identifier_bits};
ghost use Rattle.ring_model.specs.Members.{IsAmong};
ghost use Rattle.ring_model.specs.Ring.{start};
ghost use Rattle.dht_ids.specs.Peers.{place};
ghost use Rattle.world_model.specs.Rounds.{EachDoes, FixesFinger, FixesFrom};
ghost use Rattle.world_model.specs.World.{World};
ghost use Rattle.ring_nodes.specs.NodesState.{AreAllAmong, IsNodesOf, made_peers, with_nodes};
ghost use Rattle.ring_nodes.specs.Parts.{first_found};

use crate::RingNodes;
use block_parts::check_block;
use chord_core::FINGERS;
use dhash_client::Miss;
use dht_ids::{Judge, Peer, Peers, finger_start};
use ivy_base::{Key, Memory};
use std::alloc::Global;

/// Each of these peers' nodes, one after the other, fixes its fingers by look-ups from itself. The error is: out of memory,
/// or 2^64 asks.
pub fn fix_fingers<J: Judge>(
    nodes: &mut RingNodes,
    alloc: Global,
    judge: &J,
    live: &[Peer],
) -> Result<(), Memory>
    requires { AreAllAmong (made_peers nodes.old) live.now }
    ensures fixes { IfOk result (λ _. (w : World) → IsNodesOf w nodes.old → EachDoes (λ v p. FixesFrom (J.judges judge.now) p 0 identifier_bits v) w live.now (with_nodes w nodes.new)) }
    ensures made { made_peers nodes.new ≡ made_peers nodes.old }
{
    'peers: for peer in live {
        fix_all(nodes, alloc, judge, peer)?;
    }
    Ok(())
}

/// A peer's node fixes its fingers.
fn fix_all<J: Judge>(
    nodes: &mut RingNodes,
    alloc: Global,
    judge: &J,
    peer: &Peer,
) -> Result<(), Memory>
    requires { IsAmong peer.now (made_peers nodes.old) }
    ensures fixes { IfOk result (λ _. (w : World) → IsNodesOf w nodes.old → FixesFrom (J.judges judge.now) peer.now 0 identifier_bits w (with_nodes w nodes.new)) }
    ensures made { made_peers nodes.new ≡ made_peers nodes.old }
{
    'fingers: for index in 0..FINGERS {
        fix(nodes, alloc, judge, peer, index)?;
    }
    Ok(())
}

/// A peer's node fixes its finger of that index, 0 to 159: it becomes the first owner that a look-up of its start finds, if
/// there is one.
fn fix<J: Judge>(
    nodes: &mut RingNodes,
    alloc: Global,
    judge: &J,
    peer: &Peer,
    index: u32,
) -> Result<(), Memory>
    requires made { IsAmong peer.now (made_peers nodes.old) }
    requires index { index < identifier_bits }
    ensures fixes { IfOk result (λ _. (w : World) → IsNodesOf w nodes.old → FixesFinger (J.judges judge.now) peer.now index w (with_nodes w nodes.new)) }
    ensures made { made_peers nodes.new ≡ made_peers nodes.old }
{
    let key = start_of(peer, index);
    let found = nodes.look_up(alloc, judge, peer, &key)?;
    nodes.are_sound();
    if let Some(owner) = first_of(&found) {
        nodes.fix_finger(peer, index, &owner);
    }
    Ok(())
}

/// Where the peer's finger of that index, 0 to 159, begins.
fn start_of(peer: &Peer, index: u32) -> Key
    requires { index < identifier_bits }
    ensures key { IsKey result }
    ensures start { number result ≡ start place identifier_bits peer.now index }
{
    let key = finger_start(&peer.id, index + 1);
    check_block(&key.0);
    key
}

/// The first owner that was found, where one was.
fn first_of(found: &Result<Peers, Miss>) -> Option<Peer>
    ensures { result ≡ first_found found.now }
{
    match found {
        Ok(owners) => owners.as_slice().first().copied(),
        Err(_) => None,
    }
}
