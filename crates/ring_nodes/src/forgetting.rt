//! The first part of a round: a silent predecessor is forgotten.

ghost use Rattle.std.specs.Prelude.{◌≡◌, IfOk};
ghost use Rattle.ring_model.specs.Members.{IsAmong};
ghost use Rattle.world_model.specs.Rounds.{EachDoes, Forgets};
ghost use Rattle.world_model.specs.World.{World};
ghost use Rattle.ring_nodes.specs.NodesState.{AreAllAmong, IsNodesOf, made_peers, with_nodes};

use crate::RingNodes;
use crate::heard::is_silent;
use dht_ids::{Ask, Judge, Peer};
use ivy_base::Memory;
use std::alloc::Global;

/// Each of these peers' nodes, one after the other, forgets a predecessor that is silent. The error is: out of memory, or
/// 2^64 asks.
pub fn forget_silent<J: Judge>(
    nodes: &mut RingNodes,
    alloc: Global,
    judge: &J,
    live: &[Peer],
) -> Result<(), Memory>
    requires { AreAllAmong (made_peers nodes.old) live.now }
    ensures forgets { IfOk result (λ _. (w : World) → IsNodesOf w nodes.old → EachDoes (Forgets (J.judges judge.now)) w live.now (with_nodes w nodes.new)) }
    ensures made { made_peers nodes.new ≡ made_peers nodes.old }
{
    'peers: for peer in live {
        forget(nodes, alloc, judge, peer)?;
    }
    Ok(())
}

/// A peer's node forgets its predecessor, where that is silent.
fn forget<J: Judge>(
    nodes: &mut RingNodes,
    alloc: Global,
    judge: &J,
    peer: &Peer,
) -> Result<(), Memory>
    requires { IsAmong peer.now (made_peers nodes.old) }
    ensures forgets { IfOk result (λ _. (w : World) → IsNodesOf w nodes.old → Forgets (J.judges judge.now) w peer.now (with_nodes w nodes.new)) }
    ensures made { made_peers nodes.new ≡ made_peers nodes.old }
{
    let Some(before) = nodes.before(peer) else {
        return Ok(());
    };
    let heard = nodes.ask(alloc, judge, &before, &Ask::Near)?;
    if is_silent(&heard) {
        nodes.forget(peer);
    }
    Ok(())
}
