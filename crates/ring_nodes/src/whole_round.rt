//! A whole round.

ghost use Rattle.std.specs.Prelude.{◌≡◌, ◌≤◌, IfOk};
ghost use Rattle.world_model.specs.Rounds.{IsRoundOf};
ghost use Rattle.world_model.specs.World.{World};
ghost use Rattle.ring_nodes.specs.NodesState.{IsNodesOf, made_peers, with_nodes};

use crate::RingNodes;
use crate::fingers::fix_fingers;
use crate::forgetting::forget_silent;
use crate::repairing::move_blocks;
use crate::stabilising::renew_lists;
use dht_ids::Judge;
use ivy_base::Memory;
use std::alloc::Global;

/// A round over the live nodes. r, at most 8, nodes own a key. The error is: out of memory, or 2^64 asks; the round may be
/// half done then.
pub fn round<J: Judge>(
    nodes: &mut RingNodes,
    alloc: Global,
    judge: &J,
    replicas: u32,
) -> Result<(), Memory>
    requires { replicas ≤ 8 }
    ensures round { IfOk result (λ _. (w : World) → IsNodesOf w nodes.old → IsRoundOf (J.judges judge.now) replicas w (with_nodes w nodes.new)) }
    ensures made { made_peers nodes.new ≡ made_peers nodes.old }
{
    let live = nodes.live_in_order(alloc)?;
    forget_silent(nodes, alloc, judge, &live)?;
    renew_lists(nodes, alloc, judge, replicas, &live)?;
    fix_fingers(nodes, alloc, judge, &live)?;
    move_blocks(nodes, alloc, judge, replicas, &live)
}
