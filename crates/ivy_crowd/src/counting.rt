//! What is counted of the agent after all turns.

ghost use Rattle.std.specs.Prelude.{◌≡◌, length, Some, IfOk, IsSomeAnd};
ghost use Rattle.ivy_base.specs.Naming.{root_number};
ghost use Rattle.tree_model.specs.Tree.{listing};
ghost use Rattle.turn_model.specs.Basis.{kept_tree};
ghost use Rattle.ivy_crowd.specs.Crowds.{newest_own};

use fs_tree::ROOT;
use ivy_agent::Agent;
use ivy_base::{Key, Memory, head_key};
use ivy_io::MemKeeper;
use ring_run::RememberedKey;
use std::alloc::Global;

/// How many names the root has in the agent's tree.
pub(crate) fn files(agent: &Agent<MemKeeper, RememberedKey>) -> u64
    ensures { result ≡ length (listing (kept_tree agent.now.agent.holding) root_number) }
{
    agent.tree().names().entries(&ROOT)
}

/// The name of the newest record of the agent's log: the log's entry in its floor. The error is: out of memory.
pub(crate) fn newest(alloc: Global, agent: &Agent<MemKeeper, RememberedKey>) -> Result<Key, Memory>
    requires { IsSomeAnd agent.now.agent.view (λ view. Unit {0}) }
    ensures { IfOk result (λ name. newest_own agent.now ≡ Some name) }
{
    let standing = agent.standing(alloc)?;
    let entry = standing.floor.get(&head_key(&standing.own));
    Ok(entry.ok_or(Memory)?.name)
}
