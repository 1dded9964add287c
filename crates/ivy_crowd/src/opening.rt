//! The participant's agent.

ghost use Rattle.std.specs.Prelude.{◌≡◌, Ok, IfOk, OnOk};
ghost use Rattle.ivy_base.specs.declared.operation.Moment.{Moment};
ghost use Rattle.hash_signature_model.specs.Saved.{IsSigner, hss};
ghost use Rattle.hash_signature_model.specs.Signer.{Signer};
ghost use Rattle.agent_model.specs.Agent.{own};
ghost use Rattle.ivy_io.specs.Keepers.{fresh_keeper_state};
ghost use Rattle.ivy_agent.specs.Entering.{Enters};
ghost use Rattle.ivy_agent.specs.Making.{Makes};
ghost use Rattle.ivy_crowd.specs.Crowds.{saves_in_memory};
ghost use Rattle.ivy_crowd.specs.Jobs.{IsOpened};
ghost use Rattle.ivy_crowd.specs.Requests.{IsKey, alone};

use crate::key::key;
use ivy_agent::{Agent, EnterFault, MakeFault};
use ivy_base::{Memory, Moment, PubKey};
use ivy_io::MemKeeper;
use ring_run::{RememberedKey, Verdicts};
use std::alloc::Global;
use view_blocks::{View, ViewFault};

/// The agent, and the view that it is in.
#[derive(Drop)]
pub(crate) struct Opened {
    pub(crate) agent: Agent<MemKeeper, RememberedKey>,
    pub(crate) view: View,
}

/// Running out of memory: a view of one key can't be refused for its keys.
fn view_lacks(why: ViewFault) -> Memory
    requires { why ≡ ViewFault.Memory }
{
    let _ = why;
    Memory
}

/// The view of one member alone. The error is: out of memory.
fn view_of(alloc: Global, member: PubKey) -> Result<View, Memory>
    ensures { IfOk result (λ view. view ≡ alone member) }
{
    match View::make(alloc, &[member], &[]) {
        Ok(view) => Ok(view),
        Err(why) => Err(view_lacks(why)),
    }
}

/// Running out of memory: the key isn't spent, and no save is to fail.
fn agent_lacks(why: MakeFault) -> Memory
    requires { why ≡ MakeFault.Memory }
{
    let _ = why;
    Memory
}

/// An agent with the participant's key that opens its log at that moment, over a keeper in memory of which no save is to fail.
/// The error is: out of memory.
fn create(
    alloc: Global,
    signer: RememberedKey,
    moment: Moment,
) -> Result<Agent<MemKeeper, RememberedKey>, Memory>
    requires { IsKey signer }
    ensures { IfOk result (λ agent. Makes hss IsSigner saves_in_memory fresh_keeper_state signer moment (Ok agent)) }
{
    match Agent::create(alloc, MemKeeper::new(alloc), signer, moment) {
        Ok(agent) => Ok(agent),
        Err((_, why)) => Err(agent_lacks(why)),
    }
}

/// Running out of memory: the agent is the member, knows no other log, and no save is to fail.
fn entry_lacks(why: EnterFault) -> Memory
    requires { why ≡ EnterFault.Memory }
{
    let _ = why;
    Memory
}

/// Has an agent that was just created enter the view of its log alone. The error is: out of memory.
fn enter(
    alloc: Global,
    agent: &mut Agent<MemKeeper, RememberedKey>,
    view: &View,
) -> Result<(), Memory>
    requires made { (signer : Signer) × (moment : Moment) × Makes hss IsSigner saves_in_memory fresh_keeper_state signer moment (Ok agent.old) }
    requires view { view.now ≡ alone (own hss agent.old.agent) }
    ensures { OnOk result (Enters hss IsSigner saves_in_memory view.now agent.old (Ok tt) agent.new) }
{
    match agent.enter(alloc, view.copy(alloc)?) {
        Ok(()) => Ok(()),
        Err(why) => Err(entry_lacks(why)),
    }
}

/// An agent that opens its log at that moment, and enters the view of its log alone. What its key signs is known there. The error
/// is: out of memory.
pub(crate) fn open(alloc: Global, moment: Moment, verdicts: Verdicts) -> Result<Opened, Memory>
    ensures { IfOk result (IsOpened moment) }
{
    let signer = key(alloc)?;
    let mut agent = create(alloc, RememberedKey::new(signer, verdicts), moment)?;
    let view = view_of(alloc, agent.owner())?;
    enter(alloc, &mut agent, &view)?;
    Ok(Opened { agent, view })
}
