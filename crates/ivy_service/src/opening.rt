//! The agent of a service.

ghost use Rattle.std.specs.Prelude.{◌≡◌, ◌≤◌, false, ◌∷◌, [], IfOk, IfErr, IsErrOf, IsSomeAnd, OnOk};
ghost use Rattle.hash_signature_model.specs.Saved.{IsSigner, hss};
ghost use Rattle.ivy_io.specs.declared.open_fault.OpenFault.TheVariants as refusal;
ghost use Rattle.ivy_service.specs.Opening.{EntersAlone, IsOpened};

use hss_keys::Hss;
use ivy_agent::{Agent, EnterFault, MakeFault};
use ivy_base::{Memory, Moment, PubKey};
use ivy_io::{Keeper, OpenFault};
use ring_run::{RememberedKey, Verdicts};
use std::alloc::Global;
use view_blocks::View;

/// The view of one member alone. The error is: out of memory.
fn view_of(alloc: Global, member: PubKey) -> Result<View, Memory>
    ensures { IfOk result (λ view. view ≡ record { members = member ∷ []; former = [] }) }
{
    match View::make(alloc, &[member], &[]) {
        Ok(view) => Ok(view),
        Err(_) => Err(Memory),
    }
}

/// Enters the view of the agent's log alone.
fn enter_alone<K: Keeper>(
    alloc: Global,
    agent: &mut Agent<K, RememberedKey>,
) -> Result<(), OpenFault>
    requires unfailed { agent.old.agent.has_failed ≡ false }
    ensures enters { OnOk result (EntersAlone K.saves agent.old agent.new) }
    ensures failed { IsErrOf result refusal.Failed → 1 ≤ K.faults agent.new.keeper }
{
    let Ok(view) = view_of(alloc, agent.owner()) else {
        return Err(OpenFault::Memory);
    };
    match agent.enter(alloc, view) {
        Ok(()) => Ok(()),
        Err(EnterFault::Keeper) => Err(OpenFault::Failed),
        Err(_) => Err(OpenFault::Memory),
    }
}

/// An agent whose log was opened, and what is known of the signatures that its key made.
pub(crate) struct Opened<K: Keeper + Drop> {
    pub(crate) agent: Agent<K, RememberedKey>,
    pub(crate) verdicts: Verdicts,
}

/// The key, which keeps verdicts on its signatures, and these verdicts. The error is: out of memory.
fn remembered(alloc: Global, signer: Hss) -> Result<(RememberedKey, Verdicts), Memory>
    ensures { IfOk result (λ made. made.0 ≡ signer) }
{
    let verdicts = Verdicts::new(alloc)?;
    Ok((RememberedKey::new(signer, verdicts.share()?), verdicts))
}

/// An agent that opens its log at that moment, over the keeper, and enters the view of its log alone. With the error the keeper
/// comes back: it failed, or memory ran out.
pub(crate) fn open<K: Keeper + Drop>(
    alloc: Global,
    keeper: K,
    signer: Hss,
    moment: Moment,
) -> Result<Opened<K>, (K, OpenFault)>
    ensures opened { IfOk result (λ o. IsOpened K.saves keeper signer moment o.agent) }
    ensures view { IfOk result (λ o. IsSomeAnd o.agent.agent.view (λ view. Unit {0})) }
    ensures failed { IfErr result (λ e. e.1 ≡ refusal.Failed → 1 ≤ K.faults e.0) }
{
    let Ok((key, verdicts)) = remembered(alloc, signer) else {
        return Err((keeper, OpenFault::Memory));
    };
    match create(alloc, keeper, key, moment) {
        Ok(agent) => Ok(Opened { agent, verdicts }),
        Err(fault) => Err(fault),
    }
}

/// An agent with this key that opens its log at that moment, over the keeper, and enters the view of its log alone. With the
/// error the keeper comes back: it failed, or memory ran out.
fn create<K: Keeper + Drop>(
    alloc: Global,
    keeper: K,
    signer: RememberedKey,
    moment: Moment,
) -> Result<Agent<K, RememberedKey>, (K, OpenFault)>
    ensures opened { IfOk result (IsOpened K.saves keeper signer moment) }
    ensures view { IfOk result (λ a. IsSomeAnd a.agent.view (λ view. Unit {0})) }
    ensures failed { IfErr result (λ e. e.1 ≡ refusal.Failed → 1 ≤ K.faults e.0) }
{
    match Agent::create(alloc, keeper, signer, moment) {
        Ok(mut agent) => match enter_alone(alloc, &mut agent) {
            Ok(()) => Ok(agent),
            Err(why) => Err((agent.into_keeper(), why)),
        },
        Err((keeper, MakeFault::Keeper)) => Err((keeper, OpenFault::Failed)),
        Err((keeper, _)) => Err((keeper, OpenFault::Memory)),
    }
}
