//! A turn on what is held: the new records are taken in, and the call is answered on them.

ghost use Rattle.std.specs.Prelude.{◌≡◌, ◌≤◌, ◌+◌, ◌++◌, IfOk, OnErr, IfSome, IsSomeAnd};
ghost use Rattle.ivy_base.specs.Naming.{head_key_of};
ghost use Rattle.log_fetch.specs.Standings.{asked_of};
ghost use Rattle.log_model.specs.Replay.{in_order};
ghost use Rattle.log_model.specs.Spelling.{most_records};
ghost use Rattle.log_model.specs.Vector.{seq_of};
ghost use Rattle.log_model.specs.View.{IsView};
ghost use Rattle.log_records.specs.Records.{records_of};
ghost use Rattle.replay_engine.specs.Rows.{IsRow};
ghost use Rattle.replay_engine.specs.Engines.{holding};
ghost use Rattle.replay_engine.specs.Places.{AreNew};
ghost use Rattle.turn_model.specs.Work.{applied_between};
ghost use Rattle.agent_model.specs.Agent.{joined, own_key};
ghost use Rattle.turn_laws.specs.Taking.{with_new};
ghost use Rattle.turn_taking.specs.Taking.{Takes};
ghost use Rattle.ivy_agent.specs.Answering.{Answers, IsCall, MayGoOn};
ghost use Rattle.ivy_agent.specs.Taking.{MayTakeFrom, TurnsOn};
ghost use Rattle.ivy_agent.specs.Causes.{ReplyHasCause};

use crate::outcome::answer;
use crate::saving::Kept;
use crate::writing::Done;
use hss_keys::Signs;
use ivy_base::{Memory, Moment, Steps};
use ivy_io::Keeper;
use log_fetch::Asked;
use log_records::{Batch, Record};
use nfs_laws::results_are_short;
use replay_engine::Engine;
use std::alloc::Global;
use std::sync::ledger::Ledger;
use turn_taking::{Held, Taken, take};
use version_vectors::Vector;

/// Takes the new records in, and answers the call on what is held then, whose front is given. The error is: out of memory, or
/// that of [`answer`]; then the engine holds what it did, and all else is as it was.
pub fn answer_with<K: Keeper, S: Signs + Drop, L: Ledger>(
    alloc: Global,
    keeper: &mut K,
    kept: &mut Kept<S>,
    engine: &mut Engine,
    new: Vec<Record>,
    front: Vector,
    has_failed: bool,
    asked: &Asked,
    now: Moment,
    steps: &mut Steps<L>,
) -> Result<Done, Memory>
    requires log { kept.old.log ≡ head_key_of (own_key S.signing kept.old.signer) }
    requires view { IsSomeAnd kept.old.view (λ view. MayGoOn view (own_key S.signing kept.old.signer) kept.old.floor front (with_new (holding engine.old) (records_of new.items))) }
    requires call { IsCall (asked_of asked.now) now }
    requires few { seq_of front kept.old.log ≤ most_records }
    requires held { IsRow engine.old.held }
    requires row { IsRow (records_of new.items) }
    requires new { AreNew engine.old.held (records_of new.items) }
    requires front { front ≡ joined (with_new (holding engine.old) (records_of new.items)) }
    ensures done { IfOk result (λ done. IfSome kept.old.view (λ view. Answers S.signing S.is_whole K.saves view (asked_of asked.now) now kept.old has_failed (with_new (holding engine.old) (records_of new.items)) front keeper.old (applied_between engine.old.held (in_order (engine.old.held ++ records_of new.items))) kept.new (holding engine.new) keeper.new done)) }
    ensures kept { OnErr result (kept.new ≡ kept.old) }
    ensures keeper { OnErr result (keeper.new ≡ keeper.old) }
    ensures engine { OnErr result (holding engine.new ≡ holding engine.old) }
    ensures steps { IfOk result (λ done. steps.new ≡ steps.old + done.turned.applied) }
{
    let applied = engine.absorb(alloc, new, steps)?;
    match answer(
        alloc, keeper, kept, engine, front, has_failed, asked, now, applied, steps,
    ) {
        Ok(done) => Ok(done),
        Err(Memory) => {
            engine.undo();
            Err(Memory)
        }
    }
}

/// Why a turn isn't taken.
#[derive(Clone, Copy)]
pub enum Refusal {
    /// The refresh began with more than is held by now, or the floor's record of a member's log is neither held nor new.
    Behind,
    /// A new record isn't above the basis.
    BelowTide,
    /// Out of memory. No clause ties this to a cause.
    Memory,
}

/// What a turn takes of the batch, where it goes on from what the engine holds. The error is: out of memory.
fn take_new<S: Signs>(
    alloc: Global,
    kept: &Kept<S>,
    engine: &Engine,
    front: &Vector,
    batch: Batch,
) -> Result<Taken, Memory>
    requires from { IsSomeAnd kept.now.view (λ view. MayTakeFrom view (own_key S.signing kept.now.signer) kept.now.floor (holding engine.now) batch) }
    requires front { front.now ≡ joined (holding engine.now) }
    ensures { IfOk result (λ taken. IfSome kept.now.view (λ view. Takes view (own_key S.signing kept.now.signer) kept.now.floor batch (holding engine.now) taken)) }
{
    let Some(view) = &kept.view else {
        unreachable!();
    };
    let own = kept.signer.owner();
    let held = Held {
        view,
        own: &own,
        floor: &kept.floor,
        base: engine.basis_front(),
        records: engine.records(),
        front,
    };
    take(alloc, &held, batch)
}

/// A turn that goes on from what the engine holds, whose front is given, with the batch. The errors are those of [`Refusal`];
/// then the engine holds what it did, and all else is as it was.
pub fn turn_on<K: Keeper, S: Signs + Drop, L: Ledger>(
    alloc: Global,
    keeper: &mut K,
    kept: &mut Kept<S>,
    engine: &mut Engine,
    front: &Vector,
    has_failed: bool,
    batch: Batch,
    asked: &Asked,
    now: Moment,
    steps: &mut Steps<L>,
) -> Result<Done, Refusal>
    requires log { kept.old.log ≡ head_key_of (own_key S.signing kept.old.signer) }
    requires from { IsSomeAnd kept.old.view (λ view. MayTakeFrom view (own_key S.signing kept.old.signer) kept.old.floor (holding engine.old) batch) }
    requires well { IsSomeAnd kept.old.view IsView }
    requires call { IsCall (asked_of asked.now) now }
    requires front { front.now ≡ joined (holding engine.old) }
    ensures cause { IfOk result (λ done. ReplyHasCause (K.faults keeper.old) (K.faults keeper.new) has_failed done.turned) }
    ensures turned { IfSome kept.old.view (λ view. TurnsOn S.signing S.is_whole K.saves view batch (asked_of asked.now) now kept.old has_failed (holding engine.old) keeper.old result kept.new (holding engine.new) keeper.new) }
    ensures kept { OnErr result (kept.new ≡ kept.old) }
    ensures keeper { OnErr result (keeper.new ≡ keeper.old) }
    ensures engine { OnErr result (holding engine.new ≡ holding engine.old) }
    ensures steps { IfOk result (λ done. steps.new ≡ steps.old + done.turned.applied) }
{
    // What is answered is short, and the front is a vector.
    results_are_short();
    let _ = engine.basis_front().len();
    let Ok(taken) = take_new(alloc, kept, engine, front, batch) else {
        return Err(Refusal::Memory);
    };
    match taken {
        Taken::Behind => Err(Refusal::Behind),
        Taken::BelowTide => Err(Refusal::BelowTide),
        Taken::New(new, front) => {
            let _ = front.len();
            let answered = answer_with(
                alloc, keeper, kept, engine, new, front, has_failed, asked, now, steps,
            );
            match answered {
                Ok(done) => Ok(done),
                Err(Memory) => Err(Refusal::Memory),
            }
        }
    }
}
