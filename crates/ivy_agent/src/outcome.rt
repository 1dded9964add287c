//! Answering a call on what a turn took.

ghost use Rattle.std.specs.Prelude.{◌≡◌, ◌≢◌, ◌≤◌, ◌+◌, [], IfOk, OnOk, OnErr, IfSome, IsSomeAnd};
ghost use Rattle.ivy_base.specs.Naming.{head_key_of};
ghost use Rattle.log_fetch.specs.Standings.{asked_of};
ghost use Rattle.log_model.specs.Spelling.{most_records};
ghost use Rattle.log_model.specs.Vector.{seq_of};
ghost use Rattle.replay_engine.specs.Rows.{IsRow};
ghost use Rattle.replay_engine.specs.Engines.{holding};
ghost use Rattle.ivy_agent.specs.Given.{served_of};
ghost use Rattle.ivy_agent.specs.Serving.{Writes as IsToWrite};
ghost use Rattle.agent_model.specs.Agent.{joined, own_key};
ghost use Rattle.ivy_agent.specs.Answering.{Answers, IsCall, MayGoOn, served_on};
ghost use Rattle.ivy_agent.specs.Outcomes.{Gives, kept_to};
ghost use Rattle.ivy_agent.specs.Writing.{StandsAs};

use crate::answering::reply;
use crate::saving::Kept;
use crate::serving::{On, Served, serve};
use crate::writing::{Done, write};
use hss_keys::Signs;
use ivy_base::{Memory, Moment, Steps};
use ivy_io::Keeper;
use log_fetch::Asked;
use nfs_model::Reply;
use nfs3_writes::Ops;
use replay_engine::Engine;
use std::alloc::Global;
use std::sync::ledger::Ledger;
use version_vectors::Vector;

/// What is served on what is held, whose front is given. The error is: out of memory.
fn serve_held<S: Signs>(
    alloc: Global,
    kept: &Kept<S>,
    engine: &Engine,
    front: &Vector,
    has_failed: bool,
    asked: &Asked,
    now: Moment,
) -> Result<Served, Memory>
    requires view { IsSomeAnd kept.now.view (λ view. Unit {0}) }
    requires few { seq_of front.now kept.now.log ≤ most_records }
    ensures { IfOk result (λ served. IfSome kept.now.view (λ view. served_of served ≡ served_on S.signing view kept.now has_failed (holding engine.now) front.now (asked_of asked.now) now)) }
{
    let Some(view) = &kept.view else {
        unreachable!();
    };
    let own = kept.signer.owner();
    let on = On {
        tree: engine.tree(),
        view,
        own: &own,
        seq: front.seq_of(&kept.log),
        leaves: kept.signer.left(),
        has_failed,
    };
    serve(alloc, &on, asked, now)
}

/// Writes the operations, where the front goes as far in the own log as the floor does. The error is that of [`write`]; it also
/// comes where the front doesn't, which takes blocks whose names clash.
fn write_on<K: Keeper, S: Signs + Drop, L: Ledger>(
    alloc: Global,
    keeper: &mut K,
    kept: &mut Kept<S>,
    engine: &mut Engine,
    front: Vector,
    has_failed: bool,
    asked: &Asked,
    now: Moment,
    ops: &Ops,
    applied: u64,
    steps: &mut Steps<L>,
) -> Result<Done, Memory>
    requires log { kept.old.log ≡ head_key_of (own_key S.signing kept.old.signer) }
    requires view { IsSomeAnd kept.old.view (λ view. MayGoOn view (own_key S.signing kept.old.signer) kept.old.floor front (holding engine.old)) }
    requires call { IsCall (asked_of asked.now) now }
    requires some { engine.old.before ≢ [] }
    requires held { IsRow engine.old.held }
    requires front { front ≡ joined (holding engine.old) }
    requires served { IsSomeAnd kept.old.view (λ view. served_on S.signing view kept.old has_failed (holding engine.old) front (asked_of asked.now) now ≡ IsToWrite ops.now) }
    ensures done { IfOk result (λ done. IfSome kept.old.view (λ view. Answers S.signing S.is_whole K.saves view (asked_of asked.now) now kept.old has_failed (holding engine.old) front keeper.old applied kept.new (holding engine.new) keeper.new done)) }
    ensures kept { OnErr result (kept.new ≡ kept.old) }
    ensures keeper { OnErr result (keeper.new ≡ keeper.old) }
    ensures engine { OnErr result (StandsAs engine.old engine.new) }
    ensures steps { IfOk result (λ done. steps.new + applied ≡ steps.old + done.turned.applied) }
{
    // That it is a vector, so that it may be cited.
    let _ = front.len();
    if front.seq_of(&kept.log) != kept.floor.seq_of(&kept.log) {
        return Err(Memory);
    }
    write(
        alloc, keeper, kept, engine, front, asked, now, ops, applied, steps,
    )
}

/// Answers without writing, and goes on as before. The error is: out of memory, and then what is kept is what it was.
fn reply_on<S: Signs>(
    alloc: Global,
    kept: &mut Kept<S>,
    front: Vector,
    has_failed: bool,
    applied: u64,
    given: Reply,
) -> Result<Done, Memory>
    ensures kept { OnOk result (kept.new ≡ kept_to kept.old front) }
    ensures front { IfOk result (λ done. done.front ≡ front) }
    ensures failed { IfOk result (λ done. done.has_failed ≡ has_failed) }
    ensures given { IfOk result (λ done. Gives given kept.new front applied done.turned) }
    ensures err { OnErr result (kept.new ≡ kept.old) }
{
    let turned = reply(alloc, kept, &front, applied, given)?;
    Ok(Done {
        turned,
        front,
        has_failed,
    })
}

/// Answers the call on what is held, whose front is given. The error is: out of memory, or that of [`write_on`]; then the
/// engine holds what it did, and all else is as it was.
pub fn answer<K: Keeper, S: Signs + Drop, L: Ledger>(
    alloc: Global,
    keeper: &mut K,
    kept: &mut Kept<S>,
    engine: &mut Engine,
    front: Vector,
    has_failed: bool,
    asked: &Asked,
    now: Moment,
    applied: u64,
    steps: &mut Steps<L>,
) -> Result<Done, Memory>
    requires log { kept.old.log ≡ head_key_of (own_key S.signing kept.old.signer) }
    requires view { IsSomeAnd kept.old.view (λ view. MayGoOn view (own_key S.signing kept.old.signer) kept.old.floor front (holding engine.old)) }
    requires call { IsCall (asked_of asked.now) now }
    requires few { seq_of front kept.old.log ≤ most_records }
    requires some { engine.old.before ≢ [] }
    requires held { IsRow engine.old.held }
    requires front { front ≡ joined (holding engine.old) }
    ensures done { IfOk result (λ done. IfSome kept.old.view (λ view. Answers S.signing S.is_whole K.saves view (asked_of asked.now) now kept.old has_failed (holding engine.old) front keeper.old applied kept.new (holding engine.new) keeper.new done)) }
    ensures kept { OnErr result (kept.new ≡ kept.old) }
    ensures keeper { OnErr result (keeper.new ≡ keeper.old) }
    ensures engine { OnErr result (StandsAs engine.old engine.new) }
    ensures steps { IfOk result (λ done. steps.new + applied ≡ steps.old + done.turned.applied) }
{
    let served = serve_held(alloc, kept, engine, &front, has_failed, asked, now)?;
    match served {
        Served::Replies(given) => reply_on(alloc, kept, front, has_failed, applied, given),
        Served::Writes(ops) => write_on(
            alloc, keeper, kept, engine, front, has_failed, asked, now, &ops, applied, steps,
        ),
    }
}
