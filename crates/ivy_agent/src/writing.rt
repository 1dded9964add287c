//! Writing what a call plans: the records are held and saved, or nothing is written.

ghost use Rattle.std.specs.Prelude.{◌≡◌, ◌≢◌, ◌≤◌, ◌+◌, [], length, IfOk, OnOk, OnErr, IfSome, IsSomeAnd};
ghost use Rattle.ivy_base.specs.Naming.{head_key_of};
ghost use Rattle.log_fetch.specs.Standings.{asked_of};
ghost use Rattle.log_model.specs.Spelling.{most_records};
ghost use Rattle.log_model.specs.Vector.{join, seq_of};
ghost use Rattle.log_records.specs.Records.{records_of};
ghost use Rattle.nfs_model.specs.declared.replies.NfsStatus.TheVariants.{ServerFault};
ghost use Rattle.nfs_model.specs.declared.replies.Reply.TheVariants.{Refused};
ghost use Rattle.nfs_model.specs.Changing.{finish};
ghost use Rattle.nfs_model.specs.Results.{result as bytes_of};
ghost use Rattle.turn_model.specs.Basis.{kept_tree};
ghost use Rattle.turn_model.specs.Turn.{bare_tail};
ghost use Rattle.ivy_agent.specs.Appended.{written_over};
ghost use Rattle.replay_engine.specs.Engines.{holding, taken_in, undone};
ghost use Rattle.agent_model.specs.Agent.{joined, own_key};
ghost use Rattle.agent_model.specs.SavedBytes.{kept_bytes};
ghost use Rattle.replay_engine.specs.Rows.{IsRow};
ghost use Rattle.replay_engine.specs.Places.{AreBehind};
ghost use Rattle.ivy_agent.specs.Saves.{saved_of, HasSaved, IsWholeAfter};
ghost use Rattle.ivy_agent.specs.Drafts.{IsDraft, kept_with};
ghost use Rattle.ivy_agent.specs.Outcomes.{Gives, kept_to};
ghost use Rattle.ivy_agent.specs.Writing.{HasWritten, StandsAs, WritesDraft, lost_reply};

use crate::answering::give_reply;
use crate::drafts::{Draft, Next, make_draft, save_next};
use crate::saving::{Kept, SaveFault};
use dht_ids::Posts;
use hss_keys::Signs;
use ivy_base::{Memory, Moment, Op, Steps};
use ivy_io::Keeper;
use log_fetch::{Asked, Turned};
use log_records::Record;
use nfs_model::{Args, NfsStatus, Reply};
use nfs3_objects::bare_tail;
use nfs3_writes::{Ops, finish};
use replay_engine::Engine;
use std::alloc::Global;
use std::sync::ledger::Ledger;
use version_vectors::Vector;

/// What a turn comes to.
#[derive(Drop)]
pub struct Done {
    /// What it gives.
    pub turned: Turned,
    /// The front of all that is held.
    pub front: Vector,
    /// Whether the keeper has failed.
    pub has_failed: bool,
}

/// What stands where the save fails.
pub struct Lost {
    /// What is given.
    pub turned: Turned,
    /// The floor.
    pub floor: Vector,
}

/// One function, so that whatever drops it calls this and isn't proved over all of its parts once more.
impl Drop for Lost {
    fn drop(self) {
        let Lost {
            turned: _,
            floor: _,
        } = self;
    }
}

impl Lost {
    /// Puts the floor in its place, and is what is given.
    fn stand<S>(self, kept: &mut Kept<S>) -> Turned
        ensures given { result ≡ self.turned }
        ensures kept { kept.new ≡ record kept.old { floor = self.floor } }
    {
        let Lost { turned, floor } = self;
        kept.floor = floor;
        turned
    }
}

/// What stands where the save fails: the call is answered with `ServerFault`, and what is held goes into the floor. The error
/// is: out of memory.
fn lose<S: Signs>(
    alloc: Global,
    kept: &Kept<S>,
    front: &Vector,
    args: &Args,
    applied: u64,
) -> Result<Lost, Memory>
    ensures bytes { IfOk result (λ lost. lost.turned.reply ≡ bytes_of (Refused ServerFault (bare_tail args.now))) }
    ensures posts { IfOk result (λ lost. lost.turned.posts ≡ kept.now.pending) }
    ensures front { IfOk result (λ lost. lost.turned.front ≡ front.now) }
    ensures count { IfOk result (λ lost. lost.turned.applied ≡ applied) }
    ensures floor { IfOk result (λ lost. lost.floor ≡ join kept.now.floor front.now) }
{
    let floor = kept.floor.join(alloc, front)?;
    match give_fault(alloc, &kept.pending, front, args, applied) {
        Ok(turned) => Ok(Lost { turned, floor }),
        Err(Memory) => Err(Memory),
    }
}

/// What is given where a save fails. The error is: out of memory.
fn give_fault(
    alloc: Global,
    posts: &Posts,
    front: &Vector,
    args: &Args,
    applied: u64,
) -> Result<Turned, Memory>
    ensures bytes { IfOk result (λ t. t.reply ≡ bytes_of (Refused ServerFault (bare_tail args.now))) }
    ensures posts { IfOk result (λ t. t.posts ≡ posts.now) }
    ensures front { IfOk result (λ t. t.front ≡ front.now) }
    ensures count { IfOk result (λ t. t.applied ≡ applied) }
{
    let reply = Reply::Refused {
        status: NfsStatus::ServerFault,
        tail: bare_tail(args),
    };
    give_reply(alloc, reply, posts, front, applied)
}

/// What is given where the last call of the engine took in the records of these operations. The error is: out of memory.
fn show<S: Signs>(
    alloc: Global,
    kept: &Kept<S>,
    engine: &Engine,
    asked: &Asked,
    ops: &Ops,
    posts: &Posts,
    front: &Vector,
    applied: u64,
) -> Result<Turned, Memory>
    requires view { IsSomeAnd kept.now.view (λ view. Unit {0}) }
    requires some { engine.now.before ≢ [] }
    ensures bytes { IfOk result (λ t. IfSome kept.now.view (λ view. t.reply ≡ bytes_of (finish (kept_tree (holding (undone engine.now))) (kept_tree (holding engine.now)) view (asked_of asked.now).caller asked.now.args ops.now))) }
    ensures posts { IfOk result (λ t. t.posts ≡ posts.now) }
    ensures front { IfOk result (λ t. t.front ≡ front.now) }
    ensures count { IfOk result (λ t. t.applied ≡ applied) }
{
    let Some(view) = &kept.view else {
        unreachable!();
    };
    let reply = finish(
        alloc,
        engine.tree_before(),
        engine.tree(),
        view,
        &asked.caller,
        &asked.args,
        ops.as_slice(),
    )?;
    give_reply(alloc, reply, posts, front, applied)
}

/// Has the keeper save what is next, where the last call of the engine took in the records of these operations, and gives what
/// a turn gives then. After an error what is kept is what it was.
fn conclude<K: Keeper, S: Signs + Drop>(
    alloc: Global,
    keeper: &mut K,
    kept: &mut Kept<S>,
    engine: &Engine,
    asked: &Asked,
    ops: &Ops,
    next: Next<S>,
    front: &Vector,
    applied: u64,
) -> Result<Turned, SaveFault>
    requires log { kept.old.log ≡ head_key_of (own_key S.signing kept.old.signer) }
    requires key { S.signing.key next.signer ≡ S.signing.key kept.old.signer }
    requires view { IsSomeAnd kept.old.view (λ view. Unit {0}) }
    requires some { engine.now.before ≢ [] }
    ensures saved { HasSaved K.saves keeper.old (kept_bytes S.signing (saved_of (kept_with kept.old next))) result keeper.new }
    ensures whole { IsWholeAfter (S.is_whole next.signer) result }
    ensures count { IfOk result (λ t. t.applied ≡ applied) }
    ensures ok { OnOk result (kept.new ≡ kept_with kept.old next) }
    ensures err { OnErr result (kept.new ≡ kept.old) }
    ensures given { IfOk result (λ t. IfSome kept.old.view (λ view. Gives (finish (kept_tree (holding (undone engine.now))) (kept_tree (holding engine.now)) view (asked_of asked.now).caller asked.now.args ops.now) (kept_with kept.old next) front.now applied t)) }
{
    let Ok(turned) = show(
        alloc,
        kept,
        engine,
        asked,
        ops,
        &next.pending,
        front,
        applied,
    ) else {
        return Err(SaveFault::Memory);
    };
    match save_next(alloc, keeper, kept, next) {
        Ok(()) => Ok(turned),
        Err(fault) => Err(fault),
    }
}

/// Takes the records into the engine, and has the keeper save what is next with them; gives what a turn gives then. After an
/// error the engine is taken back, and what is kept is what it was.
fn try_to_write<K: Keeper, S: Signs + Drop, L: Ledger>(
    alloc: Global,
    keeper: &mut K,
    kept: &mut Kept<S>,
    engine: &mut Engine,
    asked: &Asked,
    ops: &Ops,
    records: Vec<Record>,
    next: Next<S>,
    front: &Vector,
    applied: u64,
    steps: &mut Steps<L>,
) -> Result<Turned, SaveFault>
    requires log { kept.old.log ≡ head_key_of (own_key S.signing kept.old.signer) }
    requires key { S.signing.key next.signer ≡ S.signing.key kept.old.signer }
    requires view { IsSomeAnd kept.old.view (λ view. Unit {0}) }
    requires some { engine.old.before ≢ [] }
    requires row { IsRow (records_of records.items) }
    requires behind { AreBehind engine.old.held (records_of records.items) }
    ensures saved { HasSaved K.saves keeper.old (kept_bytes S.signing (saved_of (kept_with kept.old next))) result keeper.new }
    ensures whole { IsWholeAfter (S.is_whole next.signer) result }
    ensures count { IfOk result (λ t. t.applied ≡ applied) }
    ensures steps { IsWholeAfter (steps.new ≡ steps.old + length records.items) result }
    ensures ok { OnOk result (kept.new ≡ kept_with kept.old next) }
    ensures taken { OnOk result (engine.new ≡ taken_in engine.old (records_of records.items)) }
    ensures given { IfOk result (λ t. IfSome kept.old.view (λ view. Gives (finish (kept_tree (holding (undone engine.new))) (kept_tree (holding engine.new)) view (asked_of asked.now).caller asked.now.args ops.now) (kept_with kept.old next) front.now applied t)) }
    ensures err { OnErr result (kept.new ≡ kept.old) }
    ensures engine { OnErr result (StandsAs engine.old engine.new) }
{
    let Ok(_) = engine.append(alloc, records, steps) else {
        return Err(SaveFault::Memory);
    };
    match conclude(
        alloc, keeper, kept, engine, asked, ops, next, front, applied,
    ) {
        Ok(turned) => Ok(turned),
        Err(fault) => {
            engine.undo();
            Err(fault)
        }
    }
}

/// Takes the draft's records into the engine, and has the keeper save what is kept with them; where that fails, the engine is
/// taken back, and what stands then is put in place. The error is: out of memory, and then the engine holds what it did, and
/// all else is as it was.
fn commit<K: Keeper, S: Signs + Drop, L: Ledger>(
    alloc: Global,
    keeper: &mut K,
    kept: &mut Kept<S>,
    engine: &mut Engine,
    front: Vector,
    asked: &Asked,
    ops: &Ops,
    draft: Draft<S>,
    lost: Lost,
    applied: u64,
    steps: &mut Steps<L>,
) -> Result<Done, Memory>
    requires log { kept.old.log ≡ head_key_of (own_key S.signing kept.old.signer) }
    requires key { S.signing.key draft.next.signer ≡ S.signing.key kept.old.signer }
    requires view { IsSomeAnd kept.old.view (λ view. Unit {0}) }
    requires some { engine.old.before ≢ [] }
    requires held { IsRow engine.old.held }
    requires row { IsRow (records_of draft.records.items) }
    requires behind { AreBehind engine.old.held (records_of draft.records.items) }
    requires floor { lost.floor ≡ join kept.old.floor front }
    requires given { Gives (lost_reply (asked_of asked.now)) (kept_to kept.old front) front applied lost.turned }
    ensures done { IfOk result (λ done. IfSome kept.old.view (λ view. HasWritten S.signing S.is_whole K.saves view (asked_of asked.now) ops.now kept.old (holding engine.old) front keeper.old applied draft kept.new (holding engine.new) keeper.new done)) }
    ensures kept { OnErr result (kept.new ≡ kept.old) }
    ensures keeper { OnErr result (keeper.new ≡ keeper.old) }
    ensures engine { OnErr result (StandsAs engine.old engine.new) }
    ensures count { IfOk result (λ done. done.turned.applied ≡ applied) }
    ensures steps { OnOk result (steps.new ≡ steps.old + length draft.records.items) }
{
    match try_to_write(
        alloc,
        keeper,
        kept,
        engine,
        asked,
        ops,
        draft.records,
        draft.next,
        &draft.front,
        applied,
        steps,
    ) {
        Ok(turned) => Ok(Done {
            turned,
            front: draft.front,
            has_failed: false,
        }),
        Err(SaveFault::Keeper) => Ok(Done {
            turned: lost.stand(kept),
            front,
            has_failed: true,
        }),
        Err(SaveFault::Memory) => Err(Memory),
    }
}

/// What is to be written for a call, and what stands where its save fails.
#[derive(Drop)]
struct Prepared<S> {
    draft: Draft<S>,
    lost: Lost,
    /// How many records were applied, with those that are to be written.
    applied: u64,
}

/// Drafts the records of the operations, and what stands where their save fails. The error is: out of memory, or that of
/// [`make_draft`].
fn prepare<S: Signs + Drop>(
    alloc: Global,
    kept: &Kept<S>,
    front: &Vector,
    asked: &Asked,
    now: Moment,
    ops: &Ops,
    applied: u64,
) -> Result<Prepared<S>, Memory>
    requires log { kept.now.log ≡ head_key_of (own_key S.signing kept.now.signer) }
    requires few { seq_of front.now kept.now.log + length ops.now ≤ most_records }
    requires is_left { S.signing.remaining kept.now.signer ≢ 0 }
    ensures draft { IfOk result (λ p. IsDraft S.signing kept.now front.now now ops.now p.draft) }
    ensures floor { IfOk result (λ p. p.lost.floor ≡ join kept.now.floor front.now) }
    ensures given { IfOk result (λ p. Gives (lost_reply (asked_of asked.now)) (kept_to kept.now front.now) front.now p.applied p.lost.turned) }
    ensures count { IfOk result (λ p. p.applied ≡ applied + length p.draft.records.items) }
{
    let applied = applied_with(applied, ops)?;
    let lost = lose(alloc, kept, front, &asked.args, applied)?;
    let ops = ops.copy(alloc)?.into_vec();
    match make_draft(alloc, kept, front, now, ops) {
        Ok(draft) => Ok(Prepared {
            draft,
            lost,
            applied,
        }),
        Err(Memory) => Err(Memory),
    }
}

/// How many records are applied with one for each operation. The error comes where no word counts them.
fn applied_with(applied: u64, ops: &Ops) -> Result<u64, Memory>
    ensures { IfOk result (λ all. all ≡ applied + length ops.now) }
{
    match applied.checked_add(ops.as_slice().len() as u64) {
        Some(all) => Ok(all),
        None => Err(Memory),
    }
}

/// Writes the operations over the front of what is held: their records are held, and what is kept with them is saved; or the
/// save fails, and then nothing is written. The error is: out of memory, or that of [`make_draft`], and then the engine holds
/// what it did, and all else is as it was.
pub fn write<K: Keeper, S: Signs + Drop, L: Ledger>(
    alloc: Global,
    keeper: &mut K,
    kept: &mut Kept<S>,
    engine: &mut Engine,
    front: Vector,
    asked: &Asked,
    now: Moment,
    ops: &Ops,
    applied: u64,
    steps: &mut Steps<L>,
) -> Result<Done, Memory>
    requires log { kept.old.log ≡ head_key_of (own_key S.signing kept.old.signer) }
    requires few { seq_of front kept.old.log + length ops.now ≤ most_records }
    requires is_left { S.signing.remaining kept.old.signer ≢ 0 }
    requires view { IsSomeAnd kept.old.view (λ view. Unit {0}) }
    requires some { engine.old.before ≢ [] }
    requires held { IsRow engine.old.held }
    requires row { IsRow (written_over (own_key S.signing kept.old.signer) now front ops.now) }
    requires behind { AreBehind engine.old.held (written_over (own_key S.signing kept.old.signer) now front ops.now) }
    ensures done { IfOk result (λ done. IfSome kept.old.view (λ view. WritesDraft S.signing S.is_whole K.saves view (asked_of asked.now) now ops.now kept.old (holding engine.old) front keeper.old applied kept.new (holding engine.new) keeper.new done)) }
    ensures kept { OnErr result (kept.new ≡ kept.old) }
    ensures keeper { OnErr result (keeper.new ≡ keeper.old) }
    ensures engine { OnErr result (StandsAs engine.old engine.new) }
    ensures steps { IfOk result (λ done. steps.new + applied ≡ steps.old + done.turned.applied) }
{
    let prepared = prepare(alloc, kept, &front, asked, now, ops, applied)?;
    commit(
        alloc,
        keeper,
        kept,
        engine,
        front,
        asked,
        ops,
        prepared.draft,
        prepared.lost,
        prepared.applied,
        steps,
    )
}
