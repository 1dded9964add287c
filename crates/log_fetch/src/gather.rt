//! The fetch of all members of a view, apart from how blocks come.

ghost use Rattle.std.specs.Prelude.{◌≡◌, ◌≢◌, ◌*◌, ◌+◌, ◌^◌, ◌<◌, ◌↔◌, IsTrue, [], ◌++◌, map, Some, None, Ok, IfOk, OnOk, OnErr};
ghost use Rattle.ivy_base.specs.declared.key.PubKey.{PubKey};
ghost use Rattle.ivy_base.specs.Naming.{head_key_of};
ghost use Rattle.log_model.specs.View.{most_members};
ghost use Rattle.session_model.specs.Brought.{stamp_of};
ghost use Rattle.log_fetch.specs.Trying.{trial_left};
ghost use Rattle.log_fetch.specs.Logs.{settled_left};
ghost use Rattle.log_fetch.specs.Gathering.{known_of, none_passed, IsNext, IsPassing, PassesAs, BeginsLog, GoesOnLog, Advances, HeadsTaken, BlockTaken, Gathers, HeadsGathered, BlockGathered, IsGathering, gathering_of, heads_wanted, block_wanted, is_wanting, GivesBack, noted_for, noted_at, at_behind, waits_left, gets_in};

use crate::edges::Edges;
use crate::note::{Note, Notes};
use crate::standing::Standing;
use crate::{Settled, Trial, log};
use dht_ids::{Heads, Judged};
use ivy_base::{Key, Memory, PubKey, head_key};
use log_records::{Batch, ChainFault};
use std::alloc::Global;
use std::marker::Model;
use std::mem;
use version_vectors::Vector;
use view_blocks::View;

/// What is wanted of the member in progress.
#[derive(Drop)]
pub(crate) enum Stage {
    /// The heads of that owner's log.
    Heads(PubKey),
    /// A block of its log.
    Log(Trial),
    /// Nothing: all members are through, or memory was wanted.
    Through,
}

/// What a fetch goes by.
#[derive(Drop)]
pub(crate) struct Known {
    pub view: View,
    pub own: PubKey,
    pub floor: Vector,
    pub edges: Edges,
}

/// The members that are through: their chains, what is noted of their logs, and how many they are.
#[derive(Drop)]
pub(crate) struct Passed {
    pub batch: Batch,
    pub notes: Notes,
    pub at: usize,
}

/// The fetch of all members, in their order.
pub(crate) struct Gather {
    known: Known,
    passed: Passed,
    stage: Stage,
}

/// One function, so that whatever drops it calls this and isn't proved over all of its parts once more.
impl Drop for Gather {
    fn drop(self) {
        let Gather {
            known: _,
            passed: _,
            stage: _,
        } = self;
    }
}

impl Model for Gather {
    ghost use Rattle.log_fetch.specs.Gathering.{Gathering, IsGathering};

    ghost Value = { Gathering };

    ghost view = { λ g. record { known = g.known; passed = g.passed; stage = g.stage } };

    ghost invariant = { λ g. IsGathering (record { known = g.known; passed = g.passed; stage = g.stage }) };
}

impl Gather {
    /// The fetch for that standing, over what it holds. The error is: out of memory.
    pub(crate) fn start(alloc: Global, standing: &Standing) -> Result<Gather, Memory>
        ensures known { IfOk result (λ gather. gather.known ≡ known_of standing.now) }
        ensures started { IfOk result (Gathers standing.now.held []) }
        ensures left { IfOk result (λ gather. gets_in gather < (most_members + 1) * (2 + 2 ^ 96)) }
    {
        let known = Known::of(alloc, standing)?;
        let mut passed = Passed::none(alloc, standing)?;
        let stage = advance(alloc, &known, &mut passed)?;
        Ok(Gather {
            known,
            passed,
            stage,
        })
    }

    /// Whose heads are wanted, where heads are.
    pub(crate) fn wanted_heads(&self) -> Option<PubKey>
        ensures { result ≡ heads_wanted self.now.stage }
    {
        match &self.stage {
            Stage::Heads(owner) => Some(*owner),
            _ => None,
        }
    }

    /// The block that is wanted, where one is.
    pub(crate) fn wanted_block(&self) -> Option<Key>
        ensures value { result ≡ block_wanted self.now.stage }
        ensures legal { IsGathering self.now }
    {
        match &self.stage {
            Stage::Log(trial) => trial.wanted(),
            _ => None,
        }
    }

    /// Whether something is wanted.
    pub(crate) fn is_wanting(&self) -> bool
        ensures { result ≡ is_wanting self.now.stage }
    {
        match &self.stage {
            Stage::Through => false,
            _ => true,
        }
    }

    /// Takes the heads that are wanted. The error is: out of memory; nothing more is wanted after it.
    pub(crate) fn take_heads(&mut self, alloc: Global, heads: &Heads) -> Result<(), Memory>
        requires { heads_wanted self.old.stage ≢ None }
        ensures known { OnOk result (self.new.known ≡ self.old.known) }
        ensures taken { IfOk result (λ _. (owner : PubKey) → heads_wanted self.old.stage ≡ Some owner → HeadsGathered self.old owner heads.now self.new) }
        ensures left { OnOk result (gets_in self.new < gets_in self.old) }
    {
        let Stage::Heads(owner) = &self.stage else {
            unreachable!()
        };
        let stage = after_heads(
            alloc,
            &self.known,
            owner,
            heads.as_slice(),
            &mut self.passed,
        );
        go_to(&self.known, &mut self.passed, &mut self.stage, stage)
    }

    /// Takes the block that is wanted. The error is: out of memory; nothing more is wanted after it.
    pub(crate) fn take_block(&mut self, alloc: Global, bytes: &[u8]) -> Result<(), Memory>
        requires { block_wanted self.old.stage ≢ None }
        ensures known { OnOk result (self.new.known ≡ self.old.known) }
        ensures taken { IfOk result (λ _. BlockGathered self.old bytes.now self.new) }
        ensures left { OnOk result (gets_in self.new < gets_in self.old) }
    {
        let Stage::Log(trial) = mem::replace(&mut self.stage, Stage::Through) else {
            unreachable!()
        };
        let stage = after_block(alloc, &self.known, trial, bytes, &mut self.passed);
        go_to(&self.known, &mut self.passed, &mut self.stage, stage)
    }

    /// What was brought, and what is noted of the logs, that of the one in progress too. The error is: out of
    /// memory.
    pub(crate) fn into_parts(self) -> Result<(Batch, Notes), Memory>
        ensures given { IfOk result (GivesBack self) }
        ensures legal { IsGathering self }
    {
        let Gather {
            known,
            mut passed,
            stage,
        } = self;
        note_at(&known, &mut passed, &stage)?;
        Ok((passed.batch, passed.notes))
    }
}

impl Known {
    /// What a fetch for that standing goes by. The error is: out of memory.
    fn of(alloc: Global, standing: &Standing) -> Result<Known, Memory>
        ensures { IfOk result (λ known. known ≡ known_of standing.now) }
    {
        Ok(Known {
            view: standing.view.copy(alloc)?,
            own: standing.own,
            floor: standing.floor.copy(alloc)?,
            edges: standing.edges.copy(alloc)?,
        })
    }
}

impl Passed {
    /// No member yet, over what the standing holds. The error is: out of memory.
    fn none(alloc: Global, standing: &Standing) -> Result<Passed, Memory>
        ensures { IfOk result (λ passed. passed ≡ none_passed standing.now.held standing.now.floor) }
    {
        Ok(Passed {
            batch: Batch::over(alloc, &standing.held, &standing.floor)?,
            notes: Notes::of(Vec::new(alloc)),
            at: 0,
        })
    }
}

/// Goes to that stage; when out of memory to the end.
fn go_to(
    known: &Known,
    passed: &mut Passed,
    stage: &mut Stage,
    next: Result<Stage, Memory>,
) -> Result<(), Memory>
    requires { IsPassing known.now passed.old }
    ensures goes { OnOk result (next ≡ Ok stage.new) }
    ensures passed { OnOk result (passed.new ≡ passed.old) }
    ensures ends { OnErr result (IsGathering (gathering_of known.now passed.new stage.new)) }
{
    match next {
        Ok(at) => {
            *stage = at;
            Ok(())
        }
        Err(error) => {
            passed.at = known.view.members().len();
            *stage = Stage::Through;
            Err(error)
        }
    }
}

/// Goes on from the heads of the owner's log, which were wanted. The error is: out of memory.
fn after_heads(
    alloc: Global,
    known: &Known,
    owner: &PubKey,
    heads: &[Judged],
    passed: &mut Passed,
) -> Result<Stage, Memory>
    requires { IsGathering (gathering_of known.now passed.old (Stage.Heads owner.now)) }
    ensures taken { IfOk result (HeadsTaken known.now passed.old passed.new owner.now heads.now) }
    ensures passing { IsPassing known.now passed.new }
{
    match begin_log(alloc, known, owner, heads, passed)? {
        Some(trial) => Ok(Stage::Log(trial)),
        None => advance(alloc, known, passed),
    }
}

/// Goes on from a block of the log in progress, which was wanted. The error is: out of memory.
fn after_block(
    alloc: Global,
    known: &Known,
    trial: Trial,
    bytes: &[u8],
    passed: &mut Passed,
) -> Result<Stage, Memory>
    requires { IsGathering (gathering_of known.now passed.old (Stage.Log trial)) }
    ensures taken { IfOk result (BlockTaken known.now passed.old passed.new trial bytes.now) }
    ensures passing { IsPassing known.now passed.new }
{
    let owner = known.view.members()[passed.at];
    match go_on_log(alloc, known, &owner, trial, bytes, passed)? {
        Some(trial) => Ok(Stage::Log(trial)),
        None => advance(alloc, known, passed),
    }
}

/// Goes to the next member of which something is wanted. The error is: out of memory.
fn advance(alloc: Global, known: &Known, passed: &mut Passed) -> Result<Stage, Memory>
    requires { IsPassing known.now passed.old }
    ensures advances { IfOk result (Advances known.now passed.old passed.new) }
    ensures passing { IsPassing known.now passed.new }
{
    'members: while passed.at < known.view.members().len() {
        let owner = known.view.members()[passed.at];
        if !is_one(&owner, &known.own) {
            return Ok(Stage::Heads(owner));
        }
        if let Some(trial) = begin_log(alloc, known, &owner, &[], passed)? {
            return Ok(Stage::Log(trial));
        }
    }
    Ok(Stage::Through)
}

/// Begins with the owner's log, whose heads these are: a block is wanted, or the log is through. The error is: out of
/// memory.
fn begin_log(
    alloc: Global,
    known: &Known,
    owner: &PubKey,
    heads: &[Judged],
    passed: &mut Passed,
) -> Result<Option<Trial>, Memory>
    requires passing { IsPassing known.now passed.old }
    requires next { IsNext known.now passed.old owner.now }
    ensures begun { IfOk result (BeginsLog known.now passed.old passed.new owner.now (map stamp_of heads.now)) }
    ensures left { IfOk result (λ waits. waits_left waits < 2 ^ 96) }
    ensures passing { IsPassing known.now passed.new }
{
    let settled = log::open(
        alloc,
        &known.view,
        &known.edges,
        &known.floor,
        owner,
        heads,
        &mut passed.batch,
    )?;
    pass(passed, owner, settled)
}

/// Goes on with the owner's log, of which a block was wanted, with that block. The error is: out of memory.
fn go_on_log(
    alloc: Global,
    known: &Known,
    owner: &PubKey,
    trial: Trial,
    bytes: &[u8],
    passed: &mut Passed,
) -> Result<Option<Trial>, Memory>
    requires legal { IsGathering (gathering_of known.now passed.old (Stage.Log trial)) }
    requires next { IsNext known.now passed.old owner.now }
    ensures gone { IfOk result (GoesOnLog known.now passed.old passed.new owner.now trial bytes.now) }
    ensures left { IfOk result (λ waits. waits_left waits < trial_left trial) }
    ensures passing { IsPassing known.now passed.new }
{
    let settled = log::go_on(
        alloc,
        &known.view,
        &known.edges,
        owner,
        trial,
        bytes,
        &mut passed.batch,
    )?;
    pass(passed, owner, settled)
}

/// Takes how the owner's log stands: a block is wanted of it, or it is through. The error is: out of memory.
fn pass(passed: &mut Passed, owner: &PubKey, settled: Settled) -> Result<Option<Trial>, Memory>
    requires { passed.old.at < most_members }
    ensures passes { IfOk result (PassesAs passed.old passed.new owner.now settled) }
    ensures batch { passed.new.batch ≡ passed.old.batch }
    ensures at { passed.new.at ≡ at_behind passed.old.at settled }
    ensures left { IfOk result (λ waits. waits_left waits ≡ settled_left settled) }
{
    match settled {
        Settled::Waits(trial) => Ok(Some(trial)),
        Settled::Over(fault) => {
            passed.at += 1;
            note(&mut passed.notes, owner, fault)?;
            Ok(None)
        }
    }
}

/// Notes why the first head of the log in progress was passed over, where one was. The error is: out of
/// memory.
fn note_at(known: &Known, passed: &mut Passed, stage: &Stage) -> Result<(), Memory>
    requires { IsGathering (gathering_of known.now passed.old stage.now) }
    ensures { OnOk result (passed.new ≡ record passed.old { notes = passed.old.notes ++ noted_at stage.now }) }
{
    match stage {
        Stage::Log(trial) => {
            let owner = &known.view.members()[passed.at];
            note(&mut passed.notes, owner, trial.fault())
        }
        _ => Ok(()),
    }
}

/// Notes why the first of the log's heads was passed over, where one was. The error is: out of memory.
fn note(notes: &mut Notes, owner: &PubKey, fault: Option<ChainFault>) -> Result<(), Memory>
    ensures { OnOk result (notes.new ≡ notes.old ++ noted_for (head_key_of owner.now) fault) }
{
    match fault {
        Some(ChainFault::Bad) => notes.push(Note::Bad(head_key(owner))),
        Some(ChainFault::Fork) => notes.push(Note::Fork(head_key(owner))),
        _ => Ok(()),
    }
}

/// Whether the keys are one.
fn is_one(key: &PubKey, other: &PubKey) -> bool
    ensures { IsTrue result ↔ (key.now ≡ other.now) }
{
    key == other
}
