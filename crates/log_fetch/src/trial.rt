//! The heads of one log, tried one after the other.

ghost use Rattle.std.specs.Prelude.{◌≡◌, ◌≢◌, ◌<◌, ◌*◌, ◌^◌, [], length, Contains, None, map, IfOk, IfSome, IfNone, OnOk, OnErr};
ghost use Rattle.ivy_base.specs.Naming.{head_key_of};
ghost use Rattle.log_model.specs.Vector.{stamp_at};
ghost use Rattle.log_records.specs.Batches.{owners_in};
ghost use Rattle.session_model.specs.Brought.{stamp_of};
ghost use Rattle.log_fetch.specs.Walking.{AreOwned, wanted_of, kept_of};
ghost use Rattle.log_fetch.specs.Trying.{IsBegunAt, IsTakenAs, HasBeenTold, or_fault, trial_left};
ghost use Rattle.log_fetch.specs.Concluding.{ConcludesAs, SettlesAs, LeavesFewer, LeavesNoMore};

use crate::walk::Walk;
use dht_ids::Judged;
use ivy_base::{Key, Memory, PubKey};
use log_records::{Batch, ChainFault, Edge, Record};
use std::alloc::Global;
use std::collections::VecDeque;
use std::marker::Model;
use view_blocks::View;

/// The heads of one log, tried in their order: the walk under the present one, and the heads after it.
#[derive(Drop)]
pub struct Trial {
    head: Judged,
    walk: Walk,
    rest: VecDeque<Judged>,
    held: u32,
    fault: Option<ChainFault>,
}

impl Model for Trial {
    ghost use Rattle.std.specs.Prelude.{map};
    ghost use Rattle.session_model.specs.Brought.{stamp_of};
    ghost use Rattle.log_fetch.specs.Trying.{Trying};

    ghost Value = { Trying };

    ghost view = { λ t. record { head = stamp_of t.head; walk = t.walk; rest = map stamp_of t.rest.items; held = t.held; fault = t.fault } };
}

/// What came of a head whose walk is over.
#[derive(Drop)]
pub enum Concluded {
    /// Its records make no chain, and the next head is tried.
    Next(Trial),
    /// The log is through. The fault is that of the first head that was passed over.
    Over(Option<ChainFault>),
}

impl Trial {
    /// The first of these heads, to be tried over so many records that are held; none where there is no head.
    pub fn first(alloc: Global, owner: PubKey, held: u32, heads: VecDeque<Judged>) -> Option<Trial>
        ensures some { IfSome result (IsBegunAt owner held (map stamp_of heads.items) None) }
        ensures none { IfNone result (heads.items ≡ []) }
        ensures left { IfSome result (λ t. trial_left t < 2 ^ 32 * length heads.items) }
    {
        next(alloc, owner, held, heads, None)
    }

    /// The name of the block that is to come next, while the present head's walk goes on.
    pub fn wanted(&self) -> Option<Key>
        ensures { result ≡ wanted_of self.now.walk }
    {
        self.walk.wanted()
    }

    /// The fault of the first head that was passed over, where one was.
    pub fn fault(&self) -> Option<ChainFault>
        ensures { result ≡ self.now.fault }
    {
        self.fault
    }

    /// Takes the block that is wanted. The error is: out of memory; the trial isn't used after it.
    pub fn give(&mut self, alloc: Global, bytes: &[u8]) -> Result<(), Memory>
        requires { self.old.walk.left ≢ 0 }
        ensures told { IfOk result (λ _. HasBeenTold self.old self.new bytes.now) }
        ensures left { OnOk result (self.new.walk.left < self.old.walk.left) }
        ensures fewer { OnOk result (trial_left self.new < trial_left self.old) }
        ensures rest { OnOk result (self.new.rest ≡ self.old.rest) }
        ensures owner { OnOk result (self.new.walk.owner ≡ self.old.walk.owner) }
    {
        self.walk.give(alloc, bytes)
    }

    /// Tests the records of the present head, whose walk is over, and adds them to the batch where they are a chain that
    /// goes on from what is held. The error is: out of memory.
    pub fn conclude(
        self,
        alloc: Global,
        view: &View,
        edge: Option<Edge>,
        batch: &mut Batch,
    ) -> Result<Concluded, Memory>
        requires over { self.walk.left ≡ 0 }
        requires new_log { Contains (owners_in batch.old.chains) self.walk.owner → ⊥ }
        requires edge { IfSome edge (λ e. stamp_at e.vector (head_key_of self.walk.owner) ≡ None) }
        ensures concluded { IfOk result (ConcludesAs view.now edge self batch.old batch.new) }
        ensures left { IfOk result (LeavesFewer self) }
        ensures unchanged { OnErr result (batch.new ≡ batch.old) }
    {
        let owner = *self.walk.owner();
        match take(
            alloc,
            view,
            batch,
            &owner,
            self.head,
            self.walk.into_chain(),
            edge,
        )? {
            None => Ok(Concluded::Over(self.fault)),
            Some(fault) => {
                let first = first_fault(self.fault, fault);
                match next(alloc, owner, self.held, self.rest, first) {
                    Some(trial) => Ok(Concluded::Next(trial)),
                    None => Ok(Concluded::Over(first)),
                }
            }
        }
    }

    /// Tests the walks that are over, one head after the other, until a block is wanted or the log is through. The error
    /// is: out of memory.
    pub fn settle(
        self,
        alloc: Global,
        view: &View,
        edge: &Option<Edge>,
        batch: &mut Batch,
    ) -> Result<Settled, Memory>
        requires new_log { Contains (owners_in batch.old.chains) self.walk.owner → ⊥ }
        requires edge { IfSome edge.now (λ e. stamp_at e.vector (head_key_of self.walk.owner) ≡ None) }
        ensures settled { IfOk result (SettlesAs view.now edge.now self batch.old batch.new) }
        ensures left { IfOk result (LeavesNoMore self) }
        ensures unchanged { OnErr result (batch.new ≡ batch.old) }
    {
        let mut trial = self;
        'walks: while trial.wanted().is_none() {
            match trial.conclude(alloc, view, copy_of(alloc, edge)?, batch)? {
                Concluded::Next(next) => trial = next,
                Concluded::Over(fault) => return Ok(Settled::Over(fault)),
            }
        }
        Ok(Settled::Waits(trial))
    }
}

/// How the heads of a log stand, after all walks that were over were tested.
#[derive(Drop)]
pub enum Settled {
    /// A block is wanted.
    Waits(Trial),
    /// The log is through. The fault is that of the first head that was passed over.
    Over(Option<ChainFault>),
}

/// A copy of what is known of a record. The error is: out of memory.
fn copy_of(alloc: Global, edge: &Option<Edge>) -> Result<Option<Edge>, Memory>
    ensures { IfOk result (λ copy. copy ≡ edge.now) }
{
    match edge {
        Some(edge) => Ok(Some(Edge::of_vector(edge.vector().copy(alloc)?))),
        None => Ok(None),
    }
}

/// The fault of the first head that was passed over, of one more.
fn first_fault(before: Option<ChainFault>, fault: ChainFault) -> Option<ChainFault>
    ensures { result ≡ or_fault before fault }
{
    before.or(Some(fault))
}

/// The first of these heads, after one that was passed over with that fault, where there was one.
fn next(
    alloc: Global,
    owner: PubKey,
    held: u32,
    mut rest: VecDeque<Judged>,
    fault: Option<ChainFault>,
) -> Option<Trial>
    ensures some { IfSome result (IsBegunAt owner held (map stamp_of rest.items) fault) }
    ensures none { IfNone result (rest.items ≡ []) }
    ensures left { IfSome result (λ t. trial_left t < 2 ^ 32 * length rest.items) }
{
    let head = rest.pop_front()?;
    Some(Trial {
        head,
        walk: Walk::back(alloc, owner, head.seq.saturating_sub(held), head.name),
        rest,
        held,
        fault,
    })
}

/// Adds the chain to the batch, or says why it isn't one. The error is: out of memory.
fn take(
    alloc: Global,
    view: &View,
    batch: &mut Batch,
    owner: &PubKey,
    head: Judged,
    chain: Option<Vec<Record>>,
    edge: Option<Edge>,
) -> Result<Option<ChainFault>, Memory>
    requires owned { AreOwned owner.now (kept_of chain) }
    requires new_log { Contains (owners_in batch.old.chains) owner.now → ⊥ }
    requires edge { IfSome edge (λ e. stamp_at e.vector (head_key_of owner.now) ≡ None) }
    ensures taken { IfOk result (IsTakenAs view.now batch.old batch.new (stamp_of head) edge (kept_of chain)) }
    ensures unchanged { OnErr result (batch.new ≡ batch.old) }
{
    let Some(chain) = chain else {
        return Ok(Some(ChainFault::Bad));
    };
    if chain.is_empty() {
        return Ok(Some(ChainFault::Bad));
    }
    match batch.add_chain(alloc, view, head, chain, edge) {
        Ok(()) => Ok(None),
        Err(fault) => match fault {
            ChainFault::Memory => Err(Memory),
            _ => Ok(Some(fault)),
        },
    }
}
