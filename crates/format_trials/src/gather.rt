//! Batches of logs.

ghost use Rattle.std.specs.Prelude.{◌≡◌, ◌↔◌, [], Contains, IsTrue, IfSome};
ghost use Rattle.std.specs.List.{All, AllByRecursion};
ghost use Rattle.log_records.specs.Records.{records_of};
ghost use Rattle.log_model.specs.Fetched.{owner_of};
ghost use Rattle.log_records.specs.Batches.{AreOfOneOwner};
ghost use Rattle.causal_order.specs.Available.{IsFetched};
ghost use Rattle.format_trials.specs.Gathered.{IsGathered};

use crate::logs::Log;
use causal_order::closed_part;
use ivy_base::{Memory, PubKey};
use log_records::{Batch, Record};
use std::alloc::Global;
use version_vectors::Vector;
use view_blocks::View;

/// Whether the owner is one of these.
fn has(owners: &[PubKey], owner: &PubKey) -> bool
    ensures { IsTrue result ↔ Contains owners.now owner.now }
{
    owners.contains(owner)
}

/// Whether the keys are one.
fn is_owner(a: &PubKey, b: &PubKey) -> bool
    ensures { IsTrue result ↔ (a.now ≡ b.now) }
{
    a == b
}

/// Whether all the records are of that owner.
fn have_owner(records: &[Record], owner: &PubKey) -> bool
    ensures { IsTrue result → All (λ r. r.owner ≡ owner.now) records.now }
{
    records.iter().all(|record| is_owner(&record.owner, owner))
}

/// Whether these are some records of that owner, and none of another.
pub fn are_of(records: &[Record], owner: &PubKey) -> bool
    ensures one { IsTrue result → AreOfOneOwner (records_of records.now) }
    ensures own { IsTrue result → owner_of (records_of records.now) ≡ owner.now }
{
    !records.is_empty() && have_owner(records, owner)
}

/// Adds the log to the batch. None where memory is short, or it isn't the log of a member whose log isn't there yet.
fn add(
    alloc: Global,
    view: &View,
    batch: &mut Batch,
    owners: &mut Vec<PubKey>,
    log: Log,
) -> Option<()>
    requires { IsGathered view.now owners.old.items batch.old }
    ensures { IfSome result (λ _. IsGathered view.now owners.new.items batch.new) }
{
    let owner = log.owner;
    if has(owners, &owner) || !has(view.members(), &owner) || !are_of(&log.records, &owner) {
        return None;
    }
    let Ok(()) = batch.add_chain(alloc, view, log.newest, log.records, None) else {
        return None;
    };
    let Ok(()) = owners.push(owner) else {
        return None;
    };
    Some(())
}

/// A batch of the logs, over nothing. None where memory is short, or the logs aren't those of members, each once.
pub fn batch_of(alloc: Global, view: &View, logs: Vec<Log>) -> Option<Batch>
    ensures { IfSome result (λ batch. AllByRecursion (λ c. IsFetched view.now [] [] c.1) batch.chains) }
{
    let nothing = Vector::empty(alloc);
    let Ok(mut batch) = Batch::over(alloc, &nothing, &nothing) else {
        return None;
    };
    let mut owners = Vec::new(alloc);
    'logs: for log in logs {
        add(alloc, view, &mut batch, &mut owners, log)?;
    }
    Some(batch)
}

/// The largest closed part of the batch's chains, where nothing is held. The error is: out of memory.
pub fn part_of(alloc: Global, view: &View, batch: Batch) -> Result<Vec<Record>, Memory>
    requires { AllByRecursion (λ c. IsFetched view.now [] [] c.1) batch.chains }
{
    let front = Vector::empty(alloc);
    closed_part(alloc, view, &front, &[], batch)
}
