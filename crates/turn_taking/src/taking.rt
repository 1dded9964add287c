//! The new records of a turn.

ghost use Rattle.std.specs.Prelude.{◌≡◌, Contains, Option, IfOk};
ghost use Rattle.std.specs.List.{AllByRecursion};
ghost use Rattle.agent_model.specs.Agent.{joined};
ghost use Rattle.agent_model.specs.Standing.{dominates};
ghost use Rattle.causal_order.specs.Over.{IsClosed};
ghost use Rattle.ivy_base.specs.declared.key.Key.{Key};
ghost use Rattle.log_model.specs.Fetched.{owner_of, Edge};
ghost use Rattle.log_records.specs.Batches.{AreUnder};
ghost use Rattle.log_records.specs.Records.{records_of};
ghost use Rattle.turn_model.specs.Basis.{Holding};
ghost use Rattle.causal_order.specs.Started.{HaveOwnOwners};
ghost use Rattle.turn_taking.specs.Chains.{IsWhole, chains_in};
ghost use Rattle.turn_taking.specs.Steps.{AreNear, AreTaken, TakesOf};
ghost use Rattle.turn_taking.specs.Taking.{IsHeld, IsWithin, Takes};

use crate::cutting::all_within;
use crate::fronts::front_with;
use crate::lacking::lacks_one;
use crate::names::all_names;
use crate::tide::are_above;
use causal_order::closed_part_of;
use ivy_base::{Memory, PubKey};
use log_records::{Batch, Chain, Record};
use std::alloc::Global;
use version_vectors::Vector;
use view_blocks::View;

/// What an agent holds, and how far it knows the logs of its view.
#[derive(Clone, Copy)]
pub struct Held<'a> {
    /// The view that the agent is in.
    pub view: &'a View,
    /// The agent's public key.
    pub own: &'a PubKey,
    /// How far it has known each log.
    pub floor: &'a Vector,
    /// The front of the basis below the records.
    pub base: &'a Vector,
    /// The records above the basis, ascending by rank.
    pub records: &'a [Record],
    /// The front of the basis and the records.
    pub front: &'a Vector,
}

/// What a turn takes of what was brought.
#[derive(Drop)]
pub enum Taken {
    /// The refresh began with more than is held by now, or the floor's record of a member's log is neither held nor new.
    Behind,
    /// A new record isn't above the basis.
    BelowTide,
    /// The new records of the largest closed part, ascending by rank, and the front of all that is held then.
    New(Vec<Record>, Vector),
}

/// What a turn that goes on from what is held takes of the batch, whose chains were fetched under the view and are of its
/// members' logs.
///
/// It is `Behind` exactly where the refresh began with more than is held by now, or where of some member's log the record that
/// the floor names is neither held nor new; else `BelowTide` exactly where a new record isn't above the basis; and else the new
/// records of the largest closed part, and the front of all that is held with them. New are the records of a chain beyond
/// `front`, if they go on from it, and of the own log only those that the floor names.
///
/// `records` are closed over `base`, and `front` is that of both. `base` and `front` name logs of the view alone, and of the own
/// log they go no further than the floor; so does the front that is given back.
///
/// The error is: out of memory; what is held has not changed, whatever comes.
pub fn take(alloc: Global, held: &Held<'_>, batch: Batch) -> Result<Taken, Memory>
    requires closed { IsClosed held.now.view.now held.now.base.now (records_of held.now.records.now) }
    requires front { (h : Holding) → IsHeld held.now h → held.now.front.now ≡ joined h }
    requires base { IsWithin held.now.view.now held.now.own.now held.now.floor.now held.now.base.now }
    requires own { IsWithin held.now.view.now held.now.own.now held.now.floor.now held.now.front.now }
    requires member { Contains held.now.view.now.members held.now.own.now }
    requires under { (edges : Key → Option Edge) × AreUnder held.now.view.now edges batch }
    requires members { AllByRecursion (λ c. Contains held.now.view.now.members (owner_of c.1)) batch.chains }
    ensures { IfOk result (λ taken. (h : Holding) → IsHeld held.now h → Takes held.now.view.now held.now.own.now held.now.floor.now batch h taken) }
{
    // That these are a view and a vector, so that each log is one member's and has one entry.
    let _ = held.view.members();
    let _ = held.base.len();
    if !is_caught_up(held, &batch) {
        return Ok(Taken::Behind);
    }
    take_chains(alloc, held, batch.into_chains())
}

/// Whether what is held goes as far as what the refresh began with.
fn is_caught_up(held: &Held<'_>, batch: &Batch) -> bool
    ensures { result ≡ dominates held.now.front.now batch.now.held }
{
    let started = batch.started();
    // That it is a vector, so that each log has one entry.
    let _ = started.len();
    held.front.dominates(started)
}

/// What a turn takes of the chains, where what is held goes as far as what the refresh began with. The error is: out of
/// memory.
fn take_chains(alloc: Global, held: &Held<'_>, chains: Vec<Chain>) -> Result<Taken, Memory>
    requires closed { IsClosed held.now.view.now held.now.base.now (records_of held.now.records.now) }
    requires whole { AllByRecursion (IsWhole held.now.view.now) chains.items }
    requires apart { HaveOwnOwners (chains_in chains.items) }
    requires near { AreNear held.now (chains_in chains.items) }
    ensures { IfOk result (TakesOf held.now (chains_in chains.items)) }
{
    let left = all_within(alloc, held, chains)?;
    if lacks_one(held, &left) {
        return Ok(Taken::Behind);
    }
    if !are_above(held, &left) {
        return Ok(Taken::BelowTide);
    }
    let (records, front) = take_new(alloc, held, left)?;
    Ok(Taken::New(records, front))
}

/// The new records of the chains, and the front of all that is held with them. The error is: out of memory.
fn take_new(
    alloc: Global,
    held: &Held<'_>,
    chains: Vec<Chain>,
) -> Result<(Vec<Record>, Vector), Memory>
    requires closed { IsClosed held.now.view.now held.now.base.now (records_of held.now.records.now) }
    requires whole { AllByRecursion (IsWhole held.now.view.now) chains.items }
    requires apart { HaveOwnOwners (chains_in chains.items) }
    requires near { AreNear held.now (chains_in chains.items) }
    ensures { IfOk result (λ new. AreTaken held.now (chains_in chains.items) (records_of new.0.items) new.1) }
{
    let names = all_names(alloc, &chains)?;
    let records = closed_part_of(alloc, held.view, held.base, held.records, chains)?;
    let front = front_with(alloc, held.front, &names, &records)?;
    Ok((records, front))
}
