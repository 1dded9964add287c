//! Keepers in memory under their names, of which planned calls fail.

ghost use Rattle.std.specs.Prelude.{◌≡◌, ◌≤◌, ◌↔◌, ℕ, List, [], Some, IfOk, IfErr, OnErr, OnOk, IsErrOf, Contains, position};
ghost use Rattle.std.specs.declared.option.Option.{Option};
ghost use Rattle.ivy_io.specs.Causes.{counted};
ghost use Rattle.ivy_io.specs.Faults.{Refuses, after_return};
ghost use Rattle.ivy_io.specs.Laws.{LiesWhereLaid, OthersStay, PlacesGiven};
ghost use Rattle.ivy_io.specs.Names.{after_keeper, after_fault, given, is_at, keeping, kept_under, laid, with_taken};

use crate::{Failing, Keepers, LentKeeper, OpenFault};
use ivy_base::{Bytes, Memory};
use std::alloc::Global;
use std::marker::Model;

/// The room for a keeper under its name.
#[derive(Drop)]
pub struct Place {
    /// The name.
    pub name: Bytes,
    /// The keeper, where one lies there.
    pub keeper: Option<LentKeeper>,
}

/// Keepers in memory under their names. The keeper of a name keeps what the one kept that came back last under this name, and
/// nothing where none did; it has not failed yet, and none of its saves is to fail. The first call of [`Keepers::keeper`]
/// makes a name's place, and a keeper that comes back under a name without a place is dropped.
#[derive(Drop)]
pub struct MemKeepers {
    places: Vec<Place>,
    fails: Failing,
    calls: u64,
    faults: u64,
}

impl Model for MemKeepers {
    ghost use Rattle.ivy_io.specs.Names.{KeepersState};

    ghost Value = { KeepersState };

    ghost view = { λ k. record { places = k.places.items; failing = k.fails; calls = k.calls; faults = k.faults } };
}

impl MemKeepers {
    /// Keepers that keep nothing yet. `fails` has the numbers, from 1, of the calls of `keeper` that fail.
    pub fn new(alloc: Global, fails: Failing) -> MemKeepers
        ensures { result ≡ record { places = []; failing = fails; calls = 0; faults = 0 } }
    {
        MemKeepers {
            places: Vec::new(alloc),
            fails,
            calls: 0,
            faults: 0,
        }
    }
}

impl Keepers for MemKeepers {
    type One = LentKeeper;

    ghost kept = { λ k name. Some (kept_under name k.places) };

    ghost faults = { λ k. k.faults };

    ghost lends = { λ k name one new. (one ≡ keeping (kept_under name k.places)) × (new ≡ after_keeper name k) };

    ghost takes = { λ k name one new. new ≡ with_taken name one k };

    fn keeper(&mut self, alloc: Global, name: &[u8]) -> Result<LentKeeper, OpenFault>
        ensures is { IfOk result (λ one. (one ≡ keeping (kept_under name.now self.old.places)) × (self.new ≡ after_keeper name.now self.old)) }
        ensures kept { IfOk result (λ one. Some one.kept ≡ Some (kept_under name.now self.old.places)) }
        ensures first { IfOk result (λ one. one.faults ≡ 0) }
        ensures refused { IfErr result (λ fault. Refuses (λ k. k.faults) self.old self.new fault) }
        ensures later { self.old.faults ≤ self.new.faults }

        // Exactly the planned calls fail, and nothing else changes then.
        ensures planned { IsErrOf result OpenFault.Failed ↔ Contains self.old.failing (counted self.old.calls) }
        ensures failed { IsErrOf result OpenFault.Failed → self.new ≡ after_fault self.old }
    {
        let call = self.calls.saturating_add(1);
        if self.fails.as_slice().contains(&call) {
            self.calls = call;
            self.faults = self.faults.saturating_add(1);
            return Err(OpenFault::Failed);
        }
        match lend(&mut self.places, alloc, name) {
            Ok(keeper) => {
                self.calls = call;
                Ok(keeper)
            }
            Err(Memory) => Err(OpenFault::Memory),
        }
    }

    fn give_back(&mut self, name: &[u8], keeper: LentKeeper)
        ensures is { self.new ≡ with_taken name.now keeper self.old }
        ensures cause { self.new.faults ≡ after_return keeper.faults self.old.faults }
        ensures later { self.old.faults ≤ self.new.faults }
    {
        if keeper.faults() != 0 {
            self.faults = self.faults.saturating_add(1);
        }
        lay(&mut self.places, name, keeper);
    }
}

/// Where the place of that name is.
fn place_of(places: &[Place], name: &[u8]) -> Option<usize>
    ensures { result ≡ position (is_at name.now) places.now }
{
    places
        .iter()
        .position(|place| place.name.as_slice() == name)
}

/// The keeper of that name, renewed, for which there is a place from then on. The error is: out of memory, and then nothing has
/// changed.
fn lend(places: &mut Vec<Place>, alloc: Global, name: &[u8]) -> Result<LentKeeper, Memory>
    ensures ok { IfOk result (λ keeper. keeper ≡ keeping (kept_under name.now places.old.items)) }
    ensures given { OnOk result (places.new.items ≡ given name.now places.old.items) }
    ensures err { OnErr result (places.new.items ≡ places.old.items) }
{
    let Some(at) = place_of(places.as_slice(), name) else {
        let name = Bytes::copy_of(alloc, name)?;
        places.push(Place { name, keeper: None })?;
        return Ok(LentKeeper::fresh(alloc));
    };
    let lent = match &places[at].keeper {
        Some(keeper) => keeper.renewed(alloc)?,
        None => LentKeeper::fresh(alloc),
    };
    places[at].keeper = None;
    Ok(lent)
}

/// Lays a keeper under the name, where there is a place for it.
fn lay(places: &mut Vec<Place>, name: &[u8], keeper: LentKeeper)
    ensures { places.new.items ≡ laid name.now (Some keeper) places.old.items }
{
    if let Some(at) = place_of(places.as_slice(), name) {
        places[at].keeper = Some(keeper);
    }
}

/// What keepers in memory do with a name, whatever is done with others: from its first keeper on it has a place, and what
/// comes back lies there until the name's next keeper, which keeps the same.
pub fn lies_again()
    ensures placed { PlacesGiven }
    ensures lies { LiesWhereLaid }
    ensures others { OthersStay }
{}
