//! A keeper in memory, of which planned saves fail.

ghost use Rattle.std.specs.Prelude.{◌≡◌, None, Some, IfOk, OnErr, OnOk};
ghost use Rattle.std.specs.Option.{option_map};
ghost use Rattle.ivy_io.specs.Keepers.{KeeperState, after_save, next_save_fails, fresh_keeper_state, planned, with_plan, SaveCounts, SaveIs, SaveReplaces, LoadCounts, LoadGives};

use crate::{Failed, KeepFault, Keeper};
use ivy_base::{Bytes, Memory};
use std::alloc::Global;
use std::marker::Model;

/// Which save is to fail, and what it leaves.
#[derive(Clone, Copy)]
pub struct Leave {
    /// The number of the save from now on: the next one is 1, and 0 names none.
    pub call: u64,
    /// Whether the new bytes are kept after it.
    pub new: bool,
}

/// A save that is to fail, by its number among all saves.
#[derive(Clone, Copy)]
pub struct Planned {
    /// Its number, the first save of all being 1.
    pub number: u128,
    /// Whether the new bytes are kept after it.
    pub new: bool,
}

/// A keeper over bytes in memory. Each save succeeds, unless it is planned to fail.
#[derive(Drop)]
pub struct MemKeeper {
    kept: Option<Bytes>,
    saves: u64,
    failing: Vec<Planned>,
    faults: u64,
}

impl Model for MemKeeper {
    ghost use Rattle.ivy_io.specs.Keepers.{KeeperState};

    ghost Value = { KeeperState };

    ghost view = { λ k. record { kept = k.kept; saves = k.saves; failing = k.failing.items; faults = k.faults } };
}

impl MemKeeper {
    /// A keeper that keeps nothing yet, and of whose saves none is to fail.
    pub fn new(alloc: Global) -> MemKeeper
        ensures { result ≡ fresh_keeper_state }
    {
        MemKeeper {
            kept: None,
            saves: 0,
            failing: Vec::new(alloc),
            faults: 0,
        }
    }

    /// Has a later save fail; of two plans for one save the later counts. The error is: out of memory, and then nothing
    /// has changed.
    pub fn plan(&mut self, leave: Leave) -> Result<(), Memory>
        ensures ok { OnOk result (self.new ≡ with_plan self.old leave.call leave.new) }
        ensures err { OnErr result (self.new ≡ self.old) }
    {
        if leave.call == 0 {
            return Ok(());
        }
        let number = u128::from(self.saves) + u128::from(leave.call);
        self.failing.insert(
            0,
            Planned {
                number,
                new: leave.new,
            },
        )?;
        Ok(())
    }

    /// What is kept.
    pub fn kept(&self) -> Option<&[u8]>
        ensures { option_map (λ bytes. bytes.now) result ≡ self.now.kept }
    {
        match &self.kept {
            Some(bytes) => Some(bytes.as_slice()),
            None => None,
        }
    }
}

impl Keeper for MemKeeper {
    ghost use Rattle.ivy_io.specs.KeeperLaws.{memory_counts, memory_keeps};

    ghost kept = { λ k. Some k.kept };

    ghost faults = { λ k. k.faults };

    ghost saves = { λ k bytes failed new. (failed ≡ next_save_fails k) × (new ≡ after_save k bytes) };

    ghost counts = { memory_counts };

    ghost keeps = { memory_keeps };

    fn save(&mut self, bytes: Bytes) -> Result<(), Failed>
        ensures is { SaveIs (λ failed new. (failed ≡ next_save_fails self.old) × (new ≡ after_save self.old bytes)) self.new result }
        ensures bytes { SaveReplaces (Some self.old.kept) (Some self.new.kept) bytes result }
        ensures cause { SaveCounts self.old.faults self.new.faults result }
    {
        self.saves = self.saves.saturating_add(1);
        match plan_for(&self.failing, u128::from(self.saves)) {
            None => {
                self.kept = Some(bytes);
                Ok(())
            }
            Some(new) => {
                if new {
                    self.kept = Some(bytes);
                }
                self.faults = self.faults.saturating_add(1);
                Err(Failed)
            }
        }
    }

    fn load(&mut self, alloc: Global) -> Result<Bytes, KeepFault>
        ensures bytes { LoadGives (Some self.old.kept) (Some self.new.kept) result }
        ensures cause { LoadCounts self.old.faults self.new.faults result }
        ensures same { self.new ≡ self.old }
    {
        let Some(bytes) = &self.kept else {
            return Err(KeepFault::Nothing);
        };
        match bytes.copy(alloc) {
            Ok(copy) => Ok(copy),
            Err(Memory) => Err(KeepFault::Memory),
        }
    }
}

/// What is planned for the save of that number: none where it succeeds, else whether it leaves the new bytes.
fn plan_for(failing: &[Planned], number: u128) -> Option<bool>
    ensures { result ≡ planned number failing.now }
{
    let found = failing.iter().find(|f| f.number == number)?;
    Some(found.new)
}
