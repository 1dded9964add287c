//! A keeper that was given for a name.

ghost use Rattle.std.specs.Prelude.{◌≡◌, Some, IfOk, OnErr, OnOk};
ghost use Rattle.std.specs.Option.{option_map};
ghost use Rattle.ivy_io.specs.Keepers.{KeeperState, after_save, next_save_fails, fresh_keeper_state, with_plan, SaveCounts, SaveIs, SaveReplaces, LoadCounts, LoadGives};
ghost use Rattle.ivy_io.specs.Names.{keeping};

use crate::{Failed, KeepFault, Keeper, Leave, MemKeeper};
use ivy_base::{Bytes, Memory};
use std::alloc::Global;
use std::marker::Model;

/// A keeper in memory that a [`crate::MemKeepers`] gave, which knows how often it has failed.
#[derive(Drop)]
pub struct LentKeeper {
    keeper: MemKeeper,
    faults: u64,
}

impl Model for LentKeeper {
    ghost use Rattle.std.specs.Prelude.{◌≡◌};
    ghost use Rattle.ivy_io.specs.Keepers.{KeeperState};

    ghost Value = { KeeperState };

    ghost view = { λ k. k.keeper };

    ghost invariant = { λ k. k.faults ≡ k.keeper.faults };
}

impl LentKeeper {
    /// A keeper that keeps nothing yet, and of whose saves none is to fail.
    pub(crate) fn fresh(alloc: Global) -> LentKeeper
        ensures { result ≡ fresh_keeper_state }
    {
        LentKeeper {
            keeper: MemKeeper::new(alloc),
            faults: 0,
        }
    }

    /// A keeper that keeps the same, has not failed yet, and of whose saves none is to fail. The error is: out of memory.
    pub(crate) fn renewed(&self, alloc: Global) -> Result<LentKeeper, Memory>
        ensures { IfOk result (λ renewed. renewed ≡ keeping self.now.kept) }
    {
        let mut renewed = LentKeeper::fresh(alloc);
        let Some(bytes) = self.kept() else {
            return Ok(renewed);
        };
        if renewed.save(Bytes::copy_of(alloc, bytes)?).is_err() {
            unreachable!();
        }
        Ok(renewed)
    }

    /// Has a later save fail, as [`MemKeeper::plan`] does. The error is: out of memory, and then nothing has changed.
    pub fn plan(&mut self, leave: Leave) -> Result<(), Memory>
        ensures ok { OnOk result (self.new ≡ with_plan self.old leave.call leave.new) }
        ensures err { OnErr result (self.new ≡ self.old) }
    {
        self.keeper.plan(leave)
    }

    /// What is kept.
    pub fn kept(&self) -> Option<&[u8]>
        ensures { option_map (λ bytes. bytes.now) result ≡ self.now.kept }
    {
        self.keeper.kept()
    }

    /// How often the keeper has failed.
    pub fn faults(&self) -> u64
        ensures { result ≡ self.now.faults }
    {
        self.faults
    }
}

impl Keeper for LentKeeper {
    ghost use Rattle.ivy_io.specs.KeeperLaws.{memory_counts, memory_keeps};

    ghost kept = { λ k. Some k.kept };

    ghost faults = { λ k. k.faults };

    ghost saves = { λ k bytes failed new. (failed ≡ next_save_fails k) × (new ≡ after_save k bytes) };

    ghost counts = { memory_counts };

    ghost keeps = { memory_keeps };

    fn save(&mut self, bytes: Bytes) -> Result<(), Failed>
        ensures is { SaveIs (λ failed new. (failed ≡ next_save_fails self.old) × (new ≡ after_save self.old bytes)) self.new result }
        ensures bytes { SaveReplaces (Some self.old.kept) (Some self.new.kept) bytes result }
        ensures cause { SaveCounts self.old.faults self.new.faults result }
    {
        match self.keeper.save(bytes) {
            Ok(()) => Ok(()),
            Err(Failed) => {
                self.faults = self.faults.saturating_add(1);
                Err(Failed)
            }
        }
    }

    fn load(&mut self, alloc: Global) -> Result<Bytes, KeepFault>
        ensures bytes { LoadGives (Some self.old.kept) (Some self.new.kept) result }
        ensures cause { LoadCounts self.old.faults self.new.faults result }
        ensures same { self.new ≡ self.old }
    {
        self.keeper.load(alloc)
    }
}
