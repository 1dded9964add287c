//! The trials that lines ask for, family by family.

use crate::lines::Line;
use crate::{engine, maps, snapshots, trial};
use ivy_base::{Memory, Steps};
use std::alloc::Global;
use std::sync::ledger::Ledger;

/// A family of trials.
#[derive(Clone, Copy)]
enum Family {
    Trees,
    Maps,
    Engine,
    Snapshots,
}

/// The trials of each family, and the family that lines are of.
pub struct Trials {
    family: Family,
    trees: trial::Trial,
    maps: maps::Trial,
    engine: engine::Trial,
    snapshots: snapshots::Trial,
}

// Written out, so that what drops trials calls it and isn't made over all their parts.
impl Drop for Trials {
    fn drop(self) {
        let Trials {
            family: _,
            trees: _,
            maps: _,
            engine: _,
            snapshots: _,
        } = self;
    }
}

impl Trials {
    /// Each at its beginning, and lines are of trees. The error is: out of memory.
    pub fn new(alloc: Global) -> Result<Trials, Memory> {
        Ok(Trials {
            family: Family::Trees,
            trees: trial::Trial::new(alloc)?,
            maps: maps::Trial::new(alloc)?,
            engine: engine::Trial::new(alloc)?,
            snapshots: snapshots::Trial::new(alloc)?,
        })
    }

    /// Answers a line.
    pub fn answer<L: Ledger>(&mut self, line: &mut Line<'_>, steps: &mut Steps<L>) {
        if line.takes("== ") {
            return self.choose(line);
        }
        match self.family {
            Family::Trees => self.trees.answer(line),
            Family::Maps => self.maps.answer(line),
            Family::Engine => self.engine.answer(line, steps),
            Family::Snapshots => self.snapshots.answer(line),
        }
    }

    /// Lets the lines from now on be of the family of that name.
    fn choose(&mut self, line: &mut Line<'_>) {
        self.family = match line.word() {
            "trees" => Family::Trees,
            "maps" => Family::Maps,
            "engine" => Family::Engine,
            "snapshots" => Family::Snapshots,
            _ => return line.fail(),
        };
        line.is_repeated = true;
    }
}
