//! The replay's loop.

ghost use Rattle.std.specs.Prelude.{◌≡◌, ◌≤◌, ◌<◌, ◌+◌, ◌^◌, ◌++◌, [], length, map, IfOk, OnOk};
ghost use Rattle.tree_model.specs.Apply.{apply, apply_all};
ghost use Rattle.fs_tree.specs.Applicable.{IsApplicable};
ghost use Rattle.log_model.specs.Replay.{effect};
ghost use Rattle.log_model.specs.Spelling.{HasSpelling};
ghost use Rattle.log_records.specs.Records.{records_of};
ghost use Rattle.std.specs.List.{AllByRecursion};
ghost use Rattle.replay_engine.specs.Replays.{marked, passed};

use fs_tree::Tree;
use ivy_base::{Memory, Steps};
use log_records::Record;
use std::alloc::Global;
use std::sync::ledger::Ledger;

/// How far a checkpoint is from the next.
pub const SPACE: usize = 64;

/// The tree at the end of a replay, and those at the checkpoints that it passed.
#[derive(Drop)]
pub struct Replayed {
    pub tree: Tree,
    pub passed: Vec<Tree>,
}

/// Applies the records to a tree that stands at that place, a step for each. The error is: out of memory.
pub fn replay<L: Ledger>(
    alloc: Global,
    tree: Tree,
    place: usize,
    records: &[Record],
    steps: &mut Steps<L>,
) -> Result<Replayed, Memory>
    requires spelled { AllByRecursion HasSpelling (records_of records.now) }
    requires few { place + length records.now < 2 ^ 64 }
    ensures tree { IfOk result (λ r. r.tree ≡ apply_all tree (map effect (records_of records.now))) }
    ensures passed { IfOk result (λ r. r.passed.items ≡ passed place tree (map effect (records_of records.now))) }
    ensures steps { OnOk result (steps.new ≡ steps.old + length records.now) }
    ensures some { steps.old ≤ steps.new }
{
    let mut tree = tree;
    let mut place = place;
    let mut passed = Vec::new(alloc);
    'records: for record in records {
        apply_record(alloc, &mut tree, record, steps)?;
        place += 1;
        mark(alloc, &mut passed, place, &tree)?;
    }
    Ok(Replayed { tree, passed })
}

// Applies one record, which is a step. The error is: out of memory, and then the tree is as it was.
fn apply_record<L: Ledger>(
    alloc: Global,
    tree: &mut Tree,
    record: &Record,
    steps: &mut Steps<L>,
) -> Result<(), Memory>
    requires { IsApplicable «record».now.op }
    ensures ok { OnOk result (tree.new ≡ apply tree.old «record».now.moment «record».now.op) }
    ensures step { steps.new ≡ steps.old + 1 }
{
    steps.tick();
    tree.apply(alloc, record.moment, &record.op)
}

// Keeps a copy of the tree, where the place is one of a checkpoint. The error is: out of memory.
fn mark(alloc: Global, passed: &mut Vec<Tree>, place: usize, tree: &Tree) -> Result<(), Memory>
    ensures { OnOk result (passed.new.items ≡ passed.old.items ++ marked place tree.now []) }
{
    if place % SPACE == 0 {
        passed.push(tree.copy(alloc)?)?;
    }
    Ok(())
}
