//! What is made of rows of records.

ghost use Rattle.std.specs.Prelude.{◌≡◌, ◌++◌, map, IfOk, OnErr, OnOk};
ghost use Rattle.std.specs.List.{AllByRecursion};
ghost use Rattle.tree_model.specs.Apply.{apply_all};
ghost use Rattle.log_model.specs.Closed.{IsAscending};
ghost use Rattle.log_model.specs.Rank.{front, full_vector};
ghost use Rattle.log_model.specs.Replay.{effect, in_order, replay};
ghost use Rattle.log_model.specs.Spelling.{HasSpelling};
ghost use Rattle.log_records.specs.Records.{record_of, records_of};

use crate::greatest::{put, take_greatest};
use fs_tree::Tree;
use ivy_base::{Memory, head_key};
use log_records::Record;
use std::alloc::Global;
use version_vectors::{Entry, Vector};

/// Takes the new records into the held ones, by rank; of two of one rank the held one stays. The error is: out of memory,
/// and then what is held is as it was. Either way it ascends, and each of its records has a spelling.
pub fn merge(alloc: Global, held: &mut Vec<Record>, new: Vec<Record>) -> Result<(), Memory>
    requires held { IsAscending (records_of held.old.items) }
    requires new { IsAscending (records_of new.items) }
    requires spelled { AllByRecursion HasSpelling (records_of held.old.items) }
    requires new_spelled { AllByRecursion HasSpelling (records_of new.items) }
    ensures ok { OnOk result (records_of held.new.items ≡ in_order (records_of held.old.items ++ records_of new.items)) }
    ensures err { OnErr result (held.new ≡ held.old) }
    ensures ascending { IsAscending (records_of held.new.items) }
    ensures spelled { AllByRecursion HasSpelling (records_of held.new.items) }
{
    // The only step that may fail: from here on there is room for each record.
    let mut merged = Vec::with_capacity(alloc, held.len() + new.len())?;
    let mut new = new;
    'records: while let Some(record) = take_greatest(held, &mut new) {
        put(&mut merged, record);
    }
    merged.reverse();
    *held = merged;
    Ok(())
}

/// The front of the records: of each log the newest record that is among them or cited by one. The error is: out of memory.
pub fn front(alloc: Global, records: &[Record]) -> Result<Vector, Memory>
    requires spelled { AllByRecursion HasSpelling (records_of records.now) }
    ensures { IfOk result (λ v. v ≡ front (records_of records.now)) }
{
    let mut front = Vector::empty(alloc);
    'records: for record in records {
        front = front.join(alloc, &full_vector(alloc, record)?)?;
    }
    Ok(front)
}

/// The record's vector with the record itself. The error is: out of memory.
fn full_vector(alloc: Global, record: &Record) -> Result<Vector, Memory>
    requires { HasSpelling (record_of «record».now) }
    ensures { IfOk result (λ v. v ≡ full_vector (record_of «record».now)) }
{
    let entry = Entry {
        log: head_key(&record.owner),
        seq: record.seq,
        name: record.name(alloc)?,
    };
    record.vector.with(alloc, entry)
}

/// Applies the records to the tree, in their order. The error is: out of memory, and then the tree is of no more use.
pub fn apply_records(alloc: Global, tree: &mut Tree, records: &[Record]) -> Result<(), Memory>
    requires spelled { AllByRecursion HasSpelling (records_of records.now) }
    ensures { OnOk result (tree.new ≡ apply_all tree.old (map effect (records_of records.now))) }
{
    'records: for record in records {
        tree.apply(alloc, record.moment, &record.op)?;
    }
    Ok(())
}

/// The tree that the records stand for, from the root alone. The error is: out of memory.
pub fn replay(alloc: Global, records: &[Record]) -> Result<Tree, Memory>
    requires ascending { IsAscending (records_of records.now) }
    requires spelled { AllByRecursion HasSpelling (records_of records.now) }
    ensures { IfOk result (λ tree. tree ≡ replay (records_of records.now)) }
{
    let mut tree = Tree::empty(alloc)?;
    apply_records(alloc, &mut tree, records)?;
    Ok(tree)
}
