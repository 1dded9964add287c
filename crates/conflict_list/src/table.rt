//! Where the later records are found that are in conflict with one.

ghost use Rattle.std.specs.Prelude.{◌≡◌, ℕ, ◌+◌, ◌<◌, ◌≤◌, ◌^◌, length, Contains, IsTrue, IfOk, OnOk, slice_index};
ghost use Rattle.std.specs.List.{All, AllByRecursion};
ghost use Rattle.std.specs.List.Sorted.{IsNonDecreasingBy};
ghost use Rattle.log_model.specs.Spelling.{HasSpelling};
ghost use Rattle.log_records.specs.Records.{records_of};
ghost use Rattle.conflict_list.specs.declared.marked.Marked.{Marked};
ghost use Rattle.conflict_list.specs.Order.{order};
ghost use Rattle.conflict_list.specs.Tables.{AreFound, Grow, HasKey, IsMarkOf, IsRun, KnowsAt, Stays};
ghost use Rattle.conflict_list.specs.Whole.{IsTable};

use crate::knowing::knows;
use crate::late::late_of;
use crate::logs::{Logs, all_go_on, logs_of};
use crate::marked::{Marked, between, marked_of, order_of};
use crate::numbers::set_looks;
use ivy_base::{Key, Memory};
use log_records::Record;
use std::alloc::Global;

/// The logs of records, whether in each of them each record knows all that the one before it knows, and the records under
/// the numbers of their marks.
#[derive(Drop)]
pub struct Table {
    pub logs: Logs,
    pub grow: bool,
    pub marks: Vec<Marked>,
}

/// The table of the records. The error is: out of memory; it also comes where there are 2^32 records or more.
pub fn table_of(alloc: Global, records: &[Record]) -> Result<Table, Memory>
    requires { AllByRecursion HasSpelling (records_of records.now) }
    ensures { IfOk result (IsTable records.now) }
{
    if records.len() > u32::MAX as usize {
        return Err(Memory);
    }
    let logs = logs_of(alloc, records)?;
    let late = late_of(alloc, records, &logs)?;
    let marks = marked_of(alloc, records, logs.of.as_slice(), late.as_slice())?;
    let grow = are_growing(records, logs.of.as_slice(), marks.as_slice());
    Ok(Table { logs, grow, marks })
}

/// Whether each record is seen to know all that the one before it in its log knows. Where there are no marks none is looked at.
fn are_growing(records: &[Record], of: &[u32], marks: &[Marked]) -> bool
    requires long { length of.now ≡ length records.now }
    requires spelled { AllByRecursion HasSpelling (records_of records.now) }
    ensures { IsTrue result → Grow records.now of.now (length records.now) }
{
    !marks.is_empty() && all_go_on(records, of)
}

impl Table {
    /// Adds the places of the later records that may be in conflict with the one at i, and are under one of the numbers. The
    /// error is: out of memory.
    pub fn add_all(
        &self,
        records: &[Record],
        i: usize,
        numbers: &[u64],
        found: &mut Vec<u32>,
    ) -> Result<(), Memory>
        requires table { IsTable records.now self.now }
        requires spelled { AllByRecursion HasSpelling (records_of records.now) }
        requires i { i < length records.now }
        ensures { OnOk result (AreFound records.now i (λ m. Contains self.now.marks.items m × Contains numbers.now m.number × (i < m.place)) found.new.items) }
    {
        'numbers: for &number in numbers {
            self.add_number(records, i, number, found)?;
        }
        Ok(())
    }

    /// Adds those under the number. The error is: out of memory.
    fn add_number(
        &self,
        records: &[Record],
        i: usize,
        number: u64,
        found: &mut Vec<u32>,
    ) -> Result<(), Memory>
        requires table { IsTable records.now self.now }
        requires spelled { AllByRecursion HasSpelling (records_of records.now) }
        requires i { i < length records.now }
        ensures found { OnOk result (AreFound records.now i (λ m. Contains self.now.marks.items m × (m.number ≡ number) × (i < m.place)) found.new.items) }
        ensures kept { OnOk result (Stays found.old.items found.new.items) }
    {
        let group = between(
            self.marks.as_slice(),
            order_of(number, 0, 0),
            order_of(number, u32::MAX, u32::MAX),
        );
        if group.is_empty() {
            return Ok(());
        }
        'logs: for lane in 0..self.logs.list.len() {
            let run = run_of(group, number, lane as u32, i as u32);
            self.add_run(records, i, run, found)?;
        }
        Ok(())
    }

    /// Adds those of the run, up to the first that knows the record at i where later ones know it too. The error is: out of
    /// memory.
    fn add_run(
        &self,
        records: &[Record],
        i: usize,
        run: &[Marked],
        found: &mut Vec<u32>,
    ) -> Result<(), Memory>
        requires table { IsTable records.now self.now }
        requires spelled { AllByRecursion HasSpelling (records_of records.now) }
        requires i { i < length records.now }
        requires only { All (IsMarkOf (length records.now) self.now.logs.of.items) run.now }
        requires run { IsRun run.now }
        ensures found { OnOk result (AreFound records.now i (Contains run.now) found.new.items) }
        ensures kept { OnOk result (Stays found.old.items found.new.items) }
    {
        'run: for mark in run {
            if self.grow && self.knows(records, mark.place as usize, i) {
                return Ok(());
            }
            found.push(mark.place)?;
        }
        Ok(())
    }

    /// Whether the one record knows the other, by their places.
    fn knows(&self, records: &[Record], one: usize, other: usize) -> bool
        requires table { IsTable records.now self.now }
        requires spelled { AllByRecursion HasSpelling (records_of records.now) }
        requires one { one < length records.now }
        requires other { other < length records.now }
        ensures { KnowsAt records.now one other result }
    {
        knows(
            &records[one],
            &self.key_at(one),
            &records[other],
            &self.key_at(other),
        )
    }

    /// The head key of the log of the record at that place.
    pub fn key_at(&self, place: usize) -> Key
        requires place { place < length self.now.logs.of.items }
        requires log { slice_index self.now.logs.of.items place < length self.now.logs.list.items }
        ensures { HasKey self.now.logs.list.items (slice_index self.now.logs.of.items place) result }
    {
        self.logs.list[self.logs.of[place] as usize].key
    }
}

/// Of the marks of a number, which ascend, those of the log at that place and of later records than that at `place`.
fn run_of(group: &[Marked], number: u64, log: u32, place: u32) -> &[Marked]
    requires ascending { IsNonDecreasingBy order group.now }
    requires place { place + 1 < 2 ^ 32 }
    requires only { All (λ m. (m.number ≡ number) × (m.log < 2 ^ 32) × (m.place < 2 ^ 32)) group.now }
    ensures found { (m : Marked) → Contains group.now m → m.log ≡ log → place < m.place → Contains result.now m }
    ensures only { All (Contains group.now) result.now }
    ensures run { IsRun result.now }
{
    between(
        group,
        order_of(number, log, place) + 1,
        order_of(number, log, u32::MAX),
    )
}
