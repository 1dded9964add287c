//! Records under the numbers of their marks.

ghost use Rattle.std.specs.Prelude.{◌≡◌, ℕ, ◌+◌, ◌<◌, ◌≤◌, ◌^◌, ◌++◌, length, map, Contains, IfOk, OnOk, slice_index};
ghost use Rattle.std.specs.List.{All, AllByRecursion};
ghost use Rattle.std.specs.List.Sorted.{IsNonDecreasingBy};
ghost use Rattle.log_model.specs.Spelling.{HasSpelling};
ghost use Rattle.log_records.specs.Records.{records_of};
ghost use Rattle.conflict_list.specs.Order.{marked, order, order_of};
ghost use Rattle.conflict_list.specs.Tables.{AreLate, AreMarked};
ghost use Rattle.conflict_list.specs.declared.marked.Marked.{Marked};

use crate::numbers::set_numbers;
use ivy_base::Memory;
use log_records::Record;
use std::alloc::Global;

/// A record under the number of one of its marks.
#[derive(Clone, Copy)]
pub struct Marked {
    pub number: u64,
    /// The place of its log among the logs.
    pub log: u32,
    /// Its place among the records.
    pub place: u32,
}

/// Each late record under each of its numbers, ascending by number, then by log, then by place. The error is: out of memory.
pub fn marked_of(
    alloc: Global,
    records: &[Record],
    of: &[u32],
    late: &[bool],
) -> Result<Vec<Marked>, Memory>
    requires few { length records.now < 2 ^ 32 }
    requires long { length of.now ≡ length records.now }
    requires long_late { length late.now ≡ length records.now }
    requires late { AreLate records.now (length records.now) late.now }
    requires spelled { AllByRecursion HasSpelling (records_of records.now) }
    ensures marked { IfOk result (λ list. AreMarked records.now of.now (length records.now) list.items) }
    ensures ascending { IfOk result (λ list. IsNonDecreasingBy order list.items) }
{
    let mut list = marked_in_turn(alloc, records, of, late)?;
    list.sort_unstable_by_key(|mark| mark.order());
    Ok(list)
}

/// Each late record under each of its numbers. The error is: out of memory.
fn marked_in_turn(
    alloc: Global,
    records: &[Record],
    of: &[u32],
    late: &[bool],
) -> Result<Vec<Marked>, Memory>
    requires few { length records.now < 2 ^ 32 }
    requires long { length of.now ≡ length records.now }
    requires long_late { length late.now ≡ length records.now }
    requires late { AreLate records.now (length records.now) late.now }
    requires spelled { AllByRecursion HasSpelling (records_of records.now) }
    ensures { IfOk result (λ list. AreMarked records.now of.now (length records.now) list.items) }
{
    let mut list = Vec::new(alloc);
    let mut numbers = Vec::new(alloc);
    'records: for place in 0..records.len() {
        mark_late(&mut list, &mut numbers, records, of, late, place)?;
    }
    Ok(list)
}

/// Adds the record at that place under each of its numbers, if it is late. `numbers` is room for the work. The error is: out
/// of memory.
fn mark_late(
    list: &mut Vec<Marked>,
    numbers: &mut Vec<u64>,
    records: &[Record],
    of: &[u32],
    late: &[bool],
    place: usize,
) -> Result<(), Memory>
    requires few { length records.now < 2 ^ 32 }
    requires place { place < length records.now }
    requires long { length of.now ≡ length records.now }
    requires long_late { length late.now ≡ length records.now }
    requires late { AreLate records.now (length records.now) late.now }
    requires spelled { AllByRecursion HasSpelling (records_of records.now) }
    requires so_far { AreMarked records.now of.now place list.old.items }
    ensures { OnOk result (AreMarked records.now of.now (place + 1) list.new.items) }
{
    if !late[place] {
        return Ok(());
    }
    set_numbers(numbers, &records[place].op)?;
    mark(list, numbers.as_slice(), of[place], place as u32)?;
    Ok(())
}

/// Adds the record at that place, of the log at that place, under each of the numbers. The error is: out of memory.
fn mark(list: &mut Vec<Marked>, numbers: &[u64], log: u32, place: u32) -> Result<(), Memory>
    ensures added { OnOk result (list.new.items ≡ list.old.items ++ map (marked log place) numbers.now) }
    ensures log { log < 2 ^ 32 }
{
    'numbers: for &number in numbers {
        list.push(Marked { number, log, place })?;
    }
    Ok(())
}

impl Marked {
    /// What they are sorted by.
    fn order(&self) -> u128
        ensures { result ≡ order self.now }
    {
        let mark = *self;
        order_of(mark.number, mark.log, mark.place)
    }
}

/// By the number, then by the log, then by the place.
pub fn order_of(number: u64, log: u32, place: u32) -> u128
    ensures order { result ≡ order_of number log place }
    ensures within { result < 340282366920938463463374607431768211456 }
{
    u128::from(number) * 18_446_744_073_709_551_616
        + u128::from(log) * 4_294_967_296
        + u128::from(place)
}

/// Those whose orders are from `low` to `high`, of some that ascend.
pub fn between(list: &[Marked], low: u128, high: u128) -> &[Marked]
    requires { IsNonDecreasingBy order list.now }
    ensures found { (m : Marked) → Contains list.now m → low ≤ order m → order m ≤ high → Contains result.now m }
    ensures only { All (λ m. Contains list.now m × (low ≤ order m) × (order m ≤ high)) result.now }
    ensures ascending { IsNonDecreasingBy order result.now }
{
    let from = list.partition_point(|mark| mark.order() < low);
    let rest = &list[from..];
    let count = rest.partition_point(|mark| mark.order() <= high);
    &rest[..count]
}
