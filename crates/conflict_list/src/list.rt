//! The list of conflicts.

ghost use Rattle.std.specs.Prelude.{◌≡◌, ◌<◌, ◌≤◌, [], ◌∷◌, ◌++◌, length, IfOk, IfErr, OnOk};
ghost use Rattle.std.specs.List.{AllByRecursion};
ghost use Rattle.std.specs.List.Sorted.{IsNonDecreasing};
ghost use Rattle.ivy_base.specs.Naming.{head_key_of};
ghost use Rattle.log_model.specs.Spelling.{HasSpelling};
ghost use Rattle.log_records.specs.Records.{record_of, records_of};
ghost use Rattle.conflict_list.specs.declared.list.ListFault.TheVariants.{Memory as NoMemory};
ghost use Rattle.log_model.specs.Conflicts.{clash_of, clashes, in_conflict, most_clashes};
ghost use Rattle.conflict_list.specs.Conflicts.{HasNoList, IsTooMany, seen, seen_all};
ghost use Rattle.conflict_list.specs.Pairs.{HasNoPair, HasNoRow, IsWithPair, IsWithRow};
ghost use Rattle.conflict_list.specs.Tables.{AllAreFound};
ghost use Rattle.conflict_list.specs.Whole.{IsTable};

use crate::knowing::are_concurrent;
use crate::numbers::set_looks;
use crate::table::{Table, table_of};
use crate::touching::{share_bytes, share_entry};
use ivy_base::{Key, Memory};
use log_records::Record;
use std::alloc::Global;
use version_vectors::Rank;

/// No list has more.
const MOST_CLASHES: usize = 1_000_000;

/// Two records in conflict, by their ranks.
#[derive(Clone, Copy)]
pub struct Clash {
    /// The smaller rank.
    pub first: Rank,
    /// The greater rank.
    pub second: Rank,
    /// Whether they touch bytes of a file; else they touch an entry of a directory.
    pub bytes: bool,
}

/// Why there is no list.
#[derive(Clone, Copy)]
pub enum ListFault {
    /// There are more than 1,000,000 pairs.
    TooMany,
    /// Out of memory. No clause ties this to a cause.
    Memory,
}

impl From<Memory> for ListFault {
    ghost from_gives = { λ _ fault. fault ≡ NoMemory };

    fn from(_: Memory) -> Self {
        ListFault::Memory
    }
}

/// The pairs of records that are in conflict: of each record, in their order, those with the records after it.
///
/// Of records that ascend by rank these are exactly the pairs in conflict, ascending by their ranks
/// ([`crate::lists_are_exact`]). `TooMany` comes exactly where there are more than 1,000,000. `Memory` means out of memory;
/// it also comes where there are 2^32 records or more.
pub fn conflicts(alloc: Global, records: &[Record]) -> Result<Vec<Clash>, ListFault>
    requires { AllByRecursion HasSpelling (records_of records.now) }
    ensures list { IfOk result (λ list. seen_all list.items ≡ clashes (records_of records.now)) }
    ensures few { IfOk result (λ list. length list.items ≤ most_clashes) }
    ensures fault { IfErr result (HasNoList (records_of records.now)) }
{
    let table = table_of(alloc, records)?;
    let mut list = Vec::new(alloc);
    let mut numbers = Vec::new(alloc);
    let mut found = Vec::new(alloc);
    'records: for i in 0..records.len() {
        find(records, i, &table, &mut numbers, &mut found)?;
        add_clashes(&mut list, records, i, &table, found.as_slice())?;
    }
    Ok(list)
}

/// Puts the places there, ascending, of all later records that are in conflict with the one at i, maybe with others, and
/// some more than once. `numbers` is room for the work. The error is: out of memory.
fn find(
    records: &[Record],
    i: usize,
    table: &Table,
    numbers: &mut Vec<u64>,
    found: &mut Vec<u32>,
) -> Result<(), Memory>
    requires spelled { AllByRecursion HasSpelling (records_of records.now) }
    requires i { i < length records.now }
    requires table { IsTable records.now table.now }
    ensures found { OnOk result (AllAreFound records.now i found.new.items) }
    ensures ascending { OnOk result (IsNonDecreasing found.new.items) }
{
    found.clear();
    set_looks(numbers, &records[i].op)?;
    table.add_all(records, i, numbers.as_slice(), found)?;
    found.sort_unstable();
    Ok(())
}

/// Adds the clashes of the record at i with those after it: these are among those at the places that are found. After an
/// error some may be added.
fn add_clashes(
    list: &mut Vec<Clash>,
    records: &[Record],
    i: usize,
    table: &Table,
    found: &[u32],
) -> Result<(), ListFault>
    requires spelled { AllByRecursion HasSpelling (records_of records.now) }
    requires i { i < length records.now }
    requires table { IsTable records.now table.now }
    requires found { AllAreFound records.now i found.now }
    requires ascending { IsNonDecreasing found.now }
    requires few { length list.old.items ≤ most_clashes }
    ensures added { OnOk result (IsWithRow records.now i (seen_all list.old.items) (seen_all list.new.items)) }
    ensures few { OnOk result (length list.new.items ≤ most_clashes) }
    ensures fault { IfErr result (HasNoRow records.now i (seen_all list.old.items)) }
{
    let mut next = i + 1;
    'found: for &place in found {
        let j = place as usize;
        if next <= j && j < records.len() {
            add_clash(list, records, i, j, table)?;
            next = j + 1;
        }
    }
    Ok(())
}

/// Adds the clash of the two records, if they are in conflict.
fn add_clash(
    list: &mut Vec<Clash>,
    records: &[Record],
    i: usize,
    j: usize,
    table: &Table,
) -> Result<(), ListFault>
    requires spelled { AllByRecursion HasSpelling (records_of records.now) }
    requires i { i < length records.now }
    requires j { j < length records.now }
    requires table { IsTable records.now table.now }
    requires few { length list.old.items ≤ most_clashes }
    ensures added { OnOk result (IsWithPair records.now i j (seen_all list.old.items) (seen_all list.new.items)) }
    ensures few { OnOk result (length list.new.items ≤ most_clashes) }
    ensures fault { IfErr result (HasNoPair records.now i j (seen_all list.old.items)) }
{
    let one = &records[i];
    let other = &records[j];
    if are_in_conflict(one, &table.key_at(i), other, &table.key_at(j)) {
        add(list, clash_of(one, other))?;
        Ok(())
    } else {
        Ok(())
    }
}

/// Adds a clash, where there is room for it.
fn add(list: &mut Vec<Clash>, clash: Clash) -> Result<(), ListFault>
    requires few { length list.old.items ≤ most_clashes }
    ensures added { OnOk result (list.new.items ≡ list.old.items ++ clash ∷ []) }
    ensures few { OnOk result (length list.new.items ≤ most_clashes) }
    ensures fault { IfErr result (IsTooMany (seen_all list.old.items ++ seen clash ∷ [])) }
{
    if list.len() >= MOST_CLASHES {
        return Err(ListFault::TooMany);
    }
    match list.push(clash) {
        Ok(()) => Ok(()),
        Err(_) => Err(ListFault::Memory),
    }
}

/// Whether the two records are in conflict. The keys are the head keys of their logs.
fn are_in_conflict(one: &Record, key: &Key, other: &Record, other_key: &Key) -> bool
    requires key { key.now ≡ head_key_of one.now.owner }
    requires other_key { other_key.now ≡ head_key_of other.now.owner }
    requires one { HasSpelling (record_of one.now) }
    requires other { HasSpelling (record_of other.now) }
    ensures { result ≡ in_conflict (record_of one.now) (record_of other.now) }
{
    (share_entry(&one.op, &other.op) || share_bytes(&one.op, &other.op))
        && are_concurrent(one, key, other, other_key)
}

/// What is told of two records in conflict.
fn clash_of(one: &Record, other: &Record) -> Clash
    requires one { HasSpelling (record_of one.now) }
    requires other { HasSpelling (record_of other.now) }
    ensures { seen result ≡ clash_of (record_of one.now) (record_of other.now) }
{
    Clash {
        first: one.rank(),
        second: other.rank(),
        bytes: share_bytes(&one.op, &other.op),
    }
}
