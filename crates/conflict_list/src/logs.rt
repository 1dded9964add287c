//! The logs of records, and how they go on.

ghost use Rattle.std.specs.Prelude.{◌≡◌, ℕ, ◌+◌, ◌<◌, ◌≤◌, ◌^◌, IsTrue, List, length, IfOk, OnOk, IfSome, IfNone, slice_index};
ghost use Rattle.std.specs.List.{All, AllByRecursion};
ghost use Rattle.ivy_base.specs.declared.key.Key.{Key};
ghost use Rattle.ivy_base.specs.Naming.{head_key_of};
ghost use Rattle.log_model.specs.Spelling.{HasSpelling};
ghost use Rattle.log_records.specs.Records.{records_of};
ghost use Rattle.conflict_list.specs.Tables.{AreLogs, At, Grow, GrowsAt, HasItsKey, HasKey};

use crate::knowing::goes_on;
use ivy_base::{Key, Memory, PubKey, head_key};
use log_records::Record;
use std::alloc::Global;

/// A log.
#[derive(Clone, Copy)]
pub struct Log {
    pub owner: PubKey,
    /// Its head key.
    pub key: Key,
}

/// Logs, and of each record its log's place among them.
#[derive(Drop)]
pub struct Logs {
    pub list: Vec<Log>,
    pub of: Vec<u32>,
}

/// The logs of the records, in the order in which they first come. The error is: out of memory.
pub fn logs_of(alloc: Global, records: &[Record]) -> Result<Logs, Memory>
    requires { length records.now < 2 ^ 32 }
    ensures { IfOk result (λ logs. AreLogs records.now (length records.now) logs.list.items logs.of.items) }
{
    let mut list = Vec::new(alloc);
    let mut of = Vec::with_capacity(alloc, records.len())?;
    'records: for one in records {
        of.push(lane_of(&mut list, &one.owner)?)?;
    }
    Ok(Logs { list, of })
}

/// The place of the owner's log, which is added if it isn't there. The error is: out of memory.
fn lane_of(list: &mut Vec<Log>, owner: &PubKey) -> Result<u32, Memory>
    requires few { length list.old.items + 1 < 2 ^ 32 }
    requires keys { All HasItsKey list.old.items }
    ensures is { IfOk result (λ lane. HasKey list.new.items lane (head_key_of owner.now)) }
    ensures keys { OnOk result (All HasItsKey list.new.items) }
    ensures few { OnOk result (length list.new.items ≤ length list.old.items + 1) }
    ensures kept { OnOk result ((lane : ℕ) (key : Key) → HasKey list.old.items lane key → HasKey list.new.items lane key) }
{
    if let Some(lane) = place_of(list.as_slice(), owner) {
        return Ok(lane as u32);
    }
    let lane = list.len() as u32;
    list.push(Log {
        owner: *owner,
        key: head_key(owner),
    })?;
    Ok(lane)
}

/// The place of the owner's log.
fn place_of(list: &[Log], owner: &PubKey) -> Option<usize>
    requires { All HasItsKey list.now }
    ensures { IfSome result (λ lane. HasKey list.now lane (head_key_of owner.now)) }
{
    'logs: for (lane, log) in list.iter().enumerate() {
        if log.owner == *owner {
            return Some(lane);
        }
    }
    None
}

/// Whether each record knows all that the one before it in its log knows.
pub fn all_go_on(records: &[Record], of: &[u32]) -> bool
    requires long { length of.now ≡ length records.now }
    requires spelled { AllByRecursion HasSpelling (records_of records.now) }
    ensures { IsTrue result → Grow records.now of.now (length records.now) }
{
    'records: for j in 0..records.len() {
        if !goes_on_at(records, before(of, j), j) {
            return false;
        }
    }
    true
}

/// Whether the record at j knows all that the one at i knows, if there is one.
fn goes_on_at(records: &[Record], i: Option<usize>, j: usize) -> bool
    requires later { j < length records.now }
    requires earlier { IfSome i (λ i. i < length records.now) }
    requires spelled { AllByRecursion HasSpelling (records_of records.now) }
    ensures { IsTrue result → IfSome i (λ i. GrowsAt records.now i j) }
{
    match i {
        Some(i) => goes_on(&records[i], &records[j]),
        None => true,
    }
}

/// The place of the last one before j that is of the same log.
fn before(of: &[u32], j: usize) -> Option<usize>
    requires { j < length of.now }
    ensures found { IfSome result (λ i. (i < j) × (slice_index of.now i ≡ slice_index of.now j)) }
    ensures last { IfSome result (λ i. (k : ℕ) → i < k → k < j → slice_index of.now k ≡ slice_index of.now j → ⊥) }
    ensures none { IfNone result ((k : ℕ) → k < j → slice_index of.now k ≡ slice_index of.now j → ⊥) }
{
    let log = of[j];
    'places: for i in (0..j).rev() {
        if of[i] == log {
            return Some(i);
        }
    }
    None
}
