//! Late records: those that don't know all the records before them.

ghost use Rattle.std.specs.Prelude.{◌≡◌, ℕ, ◌<◌, ◌≤◌, IsTrue, length, slice_index, IfOk};
ghost use Rattle.std.specs.List.{AllByRecursion};
ghost use Rattle.ivy_base.specs.Naming.{head_key_of};
ghost use Rattle.log_model.specs.Spelling.{HasSpelling};
ghost use Rattle.log_records.specs.Records.{record_of, records_of};
ghost use Rattle.conflict_list.specs.Tables.{AreLate, AreLogs, Reaches};

use crate::knowing::reach_of;
use crate::logs::{Log, Logs};
use ivy_base::{Key, Memory};
use log_records::Record;
use std::alloc::Global;

/// Of each record, whether it is late; one that isn't is in conflict with none before it. The error is: out of memory.
pub fn late_of(alloc: Global, records: &[Record], logs: &Logs) -> Result<Vec<bool>, Memory>
    requires logs { AreLogs records.now (length records.now) logs.now.list.items logs.now.of.items }
    requires spelled { AllByRecursion HasSpelling (records_of records.now) }
    ensures late { IfOk result (λ late. AreLate records.now (length records.now) late.items) }
    ensures long { IfOk result (λ late. length late.items ≡ length records.now) }
{
    let mut late = Vec::with_capacity(alloc, records.len())?;
    let mut newest = vec![in alloc; 0u32; logs.list.len()]?;
    'records: for place in 0..records.len() {
        let one = &records[place];
        let lane = lane_of(logs, place);
        let log = logs.list[lane];
        late.push(!reaches(one, &log.key, logs.list.as_slice(), newest.as_slice()))?;
        raise(&mut newest, lane, one.seq);
    }
    Ok(late)
}

/// At which place the log stands of the record of that place.
fn lane_of(logs: &Logs, place: usize) -> usize
    requires { place < length logs.now.of.items }
    ensures { result ≡ slice_index logs.now.of.items place }
{
    logs.of[place] as usize
}

/// Raises the number at that place to this one, if it is less.
fn raise(newest: &mut Vec<u32>, lane: usize, seq: u32)
    requires { lane < length newest.old.items }
    ensures long { length newest.new.items ≡ length newest.old.items }
    ensures up { (k : ℕ) → slice_index newest.old.items k ≤ slice_index newest.new.items k }
    ensures reached { seq ≤ slice_index newest.new.items lane }
{
    if newest[lane] < seq {
        newest[lane] = seq;
    }
}

/// Whether the record goes as far in each log as these numbers. `key` is the head key of its own log.
fn reaches(one: &Record, key: &Key, logs: &[Log], newest: &[u32]) -> bool
    requires key { key.now ≡ head_key_of one.now.owner }
    requires one { HasSpelling (record_of one.now) }
    requires long { length newest.now ≡ length logs.now }
    ensures { IsTrue result → Reaches one.now logs.now newest.now }
{
    'logs: for lane in 0..logs.len() {
        if reach_of(one, key, &logs[lane].key) < newest[lane] {
            return false;
        }
    }
    true
}
