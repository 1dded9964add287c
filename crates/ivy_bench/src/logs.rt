//! Logs that were written in turn.

use dht_ids::Judged;
use ivy_base::{Format, Key, Memory, Moment, Op, PubKey, head_key};
use log_records::Record;
use std::alloc::Global;
use version_vectors::{Entry, Vector};
use view_blocks::View;

const MOMENT: Moment = Moment { sec: 5, nsec: 0 };

/// A log as it grows.
#[derive(Drop)]
pub struct Log {
    /// Whose log it is.
    pub owner: PubKey,
    /// The owner's head key.
    pub key: Key,
    /// The number and the name of the newest record; zeros where there is none.
    pub newest: Judged,
    /// The records, oldest first.
    pub records: Vec<Record>,
}

/// The owner of the log of that number. By their bytes they ascend.
fn owner(number: u8) -> PubKey {
    PubKey([number.saturating_add(1); 60])
}

/// The view of the owners of that many logs. None where memory is short, or there are no logs.
pub fn view_of(alloc: Global, count: u8) -> Option<View> {
    let mut owners = Vec::new(alloc);
    for number in 0..count {
        let Ok(()) = owners.push(owner(number)) else {
            return None;
        };
    }
    View::make(alloc, &owners, &[]).ok()
}

/// The owner's log with no records.
fn empty_log(alloc: Global, owner: PubKey) -> Log {
    Log {
        owner,
        key: head_key(&owner),
        newest: Judged {
            seq: 0,
            name: Key([0; 20]),
        },
        records: Vec::new(alloc),
    }
}

/// That many logs with no records.
fn empty_logs(alloc: Global, count: u8) -> Result<Vec<Log>, Memory> {
    let mut logs = Vec::new(alloc);
    for number in 0..count {
        logs.push(empty_log(alloc, owner(number)))?;
    }
    Ok(logs)
}

/// What the log's next record cites: the newest records of the other logs, where it cites and isn't the first.
fn cited(alloc: Global, logs: &[Log], citing: &Log, cites: bool) -> Result<Vector, Memory> {
    let mut vector = Vector::empty(alloc);
    for log in logs {
        let Judged { seq, name } = log.newest;
        if cites && citing.newest.seq > 0 && seq > 0 && log.key != citing.key {
            let log = log.key;
            vector = vector.with(alloc, Entry { log, seq, name })?;
        }
    }
    Ok(vector)
}

/// Writes the log's next record: the first one opens the log, and each other one cancels it. The error is: out of memory.
fn write(alloc: Global, log: &mut Log, vector: Vector) -> Result<(), Memory> {
    let seq = log.newest.seq.saturating_add(1);
    let record = Record {
        owner: log.owner,
        seq,
        prev: log.newest.name,
        vector,
        moment: MOMENT,
        op: if seq == 1 {
            Op::End
        } else {
            Op::Cancel { seq: 1 }
        },
        format: Format::One,
    };
    let name = record.name(alloc)?;
    log.newest = Judged { seq, name };
    log.records.push(record)?;
    Ok(())
}

/// Writes one record of each log.
fn write_each(alloc: Global, logs: &mut [Log], cites: bool) -> Result<(), Memory> {
    for i in 0..logs.len() {
        let all = &logs[..];
        let vector = cited(alloc, all, &all[i], cites)?;
        write(alloc, &mut logs[i], vector)?;
    }
    Ok(())
}

/// That many logs with that many records each, written in turn. Where the records cite, each after a log's first one
/// cites the newest record of each other log.
pub fn logs_of(alloc: Global, count: u8, len: u32, cites: bool) -> Result<Vec<Log>, Memory> {
    let mut logs = empty_logs(alloc, count)?;
    for _n in 0..len {
        write_each(alloc, logs.as_mut_slice(), cites)?;
    }
    Ok(logs)
}
