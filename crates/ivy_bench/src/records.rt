//! Times of writing and reading records, beside the time of copying as many bytes.

use crate::measured::{Copies, Measured, Task, repeat};
use crate::words::Words;
use ivy_base::{Bytes, Format, Key, Memory, Moment, Op, PubKey};
use log_records::Record;
use std::alloc::Global;
use std::rt::Clock;
use version_vectors::{Entry, Vector};

const OWNER: PubKey = PubKey([9; 60]);

const MOMENT: Moment = Moment {
    sec: 1_000_000_000,
    nsec: 5,
};

/// The logs that the record cites.
const LOGS: u8 = 16;

/// A vector of that many logs, each with its own number.
fn vector(alloc: Global) -> Result<Vector, Memory> {
    let mut vector = Vector::empty(alloc);
    for log in 0..LOGS {
        let entry = Entry {
            log: Key([log; 20]),
            seq: 1000,
            name: Key([7; 20]),
        };
        vector = vector.with(alloc, entry)?;
    }
    Ok(vector)
}

/// A record that writes these bytes.
fn record(alloc: Global, bytes: Bytes) -> Result<Record, Memory> {
    Ok(Record {
        owner: OWNER,
        seq: 1001,
        prev: Key([8; 20]),
        vector: vector(alloc)?,
        moment: MOMENT,
        op: Op::Write {
            ino: Key([3; 20]),
            offset: 8192,
            bytes,
        },
        format: Format::One,
    })
}

/// A writing of the record.
#[derive(Clone, Copy)]
struct Writes<'a>(&'a Record);

impl Task for Writes<'_> {
    fn turn(&mut self, alloc: Global) -> bool {
        self.0.write(alloc).is_ok()
    }
}

/// A reading of the block of the record.
#[derive(Clone, Copy)]
struct Reads<'a>(&'a [u8]);

impl Task for Reads<'_> {
    fn turn(&mut self, alloc: Global) -> bool {
        Record::read(alloc, self.0, &OWNER).is_ok()
    }
}

/// Measures what is asked for, of a record and its block. None where that is nothing of this family.
fn time_with<R: Clock>(
    rt: &R,
    alloc: Global,
    words: &mut Words<'_>,
    record: &Record,
    block: &[u8],
) -> Option<Measured> {
    let what = words.word();
    let count = words.number();
    match what {
        "copy" => repeat(rt, alloc, "copied", count, &mut Copies(block)),
        "write" => repeat(rt, alloc, "written", count, &mut Writes(record)),
        "read" => repeat(rt, alloc, "read", count, &mut Reads(block)),
        _ => None,
    }
}

/// The same, of a record.
fn time_record<R: Clock>(
    rt: &R,
    alloc: Global,
    words: &mut Words<'_>,
    record: &Record,
) -> Option<Measured> {
    match record.write(alloc) {
        Ok(block) => time_with(rt, alloc, words, record, block.as_slice()),
        Err(_) => None,
    }
}

/// Measures what the words ask for. None where they ask for nothing of this family, or memory is short.
pub fn answer<R: Clock>(rt: &R, alloc: Global, words: &mut Words<'_>) -> Option<Measured> {
    let bytes = Bytes::copy_of(alloc, [5u8; 8192].as_slice()).ok()?;
    match record(alloc, bytes) {
        Ok(record) => time_record(rt, alloc, words, &record),
        Err(Memory) => None,
    }
}
