//! Records that do operations.

ghost use Rattle.std.specs.Prelude.{IfOk};
ghost use Rattle.log_model.specs.Spelling.{HasSpelling};
ghost use Rattle.log_records.specs.Records.{record_of};

use crate::inodes::OWNER;
use ivy_base::{Bytes, Format, Key, Memory, Moment, Op};
use log_records::Record;
use std::alloc::Global;
use version_vectors::Vector;

/// The block of the owner's record of that number.
fn block(alloc: Global, seq: u32, moment: Moment, op: Op) -> Result<Bytes, Memory> {
    let record = Record {
        owner: OWNER,
        seq,
        prev: Key([5; 20]),
        vector: Vector::empty(alloc),
        moment,
        op,
        format: Format::One,
    };
    let block = record.write(alloc);
    drop(record);
    block
}

/// The owner's record of that number, which does the operation at that moment. It is read from its block, so it has one; the
/// error comes where it has none, and when out of memory.
pub fn record(alloc: Global, seq: u32, moment: Moment, op: Op) -> Result<Record, Memory>
    ensures { IfOk result (λ r. HasSpelling (record_of r)) }
{
    let block = block(alloc, seq, moment, op)?;
    match Record::read(alloc, block.as_slice(), &OWNER) {
        Ok(record) => Ok(record),
        Err(_) => Err(Memory),
    }
}
