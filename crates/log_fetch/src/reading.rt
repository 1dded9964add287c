//! What a walk learns from a block.

ghost use Rattle.std.specs.Prelude.{◌≡◌, ◌≤◌, length, take, drop, IfOk};
ghost use Rattle.log_fetch.specs.Reading.{Says};

use ivy_base::{Key, Memory, PubKey};
use log_records::{Record, RecordFault};
use std::alloc::Global;

/// What a block says.
#[derive(Drop)]
pub(crate) enum Reading {
    /// It is a record of the owner's.
    Good(Record),
    /// It is one that makes an inode of another number than it may; the name of the record before it.
    Misnumbered(Key),
    /// It is no record of the owner's.
    Garbled,
}

/// What the block says as one of the owner's records. The error is: out of memory.
pub(crate) fn read(alloc: Global, bytes: &[u8], owner: &PubKey) -> Result<Reading, Memory>
    ensures { IfOk result (Says owner.now bytes.now) }
{
    match Record::read(alloc, bytes, owner) {
        Ok(good) => Ok(Reading::Good(good)),
        Err(fault) => match fault {
            RecordFault::Memory => Err(Memory),
            RecordFault::BadNumber => Ok(Reading::Misnumbered(name_before(bytes))),
            _ => Ok(Reading::Garbled),
        },
    }
}

/// The name of the record before it, at its place in a record's block.
fn name_before(block: &[u8]) -> Key
    requires { 48 ≤ length block.now }
    ensures { result.0 ≡ take 20 (drop 28 block.now) }
{
    let mut name = [0; 20];
    name.copy_from_slice(&block[28..48]);
    Key(name)
}
