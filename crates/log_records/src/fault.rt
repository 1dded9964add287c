//! Why no record was read.

ghost use Rattle.std.specs.Prelude.{◌≡◌};
ghost use Rattle.log_records.specs.Reading.{fault_of_block};

use block_parts::BlockFault;
use thiserror::Error;

/// Why no record was read.
#[derive(Clone, Copy, Debug, Error)]
pub enum RecordFault {
    /// The bytes aren't the block of a record of the owner's.
    #[error("the bytes are no record of the owner's")]
    Malformed,
    /// The block is above 12,288 bytes. This is tested first.
    #[error("the block is too long")]
    TooLong,
    /// The record makes an inode, of another number than the one that this record makes.
    #[error("the record makes an inode of another number than its own")]
    BadNumber,
    /// Out of memory. No clause ties this to a cause.
    #[error("out of memory")]
    Memory,
}

impl From<BlockFault> for RecordFault {
    ghost from_gives = { λ block fault. fault ≡ fault_of_block block };

    fn from(block: BlockFault) -> Self {
        match block {
            BlockFault::Malformed => RecordFault::Malformed,
            BlockFault::Memory => RecordFault::Memory,
        }
    }
}
