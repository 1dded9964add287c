//! Why a part or a block is not read.

ghost use Rattle.std.specs.Prelude.{◌≡◌};
ghost use Rattle.block_parts.specs.declared.fault.BlockFault.TheVariants.{Malformed as IsMalformed, Memory as NoMemory};

use ivy_base::Memory;
use std::alloc::{AllocError, AllocFailed};
use thiserror::Error;
use xdr_codec::XdrFault;

/// The bytes don't begin with what was to be read.
#[derive(Clone, Copy, Debug, Error)]
#[error("the bytes aren't what was to be read")]
pub struct Malformed;

impl From<XdrFault> for Malformed {
    fn from(_: XdrFault) -> Self {
        Malformed
    }
}

/// Why a block or a part of one is not read, where reading takes memory.
#[derive(Clone, Copy, Debug, Error)]
pub enum BlockFault {
    /// The bytes aren't what was to be read, or don't begin with it.
    #[error("the bytes aren't what was to be read")]
    Malformed,
    /// Memory ran out. No clause ties this to a cause.
    #[error("out of memory")]
    Memory,
}

impl From<Malformed> for BlockFault {
    ghost from_gives = { λ _ fault. fault ≡ IsMalformed };

    fn from(_: Malformed) -> Self {
        BlockFault::Malformed
    }
}

impl From<XdrFault> for BlockFault {
    ghost from_gives = { λ _ fault. fault ≡ IsMalformed };

    fn from(_: XdrFault) -> Self {
        BlockFault::Malformed
    }
}

impl From<Memory> for BlockFault {
    ghost from_gives = { λ _ fault. fault ≡ NoMemory };

    fn from(_: Memory) -> Self {
        BlockFault::Memory
    }
}

impl From<AllocError> for BlockFault {
    ghost from_gives = { λ _ fault. fault ≡ NoMemory };

    fn from(_: AllocError) -> Self {
        BlockFault::Memory
    }
}

impl<T: Drop> From<AllocFailed<T>> for BlockFault {
    ghost from_gives = { λ _ fault. fault ≡ NoMemory };

    fn from(_: AllocFailed<T>) -> Self {
        BlockFault::Memory
    }
}
