//! Why neither arguments nor a result are read.

ghost use Rattle.std.specs.Prelude.{◌≡◌};
ghost use Rattle.nfs_model.specs.declared.fault.ArgsFault.TheVariants.{Garbage as IsGarbage, Memory as NoMemory};

use ivy_base::Memory;
use std::alloc::AllocFailed;
use thiserror::Error;
use xdr_codec::XdrFault;

/// Why bytes were not read as a procedure's arguments, or as its result.
#[derive(Clone, Copy, Debug, Error)]
pub enum ArgsFault {
    /// The bytes are no arguments of the procedure (RFC 5531, section 9, GARBAGE_ARGS), or no result of it.
    #[error("the bytes are no arguments of the procedure, or no result of it")]
    Garbage,
    /// Memory ran out. No clause ties this to a cause.
    #[error("out of memory")]
    Memory,
}

impl From<XdrFault> for ArgsFault {
    ghost from_gives = { λ _ fault. fault ≡ IsGarbage };

    fn from(_: XdrFault) -> Self {
        ArgsFault::Garbage
    }
}

impl From<Memory> for ArgsFault {
    ghost from_gives = { λ _ fault. fault ≡ NoMemory };

    fn from(_: Memory) -> Self {
        ArgsFault::Memory
    }
}

impl<T: Drop> From<AllocFailed<T>> for ArgsFault {
    ghost from_gives = { λ _ fault. fault ≡ NoMemory };

    fn from(_: AllocFailed<T>) -> Self {
        ArgsFault::Memory
    }
}
