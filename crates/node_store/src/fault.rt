//! Why a put is refused.

ghost use Rattle.std.specs.Prelude.{◌≡◌};
ghost use Rattle.node_store.specs.declared.fault.PutFault.TheVariants.{Memory as NoMemory};

use dht_ids::StoreFault;
use std::alloc::{AllocError, AllocFailed};
use thiserror::Error;

/// Why a put left the store as it was.
#[derive(Clone, Copy, Debug, Error)]
pub enum PutFault {
    /// The store doesn't take the block.
    #[error("refused: {0}")]
    Refused(StoreFault),
    /// Out of memory. No clause ties this to a cause.
    #[error("out of memory")]
    Memory,
}

impl From<AllocError> for PutFault {
    ghost from_gives = { λ _ fault. fault ≡ NoMemory };

    fn from(_: AllocError) -> Self {
        PutFault::Memory
    }
}

impl<T: Drop> From<AllocFailed<T>> for PutFault {
    ghost from_gives = { λ _ fault. fault ≡ NoMemory };

    fn from(_: AllocFailed<T>) -> Self {
        PutFault::Memory
    }
}
