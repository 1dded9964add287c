use ivy_base::Memory;
use thiserror::Error;

/// Why a chain was not taken into a batch. `Bad` is tested before `Fork`.
#[derive(Clone, Copy, Debug, Error)]
pub enum ChainFault {
    /// A record breaks a rule of chains, or the newest one isn't the head's.
    #[error("a record breaks a rule of chains, or the newest isn't the head's")]
    Bad,
    /// The records are of another history of the log than what is held, or than the floor.
    #[error("the records are of another history of the log")]
    Fork,
    /// Out of memory. No clause ties this to a cause.
    #[error("out of memory")]
    Memory,
}

impl From<Memory> for ChainFault {
    ghost use Rattle.std.specs.Prelude.{◌≡◌};
    ghost use Rattle.log_model.specs.declared.chain_fault.ChainFault.TheVariants.{Memory as OutOfMemory};

    ghost from_gives = { λ _ fault. fault ≡ OutOfMemory };

    fn from(_: Memory) -> Self {
        ChainFault::Memory
    }
}
