//! Why bytes show no fork.

use ivy_base::Memory;
use thiserror::Error;

/// Why bytes show no fork. The tests are made in this order.
#[derive(Clone, Copy, Debug, Error, PartialEq, Eq)]
pub enum ProofFault {
    /// The bytes aren't two heads of one log and as many blocks as their numbers differ by, at most 1,024.
    #[error("the bytes are no fork proof")]
    Malformed,
    /// The first head, 1 or 2, whose signature isn't accepted.
    #[error("the signature of head {0} is wrong")]
    HeadWrong(u32),
    /// The first block, counted from 1, that isn't the record of the log to which what stands before it leads.
    #[error("block {0} isn't the record that is named before it")]
    Unlinked(u32),
    /// The second head leads to what the first one names.
    #[error("the heads are of one history")]
    NoFork,
    /// Out of memory. No clause ties this to a cause.
    #[error("out of memory")]
    Memory,
}

impl From<Memory> for ProofFault {
    ghost use Rattle.std.specs.Prelude.{◌≡◌};
    ghost use Rattle.fork_proof.specs.declared.fault.ProofFault.TheVariants.{Memory as OutOfMemory};

    ghost from_gives = { λ _ fault. fault ≡ OutOfMemory };

    fn from(_: Memory) -> Self {
        ProofFault::Memory
    }
}
