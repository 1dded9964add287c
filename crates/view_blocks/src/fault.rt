use ivy_base::Memory;
use thiserror::Error;

/// Why a view can't be made or read. The tests are made in this order.
#[derive(Clone, Copy, Debug, Error)]
pub enum ViewFault {
    /// The bytes aren't the block of two lists of public keys.
    #[error("the bytes are no block of two lists of public keys")]
    Malformed,
    /// There is no member.
    #[error("there is no member")]
    NoMember,
    /// There are more than 16 members, or more than 16 former ones.
    #[error("there are too many members or former members")]
    TooMany,
    /// One of the two lists doesn't ascend strictly by the bytes of its keys.
    #[error("a list of keys doesn't ascend")]
    Order,
    /// Two keys of the view have one head key: so also where a key stands in both lists.
    #[error("two keys have one head key")]
    Overlap,
    /// Out of memory.
    #[error("out of memory")]
    Memory,
}

impl From<Memory> for ViewFault {
    ghost use Rattle.std.specs.Prelude.{◌≡◌};
    ghost use Rattle.view_blocks.specs.declared.fault.ViewFault.TheVariants.{Memory as OutOfMemory};

    ghost from_gives = { λ _ fault. fault ≡ OutOfMemory };

    fn from(_: Memory) -> Self {
        ViewFault::Memory
    }
}
