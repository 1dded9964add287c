//! The parts that blocks of records, views, snapshots and what is saved share: read from the front of bytes, and appended.
//!
//! Layer: over `xdr_codec`, whose readers and writers carry the bytes, and `log_model`, which says what a key, a moment
//! and the number of a kind are; below the crates that read and write blocks of one form.
//! For the layers above: each reader takes its part from the front exactly where one with its bounds is spelled there
//! (`IsFront` of `wire_model`); else it says [`Malformed`], and may stand anywhere. None takes memory. Each `put_` function
//! appends exactly the spelling of its part, and wants room for it (`spare` of a writer), so that it can't fail. Readers
//! above that do take memory say [`BlockFault`].
//!
//! Inside, `reading` and `writing` have one function for each part, and `bounds` the numbers that bound them.
//! Definitions: `specs/Parts.antt` has the spellings, bounds and sizes that are not `log_model`'s. For readers of whole
//! blocks `proofs/OneParts.antt` and `proofs/Constants.antt` have that a part can be read in one way only,
//! `proofs/Optional.antt` where a part that may be left out can't be read, `proofs/Blocks.antt` what the arrays of
//! [`read_blocks`] say of values that are such arrays, `proofs/Bytes.antt` when bytes are so many, and
//! `proofs/Tested.antt` what tests of bytes tell.
#![tactic(auto)]

mod bounds;
mod fault;
mod reading;
mod writing;

pub use bounds::{LONGEST_FILE, LONGEST_NAME, LONGEST_PIECE, LONGEST_TARGET, NO_NAME};
pub use fault::{BlockFault, Malformed};
pub use reading::{
    check_block, check_bytes, read_at_most, read_block, read_blocks, read_constant, read_key,
    read_kind, read_moment, read_name, read_size,
};
pub use writing::{kind_number, opaque_len, put_constant, put_key, put_moment, put_owner};
