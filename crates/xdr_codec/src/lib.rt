//! Reading and writing XDR (RFC 4506).
//!
//! Layer: above `wire_model`, which spells XDR's items; it stands on `ivy_base` for bytes and running out of
//! memory. For the layers above: [`XdrWrite`] appends exactly the spelling of each item, and takes memory in
//! [`XdrWrite::reserve`] alone, so that a message is written without a way to fail once there is room for it.
//! [`XdrRead`] takes an item from the front of bytes exactly where one is spelled there, and else says why none
//! is; it takes no memory at all. [`Parts`] reads the items of a message one after the other and keeps in mind
//! that one isn't there, so that a reader of many items asks once, at the end.
//! Definitions: the spellings are `wire_model`'s; `specs/Writing.antt` has what a writer is seen as and the
//! padded length, and `specs/Reading.antt` when each fault comes. What [`Parts`] tells of an item is `Reads` of
//! `wire_model`'s `specs/Parts.antt`. `proofs/Lengths.antt` has the lengths of the spellings, by which callers
//! know how much room to ask for.
#![tactic(auto)]

pub mod fault;
mod padding;
pub mod parts;
pub mod read;
pub mod write;

pub use fault::XdrFault;
pub use parts::Parts;
pub use read::XdrRead;
pub use write::XdrWrite;
