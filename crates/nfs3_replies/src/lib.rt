//! The results of NFS version 3 and MOUNT as bytes (RFC 1813).
//!
//! Layer: above `xdr_codec` and `nfs_model`, whose types it gives on.
//! For the layers above, writing: [`write_reply`] gives exactly the bytes of a result, from its status on, and
//! [`put_reply`] appends them to a message, as after the head of an RPC reply; where it fails because memory ran out,
//! nothing was written. [`room_for`] says how much room it asks for, so that a caller can make room for the head and the
//! result at once. A result that shows a string of 2^32 bytes or more is not written, which counts as running out of
//! memory. What is written is at most as long as its parts imply: a page of directories is no longer than what it was
//! measured by.
//!
//! Reading: [`read_reply`] gives exactly the reply that the bytes are to a procedure, and `Garbage` exactly where
//! they are none. Each part of a result has one spelling, so there is one such reply at most, and written again it has
//! the same bytes.
//!
//! Costs: writing goes once through the reply, into room that is asked for once. Reading goes once through the bytes;
//! strings and contents are copied once, after they were found whole, and a page grows by the entries that were read, so
//! no memory is taken for a length that no bytes stand after.
//!
//! Definitions: the bytes are `result` of `nfs_model`'s `specs/Results.antt`; `specs/Writable.antt` has which
//! results have bytes, `specs/Room.antt` the room, `specs/Sizes.antt` the most bytes of a result, and
//! `specs/Reading.antt` which bytes are a reply to which procedure. `specs/ReadParts.antt` names the parts in the order
//! in which they are read, for the functions inside.
#![tactic(auto)]

mod attributes;
mod attributes_reading;
mod constants;
mod forms;
mod forms_reading;
mod mount_reading;
mod pages;
mod pages_reading;
mod reading;
mod reply;
mod room;

pub use nfs_model::{ArgsFault, Fattr, Listed, NfsStatus, Page, Reply, Tail, Wcc, WccBefore};
pub use reading::read_reply;
pub use reply::{put_reply, write_reply};
pub use room::room_for;
