//! The arguments of NFS version 3 and MOUNT, from bytes and as bytes (RFC 1813).
//!
//! Layer: above `xdr_codec`, whose reader and writer carry the items, and `nfs_model`, whose types it gives on; below
//! the service that answers calls, and the programs that make them.
//! For the layers above: [`read_args`] takes exactly the bytes that are a procedure's arguments, whole and with nothing
//! after them, and calls all others garbage; [`write_args`] gives exactly the bytes of arguments, and running out of
//! memory where a string has 2^32 bytes or more. What was written is read back as it was where the arguments are within
//! the bounds of `ArgumentsFit`, since the bytes are of one value alone (`nfs_model`'s law
//! `arguments_are_unambiguous`).
//!
//! Inside, bytes are read from left to right by small functions, which keep in mind that a part was missed
//! (`xdr_codec`'s `Parts`), so that [`read_args`] asks once, after the last part: `parts` for what several procedures
//! share, `attributes` for what is asked of attributes and for the unions, `nfs` and `mount` for the procedures;
//! `part_writing`, `attribute_writing` and `write` are their counterparts.
//!
//! Definitions: the bytes are `arguments`, and what is read `AreArguments`, of `nfs_model`'s `specs/Arguments.antt`;
//! `specs/Reading.antt` has when bytes are refused, `specs/Writable.antt` which arguments have bytes, `specs/Room.antt`
//! the room. Of `specs/Parts.antt` only the functions inside speak.
//!
//! Costs: arguments are read in one pass, and each handle, name, text, path and WRITE's data is copied once, into the
//! memory that it owns; none is taken for a length that no bytes stand after. They are written with one allocation, of
//! at most 80 bytes more than they have.
#![tactic(auto)]

mod attribute_writing;
mod attributes;
mod mount;
mod nfs;
mod part_writing;
mod parts;
pub mod read;
mod room;
pub mod write;

pub use nfs_model::{Args, ArgsFault, How, SetTime, SetWhat, SpecialNode};
pub use read::{MOUNT_PROGRAM, NFS_PROGRAM, read_args};
pub use write::write_args;
