//! The words that every layer shares: keys and their names, moments, operations of records, owned bytes,
//! counted steps.
//!
//! Layer: the lowest; it stands on the kit's `sha1` and `sha2` alone.
//! For the layers above: [`name_of`] is exactly a block's name, by SHA-256 or SHA-1 as its first four bytes say;
//! [`head_key`] and [`number_of`] are exactly the SHA-1 digests by which logs and inodes are known, [`name_ok`] is exactly the test of a directory entry's name, and [`Bytes`] is the list of
//! its bytes. [`Steps`] is a number that takes no bytes, and that [`Steps::tick`] alone raises. Definitions:
//! `specs/Naming.antt`.
#![tactic(auto)]

pub mod bytes;
pub mod format;
pub mod key;
pub mod memory;
pub mod naming;
pub mod operation;
pub mod steps;

pub use bytes::Bytes;
pub use format::Format;
pub use key::{Key, PubKey};
pub use memory::Memory;
pub use naming::{head_key, name_of, name_ok, number_of};
pub use operation::{Change, Kind, Moment, Op};
pub use steps::Steps;
