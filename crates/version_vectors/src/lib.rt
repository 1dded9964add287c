//! Version vectors (Ivy) and the rank of records: what a record knows of the other logs, and the order in which
//! records are applied.
//!
//! Layer: over `xdr_codec` and `block_parts`, whose readers and writers carry the bytes, and `log_model`, which says what
//! a vector is; below the crates that read records and find out which of them are applied.
//! For the layers above: contracts see a [`Vector`] as the list of `log_model`, ascending by log, with at most one
//! entry of each log. [`Vector::get`], [`Vector::with`], [`Vector::without`], [`Vector::join`],
//! [`Vector::dominates`] and [`Vector::weight`] are exactly what the definitions of these names say.
//! [`Vector::read`] takes a vector from the front of bytes exactly where one is spelled there, and
//! [`Vector::write`] appends that spelling. A [`Rank`] is compared as the definitions compare records
//! ([`ranks_are_ordered`]). Where memory is short the vectors given stay as they were.
//!
//! Inside, `entry` is one log's part, `place` finds a log among entries and takes entries in, and `reading` reads
//! entries one by one. Definitions: `specs/Vectors.antt` has which vectors there are and which may be read,
//! `specs/Entries.antt` what the entries stand for, `specs/Reading.antt` what a failed read tells, `specs/Places.antt`
//! where a log stands, and `specs/Ranks.antt` the order of ranks. For readers of longer formats
//! `proofs/OneVector.antt` has the law of [`vectors_read_one_way`], and `proofs/Lengths.antt` how many bytes it
//! takes.
//!
//! Costs: to find a log takes the logarithm of the number of entries; a join finds each entry of the second vector in
//! the first. A result is allocated once, for a read only where the bytes for its entries are there.
#![tactic(auto)]

mod entry;
mod place;
mod rank;
mod reading;
mod vector;

pub use entry::Entry;
pub use rank::{Rank, ranks_are_ordered};
pub use reading::vectors_read_one_way;
pub use vector::Vector;
