//! Conflicts: the records that touch one entry of a directory, or one byte range of a file, while neither
//! knows the other (Ivy).
//!
//! Layer: over `log_records`, whose records these are, and `version_vectors`; below whoever shows them.
//!
//! For the layers above:
//! - [`conflicts`] gives exactly the list of conflicts that the definitions say (`clashes`), or says that it
//!   has more than 1,000,000 pairs. It asks that each record has a spelling, as each one has that was read.
//! - [`lists_are_exact`] is the law that, of records that ascend by rank, this list has exactly the pairs in
//!   conflict, each once, ascending by the first rank and then by the second. It says, too, what it is that
//!   two operations touch: a name that both have, or a place in the bytes of both.
//!
//! Inside, a record has marks: its names, or the pieces of 8,192 bytes that it writes and that it writes to
//! the file, or that it sets the file's size. Whatever touches a record has a mark under which that record
//! looks.
//! - `late` finds the records that don't know all the records before them. No other record is the second of a
//!   pair, so no other has marks.
//! - `numbers` has the numbers of marks, and `marked` the records under them, in order. `logs` finds the
//!   logs, and tests whether each record knows all that the one before it in its log knows.
//! - `table` finds the later records that may be in conflict with one. In each log it goes on only up to the
//!   first that knows the record, as those after know it too. Where some log forgets, it goes through all.
//! - `list` tests what was found, in order, and makes the list.
//!
//! Definitions: `log_model`'s `specs/Touching.antt` (what operations touch) and `specs/Conflicts.antt`
//! (knowing, and the list); here `specs/Conflicts.antt` (lists as the code gives them) and `specs/Laws.antt`
//! (the laws). All other files of `specs/` serve the functions inside.
//!
//! Costs, for n records of l logs: each record is compared with the newest number of each log. Where each knows
//! all before it, that is nearly all. Else the late records under their numbers, at most three each, are
//! sorted. Then for each number under which a record looks there are 2 log n steps, l log n more among the
//! records under it, and a test of each later record there that doesn't know the record. A log's place is
//! found in l steps. Memory: 16 bytes for each mark of a late record and 5 for each record, beside the list.
#![tactic(auto)]

mod knowing;
mod late;
mod laws;
pub mod list;
mod logs;
mod marked;
mod numbers;
mod table;
mod touching;

pub use laws::lists_are_exact;
pub use list::{Clash, ListFault, conflicts};
