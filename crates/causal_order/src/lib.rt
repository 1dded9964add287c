//! Which of the fetched records count: the largest causally closed part, in the order of ranks (Ivy).
//!
//! Layer: over `log_records`, whose batches bring the chains, and `log_model`, which has the definitions;
//! below whoever refreshes what is held of a view's logs.
//!
//! For the layers above:
//! - [`closed_part`] gives, with what is held, the largest causally closed part of what is held and of the
//!   chains that go on from it. Each new record comes once, ascending by rank (`IsNewPart`).
//! - Over a basis whose front is given, what is at or under the front counts as known. An entry below it
//!   counts by its number, the front's own by number and name. Over the empty front this is the closed part
//!   of `log_model` ([`closed_sets_are_lawful`]).
//! - A chain that doesn't go on from what is held of its log is left out.
//! - [`closed_part_of`] is the same for chains that were looked at, or shortened, before.
//! - After running out of memory the batch is gone, and nothing else has changed.
//!
//! Inside, `log` keeps for each member's log where its known records are, and what is still to be seen of its
//! chain; `start` sets that out. Then `pass` takes the least of the next records of all logs, if all that it
//! cites is known. Otherwise that record is left out with the rest of its log. It goes on until none is left;
//! `causes` tests one record. Each cause and each record before it in its log weighs less, so each record
//! needs to be seen only once.
//!
//! Definitions: `specs/Over.antt` (closed sets over a front), `specs/Available.antt` (what the part is taken
//! of, and the result), `specs/Laws.antt`. `specs/Passing.antt`, `specs/Kept.antt` and `specs/Started.antt`
//! serve the functions inside. For callers `proofs/Fetching.antt` has that a chain which a batch took is one
//! of which a closed part may be taken.
//!
//! Costs, for n new records that cite up to v logs, with m members and h held records:
//! - n m steps to find the least next ones, and m h to set out what is held;
//! - for each entry that cites a record v steps and the logarithm of v, n v v log v in all;
//! - the newest held record of each log is hashed once, and no other; records are moved and not copied.
#![tactic(auto)]

mod base;
mod causes;
mod laws;
mod log;
mod part;
mod pass;
mod start;

pub use laws::{batches_are_fetched, closed_sets_are_lawful};
pub use part::{closed_part, closed_part_of};
