//! What a turn of an agent takes of what a refresh brought: the new records that count, and the front of all
//! afterwards.
//!
//! Layer: over `causal_order`, which takes the largest closed part, and `agent_model`, which says what a turn
//! takes; below whoever takes turns.
//!
//! For the layers above: [`take`] goes by what is held alone, and by the batch; it presumes nothing about
//! names. Over each basis of the given front, and the given records above it, it answers as the definitions
//! do ([`Taken`]).
//! - `Behind` comes exactly in two cases. The refresh began with more than is held; or the record of a
//!   member's log that the floor names is neither held nor new.
//! - Otherwise `BelowTide` comes exactly where a new record isn't above the basis.
//! - Otherwise it gives the new records of the largest closed part of what is held and of the chains that go
//!   on from it, each once and ascending by rank. With them comes the front of the basis, the held records
//!   and these.
//! - That front again names logs of the view alone, and of the own log it goes no further than the floor. Of
//!   the own log only what the floor names is taken.
//! - After running out of memory the batch is gone, and nothing else has changed.
//!
//! Inside:
//! - `cutting` leaves of each chain what is within the floor, and `beyond` finds the records of a chain that
//!   are new over what is held;
//! - `lacking` and `tide` are the two refusals;
//! - `fronts` joins the front with the new records, by the names that `names` read off the chains;
//! - of a chain's new records only the first is compared with the basis, since the later ones know what it
//!   knows;
//! - `numbers` and `keys` are what these share.
//!
//! Definitions: those of `agent_model` (there `specs/Taking.antt` and `specs/Turning.antt`). Here
//! `specs/Taking.antt` joins them to the code's types; `specs/Chains.antt`, `specs/Naming.antt` and
//! `specs/Steps.antt` serve the functions inside.
//!
//! Costs: those of a closed part, and for each new record a join of its vector with the front. No record is
//! hashed here. A log's head key is hashed twice for each chain; those of members the view keeps. 20 bytes are kept
//! for each fetched record until the front is joined; records are moved and not copied.
#![tactic(auto)]

mod beyond;
mod cutting;
mod fronts;
mod keys;
mod lacking;
mod names;
mod numbers;
pub mod taking;
mod tide;

pub use taking::{Held, Taken, take};
