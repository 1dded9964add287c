//! A script's world without its open sessions: the lines that need none, and how sessions go on beside it.
//!
//! Layer: over the nodes and rounds of `ring_nodes`, the participants of `script_participants`, and the calls
//! and met blocks of `session_steps`. The definitions are those of `world_model`. Above it is the machine
//! that has the open sessions too.
//!
//! For the layer above: contracts see [`Parts`] as `PartsState` (`specs/PartsState.antt`). They speak of each
//! abstract world that has these parts (`HasParts`). A line does in it what the definitions say; the world
//! afterwards has the new parts and the same open sessions (`DoesIn`; `PlaysIn` for a world with its ghost
//! state).
//! - So it is with [`Parts::ring`], [`Parts::join`], [`Parts::round`], [`Parts::stop`], [`Parts::at`],
//!   [`Parts::make_view`] (the line `view`), [`Parts::lose`], [`Parts::damage`], [`Parts::keep`] and
//!   [`Parts::show`] (each line that shows something).
//! - [`Parts::use_view`] (the line `use`) does so too, but sessions may end (`EndsSessionsIn`).
//! - [`Parts::restart`] does so in worlds that satisfy the invariant (`EndsSessionsWell`,
//!   `specs/Starting.antt`).
//! - [`Parts::begin_log`] is the line `log` up to where its agent publishes, which takes a session
//!   (`BeginsIn`, `specs/NewParticipants.antt`).
//! - [`Parts::begin_snap`] is the line `snap` up to where its agent publishes, likewise (`SnapsIn`,
//!   `specs/Snapping.antt`).
//! - The only errors are running out of memory and 2^64 asks; after an error the world is of no more use.
//!
//! Sessions are calls beside the parts, found by the name of their participant.
//! - [`Parts::begin_call`] begins one with what a line sends, in each world that has the parts (`BeginsOf`,
//!   `specs/Running.antt`).
//! - [`Parts::step_on`] makes a number of steps and [`Parts::run_out`] all that are left, from each
//!   configuration in progress in such a world (`IsConfigurationIn`). They reach one whose world has the new
//!   parts and the same open sessions (`StepsOnIn`, `RunsOutIn`).
//! - [`Parts::publish`] is all that a participant publishes (`PublishesIn`).
//! - [`Parts::take_reply`] keeps what a finished session leaves to later lines (`RepliesIn`).
//!
//! Within, `made_views` makes a view of public keys in any order, with these keys ascending, or says why
//! there is none (`specs/Made.antt`). That such a view may be made is proved in `world_laws`
//! (`proofs/MadeViews.antt`), which the proofs here cite.
//!
//! Definitions: `specs/*.antt`, and of `world_model` `specs/Logs.antt`, `specs/Ring.antt`,
//! `specs/Rounds.antt`, `specs/Faults.antt` and `specs/Shows.antt`.
//!
//! Lemmas: `proofs/NamedIn.antt` (what a line names), `proofs/Keeping.antt` (a participant that is named and
//! changed), `proofs/Taking.antt` (the outcome of a line that was taken). Over them stands a file for the
//! lines of each kind. `proofs/Sent.antt`, `proofs/Going.antt` and `proofs/Published.antt` are about sessions
//! that begin, go on, and only publish.
//!
//! Costs: a participant or a view is found by a walk over the names, and a node by a walk over the nodes.
//! `holds` copies all blocks of the node. Each key of a view is hashed once to see that its log stands once,
//! and once more where the view is made. The keys are put in order by std's sort, in the rows that were
//! given.
#![tactic(auto)]

mod faults;
mod joining;
mod made_views;
mod naming;
mod new_participants;
mod parts;
mod running;
mod setup;
mod shows;
mod snapping;
mod starting;
mod views;

pub use parts::Parts;
pub use snapping::SnapEnd;

// a call in progress, which the parts go on with
pub use session_steps::OpenCall;
