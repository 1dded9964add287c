//! Who writes logs in a script, and what their agents are asked for.
//!
//! Layer: over `ivy_agent`, whose agents sign with `hss_keys` and are kept in memory (`ivy_io`), and over `block_cache`, by the
//! definitions of `world_model`; below worlds.
//! For the layers above: contracts see a [`Participant`] as that of the definitions without the heads that left it, which only
//! laws speak of (`state_of` in `specs/ParticipantState.antt`), and [`Participants`] as the list of them in the order of their
//! lines. What they say of a world is about each world that has these participants (`HasParticipants`). [`Participant::open`] is
//! `new_participant`. [`Participant::enter`] is `entering` where the next save fails as the keeper plans it
//! (`specs/InView.antt`), and [`Participant::turn`] a `Turns` of the definitions by the same answer to whether the save fails
//! (`specs/Turning.antt`); what is to be published then counts as made by [`Participant::count_made`]. [`Participant::restart`]
//! gives `restored` of what its keeper holds, of which what is to be published counts as made, or tells that it is in no view, or
//! that the keeper holds the bytes of nothing that may be saved (`specs/Restarting.antt`). [`Participant::plan_fault`] is
//! `with_fault`, [`Participant::settle`] is `settled`, [`Participant::record_made`] gives the name that a script says by a
//! number. [`Participant::work_text`], [`Participants::order_text`] and [`Participants::conflicts_text`] are what the lines of
//! these names show, and [`Participants::keys_of`] are the public keys that a view is made of. [`Participants::at`] lends one to
//! be changed, and [`Participant::cache`] its cache; [`Participant::standing`] is what its sessions are given of its agent.
//! Lemmas to cite: `changed_has` of `proofs/Places.antt`: where no two have one name, a world with the changed one has the
//! participants then.
//! Definitions: `specs/*.antt`, and `world_model`'s `specs/Agents.antt`, `specs/Keepers.antt`, `specs/Logs.antt` and
//! `specs/Shows.antt`.
//!
//! Costs: a participant is found by a walk over the names, and a log's name by a walk over the keys. A record that counts as made
//! is looked for among the numbers of those that do. Entering a view and starting
//! again make an empty cache.
#![tactic(auto)]

mod end;
mod making;
mod participant;
mod participants;
mod text;

pub use end::{EnterEnd, RestartEnd};
pub use participant::Participant;
pub use participants::Participants;
