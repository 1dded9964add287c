//! Calls of a script's world, driven a step at a time or to their end.
//!
//! Layer: over `ivy_session` and what a world has in code (`ring_nodes`, `script_participants`, and here
//! [`MetBlocks`]), by the definitions of `world_model` and the laws of `world_laws`; below a script's world.
//! The module `laws` says what a call of a session in code, a turn of its agent and an ask of a node are in a
//! world.
//!
//! For the layer above: an [`OpenCall`] is a session of one participant, with what its reply gives to later
//! lines and what it has answered. It may represent many sessions of the definitions (`RepresentsSession` in
//! `specs/Representing.antt`). Together with the nodes, the participant, the blocks met and the moment it
//! represents configurations of the definitions (`Represents`).
//! - [`OpenCall::begin`] begins one with a message, [`OpenCall::publish`] one that only publishes.
//! - [`OpenCall::step`] makes one step of each represented configuration in progress, or none where the call
//!   is over (`StepsFrom`). [`OpenCall::step_on`] makes a number of steps, [`OpenCall::run_out`] all up to
//!   the end (`RunsOutFrom`).
//! - [`OpenCall::shown`] is what a line shows of a call that is over.
//! - Running out of memory ends everything.
//!
//! [`MetBlocks`] are the blocks that a script has met, each once, and how many bytes they have. Contracts see
//! each block with its place, and speak of the list of the definitions that has the same blocks in the order
//! in which they were met (`AreMet` in `specs/MetState.antt`). [`MetBlocks::in_order`] copies that list.
//!
//! Definitions: `specs/Configurations.antt`, `specs/Representing.antt`, `specs/Ending.antt`. Within:
//! `specs/Laws.antt` (the laws' statements) and `specs/Within.antt` (the contracts of the calls within a
//! step).
//!
//! Lemmas:
//! - `proofs/Configurations.antt`: what is represented after a step of a configuration;
//! - `proofs/Asks.antt`, `proofs/Turns.antt`, `proofs/Ends.antt`: whatever the session wants next, it is a
//!   step;
//! - `proofs/Arms.antt` and `proofs/Many.antt`: less is left after a step, and many steps;
//! - `proofs/Begun.antt` and `proofs/Lines.antt`: what is shown at the end;
//! - `proofs/Parts.antt`.
//!
//! What is said of a session alone, whoever drives it, is in the lemmas of `ivy_session`.
//!
//! Costs: meeting a block takes as many comparisons as the logarithm of the number of blocks. A new block is
//! copied once; nothing is hashed. Each block is kept once, with its place.
#![tactic(auto)]

mod ending;
mod laws;
mod met;
mod open;
mod stepping;

pub use met::MetBlocks;
pub use open::OpenCall;
