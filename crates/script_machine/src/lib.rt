//! A script's world with its open sessions, as a machine that takes the script's lines.
//!
//! Layer: over `script_world` (all but open sessions), `session_steps` (calls), `command_lines` (the lines)
//! and `script_driver`, by the definitions of `world_model` and the laws of `world_laws` and `stage_laws`;
//! below `play`.
//!
//! For the layer above: [`ScriptMachine`] is a machine of `script_driver`. Its abstract states are worlds of
//! `world_model` with their ghost state.
//! - It represents every abstract world that agrees with it (`RepresentsWorld` in `specs/WorldState.antt`). A
//!   world in code has no ghost state, keeps no list of the heads that left an agent, and a session in code
//!   may represent many.
//! - Its step is `PromisedStep` of `stage_laws`: the step of all lines, together with what is promised of
//!   each (the headline, and what calm scripts may rely on).
//! - [`ScriptMachine::new`] represents the world in which a script begins.
//!
//! Within, sessions are driven by functions of the machine, and every other line by functions of its parts.
//! Each does what the definitions say, in each world that the machine may represent and that satisfies the
//! invariant (`LineDoes`). The only errors are running out of memory and 2^64 asks; after an error the
//! machine is of no more use.
//!
//! Definitions: `specs/WorldState.antt`, `specs/Ends.antt`, `specs/Limits.antt`, and those of `world_model`.
//!
//! Lemmas:
//! - `proofs/Taking.antt`: what a line does, from what its command does;
//! - `proofs/Opened.antt`: the open sessions of a world and of the code's;
//! - `proofs/Hands.antt`: sessions in progress;
//! - `proofs/Lines.antt`: lines of calls;
//! - `proofs/Joined.antt`: lines of participants;
//! - `proofs/Snapped.antt`: the line that makes a snapshot;
//! - `proofs/StayingRing.antt`: lines that leave as many owners of a key;
//! - `proofs/OtherLines.antt`: lines that need no session.
//!
//! Costs: an open session is found by a walk over the names, and one that ends moves those after it.
#![tactic(auto)]

mod calls;
mod commands;
mod machine;
mod participants;

pub use machine::ScriptMachine;
