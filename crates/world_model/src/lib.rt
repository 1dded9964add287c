//! What playing a script is: the world, its ghost state, and what each line does in it.
//!
//! Layer: definitions and no code, over `session_model`, the ring's definitions and `script_model`.
//!
//! A world (`World`) is what is stored between two lines. Its ghost state (`GhostState`) is what no code
//! keeps and only the laws speak of. It is the records that agents know, the heads that they received, the
//! answered turns and the acknowledged puts. The step is over both. A program that keeps worlds owes a step
//! for every ghost state that fits its world.
//!
//! Definitions, in reading order:
//! - `specs/Agents.antt`: the agents, at signers of several levels;
//! - `specs/Keepers.antt`, `specs/Nodes.antt`, `specs/World.antt`, `specs/GhostState.antt`;
//! - `specs/Fates.antt`: the fate of an ask;
//! - `specs/Steps.antt`: the steps of a session;
//! - the lines: `specs/Ring.antt`, `specs/Rounds.antt`, `specs/Logs.antt`, `specs/Calls.antt`,
//!   `specs/Faults.antt`, `specs/Shows.antt`;
//! - `specs/Step.antt`: the step of a script;
//! - `specs/RingOf.antt`, `specs/Holding.antt`: which nodes live, and what they hold.
#![tactic(auto)]
