//! Laws of lines and of runs: what is promised of each line of a script.
//!
//! Layer: laws and no code, over the laws of `world_laws` and `calm_laws` and the runs of
//! `script_driver`, by the step of `world_model` (`IvyStep`); below the machine that takes a script's lines.
//!
//! - A script begins in a world that satisfies the invariant; each line preserves that, has an outcome, and
//!   stops if it is too long ([`lines_keep_all`]).
//! - The headline holds of each line of a run ([`runs_have_headline`]).
//! - A run is one in which memory never runs out, or it tells where memory ran out or names clash
//!   ([`runs_tell_of_memory`]).
//! - The promise of a line holds of each (`Promise` in `specs/Promise.antt`), so a machine may name the step
//!   with its promise ([`lines_are_promised`]). It is the headline, service in calm scripts, the cause of
//!   each status that no tree gives (`StatusesAreTold` in `specs/Outputs.antt`), that refreshes which are
//!   given all end in a turn (`RefreshesAreComplete` in `specs/Given.antt`), and what stands in the worlds
//!   before and after the line (`Stands` in `specs/Stands.antt`).
//! - In a run in which no line makes a snapshot no refresh is misled ([`no_turn_is_misled`]).
//! - Some statuses of NFS come from the tree alone, and others from blocks, the key or the keeper
//!   ([`trees_refuse_by_themselves`]).
//!
//! Definitions: `specs/Stage.antt`, `specs/Told.antt`, `specs/Stands.antt`, `specs/Outputs.antt`,
//! `specs/Given.antt`, `specs/Promise.antt`; statements: `specs/Laws.antt`, `specs/FullRuns.antt`,
//! `specs/Misled.antt`, `specs/Statuses.antt`. Lemmas: `proofs/Lines.antt` (lines), `proofs/Told.antt`
//! (sessions and turns), `proofs/Stands.antt` (worlds), `proofs/Signing.antt` (what leaves sign),
//! `proofs/Outputs.antt` (what the bytes of a reply line tell), `proofs/Given.antt` (what a refresh fails
//! by), `proofs/Promised.antt`, `proofs/Replies.antt` (runs), `proofs/FullRuns.antt`, `proofs/Misled.antt`,
//! `proofs/Statuses.antt`.
#![tactic(auto)]

mod laws;

pub use laws::{
    lines_are_promised, lines_keep_all, no_turn_is_misled, runs_have_headline, runs_tell_of_memory,
    trees_refuse_by_themselves,
};
