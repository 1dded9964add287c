//! Plays scripts: reads lines from a source, obeys each, and writes what it shows to a sink.
//!
//! Layer: the top of the library, over `script_driver` (the loop over lines) and `script_machine` (what each
//! line does).
//!
//! For the program above: [`play`]. Its clauses say three things.
//! - What is written is a run of the script by the step of `world_model`.
//! - In such a run each reply of a turn is the file system's answer on the replay, from nothing, of one
//!   causally closed set of verified records. Each other reply has its cause. (The headline of `world_laws`.)
//! - In calm scripts every block whose put was acknowledged stays readable, and no call misses a block.
//!   (`calm_laws`.)
//!
//! Definitions: those of `world_model`, `world_laws`, `calm_laws` and `stage_laws`. What is promised
//! of each line stands in `specs/Promise.antt` of `stage_laws`. Here `specs/Playing.antt` has the words of
//! the clauses, and `specs/Status.antt` the statuses.
#![tactic(auto)]

mod playing;

pub use playing::{Status, play};
