//! Replay of records that come late: records above a basis in order, the tree that they make of it, and a
//! checkpoint at each multiple of 64.
//!
//! Layer: over `log_records`, whose records these are, and `fs_tree`; below whoever takes turns.
//!
//! For the layer above: contracts see an [`Engine`] as its basis, the records above it, and what it held
//! before each call that can be undone, newest first (`specs/Engines.antt`).
//! - Calls that can be undone: none at first, one more with each [`Engine::absorb`] or [`Engine::append`]
//!   that succeeds, but two at most, and one less with each [`Engine::undo`].
//! - Wherever new records go, [`Engine::records`] are all in order, and [`Engine::tree`] is what they make of
//!   the basis's tree (`kept_tree` in `turn_model`).
//! - [`Engine::undo`] gives exactly what was held before, and takes no memory. [`Engine::tree_before`] is the
//!   tree that it would give.
//! - After running out of memory nothing has changed but the steps.
//! - [`replay_is_incremental`] is the law. Over a basis that stands for a closed set of records, and after
//!   any calls with records above its tide, the tree is a replay. It is the replay of that set and of the
//!   records of the calls that stand.
//!
//! How many records are applied is exact, each with a step. Say that m records are new, and the first goes to
//! place p among n held ones. Then m are applied if p = n, else n + m - 64 * (p / 64) (`applied_for` in
//! `turn_model`). A step is one turn of the loop in `replaying`, which ticks and applies one record. That
//! nothing else here applies records is to be read.
//!
//! Rows of records that ascend by rank: [`merge`], [`front`] and [`replay`] are named for `in_order`, `front`
//! and `replay` of `log_model`, of the records as contracts see them (`records_of`). What [`merge`] leaves
//! ascends again, and each of its records has a spelling. After running out of memory rows are as they were;
//! a tree to which records were being applied ([`apply_records`]) is of no more use.
//!
//! Inside, `replaying` is that loop. `state` is the records, the tree and the checkpoints, with what a call
//! replaces of them. `copies` copies records. `greatest` takes the greatest record out of two rows, by which
//! [`merge`] makes the union from its end.
//!
//! Definitions: `specs/Rows.antt` (rows), `specs/Places.antt` (where new records go and what is asked of
//! them), `specs/Replays.antt` (the trees at the checkpoints), `specs/States.antt` (what is kept),
//! `specs/Laws.antt` (the law).
//!
//! Costs: beside the records that it applies, each call copies the tree once, and again for each checkpoint
//! that it passes. A copy takes constant time, since copies of a tree share; a copy that is kept costs what
//! was changed since. A call with late records also copies the records after the first one's place; the
//! originals are kept until the call can't be undone. A place is found by as many ranks as the logarithm of
//! the number of records. Undoing a call moves what it replaced into place again.
#![tactic(auto)]

mod copies;
pub mod engine;
mod greatest;
mod laws;
mod replaying;
pub mod sets;
mod state;

pub use engine::Engine;
pub use laws::replay_is_incremental;
pub use sets::{apply_records, front, merge, replay};
