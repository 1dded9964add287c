//! One value for several threads, and one legal history of the turns that they take with it.
//!
//! Layer: over the kit's `atomic_table`, of which a gate has one word, one slot and a seat for each pass; below whatever
//! shares a value between threads, and says for it what it is to stand for turns.
//! For the layers above: a [`Sequential`] is a value with a relation: an opening value took these turns, and this value
//! stands for them. A [`Turn`] on its way to it leaves an entry, or a fault and none; a [`Visit`] leaves none.
//! - A [`Gate`] holds one such value, and each thread has a [`Pass`]. All entries make one legal history
//!   ([`Pass::is_own_history`]): some value stands for each beginning of it, and each pass's calls are numbered from 1.
//! - [`Gate::take_turn`]: at `Ok` the turn is the last entry of what the pass has then seen, which begins with what it had
//!   seen before. After a fault, and after [`Gate::visit`], the pass has seen the history that the found value stood for.
//! - Of a pass's own calls its history has exactly those that answered `Ok`, each once.
//! - [`Gate::split`] gives one part of a pass to a new pass, and [`Gate::meet`] gives two passes the longer of their
//!   histories. [`Gate::close`] ends a gate exactly where its passes have all 2^32 parts, and gives the value after the whole
//!   history, which has the calls of these passes and no others.
//!
//! Not said: that a waiting call returns, who comes first, and any order between passes that never met.
//! Definitions: `specs/Histories.antt` (entries and legal histories), `specs/Passes.antt` (gates and passes as contracts see
//! them), `specs/Rules.antt` (what holds between two steps), `specs/Steps.antt` (what each step changes and tells).
//! Costs: a turn or a visit that finds the value at home changes the word twice, and moves the value out and in. One that
//! doesn't looks again, after it has let other threads run. Only [`Gate::make`] takes memory.
#![tactic(auto)]

mod gate;
mod history;
mod knows;
mod pass;
mod rule;
mod sequential;

pub use gate::{ALL_PARTS, Closed, Gate, Unclosed};
pub use history::Entry;
pub use knows::{Gone, Knows};
pub use pass::Pass;
pub use rule::{Law, Noted};
pub use sequential::{Sequential, Turn, Visit};
