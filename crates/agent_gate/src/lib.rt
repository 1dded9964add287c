//! One agent for several threads, and one legal history of the turns that they take with it.
//!
//! Layer: over `ivy_agent` and `value_gate`; below servers.
//! For the layers above: a [`Gate`] over an agent that has entered a view keeps the trait [`ivy_agent::Turns`]. All turns
//! that were answered make one history, whose entries are what the refresh brought, the call, the moment and what the turn
//! gave. Each pass has seen a beginning of it, and has its own calls in it, each once. Whatever a pass found, refusals and
//! standings too, is said of an agent that had taken the turns of a history (`specs/Taking.antt`, `HasTaken`). That such a
//! history is a legal one is a law ([`histories_fold`], `specs/Folding.antt`). Where it began with a fresh basis and no
//! snapshot to load, the agent holds all that is known from the first entry on ([`holds_what_is_known`]).
//! A call waits for the slot alone: no turn waits while it has the agent.
#![tactic(auto)]

mod calls;
mod gate;
mod laws;
mod request;
mod shared;

pub use gate::{Closed, Gate, Pass, Unclosed};
pub use laws::{fresh, histories_fold, holds_what_is_known, last_is_taken, leaves_are_counted};
pub use request::TurnRequest;
