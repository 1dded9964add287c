//! Jobs that come one after the other, each served on a thread of its own, and each given back once.
//!
//! Layer: over std alone; below whatever serves links, each on a thread.
//! For the layers above: a [`Desk`] gives jobs and takes back what was done of them. It says by relations which job it may
//! give, why it may fail, and how it takes back; a job says what serving it may give ([`Work`]). [`serve_all`] serves each
//! job that comes, by a call that it is passed, until none comes or the desk fails, and gives the desk back.
//! - The desk went from its first state to its last by exactly these calls: it gave these jobs, it took back what was done
//!   of them, and it stopped once, with this result (`Went` in `specs/Chains.antt`).
//! - Each job came back once, with what serving it may give, after a failure too (`CameBack`).
//! - Only the caller's thread has the desk, so a desk needs no bound for threads. A desk that lends a place says which one
//!   it is (`place`), and the one that comes back lends the same.
//!
//! At most 16 threads serve at once. With 16 the caller waits until one ends, and accepts nothing meanwhile. A job that gets
//! no thread, or no memory for one, is served by the caller.
//!
//! Not said: that a waiting call returns, which job comes back first, and that two jobs are served at once. What was done of
//! a job is taken back before the next one is accepted, so a job that ended may be out until then.
//!
//! Definitions: `specs/Chains.antt`. Lemmas to cite: `proofs/Chains.antt` (a chain seen through another desk).
//! Costs: a seat for each job that is out, one word for all of them, and a walk over the seats before each job.
#![tactic(auto)]

mod desk;
mod seats;
mod serving;

pub use desk::{Desk, Work};
pub use serving::serve_all;
