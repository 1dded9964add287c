//! What comes of an agent's turn.

use crate::names::NamedPosts;
use crate::standing::Standing;
use ivy_base::Bytes;
use std::fmt;
use thiserror::Error;
use version_vectors::Vector;

/// What a turn gives.
pub struct Turned {
    /// The result's bytes, from its status on.
    pub reply: Bytes,
    /// The blocks that are still to be published.
    pub posts: NamedPosts,
    /// The front of all that is held.
    pub front: Vector,
    /// How many records were applied.
    pub applied: u64,
}

// Written out, so that whatever drops one calls this and isn't proved over all of its parts once more.
impl Drop for Turned {
    fn drop(self) {
        let Turned {
            reply: _,
            posts: _,
            front: _,
            applied: _,
        } = self;
    }
}

/// Why a turn answered nothing. What begins again has the agent's standing then, without a snapshot.
#[derive(Drop, Error)]
pub enum TurnFault {
    /// The refresh began with more than is held by now, or the record of a member's log that the floor names is neither held
    /// nor new.
    #[error("the refresh is behind what its agent holds or has promised")]
    Behind(Standing),
    /// A new record isn't above the basis. Nothing is held any more.
    #[error("a new record isn't above the basis")]
    BelowTide(Standing),
    /// Out of memory. No clause ties this to a cause.
    #[error("there is no memory left")]
    Memory,
}

/// As it is displayed: a standing has no text of its own.
impl fmt::Debug for TurnFault {
    fn fmt<W: fmt::Write>(&self, f: &mut fmt::Formatter<W>) -> fmt::Result {
        fmt::Display::fmt(self, f)
    }
}
