//! Why a client has no result.

use dht_ids::{Peer, Peers};
use ivy_base::Key;
use std::fmt;
use thiserror::Error;

/// Why a client has no result.
#[derive(Drop, Error)]
pub enum Miss {
    /// No entry node answered, or the last answer named no owner of the key.
    #[error("no owner of the key was found")]
    NoRoute(Key),
    /// None of the owners asked has the block; they stand in the order in which they were asked.
    #[error("no owner that was asked has the block")]
    Missing { key: Key, asked: Peers },
    /// The node gave a block that isn't the key's, and no owner has the key's.
    #[error("an owner gave a block that isn't the key's")]
    Damaged { key: Key, node: Peer },
}

/// As it is displayed: keys and peers have no text of their own.
impl fmt::Debug for Miss {
    fn fmt<W: fmt::Write>(&self, f: &mut fmt::Formatter<W>) -> fmt::Result {
        fmt::Display::fmt(self, f)
    }
}
