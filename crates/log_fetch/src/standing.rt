//! What a session is given of its agent.

use crate::edges::Edges;
use dht_ids::Posts;
use ivy_base::{Key, PubKey};
use version_vectors::Vector;
use view_blocks::View;

/// The agent as a session began with it. Contracts see it as the standing of the definitions (`specs/Standings.antt`).
pub struct Standing {
    /// The view that the agent is in.
    pub view: View,
    /// The agent's own public key.
    pub own: PubKey,
    /// The front of what the agent holds: fetching stops there.
    pub held: Vector,
    /// The front of all that it has known; it dominates `held`.
    pub floor: Vector,
    /// What is known of the newest held records that are available.
    pub edges: Edges,
    /// The snapshot that is to be loaded before, where there is one, by the name of its root block.
    pub basis: Option<Key>,
    /// The blocks that the agent still has to put.
    pub pending: Posts,
}

// Written out, so that whatever drops one calls this and isn't proved over all of its parts once more.
impl Drop for Standing {
    fn drop(self) {
        let Standing {
            view: _,
            own: _,
            held: _,
            floor: _,
            edges: _,
            basis: _,
            pending: _,
        } = self;
    }
}
