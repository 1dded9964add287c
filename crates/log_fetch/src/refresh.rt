//! What a refresh brings.

use fs_tree::Basis;
use log_records::Batch;

/// What a refresh brings to a turn. Contracts see it as the refresh of the definitions (`specs/Standings.antt`).
#[derive(Drop)]
pub struct Refresh {
    /// The chains that were fetched, over what the refresh started from.
    pub batch: Batch,
    /// The basis that was loaded, where one was and the floor knows all that it covers.
    pub basis: Option<Basis>,
}
