//! What stands in place of the records below it.

use crate::tree::Tree;
use version_vectors::{Rank, Vector};

/// A tree in place of the records that it was made of. Contracts see it as the basis of the definitions
/// (`specs/Bases.antt`).
#[derive(Drop)]
pub struct Basis {
    /// The front of the records: of each log the newest that is among them or cited by one.
    pub front: Vector,
    /// The greatest rank among the records; none where there are none.
    pub tide: Option<Rank>,
    /// The tree that the records make, inodes without a name included.
    pub tree: Tree,
}
