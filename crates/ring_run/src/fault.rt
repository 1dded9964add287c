//! Why no node joined.

use thiserror::Error;

/// Why no node joined.
#[derive(Clone, Copy, Debug, Error)]
pub enum JoinFault {
    /// A node of its identifier was made before.
    #[error("a node of that identifier was made before")]
    Known,
    /// As many nodes were made as there may be, 256.
    #[error("256 nodes were made")]
    Limit,
    /// Out of memory. No clause ties this to a cause.
    #[error("out of memory")]
    Memory,
}
