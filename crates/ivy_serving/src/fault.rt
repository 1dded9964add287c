//! Why no further link is accepted.

use thiserror::Error;

/// Why no further link is accepted.
#[derive(Clone, Copy, Debug, Error)]
pub enum ServeFault {
    /// The ports failed, and their count of faults rose.
    #[error("the ports failed")]
    Failed,
    /// Out of memory. No clause ties this to a cause, and the ports are as they were.
    #[error("out of memory")]
    Memory,
    /// The first pass has a single part left, so none can be split from it; the ports are as they were.
    #[error("no pass is left for a further link")]
    NoPart,
}
