use thiserror::Error;

/// A read or a save failed.
#[derive(Clone, Copy, Debug, Error)]
#[error("it failed")]
pub struct Failed;

/// Why a write failed.
#[derive(Clone, Copy, Debug, Error)]
pub enum SinkFault {
    /// The sink failed, and its count of faults rose.
    #[error("the sink failed")]
    Failed,
    /// The sink had no memory for the bytes. No clause ties this to a cause.
    #[error("the sink had no memory for the bytes")]
    Memory,
}

/// Why a keeper gives nothing.
#[derive(Clone, Copy, Debug, Error)]
pub enum KeepFault {
    /// The keeper failed, and its count of faults rose.
    #[error("the keeper failed")]
    Failed,
    /// Nothing was saved.
    #[error("nothing was saved")]
    Nothing,
    /// There was no memory for the bytes. No clause ties this to a cause.
    #[error("there was no memory for the bytes")]
    Memory,
}
