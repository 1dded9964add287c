use thiserror::Error;

/// Why a keeper isn't given, or a link, or why no port is listened to.
#[derive(Clone, Copy, Debug, Error)]
pub enum OpenFault {
    /// The keepers or the ports failed, and their count of faults rose.
    #[error("the keepers or the ports failed")]
    Failed,
    /// There was no memory. No clause ties this to a cause, and nothing has changed.
    #[error("there was no memory")]
    Memory,
}
