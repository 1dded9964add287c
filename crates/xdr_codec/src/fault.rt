use thiserror::Error;

/// Why bytes aren't what was to be read.
#[derive(Clone, Copy, Debug, Error)]
pub enum XdrFault {
    /// Fewer bytes are left than the item takes.
    #[error("fewer bytes are left than the item takes")]
    Short,
    /// The count in front of opaque data is above what was allowed.
    #[error("the count in front of opaque data is too great")]
    TooLong,
    /// A byte that fills an item up to a multiple of four isn't zero (RFC 4506, section 3).
    #[error("a byte that fills up an item isn't zero")]
    Padding,
    /// A boolean is neither 0 nor 1 (RFC 4506, section 4.4).
    #[error("a boolean is neither 0 nor 1")]
    NotBool,
    /// Bytes are left after the last item.
    #[error("bytes are left behind the last item")]
    Trailing,
}
