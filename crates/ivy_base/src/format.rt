/// How a record is written: which tag its block begins with, and so by which digest it is named.
#[derive(Clone, Copy, PartialEq, Eq)]
pub enum Format {
    /// `IVR1`, named by SHA-1.
    One,
    /// `IVR2`, named by SHA-256.
    Two,
}
