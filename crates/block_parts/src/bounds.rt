//! The bounds of parts.

use ivy_base::Key;

/// The most bytes of a file.
pub const LONGEST_FILE: u64 = 16_777_216;

/// The most bytes of a directory entry's name.
pub const LONGEST_NAME: u32 = 255;

/// The most bytes of a symbolic link's text.
pub const LONGEST_TARGET: u32 = 1024;

/// The most bytes that are written at once, and so of a piece of a file.
pub const LONGEST_PIECE: u32 = 8192;

/// In place of a name, where there is none.
pub const NO_NAME: Key = Key([0; 20]);
