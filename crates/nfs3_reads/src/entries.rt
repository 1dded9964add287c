//! A run of a directory's entries.

ghost use Rattle.std.specs.Prelude.{◌<◌, ◌+◌, ◌^◌, length};

use ivy_base::{Bytes, Key};

/// Consecutive entries of a directory, and how many there are before them. Contracts see them as `places`: each with
/// its place, counted from 1, which is its cookie.
#[derive(Clone, Copy)]
pub struct Entries<'a> {
    pub before: usize,
    pub pairs: &'a [(Bytes, Key)],
    ghost fits: { before + length pairs.now < 2 ^ 64 },
}
