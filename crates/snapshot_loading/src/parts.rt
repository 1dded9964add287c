//! Inodes with what they contain.

use inode_replay::Attr;
use ivy_base::{Bytes, Key, Kind};

/// An inode with all that it contains.
#[derive(Drop)]
pub struct InodeParts {
    /// The inode's number.
    pub number: Key,
    /// What it is.
    pub kind: Kind,
    /// The mode, the user, the group and the moments.
    pub attributes: Attr,
    /// A file's bytes, or a symbolic link's text; of a directory nothing.
    pub body: Bytes,
    /// The names in a directory, with the numbers of their inodes.
    pub entries: Vec<(Bytes, Key)>,
}
