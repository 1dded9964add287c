//! What blocks of a snapshot are to be.

use ivy_base::Key;

/// What a list is over.
#[derive(Clone, Copy)]
pub enum Item {
    /// Inodes.
    Inode,
    /// Pieces of a file.
    Piece,
    /// Blocks of entries of a directory.
    Entries,
}

/// What a block is to be.
#[derive(Clone, Copy)]
pub enum Role {
    /// The block that names all others.
    Root,
    /// A list block of that level.
    List {
        /// The level.
        level: u32,
        /// What the list is over.
        item: Item,
    },
    /// An item of a list.
    Item(Item),
}

/// A block that is to be read.
#[derive(Clone, Copy)]
pub struct Wanted {
    /// What it is to be.
    pub role: Role,
    /// Its name.
    pub key: Key,
}
