//! The inodes that numbers stand for.

use fs_tree::ROOT;
use ivy_base::{Key, PubKey};

/// Whose records operations are of.
pub const OWNER: PubKey = PubKey([7; 60]);

/// The highest number of an inode of `== trees`.
pub const HIGHEST: u32 = 11;

/// The inode of that number in `== trees`: the root for 0, and others in another order than that of their numbers.
pub fn key(number: u32) -> Key {
    if number == 0 {
        return ROOT;
    }
    let [.., last] = number.to_be_bytes();
    let first = last.wrapping_mul(101);
    Key([
        first, 0, 0, 0, 0, 0, 0, 0, 0, 0, 0, 0, 0, 0, 0, 0, 0, 0, 0, last,
    ])
}

/// The number of that inode in `== trees`, where it has one.
pub fn number_of(ino: &Key) -> Option<u32> {
    let number = u32::from(ino.0[19]);
    if key(number) == *ino {
        Some(number)
    } else {
        None
    }
}

/// The inode that the owner's record of that number makes, and the root for 0.
pub fn made_by(number: u32) -> Key {
    if number == 0 {
        return ROOT;
    }
    ivy_base::number_of(&OWNER, number)
}
