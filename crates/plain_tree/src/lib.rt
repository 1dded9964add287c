//! The tree of the definitions, kept as plainly as they say it: the comparison for a faster one.
//!
//! Layer: over `tree_model`, whose definitions it follows line by line, and `inode_replay`, whose inodes it keeps;
//! nothing of the product stands on it. The program `tree_trials` runs [`Plain`] and `fs_tree` side by side.
//! For whoever compares: contracts see a [`Plain`] as the tree of `tree_model` (`specs/Tree.antt` there), and
//! [`Plain::apply`] makes of it exactly what `apply` there makes of it. It is kept as the two lists that the
//! definition has, in the definition's order, and every question is answered by looking through these.
//!
//! Definitions: `specs/View.antt` is the tree that the lists are, `specs/Search.antt` where an entry goes in one.
//!
//! Costs: a look-up goes through all names or all inodes, and each operation works on a copy of the whole tree, so
//! that running out of memory leaves the tree as it was.
#![tactic(auto)]

mod inodes;
mod keys;
mod names;
mod plain;

pub use plain::Plain;
