//! The blocks of a snapshot of a tree.
//!
//! Layer: over `fs_tree`, whose tree it takes, and `snapshot_blocks`, which writes single blocks; below the agent that makes
//! a snapshot of what it holds. `specs/Spelling.antt` of `snapshot_model` says which blocks a snapshot has, and in which order
//! they are put.
//! For the layers above: [`make`] gives exactly these blocks, each once and after those that it names, with the name of the
//! root block; a [`Block`] has its own name, so nothing has to be hashed again.
//!
//! Inside, `blocks` keeps what was put and tells what is there already; `levels` puts the list blocks over items that come one
//! after the other; `items` puts what an inode contains, `inodes` the inodes, and `making` the whole.
//! Definitions: `specs/Puts.antt` is what is put of a snapshot, `specs/Places.antt` how blocks are found by their names,
//! `specs/Levels.antt` a list as far as it was put, and `specs/Listing.antt` the same over pieces.
//!
//! Costs: each block is written and hashed once, and looked up once, which takes the logarithm of how many there are in
//! comparisons of names. All blocks are in memory together, with the numbers of all inodes and the names in one directory.
#![tactic(auto)]

pub mod block;
mod blocks;
mod inodes;
mod items;
mod levels;
pub mod making;

pub use block::Block;
pub use making::{Made, make};
