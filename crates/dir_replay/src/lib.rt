//! The names of all directories that a replay of records makes, and the kind of each inode.
//!
//! Layer: over `ivy_base` and `tree_model`, whose definitions the contracts cite; below whatever joins the names
//! with what the inodes contain.
//! For the layers above: contracts see [`Names`] as a tree of `tree_model` (`specs/Tree.antt` there) whose inodes
//! are bare: of each no more than its kind is known (`specs/Bare.antt`). [`Names::fresh`] is the bare root alone,
//! and [`Names::apply_names`] makes of a tree exactly what `apply` there makes of it, made bare; which directories
//! it says were touched is in `specs/Effect.antt`. Each question is answered as the definition of its name says.
//! Where memory is short the names stay as they were. Lemmas to cite: `proofs/Bare` (what an operation does to
//! names depends on neither contents nor moments), `proofs/Effects` (what it does to a whole tree).
//!
//! Inside, `name` is what entries are kept under, `entries` what stands in one directory, `nodes` all inodes by their
//! numbers, and `names` the rules. Entries and inodes are maps of `shared_map`: a new inode, a Link and an Unlink are one
//! change of the inodes each, and a Rename changes a copy of them, which takes their place once all has succeeded.
//! Definitions: `specs/View.antt` is the tree that the kept maps stand for, `specs/Tied.antt` what holds of them.
//!
//! Costs: a copy of the names takes constant time and no memory. All else is counted in comparisons: a question or an
//! operation takes the logarithm of the number of inodes and of the names in its directories. Whether one directory lies
//! inside another takes that for each step of the way up, and whether anything else does, a look at every name. An
//! operation changes the nodes on the way to each inode and name in place where they have one owner, and copies them where
//! copies share them: a new inode is one such way among the inodes; a Link and an Unlink are two there, and one among the
//! directory's names; a Rename is two and two, one more where it takes the place of another name, and one more where a
//! directory gets another parent. A Rename changes a copy of the inodes, so that its ways are copied, but for what they
//! have in common; a name is taken out by a way that is copied.
#![tactic(auto)]

mod entries;
mod keys;
mod listing;
mod name;
mod names;
mod nodes;
mod touched;

pub use keys::ROOT;
pub use listing::Listing;
pub use names::Names;
pub use touched::Touched;
