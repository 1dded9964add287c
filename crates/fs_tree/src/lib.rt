//! The tree that a replay of records makes: names and contents.
//!
//! Layer: over `dir_replay` and `inode_replay`, which it joins; below whatever replays logs and answers from the tree.
//! For the layers above: contracts see a [`Tree`] as the tree of `tree_model` (`specs/Tree.antt` there).
//! [`Tree::empty`] is the root alone, [`Tree::apply`] makes of a tree exactly what `apply` there makes of it, and
//! each question is answered as the definition of its name says. Where memory is short the tree stays as it was.
//! [`Tree::names`] and [`Tree::content`] show the two halves, with all that these answer. Which places of a file a Write
//! wrote is kept with its content and is no part of the tree of the definitions: no operation and no other answer hangs
//! on it. [`Tree::put_content`] puts a content in place of one of the same kind, as one that a snapshot gives.
//!
//! Inside, `contents` is what the inodes contain by their numbers, in a map whose copies share what they have in common,
//! `changing` is a change of the names that is made together with one of the contents, and `tree` what an operation does
//! to both halves: a new inode, a Link and an Unlink are one change of both, and a Rename works on copies, which take
//! their place at the end.
//! Definitions: `specs/View.antt` is the tree that the halves stand for, `specs/Tied.antt` what holds of them,
//! `specs/Contents.antt` which inodes contents are, `specs/Applicable.antt` what an operation must meet, which each
//! record's does.
//!
//! Costs, counted in comparisons: a question or an operation takes the logarithm of the number of inodes and of the names
//! in its directories. A Link or a Rename of a directory that has entries also climbs from its place to the top, and a
//! Write takes the time of the bytes that it changes. Inodes and the nodes of the maps above them are changed in place
//! where they have one owner, and copied where copies share them, as they do in a Rename. A copy of the tree takes
//! constant time and no memory: it shares all of that until one of the two is changed.
#![tactic(auto)]

pub mod basis;
mod changing;
mod contents;
mod laws;
mod tree;

pub use basis::Basis;
pub use dir_replay::ROOT;
pub use inode_replay::Attr;
pub use laws::{files_hang_on_their_own, names_hang_on_names};
pub use tree::Tree;
