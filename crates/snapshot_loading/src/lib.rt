//! A snapshot that is loaded block by block, from its root's name, and the basis that its blocks come to.
//!
//! Layer: over `snapshot_blocks`, which reads single blocks, and `fs_tree`, whose operations build the tree; below sessions,
//! which bring the blocks. No machine here asks a node: it says which block it wants, and is given it, wherever it came from.
//! For the layers above:
//!
//! - A [`Load`] is begun with the name of a root block, tells by [`Load::wanted`] which block it wants next, and takes by
//!   [`Load::give`] what came of that. Whatever it is given, what it was brought so far and how it stands are those of the
//!   definition of loading (`LoadsFor` of `session_model`). Running out of memory leaves it as it was.
//! - [`into_basis`] takes the blocks as they were read, and gives the basis exactly where there is one whose snapshot they are
//!   (`AreOf` of `snapshot_model`); there is no other one. [`loaded`] takes a load that is over, and gives what the definition
//!   of loading comes to, or the exact reason why that is no basis ([`LoadMiss`]).
//! - [`build`] gives the tree of these [`InodeParts`], which come from strangers, exactly where it is one without
//!   contradictions (`IsSound` of `tree_model`): numbers and names in order, the root a directory without a name, names in
//!   directories and of inodes, a directory with one name at most and none inside itself.
//! - [`content_of`] gives the content of an inode of these, which [`build`] puts into the tree: of a file every place below its
//!   size counts as written (`inode_replay`), also where a hole was when the snapshot was made.
//! - By the laws, blocks that were read from a root on are that root with all below it ([`reads_are_forests`]). Loading comes to
//!   the basis that the root shows, or to none ([`loading_ends`]): the front, the tide, and inode by inode the attributes and
//!   what is at the bottom of its list. A list need only be even: on each level all blocks but the last have 512 names, pieces
//!   8,192 bytes and blocks of entries 32 entries. Blocks are of one basis at most, whatever names tell ([`snapshot_is_unique`]),
//!   and what was made is loaded ([`made_is_loaded`]).
//!
//! Within: `role` is what blocks are to be, `names` what a block names, and `todo` the blocks that are still to be read. `picking`
//! takes the blocks of a level out of all that were read, `evenness` tests lists, `entries` reads what a directory contains,
//! `inode` what an inode does, `inodes` goes from inode to inode, and `ending` is the whole. To build a tree, `order` tests the
//! order of numbers and names, `adding` adds all inodes without names, `linking` gives them their names, which fails exactly
//! where one may not be given, and `settling` puts in place the content of each, which `content` makes: a file's bytes by one
//! Write of them all.
//!
//! Definitions: `specs/Loading.antt` is how far loading is, `specs/Causes.antt` why it comes to no basis, `specs/Roles.antt` what blocks are to be and what they name;
//! `specs/Forests.antt` has blocks with those below them, and when lists of them are even, `specs/ShownInodes.antt` what an
//! inode's block shows, `specs/Wholes.antt` what a root's does, and `specs/Laws.antt`, `specs/WholeLaws.antt`;
//! `specs/Picks.antt` is the blocks of a level, `specs/Evenness.antt` even lists by the bytes of their blocks,
//! `specs/Contents.antt` what an inode contains, `specs/Inodes.antt` inodes by their blocks, `specs/Ends.antt` the whole,
//! `specs/Answers.antt` what each function answers by these; `specs/Parts.antt` is the tree of given parts, `specs/Steps.antt`
//! how far it is built.
//! Lemmas on laws, each file on those before it: `proofs/Forests.antt`, `proofs/Full.antt`, `proofs/Even.antt`,
//! `proofs/Same.antt`, `proofs/Lists.antt`, `proofs/OneForest.antt`, `proofs/Inodes.antt`, `proofs/Bases.antt`,
//! `proofs/Canon.antt`, `proofs/LoadedEnds.antt`, `proofs/OneBasis.antt`; by itself `proofs/SoundTrees.antt`. On code:
//! `proofs/Layers.antt`, `proofs/Sizes.antt`, `proofs/Stretches.antt`, `proofs/Runs.antt`, `proofs/Told.antt`,
//! `proofs/Trees.antt`, `proofs/Bounds.antt`, `proofs/Built.antt`, `proofs/Steps.antt`, `proofs/Ends.antt`.
//!
//! Costs: each block is read twice, none is hashed or spelled, and each is gone through once for each level of the lists, of
//! which there are at most three. The blocks are kept as they came until all are there; what is still to be read are at most
//! 512 names for each level. Each inode and each name is one operation of the tree, and each file's bytes are copied once.
#![tactic(auto)]

mod adding;
pub mod building;
pub mod content;
mod ending;
mod entries;
mod evenness;
mod inode;
mod inodes;
mod linking;
pub mod load;
mod names;
mod order;
pub mod parts;
mod picking;
pub mod role;
mod settling;
mod todo;

ghost use Rattle.snapshot_loading.specs.Laws.{MadeIsLoaded};
ghost use Rattle.snapshot_loading.specs.WholeLaws.{EvenListsAreLists, ForestIsUnique, LoadedIsShown, LoadingEnds, ReadIsForest, ShownInodesAreMade, SnapshotIsUnique, WholeTreesAreSound};

pub use building::build;
pub use content::content_of;
pub use ending::{into_basis, loaded};
pub use load::{Failure, Load, LoadMiss, Read};
pub use parts::InodeParts;
pub use role::{Item, Role, Wanted};

/// A law and no code.
///
/// Where no names of the blocks that were read and those of a snapshot that was made collide, what is loaded by the name of
/// its root is what it was made of.
pub fn made_is_loaded()
    ensures { MadeIsLoaded }
{}

/// A law and no code: a list block with all below it is the list over what is at its bottom exactly where it is even, and of
/// the least level.
pub fn even_lists_are_lists()
    ensures { EvenListsAreLists }
{}

/// A law and no code: a tree may be a snapshot's exactly where it is one without contradictions, as operations make them.
pub fn whole_trees_are_sound()
    ensures { WholeTreesAreSound }
{}

/// A law and no code: blocks that were read from a root on, until nothing was left, are that root with all below it, and the
/// same blocks are so in no other way.
pub fn reads_are_forests()
    ensures read { ReadIsForest }
    ensures one { ForestIsUnique }
{}

/// A law and no code: a block that shows an inode, by its list and what is at its bottom, is with all below it what a snapshot
/// has of that inode.
pub fn shown_inodes_are_made()
    ensures { ShownInodesAreMade }
{}

/// A law and no code: what was read is the snapshot of a basis exactly where its root shows the basis, by its front and tide
/// and the inodes below it, and the basis may be a snapshot's and is within the bounds of snapshots.
pub fn loaded_is_shown()
    ensures { LoadedIsShown }
{}

/// A law and no code: loading that has read all comes to the basis that the root shows, where its tree is one without
/// contradictions and it is within the bounds; and to none, where it shows no such basis.
pub fn loading_ends()
    ensures { LoadingEnds }
{}

/// A law and no code: blocks are the snapshot of one basis at most, by their bytes alone: no names have to tell them apart.
pub fn snapshot_is_unique()
    ensures { SnapshotIsUnique }
{}
