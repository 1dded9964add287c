//! The blocks of a snapshot, one by one: read from their bytes, and written.
//!
//! Layer: a format above `xdr_codec`, `block_parts`, `version_vectors` and `snapshot_model`, whose `specs/Blocks.antt` says
//! what each block is; below the crate that makes a snapshot of a tree and loads one.
//! For the layers above: [`is_piece`], [`read_list`], [`read_entries`], [`InodeBlock::read`] and [`RootBlock::read`] take
//! exactly the blocks of their form, and give what such a block says, which is one thing (`blocks_are_unambiguous` of
//! `snapshot_model`). [`write_list`], [`write_entries`], [`InodeBlock::write`] and [`RootBlock::write`] are the spelling of
//! that. Of what is read, texts lie in the block; only a root's front and the entries of a directory take memory.
//!
//! Inside, a block is read from left to right by one small function for each part (`attributes`, `listed`, and those of
//! `block_parts`), and what depends on several parts is tested at the end. Beside each reader stands its counterpart.
//! Definitions: `specs/Parsed.antt` is what blocks as they are kept stand for, `specs/Refusals.antt` when a reader
//! refuses, and `specs/Parts.antt` the parts, of which only the functions inside speak.
#![tactic(auto)]

mod attributes;
pub mod entries;
pub mod inode;
pub mod list;
pub mod listed;
mod piece;
pub mod root;

pub use entries::{Entry, MOST_ENTRIES, read_entries, write_entries};
pub use inode::InodeBlock;
pub use list::{read_list, write_list};
pub use listed::Listed;
pub use piece::is_piece;
pub use root::RootBlock;
