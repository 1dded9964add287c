//! A snapshot as a whole.

ghost use Rattle.std.specs.Prelude.{◌≡◌, IfOk};
ghost use Rattle.snapshot_model.specs.Spelling.{root_name, snapshot_blocks};
ghost use Rattle.snapshot_store.specs.Puts.{basis_with};

use crate::block::Block;
use crate::blocks::Blocks;
use crate::inodes::put_inodes;
use fs_tree::Tree;
use ivy_base::{Key, Memory};
use snapshot_blocks::RootBlock;
use std::alloc::Global;
use version_vectors::{Rank, Vector};
use view_blocks::View;

/// The blocks of a snapshot.
#[derive(Drop)]
pub struct Made {
    /// The name of its root block.
    pub root: Key,
    /// Each block once, after those that it names: the root block is the last.
    pub blocks: Vec<Block>,
}

/// The blocks of a snapshot in that view of the tree, which covers the records of that front and that tide, the greatest
/// rank among them.
///
/// The error is: out of memory. It also comes where a block or a list has no room for what it would stand for: there are more
/// than 134,217,728 inodes, a directory has more entries than such a list of blocks, or a file or a link's text is too long.
pub fn make(
    alloc: Global,
    view: &View,
    front: &Vector,
    tide: Option<Rank>,
    tree: &Tree,
) -> Result<Made, Memory>
    ensures root { IfOk result (λ made. made.root ≡ root_name view.now (basis_with front.now tide tree.now)) }
    ensures blocks { IfOk result (λ made. made.blocks.items ≡ snapshot_blocks view.now (basis_with front.now tide tree.now)) }
{
    let mut blocks = Blocks::new(alloc);
    let inodes = put_inodes(alloc, &mut blocks, tree)?;
    let block = RootBlock {
        view: view.name(),
        front: front.copy(alloc)?,
        tide,
        inodes,
    };
    let root = blocks.add(block.write(alloc)?)?;
    Ok(Made {
        root,
        blocks: blocks.into_vec(),
    })
}
