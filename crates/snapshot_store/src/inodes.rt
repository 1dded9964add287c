//! Inodes, each with all that it contains.

ghost use Rattle.std.specs.Prelude.{◌≡◌, [], ◌∷◌, map, IfOk, OnOk};
ghost use Rattle.snapshot_model.specs.Spelling.{inode_made, made_name, content_size as size_of, symbolic_link_text as target_of};
ghost use Rattle.snapshot_store.specs.Puts.{PutsList, put_all};

use crate::blocks::Blocks;
use crate::items::put_items;
use crate::levels::Levels;
use block_parts::LONGEST_FILE;
use dir_replay::Names;
use fs_tree::Tree;
use inode_replay::Content;
use ivy_base::{Key, Kind, Memory};
use snapshot_blocks::{InodeBlock, Listed};
use std::alloc::Global;

/// The most bytes of a link's text.
const LONGEST_TARGET: usize = block_parts::LONGEST_TARGET as usize;

/// Puts all inodes of the tree, in the order of their numbers, and the list over them. The error is: out of memory; it also comes
/// where there are more inodes than a list has room for, or one that no block of an inode stands for.
pub fn put_inodes(alloc: Global, blocks: &mut Blocks, tree: &Tree) -> Result<Listed, Memory>
    ensures { IfOk result (PutsList blocks.old (map (inode_made tree.now) tree.now.inodes) blocks.new) }
{
    let numbers = tree.numbers(alloc)?;
    let mut levels = Levels::new(alloc);
    'inodes: for number in &numbers {
        let Some(content) = tree.content(number) else {
            unreachable!()
        };
        let name = put_inode(alloc, blocks, tree.names(), number, content)?;
        levels.push(alloc, blocks, name)?;
    }
    let list = levels.finish(alloc, blocks)?;
    Ok(list)
}

/// Puts the inode of that number after all that it contains, and gives the name of its block. The error is: out of memory; it
/// also comes where no block stands for the inode: its file is too long, its directory has too many entries, or its text is too
/// long for a link.
fn put_inode(
    alloc: Global,
    blocks: &mut Blocks,
    names: &Names,
    number: &Key,
    content: &Content,
) -> Result<Key, Memory>
    ensures blocks { OnOk result (blocks.new ≡ put_all blocks.old (inode_made names.now (number.now, content.now.inode) ∷ [])) }
    ensures named { IfOk result (λ key. key ≡ made_name (inode_made names.now (number.now, content.now.inode))) }
{
    let size = size_of(content);
    let target = target_of(content);
    if size > LONGEST_FILE || target.len() > LONGEST_TARGET {
        return Err(Memory);
    }
    let items = put_items(alloc, blocks, names, number, content)?;
    let inode = InodeBlock {
        number: *number,
        kind: content.kind(),
        attributes: content.attr(),
        size,
        target,
        items,
    };
    let name = blocks.add(inode.write(alloc)?)?;
    Ok(name)
}

/// A file's size, and 0 of anything else.
fn size_of(content: &Content) -> u64
    ensures { result ≡ size_of content.now.inode.body content.now.inode.kind }
{
    match content.kind() {
        Kind::Reg => content.size(),
        Kind::Dir | Kind::Lnk => 0,
    }
}

/// A link's text, and nothing of anything else.
fn target_of(content: &Content) -> &[u8]
    ensures { result.now ≡ target_of content.now.inode.body content.now.inode.kind }
{
    match content.kind() {
        Kind::Lnk => content.target(),
        Kind::Reg | Kind::Dir => &[],
    }
}
