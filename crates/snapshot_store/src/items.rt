//! What inodes contain: pieces of files and entries of directories, each with the list over them.

ghost use Rattle.std.specs.Prelude.{◌≡◌, ◌≤◌, length, map, IfOk};
ghost use Rattle.tree_model.specs.Tree.{listing, longest_file};
ghost use Rattle.snapshot_model.specs.Blocks.{entries_block, most_entries};
ghost use Rattle.snapshot_model.specs.Spelling.{entries_made, in_pieces, items_of, piece_made};
ghost use Rattle.snapshot_store.specs.Puts.{PutsList};

use crate::blocks::Blocks;
use crate::levels::{Levels, nothing};
use block_parts::LONGEST_FILE;
use dir_replay::Names;
use inode_replay::Content;
use ivy_base::{Bytes, Key, Kind, Memory};
use snapshot_blocks::{Entry, Listed, write_entries};
use std::alloc::Global;

/// How many bytes a piece of a file has, but for the last one.
const PIECE: u32 = 8192;

/// How many entries a block has, but for the last one of a directory.
const MOST_ENTRIES: usize = snapshot_blocks::MOST_ENTRIES as usize;

/// Puts what the inode of that number contains, and the list over it. The error is: out of memory; it also comes where that is
/// more than a list has room for.
pub fn put_items(
    alloc: Global,
    blocks: &mut Blocks,
    names: &Names,
    number: &Key,
    content: &Content,
) -> Result<Listed, Memory>
    ensures { IfOk result (PutsList blocks.old (items_of (listing names.now number.now) content.now.inode.body content.now.inode.kind) blocks.new) }
{
    match content.kind() {
        Kind::Reg => {
            if content.size() > LONGEST_FILE {
                return Err(Memory);
            }
            put_pieces(alloc, blocks, content)
        }
        Kind::Dir => {
            let listing = names.listing(alloc, number)?;
            put_entries(alloc, blocks, listing.as_slice())
        }
        Kind::Lnk => Ok(nothing()),
    }
}

/// Puts the pieces of a file, and the list over them. The error is that of [`put_items`].
fn put_pieces(alloc: Global, blocks: &mut Blocks, file: &Content) -> Result<Listed, Memory>
    requires { length file.now.inode.body ≤ longest_file }
    ensures { IfOk result (PutsList blocks.old (map piece_made (in_pieces 8192 file.now.inode.body)) blocks.new) }
{
    let mut levels = Levels::new(alloc);
    let mut start = 0;
    'pieces: while start < file.size() {
        let piece = file.read_range(alloc, start, PIECE)?;
        let name = blocks.add(piece)?;
        levels.push(alloc, blocks, name)?;
        start += u64::from(PIECE);
    }
    let list = levels.finish(alloc, blocks)?;
    Ok(list)
}

/// Puts the entries of a directory, and the list over their blocks. The error is that of [`put_items`].
fn put_entries(
    alloc: Global,
    blocks: &mut Blocks,
    entries: &[(Bytes, Key)],
) -> Result<Listed, Memory>
    ensures { IfOk result (PutsList blocks.old (map entries_made (in_pieces most_entries entries.now)) blocks.new) }
{
    let mut levels = Levels::new(alloc);
    'entries: for some in entries.chunks(MOST_ENTRIES) {
        let name = blocks.add(block_of(alloc, some)?)?;
        levels.push(alloc, blocks, name)?;
    }
    let list = levels.finish(alloc, blocks)?;
    Ok(list)
}

/// The block of these entries. The error is: out of memory.
fn block_of(alloc: Global, entries: &[(Bytes, Key)]) -> Result<Bytes, Memory>
    requires { length entries.now ≤ most_entries }
    ensures { IfOk result (λ block. block ≡ entries_block entries.now) }
{
    let mut lent = Vec::with_capacity(alloc, entries.len())?;
    'entries: for entry in entries {
        lent.push(Entry {
            name: entry.0.as_slice(),
            number: entry.1,
        })?;
    }
    write_entries(alloc, lent.as_slice())
}
