//! An inode with all that it contains.

ghost use Rattle.std.specs.Prelude.{◌≡◌, ℕ, List, map, IfOk};
ghost use Rattle.snapshot_model.specs.Blocks.{InodeBlock as Said};
ghost use Rattle.snapshot_loading.specs.WholeLaws.{blocks_read};
ghost use Rattle.snapshot_loading.specs.ShownInodes.{run_of};
ghost use Rattle.snapshot_blocks.specs.Parsed.{inode_of};
ghost use Rattle.snapshot_loading.specs.Answers.{AreContentsOf, IsAnInode};

use crate::Read;
use crate::entries::all_entries;
use crate::evenness::{are_full, is_even};
use crate::parts::InodeParts;
use crate::picking::pick;
use ivy_base::{Bytes, Key, Kind, Memory};
use snapshot_blocks::InodeBlock;
use std::alloc::Global;

/// How many bytes a piece of a file has, but for the last one.
const PIECE: usize = 8192;

/// An inode's bytes and entries.
#[derive(Drop)]
pub(crate) struct Contents {
    /// A file's bytes, or a link's text.
    body: Bytes,
    /// A directory's entries.
    entries: Vec<(Bytes, Key)>,
}

/// The inode of that block, which has those blocks; none where they are no inode. The error is: out of memory.
pub(crate) fn inode(
    alloc: Global,
    block: &[u8],
    below: &[Read],
) -> Result<Option<InodeParts>, Memory>
    ensures { IfOk result (IsAnInode block.now (blocks_read below.now)) }
{
    let Some(inode) = InodeBlock::read(block) else {
        return Ok(None);
    };
    if !is_even(alloc, below, false, inode.items.level)? {
        return Ok(None);
    }
    let items = pick(alloc, below, false, 0)?;
    let Some(contents) = contents_of(alloc, &inode, items.as_slice())? else {
        return Ok(None);
    };
    Ok(Some(InodeParts {
        number: inode.number,
        kind: inode.kind,
        attributes: inode.attributes,
        body: contents.body,
        entries: contents.entries,
    }))
}

/// What the inode contains, by the blocks at the bottom of its list; none where it contains nothing such. The error is: out of
/// memory.
fn contents_of(
    alloc: Global,
    inode: &InodeBlock<'_>,
    items: &[&[u8]],
) -> Result<Option<Contents>, Memory>
    ensures { IfOk result (AreContentsOf inode.now.kind (inode_of inode.now) (map (λ b. b.now) items.now)) }
{
    match inode.kind {
        Kind::Reg => file(alloc, inode, items),
        Kind::Dir => directory(alloc, items),
        Kind::Lnk => link(alloc, inode),
    }
}

/// The same of a file.
fn file(alloc: Global, inode: &InodeBlock<'_>, pieces: &[&[u8]]) -> Result<Option<Contents>, Memory>
    ensures { IfOk result (AreContentsOf Kind.Reg (inode_of inode.now) (map (λ b. b.now) pieces.now)) }
{
    if !are_full(pieces, PIECE) {
        return Ok(None);
    }
    let bytes = joined(alloc, pieces)?;
    if bytes.len() as u64 != inode.size {
        return Ok(None);
    }
    Ok(Some(Contents {
        body: Bytes::of(bytes),
        entries: Vec::new(alloc),
    }))
}

/// The pieces, one after the other. The error is: out of memory.
fn joined(alloc: Global, pieces: &[&[u8]]) -> Result<Vec<u8>, Memory>
    ensures { IfOk result (λ bytes. bytes.items ≡ run_of (map (λ b. b.now) pieces.now)) }
{
    let mut bytes = Vec::new(alloc);
    'each: for piece in pieces {
        bytes.extend_from_slice(piece)?;
    }
    Ok(bytes)
}

/// The same of a directory.
fn directory(alloc: Global, blocks: &[&[u8]]) -> Result<Option<Contents>, Memory>
    ensures { (said : Said) → IfOk result (AreContentsOf Kind.Dir said (map (λ b. b.now) blocks.now)) }
{
    let Some(entries) = all_entries(alloc, blocks)? else {
        return Ok(None);
    };
    Ok(Some(Contents {
        body: Bytes::of(Vec::new(alloc)),
        entries,
    }))
}

/// The same of a link.
fn link(alloc: Global, inode: &InodeBlock<'_>) -> Result<Option<Contents>, Memory>
    ensures { (blocks : List (List ℕ)) → IfOk result (AreContentsOf Kind.Lnk (inode_of inode.now) blocks) }
{
    Ok(Some(Contents {
        body: Bytes::copy_of(alloc, inode.target)?,
        entries: Vec::new(alloc),
    }))
}
