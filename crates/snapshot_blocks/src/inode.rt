//! Blocks of inodes.

ghost use Rattle.std.specs.Prelude.{◌≡◌, ◌≤◌, ◌↔◌, IsTrue, length, IfOk, IfSome, IfNone, OnErr};
ghost use Rattle.wire_model.specs.OneReading.{IsFront, HasNoFront};
ghost use Rattle.snapshot_model.specs.Blocks.{IsInodeBlock, Says, inode_block};
ghost use Rattle.snapshot_model.specs.Parts.{FitsKind, HasInodeParts};
ghost use Rattle.snapshot_blocks.specs.Parsed.{inode_of};
ghost use Rattle.snapshot_blocks.specs.Refusals.{SaysNothing};
ghost use Rattle.tree_model.specs.Tree.{longest_file};

use crate::attributes::{put_attributes, read_attributes};
use crate::listed::{Listed, put_listed, read_listed};
use block_parts::{
    LONGEST_TARGET, Malformed, kind_number, opaque_len, put_constant, put_key, read_constant,
    read_key, read_kind, read_size,
};
use inode_replay::Attr;
use ivy_base::{Bytes, Key, Kind, Memory};
use std::alloc::Global;
use xdr_codec::{XdrRead, XdrWrite};

/// What the block of an inode begins with.
const MAGIC: [u8; 4] = *b"IVI1";

/// An inode, but for what the blocks of its list have.
#[derive(Clone, Copy)]
pub struct InodeBlock<'a> {
    /// The inode's number.
    pub number: Key,
    /// What it is.
    pub kind: Kind,
    /// The mode, the user, the group and the moments.
    pub attributes: Attr,
    /// The size of a file, at most `LONGEST_FILE` of `block_parts`; of others 0.
    pub size: u64,
    /// The text of a symbolic link, 1 to 1,024 bytes; of others nothing.
    pub target: &'a [u8],
    /// A file's pieces, or a directory's entries; of a link it is empty.
    pub items: Listed,
}

impl<'a> InodeBlock<'a> {
    /// What this block of an inode says. There is nothing where the block is no such one.
    pub fn read(block: &'a [u8]) -> Option<InodeBlock<'a>>
        ensures some { IfSome result (λ inode. Says IsInodeBlock inode_block block.now (inode_of inode)) }
        ensures none { IfNone result (SaysNothing IsInodeBlock inode_block block.now) }
    {
        read_whole(block).ok()
    }

    /// The block. The error is: out of memory; it also comes where the text has 2^32 bytes or more.
    pub fn write(&self, alloc: Global) -> Result<Bytes, Memory>
        ensures { IfOk result (λ block. block ≡ inode_block (inode_of self.now)) }
    {
        let Some(target_len) = opaque_len(self.target) else {
            return Err(Memory);
        };
        let mut out = XdrWrite::new(alloc);
        out.reserve(96 + target_len)?;
        put_constant(&mut out, &MAGIC);
        put_key(&mut out, &self.number);
        out.put_u32(kind_number(self.kind));
        put_attributes(&mut out, &self.attributes);
        out.put_u64(self.size);
        out.put_opaque(self.target);
        put_listed(&mut out, &self.items);
        Ok(out.into_bytes())
    }
}

/// What the block says, where nothing is after it.
fn read_whole<'a>(block: &'a [u8]) -> Result<InodeBlock<'a>, Malformed>
    ensures ok { IfOk result (λ inode. Says IsInodeBlock inode_block block.now (inode_of inode)) }
    ensures err { OnErr result (SaysNothing IsInodeBlock inode_block block.now) }
{
    let mut reader = XdrRead::new(block);
    let inode = read_parts(&mut reader)?;
    reader.finish()?;
    if !fits_kind(&inode) {
        return Err(Malformed);
    }
    Ok(inode)
}

/// The parts at the front, each within its bounds, whatever the kind is.
fn read_parts<'a>(reader: &mut XdrRead<'a>) -> Result<InodeBlock<'a>, Malformed>
    ensures ok { IfOk result (λ inode. IsFront HasInodeParts inode_block reader.old (inode_of inode) reader.new) }
    ensures err { OnErr result (HasNoFront HasInodeParts inode_block reader.old) }
{
    read_constant(reader, &MAGIC)?;
    let number = read_key(reader)?;
    let kind = read_kind(reader)?;
    let attributes = read_attributes(reader)?;
    let size = read_size(reader)?;
    let target = reader.opaque(LONGEST_TARGET)?;
    let items = read_listed(reader)?;
    Ok(InodeBlock {
        number,
        kind,
        attributes,
        size,
        target,
        items,
    })
}

/// Whether the size, the text and the list are those of an inode of that kind.
fn fits_kind(inode: &InodeBlock<'_>) -> bool
    requires size { inode.now.size ≤ longest_file }
    requires target { length inode.now.target.now ≤ 1024 }
    requires level { inode.now.items.level ≤ 3 }
    ensures { IsTrue result ↔ FitsKind inode.now.kind inode.now.size inode.now.target.now inode.now.items.level }
{
    match inode.kind {
        Kind::Reg => inode.target.is_empty(),
        Kind::Dir => inode.size == 0 && inode.target.is_empty(),
        Kind::Lnk => inode.size == 0 && !inode.target.is_empty() && inode.items.level == 0,
    }
}
