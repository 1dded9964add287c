//! What a block of a snapshot names.

ghost use Rattle.std.specs.Prelude.{◌≡◌, [], IfOk, IfErr};
ghost use Rattle.snapshot_model.specs.Reading.{NamesParts, item_of, part_below, top_of};
ghost use Rattle.snapshot_loading.specs.Roles.{blocks_in, item_part, part_of, parts_of, RefusesPart};

use crate::role::{Item, Role};
use block_parts::BlockFault;
use ivy_base::{Key, Kind};
use snapshot_blocks::{InodeBlock, Listed, RootBlock, is_piece, read_entries, read_list};
use std::alloc::Global;

/// What a block names.
#[derive(Clone, Copy)]
pub(crate) enum Named<'a> {
    /// Nothing.
    Nothing,
    /// The topmost block of a list.
    Top(Role, Key),
    /// Blocks beside one another, by the bytes of their names.
    Each(Role, &'a [[u8; 20]]),
}

/// What the block names, which is to be that.
///
/// `Malformed` comes exactly where the block is no such part of a snapshot, and `Memory` means out of memory.
pub(crate) fn names<'a>(alloc: Global, role: Role, block: &'a [u8]) -> Result<Named<'a>, BlockFault>
    ensures ok { IfOk result (λ named. NamesParts (part_of role) block.now (parts_of (blocks_in named))) }
    ensures err { IfErr result (RefusesPart (part_of role) block.now) }
{
    match role {
        Role::Root => in_root(alloc, block),
        Role::List { level, item } => in_list(level, item, block),
        Role::Item(item) => in_item(alloc, item, block),
    }
}

/// What a root names.
fn in_root<'a>(alloc: Global, block: &[u8]) -> Result<Named<'a>, BlockFault>
    ensures ok { IfOk result (λ named. NamesParts (part_of Role.Root) block.now (parts_of (blocks_in named))) }
    ensures err { IfErr result (RefusesPart (part_of Role.Root) block.now) }
{
    let root = RootBlock::read(alloc, block)?;
    Ok(top(Item::Inode, &root.inodes))
}

/// What a list block names.
fn in_list<'a>(level: u32, item: Item, block: &'a [u8]) -> Result<Named<'a>, BlockFault>
    ensures ok { IfOk result (λ named. NamesParts (part_of (Role.List level item)) block.now (parts_of (blocks_in named))) }
    ensures err { IfErr result (RefusesPart (part_of (Role.List level item)) block.now) }
{
    match read_list(block, level) {
        Some(keys) => Ok(Named::Each(below(level, item), keys)),
        None => Err(BlockFault::Malformed),
    }
}

/// What an item of a list names.
fn in_item<'a>(alloc: Global, item: Item, block: &[u8]) -> Result<Named<'a>, BlockFault>
    ensures ok { IfOk result (λ named. NamesParts (item_part item) block.now (parts_of (blocks_in named))) }
    ensures err { IfErr result (RefusesPart (item_part item) block.now) }
{
    match item {
        Item::Inode => in_inode(block),
        Item::Piece => in_piece(block),
        Item::Entries => in_entries(alloc, block),
    }
}

/// What an inode names.
fn in_inode<'a>(block: &[u8]) -> Result<Named<'a>, BlockFault>
    ensures ok { IfOk result (λ named. NamesParts (item_part Item.Inode) block.now (parts_of (blocks_in named))) }
    ensures err { IfErr result (RefusesPart (item_part Item.Inode) block.now) }
{
    match InodeBlock::read(block) {
        Some(inode) => Ok(top(item_of(inode.kind), &inode.items)),
        None => Err(BlockFault::Malformed),
    }
}

/// A piece of a file names nothing.
fn in_piece<'a>(block: &[u8]) -> Result<Named<'a>, BlockFault>
    ensures ok { IfOk result (λ named. NamesParts (item_part Item.Piece) block.now (parts_of (blocks_in named))) }
    ensures err { IfErr result (RefusesPart (item_part Item.Piece) block.now) }
{
    if !is_piece(block) {
        return Err(BlockFault::Malformed);
    }
    Ok(Named::Nothing)
}

/// A block of entries names nothing.
fn in_entries<'a>(alloc: Global, block: &[u8]) -> Result<Named<'a>, BlockFault>
    ensures ok { IfOk result (λ named. NamesParts (item_part Item.Entries) block.now (parts_of (blocks_in named))) }
    ensures err { IfErr result (RefusesPart (item_part Item.Entries) block.now) }
{
    read_entries(alloc, block)?;
    Ok(Named::Nothing)
}

/// The topmost block of a list, where it isn't empty.
fn top<'a>(item: Item, list: &Listed) -> Named<'a>
    ensures { parts_of (blocks_in result) ≡ top_of (item_part item) list.now.level list.now.top }
{
    if list.level == 0 {
        return Named::Nothing;
    }
    Named::Top(
        Role::List {
            level: list.level,
            item,
        },
        list.top,
    )
}

/// What the blocks are to be that a list block of that level names.
fn below(level: u32, item: Item) -> Role
    ensures { part_of result ≡ part_below level (item_part item) }
{
    if level <= 1 {
        return Role::Item(item);
    }
    Role::List {
        level: level - 1,
        item,
    }
}

/// What the list of an inode is over.
fn item_of(kind: Kind) -> Item
    ensures { item_part result ≡ item_of kind }
{
    match kind {
        Kind::Reg => Item::Piece,
        Kind::Dir | Kind::Lnk => Item::Entries,
    }
}
