//! Blocks of a level.

ghost use Rattle.std.specs.Prelude.{◌≡◌, map, IfOk};
ghost use Rattle.snapshot_loading.specs.Roles.{item_part, part_of};
ghost use Rattle.snapshot_loading.specs.WholeLaws.{blocks_read};
ghost use Rattle.snapshot_loading.specs.Picks.{is_among, is_at, level_of, of_inodes, picked};

use crate::{Item, Read, Role};
use ivy_base::Memory;
use std::alloc::Global;

/// The bytes of the blocks of that level, among the blocks of all inodes or among those that an inode has. The error is: out
/// of memory.
pub(crate) fn pick<'a>(
    alloc: Global,
    read: &'a [Read],
    inodes: bool,
    level: u32,
) -> Result<Vec<&'a [u8]>, Memory>
    ensures { IfOk result (λ blocks. map (λ b. b.now) blocks.items ≡ picked inodes level (blocks_read read.now)) }
{
    let mut blocks = Vec::new(alloc);
    'each: for one in read {
        if is_at(inodes, level, one.role) {
            blocks.push(one.bytes.as_slice())?;
        }
    }
    Ok(blocks)
}

/// Whether such a block is of that level there.
fn is_at(inodes: bool, level: u32, role: Role) -> bool
    ensures { result ≡ is_at inodes level (part_of role) }
{
    is_among(inodes, role) && level_of(role) == level
}

/// Whether such a block is one of all inodes, or else one that an inode has.
fn is_among(inodes: bool, role: Role) -> bool
    ensures { result ≡ is_among inodes (part_of role) }
{
    if inodes {
        of_inodes(role)
    } else {
        !of_inodes(role)
    }
}

/// Whether such a block is the root, an inode or of the list of all inodes.
pub(crate) fn of_inodes(role: Role) -> bool
    ensures { result ≡ of_inodes (part_of role) }
{
    match role {
        Role::Root => true,
        Role::List { item, .. } => is_inode(item),
        Role::Item(item) => is_inode(item),
    }
}

/// Whether it is an inode.
pub(crate) fn is_inode(item: Item) -> bool
    ensures { result ≡ of_inodes (item_part item) }
{
    matches!(item, Item::Inode)
}

/// The level of a list block, and 0 of what is none.
fn level_of(role: Role) -> u32
    ensures { result ≡ level_of (part_of role) }
{
    match role {
        Role::List { level, .. } => level,
        Role::Root | Role::Item(_) => 0,
    }
}
