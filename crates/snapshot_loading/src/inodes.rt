//! Inode by inode.

ghost use Rattle.std.specs.Prelude.{◌≡◌, option_map, IfOk};
ghost use Rattle.snapshot_loading.specs.Roles.{part_of};
ghost use Rattle.snapshot_loading.specs.WholeLaws.{blocks_read};
ghost use Rattle.snapshot_loading.specs.Picks.{inodes_in, is_inode, within};
ghost use Rattle.snapshot_loading.specs.Answers.{AreAllInodes};

use crate::inode::inode;
use crate::parts::InodeParts;
use crate::picking::of_inodes;
use crate::{Item, Read, Role};
use ivy_base::Memory;
use std::alloc::Global;

/// All inodes among the blocks, in their order; none where one isn't an inode with what it contains. The error is: out of
/// memory.
pub(crate) fn all_inodes(alloc: Global, read: &[Read]) -> Result<Option<Vec<InodeParts>>, Memory>
    ensures { IfOk result (λ all. AreAllInodes (inodes_in (blocks_read read.now)) (option_map (λ ps. ps.items) all)) }
{
    let mut all = Vec::new(alloc);
    let mut left = read;
    'each: while let Some((first, rest)) = left.split_first() {
        if is_inode(first.role) {
            let Some(one) = inode(alloc, first.bytes.as_slice(), within(rest))? else {
                return Ok(None);
            };
            all.push(one)?;
        }
        left = rest;
    }
    Ok(Some(all))
}

/// Whether such a block is an inode.
fn is_inode(role: Role) -> bool
    ensures { result ≡ is_inode (part_of role) }
{
    matches!(role, Role::Item(Item::Inode))
}

/// The blocks up to the next one of the list of all inodes.
fn within(read: &[Read]) -> &[Read]
    ensures { blocks_read result.now ≡ within (blocks_read read.now) }
{
    let mut count = 0;
    'inside: while count < read.len() && !of_inodes(read[count].role) {
        count += 1;
    }
    read.split_at(count).0
}
