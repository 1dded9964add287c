//! The names of inodes.

ghost use Rattle.std.specs.Prelude.{◌≡◌, [], ◌∷◌, ◌++◌, true, IfOk};
ghost use Rattle.std.specs.FinMap.Entries.{is_sorted};
ghost use Rattle.tree_model.specs.Tree.{place_cmp};
ghost use Rattle.dir_replay.specs.View.{names_in};
ghost use Rattle.snapshot_loading.specs.Parts.{tree_of};
ghost use Rattle.snapshot_loading.specs.Steps.{IsMade, Links};

use crate::adding::BEGINNING;
use crate::parts::InodeParts;
use fs_tree::Tree;
use ivy_base::{Bytes, Key, Memory, Op};
use std::alloc::Global;

/// Gives all inodes their names, and answers whether each could be given. The error is: out of memory.
pub(crate) fn link_all(alloc: Global, tree: &mut Tree, parts: &[InodeParts]) -> Result<bool, Memory>
    requires made { IsMade tree.old }
    requires order { is_sorted place_cmp (tree.old.names ++ (tree_of parts.now).names) ≡ true }
    ensures { IfOk result (Links (tree_of parts.now).names tree.old tree.new) }
{
    'parts: for part in parts {
        if !link_each(alloc, tree, &part.number, part.entries.as_slice())? {
            return Ok(false);
        }
    }
    Ok(true)
}

/// Gives the inodes their names in the directory, and answers whether each could be given. The error is: out of memory.
fn link_each(
    alloc: Global,
    tree: &mut Tree,
    dir: &Key,
    entries: &[(Bytes, Key)],
) -> Result<bool, Memory>
    requires made { IsMade tree.old }
    requires order { is_sorted place_cmp (tree.old.names ++ names_in dir.now entries.now) ≡ true }
    ensures { IfOk result (Links (names_in dir.now entries.now) tree.old tree.new) }
{
    'entries: for entry in entries {
        if !link(alloc, tree, dir, &entry.0, &entry.1)? {
            return Ok(false);
        }
    }
    Ok(true)
}

/// Gives the inode a name, and answers whether it could be given. The error is: out of memory.
fn link(
    alloc: Global,
    tree: &mut Tree,
    dir: &Key,
    name: &Bytes,
    number: &Key,
) -> Result<bool, Memory>
    requires made { IsMade tree.old }
    requires order { is_sorted place_cmp (tree.old.names ++ ((dir.now, name.now), number.now) ∷ []) ≡ true }
    ensures { IfOk result (Links (((dir.now, name.now), number.now) ∷ []) tree.old tree.new) }
{
    let op = Op::Link {
        dir: *dir,
        name: name.copy(alloc)?,
        ino: *number,
    };
    tree.apply(alloc, BEGINNING, &op)?;
    Ok(tree.entry(dir, name.as_slice()).is_some())
}
