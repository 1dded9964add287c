//! The contents of inodes.

ghost use Rattle.std.specs.Prelude.{◌≡◌, true, OnOk};
ghost use Rattle.std.specs.List.{AllByRecursion};
ghost use Rattle.std.specs.FinMap.Entries.{is_sorted};
ghost use Rattle.ivy_base.specs.Naming.{key_cmp};
ghost use Rattle.tree_model.specs.Tree.{Tree};
ghost use Rattle.snapshot_loading.specs.Parts.{HasBody, tree_of};
ghost use Rattle.snapshot_loading.specs.Steps.{AreSettled, AwaitsAll, Awaits, Settles};

use crate::content::content_of;
use crate::parts::InodeParts;
use fs_tree::Tree;
use ivy_base::Memory;
use std::alloc::Global;

/// Gives all inodes their contents. The error is: out of memory.
pub(crate) fn settle_all(alloc: Global, tree: &mut Tree, parts: &[InodeParts]) -> Result<(), Memory>
    requires bodies { AllByRecursion HasBody parts.now }
    requires order { is_sorted key_cmp (tree_of parts.now).inodes ≡ true }
    requires awaits { AwaitsAll parts.now tree.old }
    ensures { OnOk result (AreSettled parts.now tree.old tree.new) }
{
    'parts: for part in parts {
        settle(alloc, tree, part)?;
    }
    Ok(())
}

/// Gives an inode its content. The error is: out of memory.
fn settle(alloc: Global, tree: &mut Tree, part: &InodeParts) -> Result<(), Memory>
    requires body { HasBody part.now }
    requires awaits { Awaits part.now tree.old }
    ensures { OnOk result (Settles part.now tree.old tree.new) }
{
    let content = content_of(alloc, part)?;
    tree.put_content(alloc, part.number, content)?;
    Ok(())
}
