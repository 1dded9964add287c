//! The tree as a whole.

ghost use Rattle.std.specs.Prelude.{IfOk};
ghost use Rattle.std.specs.List.{AllByRecursion};
ghost use Rattle.snapshot_loading.specs.Parts.{HasBody, IsTreeOf, tree_of};

use crate::adding::add_all;
use crate::linking::link_all;
use crate::order::{has_root, in_order};
use crate::parts::InodeParts;
use crate::settling::settle_all;
use fs_tree::Tree;
use ivy_base::Memory;
use std::alloc::Global;

/// The tree of these inodes and names; none where it is no tree without contradictions. The error is: out of memory.
pub fn build(alloc: Global, parts: &[InodeParts]) -> Result<Option<Tree>, Memory>
    requires { AllByRecursion HasBody parts.now }
    ensures { IfOk result (IsTreeOf (tree_of parts.now)) }
{
    if !in_order(parts) || !has_root(parts) {
        return Ok(None);
    }
    let mut tree = Tree::empty(alloc)?;
    add_all(alloc, &mut tree, parts)?;
    if !link_all(alloc, &mut tree, parts)? {
        return Ok(None);
    }
    settle_all(alloc, &mut tree, parts)?;
    Ok(Some(tree))
}
