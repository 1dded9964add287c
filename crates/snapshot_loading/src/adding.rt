//! Inodes without names, and without what comes later.

ghost use Rattle.std.specs.Prelude.{◌≡◌, true, IfOk, OnOk};
ghost use Rattle.std.specs.FinMap.Entries.{is_sorted};
ghost use Rattle.ivy_base.specs.Naming.{key_cmp};
ghost use Rattle.ivy_base.specs.declared.operation.Op.TheVariants as op;
ghost use Rattle.tree_model.specs.Apply.{add_inode, empty_tree};
ghost use Rattle.snapshot_loading.specs.Parts.{tree_of};
ghost use Rattle.snapshot_loading.specs.Steps.{AreAdded, beginning, first_body};

use crate::parts::InodeParts;
use fs_tree::Tree;
use ivy_base::{Bytes, Kind, Memory, Moment, Op};
use std::alloc::Global;

/// The moment of all operations but those that set attributes.
pub(crate) const BEGINNING: Moment = Moment { sec: 0, nsec: 0 };

/// Adds all inodes to the root alone. The error is: out of memory.
pub(crate) fn add_all(alloc: Global, tree: &mut Tree, parts: &[InodeParts]) -> Result<(), Memory>
    requires empty { tree.old ≡ empty_tree }
    requires order { is_sorted key_cmp (tree_of parts.now).inodes ≡ true }
    ensures { OnOk result (AreAdded parts.now tree.new) }
{
    'parts: for part in parts {
        add(alloc, tree, part)?;
    }
    Ok(())
}

/// Adds an inode, where its number isn't used. The error is: out of memory.
fn add(alloc: Global, tree: &mut Tree, part: &InodeParts) -> Result<(), Memory>
    ensures { OnOk result (tree.new ≡ add_inode tree.old beginning part.now.number part.now.kind 0 0 0 (first_body part.now.kind part.now.body)) }
{
    let op = first_op(alloc, part)?;
    tree.apply(alloc, BEGINNING, &op)
}

/// What adds the inode. The error is: out of memory.
pub(crate) fn first_op(alloc: Global, part: &InodeParts) -> Result<Op, Memory>
    ensures { IfOk result (λ o. o ≡ op.Inode part.now.number part.now.kind 0 0 0 (first_body part.now.kind part.now.body)) }
{
    Ok(Op::Inode {
        ino: part.number,
        kind: part.kind,
        mode: 0,
        uid: 0,
        gid: 0,
        target: first_body(alloc, part.kind, &part.body)?,
    })
}

/// A link's text, and nothing of anything else. The error is: out of memory.
fn first_body(alloc: Global, kind: Kind, body: &Bytes) -> Result<Bytes, Memory>
    ensures { IfOk result (λ bytes. bytes ≡ first_body kind body.now) }
{
    match kind {
        Kind::Lnk => body.copy(alloc),
        Kind::Reg | Kind::Dir => Ok(Bytes::of(Vec::new(alloc))),
    }
}
