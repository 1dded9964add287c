//! The content that a snapshot gives an inode.

ghost use Rattle.std.specs.Prelude.{◌≡◌, ◌≢◌, ◌≤◌, length, filter, IfOk, OnOk};
ghost use Rattle.ivy_base.specs.declared.operation.Op.TheVariants as op;
ghost use Rattle.tree_model.specs.Tree.{longest_file};
ghost use Rattle.inode_replay.specs.Kept.{changed_kept, made_kept};
ghost use Rattle.snapshot_loading.specs.Parts.{HasBody, kept_of};
ghost use Rattle.snapshot_loading.specs.Steps.{IsBegun, beginning, change_of};

use crate::adding::{BEGINNING, first_op};
use crate::parts::InodeParts;
use inode_replay::{Attr, Content};
use ivy_base::{Bytes, Change, Key, Kind, Memory, Op};
use std::alloc::Global;

/// The content that a snapshot gives an inode: its kind, its attributes and its bytes. Of a file every place below its size
/// counts as written. The error is: out of memory.
pub fn content_of(alloc: Global, part: &InodeParts) -> Result<Content, Memory>
    requires { HasBody part.now }
    ensures content { IfOk result (λ content. content ≡ kept_of part.now) }
    ensures written { part.now.kind ≡ Kind.Reg → IfOk result (λ content. length (filter (λ m. m) content.written) ≡ length content.inode.body) }
{
    let mut content = begun(alloc, part)?;
    if part.kind == Kind::Reg {
        write(alloc, &mut content, &part.number, &part.body)?;
    }
    set(alloc, &mut content, &part.number, &part.attributes)?;
    Ok(content)
}

/// The content of an inode that was only just added. The error is: out of memory.
fn begun(alloc: Global, part: &InodeParts) -> Result<Content, Memory>
    ensures { IfOk result (IsBegun part.now) }
{
    Content::fresh(alloc, &first_op(alloc, part)?, BEGINNING)
}

/// Gives a file its bytes, all of which are written then. The error is: out of memory.
fn write(alloc: Global, content: &mut Content, number: &Key, body: &Bytes) -> Result<(), Memory>
    requires { length body.now ≤ longest_file }
    ensures { OnOk result (content.new ≡ changed_kept beginning (op.Write number.now 0 body.now) content.old) }
{
    let op = Op::Write {
        ino: *number,
        offset: 0,
        bytes: body.copy(alloc)?,
    };
    content.apply_content(alloc, BEGINNING, &op)
}

/// Gives an inode its attributes. The error is: out of memory.
fn set(alloc: Global, content: &mut Content, number: &Key, attributes: &Attr) -> Result<(), Memory>
    ensures { OnOk result (content.new ≡ changed_kept attributes.now.ctime (op.SetAttrs number.now (change_of attributes.now)) content.old) }
{
    let op = Op::SetAttrs {
        ino: *number,
        change: Change {
            mode: Some(attributes.mode),
            uid: Some(attributes.uid),
            gid: Some(attributes.gid),
            size: None,
            atime: Some(attributes.atime),
            mtime: Some(attributes.mtime),
        },
    };
    content.apply_content(alloc, attributes.ctime, &op)
}
