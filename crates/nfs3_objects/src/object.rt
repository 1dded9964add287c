//! File handles, and the objects that they lead to.

ghost use Rattle.std.specs.Prelude.{◌≡◌, ◌&&◌, ◌==◌, IfOk, IfErr, Ok, Err, Some, [], ◌∷◌, length, take, drop};
ghost use Rattle.log_model.specs.View.{view_name};
ghost use Rattle.tree_model.specs.Tree.{inode_at};
ghost use Rattle.nfs_model.specs.Checks.{same_bytes};
ghost use Rattle.nfs_model.specs.Objects.{handle_of, live_object, object_of, handle_tag};
ghost use Rattle.nfs3_objects.specs.Seen.{seen};

use fs_tree::Tree;
use inode_replay::Content;
use ivy_base::{Bytes, Key, Memory};
use nfs_model::NfsStatus;
use std::alloc::Global;
use view_blocks::View;

/// The first four bytes of a file handle.
const TAG: [u8; 4] = *b"IVY1";

/// The bytes of a file handle: the tag, the name of a view and the number of an inode.
const HANDLE: usize = 44;

/// An inode that is live, with its number.
#[derive(Clone, Copy)]
pub struct LiveObject<'t> {
    /// The inode's number.
    pub number: Key,
    /// The inode: its kind, its attributes and its bytes.
    pub content: &'t Content,
}

/// The object that a file handle leads to (RFC 1813, section 2.5, nfs_fh3).
///
/// The fault is `BadHandle` where the handle hasn't 44 bytes of which the first four are `IVY1`, and else `Stale`
/// where it is of another view, or the inode isn't live.
pub fn object_of<'t>(
    tree: &'t Tree,
    view: &View,
    handle: &[u8],
) -> Result<LiveObject<'t>, NfsStatus>
    ensures ok { IfOk result (λ o. object_of tree.now view.now handle.now ≡ Ok (seen o)) }
    ensures there { IfOk result (λ o. inode_at tree.now o.number ≡ Some o.content.now.inode) }
    ensures err { IfErr result (λ fault. object_of tree.now view.now handle.now ≡ Err fault) }
{
    if !is_handle(handle) {
        return Err(NfsStatus::BadHandle);
    }
    if !is_of_view(view, handle) {
        return Err(NfsStatus::Stale);
    }
    live_object(tree, number_of(handle))
}

/// Whether the bytes have the length and the tag of a handle.
fn is_handle(handle: &[u8]) -> bool
    ensures { result ≡ (length handle.now == 44 && same_bytes (take 4 handle.now) handle_tag) }
{
    handle.len() == HANDLE && handle[..4] == TAG[..]
}

/// Whether the handle is of that view.
fn is_of_view(view: &View, handle: &[u8]) -> bool
    requires { length handle.now ≡ 44 }
    ensures { result ≡ same_bytes (take 20 (drop 4 handle.now)) (view_name view.now).0 }
{
    handle[4..24] == view.name().0[..]
}

/// The number of the inode in the handle.
fn number_of(handle: &[u8]) -> Key
    requires { length handle.now ≡ 44 }
    ensures { result ≡ record { 0 = drop 24 handle.now } }
{
    let mut number = [0; 20];
    number.copy_from_slice(&handle[24..]);
    Key(number)
}

/// The object of that number; the fault is `Stale`, where there is none or it isn't live.
pub fn live_object(tree: &Tree, number: Key) -> Result<LiveObject<'_>, NfsStatus>
    ensures ok { IfOk result (λ o. live_object tree.now number ≡ Ok (seen o)) }
    ensures there { IfOk result (λ o. inode_at tree.now o.number ≡ Some o.content.now.inode) }
    ensures err { IfErr result (λ fault. live_object tree.now number ≡ Err fault) }
{
    if !tree.live(&number) {
        return Err(NfsStatus::Stale);
    }
    match tree.content(&number) {
        Some(content) => Ok(LiveObject { number, content }),
        None => Err(NfsStatus::Stale),
    }
}

/// The file handle of an inode: `IVY1`, the view's name and the inode's number. The error is: out of memory.
pub fn handle_of(alloc: Global, view: &View, number: &Key) -> Result<Bytes, Memory>
    ensures handle { IfOk result (λ handle. handle ≡ handle_of view.now number.now) }
    ensures length { IfOk result (λ handle. length handle ≡ 44) }
{
    let mut handle = Vec::with_capacity(alloc, HANDLE)?;
    handle.extend_from_slice(TAG.as_slice())?;
    handle.extend_from_slice(view.name().0.as_slice())?;
    handle.extend_from_slice(number.0.as_slice())?;
    Ok(Bytes::of(handle))
}
