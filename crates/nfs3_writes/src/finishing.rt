//! What is answered once the operations stand.

ghost use Rattle.std.specs.Prelude.{◌≡◌, IfOk};
ghost use Rattle.rpc_wire.specs.Callers.{identity_of};
ghost use Rattle.nfs_model.specs.Objects.{object_of, handle_of, attributes_at, cache_data};
ghost use Rattle.nfs_model.specs.Changing.{finish, made, made_number, standing};

use crate::setting::taken_part;
use fs_tree::Tree;
use ivy_base::{Key, Memory, Op};
use nfs_model::{Args, Reply};
use nfs3_objects::{attributes_at, cache_data, handle_of, object_of};
use rpc_wire::Caller;
use std::alloc::Global;
use view_blocks::View;

/// The reply to a call whose planned operations stand, of the trees before and after them. To the reading procedures,
/// NULL and MOUNT's it is `Nothing`. The error is: out of memory.
pub fn finish(
    alloc: Global,
    before: &Tree,
    after: &Tree,
    view: &View,
    caller: &Caller,
    args: &Args,
    ops: &[Op],
) -> Result<Reply, Memory>
    ensures { IfOk result (λ reply. reply ≡ finish before.now after.now view.now (identity_of caller.now) args.now ops.now) }
{
    match args {
        Args::SetAttr { object, .. } => Ok(changed(before, after, view, object.as_slice())),
        Args::Write { file, bytes, .. } => {
            let count = taken_part(bytes.as_slice()).len() as u32;
            Ok(written(before, after, view, file.as_slice(), count))
        }
        Args::Create { dir, .. } => made(alloc, before, after, view, dir.as_slice(), ops),
        Args::MkDir { dir, .. } => made(alloc, before, after, view, dir.as_slice(), ops),
        Args::SymLink { dir, .. } => made(alloc, before, after, view, dir.as_slice(), ops),
        Args::Remove { dir, .. } => Ok(changed(before, after, view, dir.as_slice())),
        Args::RmDir { dir, .. } => Ok(changed(before, after, view, dir.as_slice())),
        Args::Rename { dir, to_dir, .. } => {
            let to_dir = to_dir.as_slice();
            Ok(renamed(before, after, view, dir.as_slice(), to_dir))
        }
        Args::Link { file, dir, .. } => {
            Ok(linked(before, after, view, file.as_slice(), dir.as_slice()))
        }
        _ => Ok(Reply::Nothing),
    }
}

/// The reply to SETATTR, REMOVE and RMDIR: the object of the handle before and after.
fn changed(before: &Tree, after: &Tree, view: &View, handle: &[u8]) -> Reply
    ensures { result ≡ standing (object_of before.now view.now handle.now) (λ o. Reply.Changed (cache_data before.now after.now view.now o)) }
{
    match object_of(before, view, handle) {
        Ok(object) => Reply::Changed {
            cache: cache_data(before, after, view, &object.number),
        },
        Err(_) => Reply::Nothing,
    }
}

/// The reply to WRITE of which so many bytes were taken.
fn written(before: &Tree, after: &Tree, view: &View, handle: &[u8], count: u32) -> Reply
    ensures { result ≡ standing (object_of before.now view.now handle.now) (λ o. Reply.Written (cache_data before.now after.now view.now o) count) }
{
    match object_of(before, view, handle) {
        Ok(object) => Reply::Written {
            cache: cache_data(before, after, view, &object.number),
            count,
        },
        Err(_) => Reply::Nothing,
    }
}

/// The reply to CREATE, MKDIR and SYMLINK: the object that the first operation makes or sets, and its directory. The error
/// is: out of memory.
fn made(
    alloc: Global,
    before: &Tree,
    after: &Tree,
    view: &View,
    handle: &[u8],
    ops: &[Op],
) -> Result<Reply, Memory>
    ensures { IfOk result (λ reply. reply ≡ made before.now after.now view.now (object_of before.now view.now handle.now) (made_number ops.now)) }
{
    let Ok(dir) = object_of(before, view, handle) else {
        return Ok(Reply::Nothing);
    };
    let Some(number) = made_number(ops) else {
        return Ok(Reply::Nothing);
    };
    made_in(alloc, before, after, view, &dir.number, &number)
}

/// The reply that tells of the object of that number, and of the directory. The error is: out of memory.
fn made_in(
    alloc: Global,
    before: &Tree,
    after: &Tree,
    view: &View,
    dir: &Key,
    number: &Key,
) -> Result<Reply, Memory>
    ensures { IfOk result (λ reply. reply ≡ Reply.Made (handle_of view.now number.now) (attributes_at after.now view.now number.now) (cache_data before.now after.now view.now dir.now)) }
{
    let handle = handle_of(alloc, view, number)?;
    Ok(Reply::Made {
        handle,
        object: attributes_at(after, view, number),
        cache: cache_data(before, after, view, dir),
    })
}

/// The number of the inode that the first operation makes or sets.
fn made_number(ops: &[Op]) -> Option<Key>
    ensures { result ≡ made_number ops.now }
{
    match ops.first()? {
        Op::Inode { ino, .. } => Some(*ino),
        Op::SetAttrs { ino, .. } => Some(*ino),
        _ => None,
    }
}

/// The reply to RENAME: both directories before and after.
fn renamed(before: &Tree, after: &Tree, view: &View, handle: &[u8], to_handle: &[u8]) -> Reply
    ensures { result ≡ standing (object_of before.now view.now handle.now) (λ d. standing (object_of before.now view.now to_handle.now) (λ e. Reply.Renamed (cache_data before.now after.now view.now d) (cache_data before.now after.now view.now e))) }
{
    let Ok(dir) = object_of(before, view, handle) else {
        return Reply::Nothing;
    };
    let Ok(to_dir) = object_of(before, view, to_handle) else {
        return Reply::Nothing;
    };
    Reply::Renamed {
        from: cache_data(before, after, view, &dir.number),
        to: cache_data(before, after, view, &to_dir.number),
    }
}

/// The reply to LINK: the file after, and the directory before and after.
fn linked(before: &Tree, after: &Tree, view: &View, file_handle: &[u8], handle: &[u8]) -> Reply
    ensures { result ≡ standing (object_of before.now view.now file_handle.now) (λ f. standing (object_of before.now view.now handle.now) (λ d. Reply.Linked (attributes_at after.now view.now f) (cache_data before.now after.now view.now d))) }
{
    let Ok(file) = object_of(before, view, file_handle) else {
        return Reply::Nothing;
    };
    let Ok(dir) = object_of(before, view, handle) else {
        return Reply::Nothing;
    };
    Reply::Linked {
        file: attributes_at(after, view, &file.number),
        cache: cache_data(before, after, view, &dir.number),
    }
}
