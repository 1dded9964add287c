//! What a name in a directory leads to.

ghost use Rattle.std.specs.Prelude.{◌≡◌, IfOk, IfErr, IsTrue, Some, None, unwrap_or};
ghost use Rattle.rpc_wire.specs.Callers.{identity_of};
ghost use Rattle.tree_model.specs.Tree.{inode_at, is_directory, parent};
ghost use Rattle.nfs_model.specs.Checks.{first_failure};
ghost use Rattle.nfs_model.specs.Reading.{target_of, lookup_checks, found_inode, lookup};
ghost use Rattle.nfs3_objects.specs.Seen.{seen};

use crate::refusal::refused;
use fs_tree::Tree;
use ivy_base::{Key, Kind, Memory};
use nfs_model::{NfsStatus, Reply};
use nfs3_objects::{
    LiveObject, attributes, attributes_at, handle_of, is_dot, is_dot_dot, may_search, name_fault,
    object_of,
};
use rpc_wire::Caller;
use std::alloc::Global;
use view_blocks::View;

/// LOOKUP (RFC 1813, section 3.3.3): the file handle and the attributes of what the name in the directory leads to.
///
/// Refused are, in this order, a bad or stale handle, what is no directory (`NotDir`), who may not search it (`Acces`),
/// a name that is too long or invalid (`NameTooLong`, `Inval`), one that isn't there (`NoEnt`), and one whose inode is
/// missing (`Stale`). The error is: out of memory.
pub(crate) fn lookup(
    alloc: Global,
    tree: &Tree,
    view: &View,
    caller: &Caller,
    handle: &[u8],
    name: &[u8],
) -> Result<Reply, Memory>
    ensures { IfOk result (λ reply. reply ≡ lookup tree.now view.now (identity_of caller.now) handle.now name.now) }
{
    let dir = match object_of(tree, view, handle) {
        Ok(dir) => dir,
        Err(status) => return Ok(refused(status, None)),
    };
    match target(tree, caller, &dir, name) {
        Ok(number) => found(alloc, tree, view, &dir, &number),
        Err(status) => Ok(refused(status, Some(attributes(tree, view, &dir)))),
    }
}

/// The number that the name in the object leads to, where no check fails; the fault is that of the first that does.
fn target(tree: &Tree, caller: &Caller, dir: &LiveObject<'_>, name: &[u8]) -> Result<Key, NfsStatus>
    requires { inode_at tree.now dir.now.number ≡ Some dir.now.content.now.inode }
    ensures passes { IfOk result (λ _. first_failure (lookup_checks tree.now (identity_of caller.now) (seen dir.now) name.now) ≡ None) }
    ensures ok { IfOk result (λ number. target_of tree.now dir.now.number name.now ≡ Some number) }
    ensures err { IfErr result (λ fault. first_failure (lookup_checks tree.now (identity_of caller.now) (seen dir.now) name.now) ≡ Some fault) }
{
    if dir.content.kind() != Kind::Dir {
        return Err(NfsStatus::NotDir);
    }
    if !may_search(caller, dir.content) {
        return Err(NfsStatus::Acces);
    }
    if let Some(fault) = name_fault(name) {
        return Err(fault);
    }
    named(tree, &dir.number, name).ok_or(NfsStatus::NoEnt)
}

/// The number that a name in the directory leads to: its own, its parent's, or the entry's.
fn named(tree: &Tree, dir: &Key, name: &[u8]) -> Option<Key>
    requires { IsTrue (is_directory (inode_at tree.now dir.now)) }
    ensures { result ≡ target_of tree.now dir.now name.now }
{
    if is_dot(name) {
        return Some(*dir);
    }
    if is_dot_dot(name) {
        return Some(above(tree, dir));
    }
    tree.entry(dir, name)
}

/// The directory that has this one, or itself where none has it, as none has the root.
fn above(tree: &Tree, dir: &Key) -> Key
    requires { IsTrue (is_directory (inode_at tree.now dir.now)) }
    ensures { result ≡ unwrap_or (parent tree.now dir.now) dir.now }
{
    tree.names().parent(dir).unwrap_or(*dir)
}

/// The inode of that number, which was found in the directory; where it is missing, that is stale.
fn found(
    alloc: Global,
    tree: &Tree,
    view: &View,
    dir: &LiveObject<'_>,
    number: &Key,
) -> Result<Reply, Memory>
    ensures { IfOk result (λ reply. reply ≡ found_inode tree.now view.now (seen dir.now) number.now (inode_at tree.now number.now)) }
{
    let dir = attributes(tree, view, dir);
    let Some(object) = attributes_at(tree, view, number) else {
        return Ok(refused(NfsStatus::Stale, Some(dir)));
    };
    Ok(Reply::Found {
        handle: handle_of(alloc, view, number)?,
        object: Some(object),
        dir: Some(dir),
    })
}
