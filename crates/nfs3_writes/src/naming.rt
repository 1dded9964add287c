//! REMOVE, RMDIR, RENAME and LINK: names that go, move or are added.

ghost use Rattle.std.specs.Prelude.{◌≡◌, true, Some, IfOk, [], ◌∷◌, if◌then◌else◌};
ghost use Rattle.rpc_wire.specs.Callers.{identity_of};
ghost use Rattle.tree_model.specs.Tree.{entry, inode_at, is_directory};
ghost use Rattle.nfs_model.specs.Checks.{first_failure};
ghost use Rattle.nfs_model.specs.Objects.{object_of, cache_data};
ghost use Rattle.nfs_model.specs.Changing.{Nothing, Operations, plan_unless, plan_remove, plan_remove_directory, plan_rename, plan_rename_between, plan_link, attributes_of, cache_of, inode_under, is_inside_moved, move_checks, same_target};
ghost use Rattle.nfs3_objects.specs.Seen.{seen as seen_object};
ghost use Rattle.nfs3_writes.specs.Checks.{link_checks, link_rest, remove_checks, remove_directory_checks, remove_directory_rest, remove_rest, rename_checks, rename_rest, both_directories_checks};
ghost use Rattle.nfs3_writes.specs.Seen.{seen};

use crate::checks::{
    first_failure, is_directory, is_directory_under, is_dots, is_empty_under, is_taken, may_change,
    place_fault,
};
use crate::plans::Plan;
use crate::refusals::{planned, refused, refused_at, refused_handle, told_at, told_of};
use fs_tree::Tree;
use ivy_base::{Bytes, Key, Memory, Op};
use nfs_model::{Fattr, NfsStatus, Reply, Tail};
use nfs3_objects::{LiveObject, attributes, is_dot, is_dot_dot, name_fault, object_of};
use rpc_wire::Caller;
use std::alloc::Global;
use view_blocks::View;

/// The most names of a file.
const MOST_NAMES: u64 = 1000;

// ---- REMOVE

/// REMOVE (RFC 1813, section 3.3.12). The error is: out of memory.
pub fn plan_remove(
    alloc: Global,
    tree: &Tree,
    view: &View,
    caller: &Caller,
    handle: &[u8],
    name: &[u8],
) -> Result<Plan, Memory>
    ensures { IfOk result (λ given. seen given ≡ plan_remove tree.now view.now (identity_of caller.now) handle.now name.now) }
{
    let dir = match object_of(tree, view, handle) {
        Ok(dir) => dir,
        Err(fault) => return Ok(refused_handle(fault)),
    };
    let target = tree.entry(&dir.number, name);
    match remove_fault(tree, caller, &dir, name, target) {
        Some(fault) => Ok(refused_at(tree, view, &dir, fault)),
        None => unlinked(alloc, dir.number, name),
    }
}

/// The first check of REMOVE that fails, where the name leads to that inode or to none.
fn remove_fault(
    tree: &Tree,
    caller: &Caller,
    dir: &LiveObject<'_>,
    name: &[u8],
    target: Option<Key>,
) -> Option<NfsStatus>
    ensures { result ≡ first_failure (remove_checks tree.now (identity_of caller.now) (seen_object dir.now) name.now target) }
{
    place_fault(caller, dir, name).or(remove_rest(tree, name, target))
}

/// The first of those checks of REMOVE that fails which follow those of the place.
fn remove_rest(tree: &Tree, name: &[u8], target: Option<Key>) -> Option<NfsStatus>
    ensures { result ≡ first_failure (remove_rest tree.now name.now target) }
{
    first_failure(&[
        (is_dots(name), NfsStatus::Inval),
        (target.is_none(), NfsStatus::NoEnt),
        (is_directory_under(tree, target), NfsStatus::IsDir),
    ])
}

/// The plan that a name goes. The error is: out of memory.
fn unlinked(alloc: Global, dir: Key, name: &[u8]) -> Result<Plan, Memory>
    ensures { IfOk result (λ given. seen given ≡ Operations (Op.Unlink dir name.now ∷ [])) }
{
    let name = Bytes::copy_of(alloc, name)?;
    planned(alloc, Op::Unlink { dir, name })
}

// ---- RMDIR

/// RMDIR (RFC 1813, section 3.3.13). The error is: out of memory.
pub fn plan_remove_directory(
    alloc: Global,
    tree: &Tree,
    view: &View,
    caller: &Caller,
    handle: &[u8],
    name: &[u8],
) -> Result<Plan, Memory>
    ensures { IfOk result (λ given. seen given ≡ plan_remove_directory tree.now view.now (identity_of caller.now) handle.now name.now) }
{
    let dir = match object_of(tree, view, handle) {
        Ok(dir) => dir,
        Err(fault) => return Ok(refused_handle(fault)),
    };
    let target = tree.entry(&dir.number, name);
    match remove_directory_fault(tree, caller, &dir, name, target) {
        Some(fault) => Ok(refused_at(tree, view, &dir, fault)),
        None => unlinked(alloc, dir.number, name),
    }
}

/// The first check of RMDIR that fails, where the name leads to that inode or to none.
fn remove_directory_fault(
    tree: &Tree,
    caller: &Caller,
    dir: &LiveObject<'_>,
    name: &[u8],
    target: Option<Key>,
) -> Option<NfsStatus>
    ensures { result ≡ first_failure (remove_directory_checks tree.now (identity_of caller.now) (seen_object dir.now) name.now target) }
{
    place_fault(caller, dir, name).or(remove_directory_rest(tree, name, target))
}

/// The first of those checks of RMDIR that fails which follow those of the place.
fn remove_directory_rest(tree: &Tree, name: &[u8], target: Option<Key>) -> Option<NfsStatus>
    ensures { result ≡ first_failure (remove_directory_rest tree.now name.now target) }
{
    first_failure(&[
        (is_dot(name), NfsStatus::Inval),
        (is_dot_dot(name), NfsStatus::Exist),
        (target.is_none(), NfsStatus::NoEnt),
        (!is_directory_under(tree, target), NfsStatus::NotDir),
        (!is_empty_under(tree, target), NfsStatus::NotEmpty),
    ])
}

// ---- RENAME

/// RENAME (RFC 1813, section 3.3.14). The error is: out of memory.
pub fn plan_rename(
    alloc: Global,
    tree: &Tree,
    view: &View,
    caller: &Caller,
    handle: &[u8],
    name: &[u8],
    to_handle: &[u8],
    to_name: &[u8],
) -> Result<Plan, Memory>
    ensures { IfOk result (λ given. seen given ≡ plan_rename tree.now view.now (identity_of caller.now) handle.now name.now to_handle.now to_name.now) }
{
    let dir = match object_of(tree, view, handle) {
        Ok(dir) => dir,
        Err(fault) => {
            let both = told_at_both(tree, view, handle, to_handle);
            return Ok(refused(fault, both));
        }
    };
    let to_dir = match object_of(tree, view, to_handle) {
        Ok(to_dir) => to_dir,
        Err(fault) => {
            let both = told_at_both(tree, view, handle, to_handle);
            return Ok(refused(fault, both));
        }
    };
    rename_between(alloc, tree, view, caller, &dir, name, &to_dir, to_name)
}

/// What a refusal of RENAME tells of the objects of its handles, each by itself.
fn told_at_both(tree: &Tree, view: &View, handle: &[u8], to_handle: &[u8]) -> Tail
    ensures { result ≡ Tail.TwoCaches (cache_of tree.now view.now (object_of tree.now view.now handle.now)) (cache_of tree.now view.now (object_of tree.now view.now to_handle.now)) }
{
    Tail::TwoCaches(told_at(tree, view, handle), told_at(tree, view, to_handle))
}

/// What a refusal of RENAME tells of its two objects.
fn told_of_both(tree: &Tree, view: &View, dir: &LiveObject<'_>, to_dir: &LiveObject<'_>) -> Tail
    ensures { result ≡ Tail.TwoCaches (cache_data tree.now tree.now view.now dir.now.number) (cache_data tree.now tree.now view.now to_dir.now.number) }
{
    Tail::TwoCaches(told_of(tree, view, dir), told_of(tree, view, to_dir))
}

/// RENAME where both handles stand. The error is: out of memory.
fn rename_between(
    alloc: Global,
    tree: &Tree,
    view: &View,
    caller: &Caller,
    dir: &LiveObject<'_>,
    name: &[u8],
    to_dir: &LiveObject<'_>,
    to_name: &[u8],
) -> Result<Plan, Memory>
    requires { inode_at tree.now to_dir.now.number ≡ Some to_dir.now.content.now.inode }
    ensures { IfOk result (λ given. seen given ≡ plan_rename_between tree.now view.now (identity_of caller.now) (seen_object dir.now) name.now (seen_object to_dir.now) to_name.now) }
{
    let moved = tree.entry(&dir.number, name);
    let replaced = tree.entry(&to_dir.number, to_name);
    if let Some(fault) = rename_fault(caller, dir, name, to_dir, to_name, moved) {
        return Ok(refused(fault, told_of_both(tree, view, dir, to_dir)));
    }
    if same_target(moved, replaced) {
        return Ok(Plan::Nothing(Reply::Renamed {
            from: told_of(tree, view, dir),
            to: told_of(tree, view, to_dir),
        }));
    }
    if let Some(fault) = move_fault(tree, &to_dir.number, moved, replaced) {
        return Ok(refused(fault, told_of_both(tree, view, dir, to_dir)));
    }
    renamed(alloc, dir.number, name, to_dir.number, to_name)
}

/// The first of those checks of RENAME that fails which are on its places, where the first one's name leads to that
/// inode or to none.
fn rename_fault(
    caller: &Caller,
    dir: &LiveObject<'_>,
    name: &[u8],
    to_dir: &LiveObject<'_>,
    to_name: &[u8],
    moved: Option<Key>,
) -> Option<NfsStatus>
    ensures { result ≡ first_failure (rename_checks (identity_of caller.now) (seen_object dir.now) name.now (seen_object to_dir.now) to_name.now moved) }
{
    both_directories_fault(caller, dir, to_dir)
        .or(name_fault(name))
        .or(name_fault(to_name))
        .or(rename_rest(name, to_name, moved))
}

/// The first check that fails on the two directories of a RENAME.
fn both_directories_fault(
    caller: &Caller,
    dir: &LiveObject<'_>,
    to_dir: &LiveObject<'_>,
) -> Option<NfsStatus>
    ensures { result ≡ first_failure (both_directories_checks (identity_of caller.now) (seen_object dir.now) (seen_object to_dir.now)) }
{
    first_failure(&[
        (
            !is_directory(dir) || !is_directory(to_dir),
            NfsStatus::NotDir,
        ),
        (
            !may_change(caller, dir) || !may_change(caller, to_dir),
            NfsStatus::Acces,
        ),
    ])
}

/// The first of those checks of RENAME that fails which follow those of the directories and of each name.
fn rename_rest(name: &[u8], to_name: &[u8], moved: Option<Key>) -> Option<NfsStatus>
    ensures { result ≡ first_failure (rename_rest name.now to_name.now moved) }
{
    first_failure(&[
        (is_dots(name) || is_dots(to_name), NfsStatus::Inval),
        (moved.is_none(), NfsStatus::NoEnt),
    ])
}

/// Whether both names lead to one inode.
fn same_target(moved: Option<Key>, replaced: Option<Key>) -> bool
    ensures { result ≡ same_target moved replaced }
{
    match (moved, replaced) {
        (Some(moved), Some(replaced)) => moved == replaced,
        _ => false,
    }
}

/// The first of those checks of RENAME that fails which are on what moves into that directory and on what it replaces.
fn move_fault(
    tree: &Tree,
    to_dir: &Key,
    moved: Option<Key>,
    replaced: Option<Key>,
) -> Option<NfsStatus>
    requires { is_directory (inode_at tree.now to_dir.now) ≡ true }
    ensures { result ≡ first_failure (move_checks tree.now to_dir.now moved replaced) }
{
    let directory = is_directory_under(tree, replaced);
    let other_kind = is_directory_under(tree, moved) != directory;
    first_failure(&[
        (replaced.is_some() && other_kind, NfsStatus::Exist),
        (
            directory && !is_empty_under(tree, replaced),
            NfsStatus::Exist,
        ),
        (is_inside_moved(tree, to_dir, moved), NfsStatus::Inval),
    ])
}

/// Whether the directory is what moves, or lies inside it.
fn is_inside_moved(tree: &Tree, dir: &Key, moved: Option<Key>) -> bool
    requires { is_directory (inode_at tree.now dir.now) ≡ true }
    ensures { result ≡ is_inside_moved tree.now dir.now moved }
{
    match moved {
        Some(moved) => tree.names().inside(dir, &moved),
        None => false,
    }
}

/// The plan that a name moves. The error is: out of memory.
fn renamed(
    alloc: Global,
    dir: Key,
    name: &[u8],
    to_dir: Key,
    to_name: &[u8],
) -> Result<Plan, Memory>
    ensures { IfOk result (λ given. seen given ≡ Operations (Op.Rename dir name.now to_dir to_name.now ∷ [])) }
{
    let op = Op::Rename {
        dir,
        name: Bytes::copy_of(alloc, name)?,
        to_dir,
        to_name: Bytes::copy_of(alloc, to_name)?,
    };
    planned(alloc, op)
}

// ---- LINK

/// LINK (RFC 1813, section 3.3.15), of a file with less than 1,000 names. The error is: out of memory.
pub fn plan_link(
    alloc: Global,
    tree: &Tree,
    view: &View,
    caller: &Caller,
    file_handle: &[u8],
    handle: &[u8],
    name: &[u8],
) -> Result<Plan, Memory>
    ensures { IfOk result (λ given. seen given ≡ plan_link tree.now view.now (identity_of caller.now) file_handle.now handle.now name.now) }
{
    let file = match object_of(tree, view, file_handle) {
        Ok(file) => file,
        Err(fault) => {
            let both = told_to_link(tree, view, file_handle, handle);
            return Ok(refused(fault, both));
        }
    };
    let dir = match object_of(tree, view, handle) {
        Ok(dir) => dir,
        Err(fault) => {
            let both = told_to_link(tree, view, file_handle, handle);
            return Ok(refused(fault, both));
        }
    };
    if let Some(fault) = link_fault(tree, caller, &file, &dir, name) {
        let both = told_to_link(tree, view, file_handle, handle);
        return Ok(refused(fault, both));
    }
    linked(alloc, dir.number, name, file.number)
}

/// What a refusal of LINK tells of the objects of its handles, each by itself.
fn told_to_link(tree: &Tree, view: &View, file_handle: &[u8], handle: &[u8]) -> Tail
    ensures { result ≡ Tail.AttributesAndCache (attributes_of tree.now view.now (object_of tree.now view.now file_handle.now)) (cache_of tree.now view.now (object_of tree.now view.now handle.now)) }
{
    let attributes = attributes_of(tree, view, file_handle);
    Tail::AttributesAndCache(attributes, told_at(tree, view, handle))
}

/// The attributes of the object of a handle: none where the handle fails its checks.
fn attributes_of(tree: &Tree, view: &View, handle: &[u8]) -> Option<Fattr>
    ensures { result ≡ attributes_of tree.now view.now (object_of tree.now view.now handle.now) }
{
    match object_of(tree, view, handle) {
        Ok(object) => Some(attributes(tree, view, &object)),
        Err(_) => None,
    }
}

/// The first check of LINK that fails.
fn link_fault(
    tree: &Tree,
    caller: &Caller,
    file: &LiveObject<'_>,
    dir: &LiveObject<'_>,
    name: &[u8],
) -> Option<NfsStatus>
    ensures { result ≡ first_failure (link_checks tree.now (identity_of caller.now) (seen_object file.now) (seen_object dir.now) name.now) }
{
    if is_directory(file) {
        return Some(NfsStatus::Inval);
    }
    place_fault(caller, dir, name).or(link_rest(tree, file, dir, name))
}

/// The first of those checks of LINK that fails which follow those of the place.
fn link_rest(
    tree: &Tree,
    file: &LiveObject<'_>,
    dir: &LiveObject<'_>,
    name: &[u8],
) -> Option<NfsStatus>
    ensures { result ≡ first_failure (link_rest tree.now (seen_object file.now) (seen_object dir.now) name.now) }
{
    let names = tree.names().names_of(&file.number);
    first_failure(&[
        (is_taken(tree, dir, name), NfsStatus::Exist),
        (names >= MOST_NAMES, NfsStatus::MLink),
    ])
}

/// The plan that an inode gets a name. The error is: out of memory.
fn linked(alloc: Global, dir: Key, name: &[u8], ino: Key) -> Result<Plan, Memory>
    ensures { IfOk result (λ given. seen given ≡ Operations (Op.Link dir name.now ino ∷ [])) }
{
    let name = Bytes::copy_of(alloc, name)?;
    planned(alloc, Op::Link { dir, name, ino })
}
