//! CREATE, MKDIR and SYMLINK: what makes a new object.

ghost use Rattle.std.specs.Prelude.{◌≡◌, ◌&&◌, ◌||◌, not, is_some, IfOk, ℕ, List, None, [], ◌∷◌, if◌then◌else◌};
ghost use Rattle.tree_model.specs.Tree.{is_file};
ghost use Rattle.rpc_wire.specs.Callers.{identity_of};
ghost use Rattle.nfs_model.specs.Checks.{first_failure};
ghost use Rattle.nfs_model.specs.Changing.{Operations, plan_create, plan_directory, plan_existing, plan_file, plan_new, plan_symbolic_link, make, set_times, inode_under, is_positive, may_cut};
ghost use Rattle.nfs_model.specs.Objects.{handle_of, attributes_at, cache_data};
ghost use Rattle.nfs3_objects.specs.Seen.{seen as seen_object};
ghost use Rattle.nfs3_writes.specs.Checks.{directory_made_checks, directory_made_rest, file_made_checks, file_made_rest, link_made_checks, link_made_rest};
ghost use Rattle.nfs3_writes.specs.Seen.{seen};

use crate::checks::{first_failure, is_dots, is_file_under, is_taken, place_fault};
use crate::ops::Ops;
use crate::plans::Plan;
use crate::refusals::{planned, refused_at, refused_handle, told_of};
use crate::times::{given_mode, given_time, has_invalid_time, is_too_large, new_owner, only_times};
use fs_tree::Tree;
use ivy_base::{Bytes, Change, Key, Kind, Memory, Moment, Op};
use nfs_model::{How, NfsStatus, Reply, SetWhat};
use nfs3_objects::{LiveObject, attributes_at, handle_of, is_owner, may_write, object_of};
use rpc_wire::Caller;
use std::alloc::Global;
use view_blocks::View;

/// The most bytes of a symbolic link's text.
const MOST_TEXT: usize = 1024;

/// What is asked of a new object, when, and which number it gets.
#[derive(Clone, Copy)]
pub struct Asked {
    /// The attributes that the client gives.
    pub what: SetWhat,
    /// The moment of the call.
    pub moment: Moment,
    /// The number of the new inode.
    pub number: Key,
}

impl Asked {
    /// These attributes, at that moment, for the inode of that number.
    pub fn of(what: &SetWhat, moment: Moment, number: Key) -> Asked
        ensures { result ≡ record { what = what.now; moment = moment; number = number } }
    {
        Asked {
            what: *what,
            moment,
            number,
        }
    }
}

// ---- MKDIR

/// MKDIR (RFC 1813, section 3.3.9); a size is passed over. The error is: out of memory.
pub fn plan_directory(
    alloc: Global,
    tree: &Tree,
    view: &View,
    caller: &Caller,
    handle: &[u8],
    name: &[u8],
    asked: &Asked,
) -> Result<Plan, Memory>
    ensures { IfOk result (λ given. seen given ≡ plan_directory tree.now view.now (identity_of caller.now) handle.now name.now asked.now.what asked.now.moment asked.now.number) }
{
    let dir = match object_of(tree, view, handle) {
        Ok(dir) => dir,
        Err(fault) => return Ok(refused_handle(fault)),
    };
    match directory_fault(tree, caller, &dir, name, &asked.what) {
        Some(fault) => Ok(refused_at(tree, view, &dir, fault)),
        None => new_of_kind(alloc, caller, Kind::Dir, &dir, name, asked, b"".as_slice()),
    }
}

/// The first check of MKDIR that fails.
fn directory_fault(
    tree: &Tree,
    caller: &Caller,
    dir: &LiveObject<'_>,
    name: &[u8],
    what: &SetWhat,
) -> Option<NfsStatus>
    ensures { result ≡ first_failure (directory_made_checks tree.now (identity_of caller.now) (seen_object dir.now) name.now what.now) }
{
    place_fault(caller, dir, name).or(directory_rest(tree, dir, name, what))
}

/// The first of those checks of MKDIR that fails which follow those of the place.
fn directory_rest(
    tree: &Tree,
    dir: &LiveObject<'_>,
    name: &[u8],
    what: &SetWhat,
) -> Option<NfsStatus>
    ensures { result ≡ first_failure (directory_made_rest tree.now (seen_object dir.now) name.now what.now) }
{
    first_failure(&[
        (has_invalid_time(what), NfsStatus::Inval),
        (is_taken(tree, dir, name), NfsStatus::Exist),
    ])
}

/// The operation that makes the inode, with the caller as its owner. The error is: out of memory.
fn make(
    alloc: Global,
    caller: &Caller,
    kind: Kind,
    asked: &Asked,
    target: &[u8],
) -> Result<Op, Memory>
    ensures { IfOk result (λ op. op ≡ make (identity_of caller.now) kind asked.now.what asked.now.number target.now) }
{
    let what = &asked.what;
    Ok(Op::Inode {
        ino: asked.number,
        kind,
        mode: given_mode(kind, what.mode),
        uid: new_owner(caller, caller.uid, what.uid),
        gid: new_owner(caller, caller.gid, what.gid),
        target: Bytes::copy_of(alloc, target)?,
    })
}

/// The operation that gives an inode a name. The error is: out of memory.
fn link(alloc: Global, dir: Key, name: &[u8], ino: Key) -> Result<Op, Memory>
    ensures { IfOk result (λ op. op ≡ Op.Link dir name.now ino) }
{
    Ok(Op::Link {
        dir,
        name: Bytes::copy_of(alloc, name)?,
        ino,
    })
}

/// The plan of the operations that make an inode of that kind, name it in the directory, and set its times where any is
/// given. The error is: out of memory.
fn new_of_kind(
    alloc: Global,
    caller: &Caller,
    kind: Kind,
    dir: &LiveObject<'_>,
    name: &[u8],
    asked: &Asked,
    target: &[u8],
) -> Result<Plan, Memory>
    ensures { IfOk result (λ given. seen given ≡ Operations (make (identity_of caller.now) kind asked.now.what asked.now.number target.now ∷ Op.Link dir.now.number name.now asked.now.number ∷ set_times asked.now.moment asked.now.what asked.now.number)) }
{
    let inode = make(alloc, caller, kind, asked, target)?;
    new_object(alloc, inode, dir, name, asked)
}

/// The plan of the operation that makes an inode, of one that names it in the directory, and of one that sets its times
/// where any is given. The error is: out of memory.
fn new_object(
    alloc: Global,
    inode: Op,
    dir: &LiveObject<'_>,
    name: &[u8],
    asked: &Asked,
) -> Result<Plan, Memory>
    ensures { IfOk result (λ given. seen given ≡ Operations (inode ∷ Op.Link dir.now.number name.now asked.now.number ∷ set_times asked.now.moment asked.now.what asked.now.number)) }
{
    let link = link(alloc, dir.number, name, asked.number)?;
    let change = only_times(asked.moment, &asked.what);
    if sets_a_time(&change) {
        return three(alloc, inode, link, asked.number, change);
    }
    two(alloc, inode, link)
}

/// Whether a time is set.
fn sets_a_time(change: &Change) -> bool
    ensures { result ≡ (is_some change.now.atime || is_some change.now.mtime) }
{
    change.atime.is_some() || change.mtime.is_some()
}

/// The plan of the operations that make an inode and name it. The error is: out of memory.
fn two(alloc: Global, inode: Op, link: Op) -> Result<Plan, Memory>
    ensures { IfOk result (λ given. seen given ≡ Operations (inode ∷ link ∷ [])) }
{
    Ok(Plan::Ops(Ops::of(vec![in alloc; inode, link]?)))
}

/// The plan of the operations that make an inode, name it and set its attributes. The error is: out of memory.
fn three(alloc: Global, inode: Op, link: Op, ino: Key, change: Change) -> Result<Plan, Memory>
    ensures { IfOk result (λ given. seen given ≡ Operations (inode ∷ link ∷ Op.SetAttrs ino change ∷ [])) }
{
    let set = Op::SetAttrs { ino, change };
    Ok(Plan::Ops(Ops::of(vec![in alloc; inode, link, set]?)))
}

// ---- SYMLINK

/// SYMLINK (RFC 1813, section 3.3.10); the text has 1 to 1,024 bytes, and a size is passed over. The error is: out of
/// memory.
pub fn plan_symbolic_link(
    alloc: Global,
    tree: &Tree,
    view: &View,
    caller: &Caller,
    handle: &[u8],
    name: &[u8],
    asked: &Asked,
    text: &[u8],
) -> Result<Plan, Memory>
    ensures { IfOk result (λ given. seen given ≡ plan_symbolic_link tree.now view.now (identity_of caller.now) handle.now name.now asked.now.what text.now asked.now.moment asked.now.number) }
{
    let dir = match object_of(tree, view, handle) {
        Ok(dir) => dir,
        Err(fault) => return Ok(refused_handle(fault)),
    };
    match link_fault(tree, caller, &dir, name, &asked.what, text) {
        Some(fault) => Ok(refused_at(tree, view, &dir, fault)),
        None => new_of_kind(alloc, caller, Kind::Lnk, &dir, name, asked, text),
    }
}

/// The first check of SYMLINK that fails.
fn link_fault(
    tree: &Tree,
    caller: &Caller,
    dir: &LiveObject<'_>,
    name: &[u8],
    what: &SetWhat,
    text: &[u8],
) -> Option<NfsStatus>
    ensures { result ≡ first_failure (link_made_checks tree.now (identity_of caller.now) (seen_object dir.now) name.now what.now text.now) }
{
    place_fault(caller, dir, name).or(link_rest(tree, dir, name, what, text))
}

/// The first of those checks of SYMLINK that fails which follow those of the place.
fn link_rest(
    tree: &Tree,
    dir: &LiveObject<'_>,
    name: &[u8],
    what: &SetWhat,
    text: &[u8],
) -> Option<NfsStatus>
    ensures { result ≡ first_failure (link_made_rest tree.now (seen_object dir.now) name.now what.now text.now) }
{
    first_failure(&[
        (text.len() > MOST_TEXT, NfsStatus::NameTooLong),
        (text.is_empty(), NfsStatus::Inval),
        (has_invalid_time(what), NfsStatus::Inval),
        (is_taken(tree, dir, name), NfsStatus::Exist),
    ])
}

// ---- CREATE

/// CREATE (RFC 1813, section 3.3.8) at that moment, of which a new file gets that number. Under a verifier it is not
/// supported. The error is: out of memory.
pub fn plan_create(
    alloc: Global,
    tree: &Tree,
    view: &View,
    caller: &Caller,
    handle: &[u8],
    name: &[u8],
    how: &How,
    now: Moment,
    number: Key,
) -> Result<Plan, Memory>
    ensures { IfOk result (λ given. seen given ≡ plan_create tree.now view.now (identity_of caller.now) handle.now name.now how.now now number) }
{
    match how {
        How::Unchecked(what) => {
            let asked = Asked::of(what, now, number);
            plan_file(alloc, tree, view, caller, handle, name, false, &asked)
        }
        How::Guarded(what) => {
            let asked = Asked::of(what, now, number);
            plan_file(alloc, tree, view, caller, handle, name, true, &asked)
        }
        How::Exclusive(_) => Ok(refused_exclusive(tree, view, caller, handle, name)),
    }
}

/// The refusal of a CREATE under a verifier, which is not supported.
fn refused_exclusive(tree: &Tree, view: &View, caller: &Caller, handle: &[u8], name: &[u8]) -> Plan
    ensures { (verifier : List ℕ) (now : Moment) (number : Key) → seen result ≡ plan_create tree.now view.now (identity_of caller.now) handle.now name.now (How.Exclusive verifier) now number }
{
    match object_of(tree, view, handle) {
        Ok(dir) => {
            let fault = place_fault(caller, &dir, name).unwrap_or(NfsStatus::NotSupp);
            refused_at(tree, view, &dir, fault)
        }
        Err(fault) => refused_handle(fault),
    }
}

/// CREATE with attributes. A file that is there may stand where the creation is not guarded. The error is: out of memory.
fn plan_file(
    alloc: Global,
    tree: &Tree,
    view: &View,
    caller: &Caller,
    handle: &[u8],
    name: &[u8],
    guarded: bool,
    asked: &Asked,
) -> Result<Plan, Memory>
    ensures { IfOk result (λ given. seen given ≡ plan_file tree.now view.now (identity_of caller.now) handle.now name.now guarded asked.now.what asked.now.moment asked.now.number) }
{
    let dir = match object_of(tree, view, handle) {
        Ok(dir) => dir,
        Err(fault) => return Ok(refused_handle(fault)),
    };
    let what = &asked.what;
    let existing = tree.entry(&dir.number, name);
    if let Some(fault) = file_fault(tree, caller, &dir, name, existing, guarded, what) {
        return Ok(refused_at(tree, view, &dir, fault));
    }
    match existing {
        Some(existing) => plan_existing(alloc, tree, view, &dir, existing, what),
        None => plan_new(alloc, caller, &dir, name, asked),
    }
}

/// The first check of CREATE with attributes that fails, where the name leads to that inode or to none.
fn file_fault(
    tree: &Tree,
    caller: &Caller,
    dir: &LiveObject<'_>,
    name: &[u8],
    existing: Option<Key>,
    guarded: bool,
    what: &SetWhat,
) -> Option<NfsStatus>
    ensures { result ≡ first_failure (file_made_checks tree.now (identity_of caller.now) (seen_object dir.now) name.now existing guarded what.now) }
{
    place_fault(caller, dir, name).or(file_rest(tree, caller, name, existing, guarded, what))
}

/// The first of those checks of CREATE that fails which follow those of the place.
fn file_rest(
    tree: &Tree,
    caller: &Caller,
    name: &[u8],
    existing: Option<Key>,
    guarded: bool,
    what: &SetWhat,
) -> Option<NfsStatus>
    ensures { result ≡ first_failure (file_made_rest tree.now (identity_of caller.now) name.now existing guarded what.now) }
{
    first_failure(&[
        (has_invalid_time(what), NfsStatus::Inval),
        (is_too_large(what.size), NfsStatus::FBig),
        (is_dots(name), NfsStatus::Exist),
        (is_in_the_way(tree, existing, guarded), NfsStatus::Exist),
        (
            is_kept_whole(tree, caller, existing, what),
            NfsStatus::Acces,
        ),
    ])
}

/// Whether an inode that is there stands in the way: any where the creation is guarded, and else any but a file.
fn is_in_the_way(tree: &Tree, existing: Option<Key>, guarded: bool) -> bool
    ensures { result ≡ (is_some existing && (guarded || not (is_file (inode_under tree.now existing)))) }
{
    existing.is_some() && (guarded || !is_file_under(tree, existing))
}

/// Whether a file that is there would be cut by a caller who may not.
fn is_kept_whole(tree: &Tree, caller: &Caller, existing: Option<Key>, what: &SetWhat) -> bool
    ensures { result ≡ (is_some existing && is_some what.now.size && not (may_cut (identity_of caller.now) (inode_under tree.now existing))) }
{
    existing.is_some() && what.size.is_some() && !may_cut(tree, caller, existing)
}

/// Whether the caller may cut the file of that number: whoever may write it or owns it.
fn may_cut(tree: &Tree, caller: &Caller, number: Option<Key>) -> bool
    ensures { result ≡ may_cut (identity_of caller.now) (inode_under tree.now number) }
{
    let Some(number) = number else {
        return true;
    };
    match tree.content(&number) {
        Some(content) => may_write(caller, content) || is_owner(caller, content),
        None => true,
    }
}

/// What becomes of a file that is there: its size is set where one is given. The error is: out of memory.
fn plan_existing(
    alloc: Global,
    tree: &Tree,
    view: &View,
    dir: &LiveObject<'_>,
    number: Key,
    what: &SetWhat,
) -> Result<Plan, Memory>
    ensures { IfOk result (λ given. seen given ≡ plan_existing tree.now view.now (seen_object dir.now) number what.now) }
{
    if what.size.is_some() {
        return planned(alloc, set_size(number, what.size));
    }
    let reply = found(alloc, tree, view, dir, number)?;
    Ok(Plan::Nothing(reply))
}

/// The operation that sets the size alone.
fn set_size(ino: Key, size: Option<u64>) -> Op
    ensures { result ≡ Op.SetAttrs ino (record { mode = None; uid = None; gid = None; size = size; atime = None; mtime = None }) }
{
    let change = Change {
        mode: None,
        uid: None,
        gid: None,
        size,
        atime: None,
        mtime: None,
    };
    Op::SetAttrs { ino, change }
}

/// The reply that tells of a file that is there and stays as it is. The error is: out of memory.
fn found(
    alloc: Global,
    tree: &Tree,
    view: &View,
    dir: &LiveObject<'_>,
    number: Key,
) -> Result<Reply, Memory>
    ensures { IfOk result (λ reply. reply ≡ Reply.Made (handle_of view.now number) (attributes_at tree.now view.now number) (cache_data tree.now tree.now view.now (seen_object dir.now).number)) }
{
    let handle = handle_of(alloc, view, &number)?;
    Ok(Reply::Made {
        handle,
        object: attributes_at(tree, view, &number),
        cache: told_of(tree, view, dir),
    })
}

/// The size, where it is above 0.
fn positive(size: Option<u64>) -> Option<u64>
    ensures { result ≡ (if is_positive size then size else None) }
{
    match size {
        Some(0) => None,
        size => size,
    }
}

/// A new file: its times are set where they are given, and its size where it is above 0. The error is: out of memory.
fn plan_new(
    alloc: Global,
    caller: &Caller,
    dir: &LiveObject<'_>,
    name: &[u8],
    asked: &Asked,
) -> Result<Plan, Memory>
    ensures { IfOk result (λ given. seen given ≡ plan_new (identity_of caller.now) (seen_object dir.now) name.now asked.now.what asked.now.moment asked.now.number) }
{
    let inode = make(alloc, caller, Kind::Reg, asked, b"".as_slice())?;
    let link = link(alloc, dir.number, name, asked.number)?;
    let change = Change {
        size: positive(asked.what.size),
        ..only_times(asked.moment, &asked.what)
    };
    if sets_size_or_time(&change) {
        return three(alloc, inode, link, asked.number, change);
    }
    two(alloc, inode, link)
}

/// Whether the size or a time is set.
fn sets_size_or_time(change: &Change) -> bool
    ensures { result ≡ (is_some change.now.size || is_some change.now.atime || is_some change.now.mtime) }
{
    change.size.is_some() || change.atime.is_some() || change.mtime.is_some()
}
