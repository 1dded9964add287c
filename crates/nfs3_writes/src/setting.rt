//! SETATTR and WRITE: what becomes of attributes and contents.

ghost use Rattle.std.specs.Prelude.{◌≡◌, ◌+◌, ◌≤◌, ◌||◌, ◌&&◌, not, nat_lt, length, true, false, is_some, IfOk, [], ◌∷◌, ◌==◌, if◌then◌else◌};
ghost use Rattle.std.specs.Option.{option_map_or};
ghost use Rattle.rpc_wire.specs.Callers.{identity_of};
ghost use Rattle.nfs_model.specs.Checks.{first_failure};
ghost use Rattle.nfs_model.specs.Objects.{cache_data, is_owner, may_write};
ghost use Rattle.nfs_model.specs.Changing.{Nothing, Operations, plan_unless, plan_attributes, plan_write, set_attribute_checks, is_client_time, is_plain_owner, may_give, asked_change, taken_part};
ghost use Rattle.nfs3_objects.specs.Seen.{seen as seen_object};
ghost use Rattle.nfs3_writes.specs.Checks.{write_checks};
ghost use Rattle.nfs3_writes.specs.Seen.{seen};
ghost use Rattle.tree_model.specs.Tree.{longest_file};

use crate::checks::{first_failure, is_file};
use crate::plans::Plan;
use crate::refusals::{planned, refused_at, refused_handle, told_of};
use crate::times::{asked_change, has_invalid_time, has_server_time, is_client_time, is_too_large};
use block_parts::LONGEST_FILE;
use fs_tree::Tree;
use inode_replay::Content;
use ivy_base::{Bytes, Memory, Moment, Op};
use nfs_model::{NfsStatus, Reply, SetWhat};
use nfs3_objects::{LiveObject, is_in_group, is_owner, may_write, object_of};
use rpc_wire::Caller;
use std::alloc::Global;
use view_blocks::View;

/// The most bytes that one WRITE takes.
const MOST_TAKEN: usize = 8192;

// ---- SETATTR

/// SETATTR (RFC 1813, section 3.3.2). It plans an operation also where nothing is given, which sets the ctime. The error
/// is: out of memory.
pub fn plan_attributes(
    alloc: Global,
    tree: &Tree,
    view: &View,
    caller: &Caller,
    handle: &[u8],
    what: &SetWhat,
    guard: Option<Moment>,
    now: Moment,
) -> Result<Plan, Memory>
    ensures { IfOk result (λ given. seen given ≡ plan_attributes tree.now view.now (identity_of caller.now) handle.now what.now guard now) }
{
    let object = match object_of(tree, view, handle) {
        Ok(object) => object,
        Err(fault) => return Ok(refused_handle(fault)),
    };
    match attribute_fault(caller, &object, what, guard) {
        Some(fault) => Ok(refused_at(tree, view, &object, fault)),
        None => planned(
            alloc,
            Op::SetAttrs {
                ino: object.number,
                change: asked_change(now, what),
            },
        ),
    }
}

/// The first check of SETATTR that fails.
fn attribute_fault(
    caller: &Caller,
    object: &LiveObject<'_>,
    what: &SetWhat,
    guard: Option<Moment>,
) -> Option<NfsStatus>
    ensures { result ≡ first_failure (set_attribute_checks (identity_of caller.now) (seen_object object.now) what.now guard) }
{
    let content = object.content;
    let sized = what.size.is_some();
    let locked = !may_change_bytes(caller, content);
    first_failure(&[
        (has_invalid_time(what), NfsStatus::Inval),
        (is_out_of_step(content, guard), NfsStatus::NotSync),
        (
            asks_of_owner(what) && !(caller.uid == 0 || is_owner(caller, content)),
            NfsStatus::Perm,
        ),
        (
            is_plain_owner(caller, content) && !may_give(caller, what),
            NfsStatus::Perm,
        ),
        (sized && !is_file(object), NfsStatus::Inval),
        (sized && locked, NfsStatus::Acces),
        (is_too_large(what.size), NfsStatus::FBig),
        (has_server_time(what) && locked, NfsStatus::Acces),
    ])
}

/// Whether the caller may write the inode by its mode, or owns it.
fn may_change_bytes(caller: &Caller, content: &Content) -> bool
    ensures { result ≡ (may_write (identity_of caller.now) content.now.inode || is_owner (identity_of caller.now) content.now.inode) }
{
    may_write(caller, content) || is_owner(caller, content)
}

/// Whether a guard is given that isn't the inode's ctime.
fn is_out_of_step(content: &Content, guard: Option<Moment>) -> bool
    ensures { result ≡ option_map_or (λ m. not (m.sec == content.now.inode.attributes.ctime.sec && m.nsec == content.now.inode.attributes.ctime.nsec)) guard false }
{
    match guard {
        Some(moment) => moment != content.attr().ctime,
        None => false,
    }
}

/// Whether something is asked for that only the owner may set: a mode, an owner, a group, or a time of the client's own.
fn asks_of_owner(what: &SetWhat) -> bool
    ensures { result ≡ (is_some what.now.mode || is_some what.now.uid || is_some what.now.gid || is_client_time what.now.atime || is_client_time what.now.mtime) }
{
    what.mode.is_some()
        || what.uid.is_some()
        || what.gid.is_some()
        || is_client_time(what.atime)
        || is_client_time(what.mtime)
}

/// Whether the caller owns the inode and isn't the superuser.
fn is_plain_owner(caller: &Caller, content: &Content) -> bool
    ensures { result ≡ is_plain_owner (identity_of caller.now) content.now.inode }
{
    is_owner(caller, content) && caller.uid != 0
}

/// Whether a plain owner may give the inode as is asked: to nobody else, and to groups of its own.
fn may_give(caller: &Caller, what: &SetWhat) -> bool
    ensures { result ≡ may_give (identity_of caller.now) what.now }
{
    let owner = match what.uid {
        Some(uid) => uid == caller.uid,
        None => true,
    };
    let group = match what.gid {
        Some(gid) => is_in_group(caller, gid),
        None => true,
    };
    owner && group
}

// ---- WRITE

/// WRITE (RFC 1813, section 3.3.7). The first 8,192 bytes are taken. The error is: out of memory.
pub fn plan_write(
    alloc: Global,
    tree: &Tree,
    view: &View,
    caller: &Caller,
    handle: &[u8],
    offset: u64,
    count: u32,
    bytes: &[u8],
) -> Result<Plan, Memory>
    ensures { IfOk result (λ given. seen given ≡ plan_write tree.now view.now (identity_of caller.now) handle.now offset count bytes.now) }
{
    let object = match object_of(tree, view, handle) {
        Ok(object) => object,
        Err(fault) => return Ok(refused_handle(fault)),
    };
    match write_fault(caller, &object, offset, count, bytes) {
        Some(fault) => Ok(refused_at(tree, view, &object, fault)),
        None => write_taken(alloc, tree, view, &object, offset, bytes),
    }
}

/// The first check of WRITE that fails.
fn write_fault(
    caller: &Caller,
    object: &LiveObject<'_>,
    offset: u64,
    count: u32,
    bytes: &[u8],
) -> Option<NfsStatus>
    ensures { result ≡ first_failure (write_checks (identity_of caller.now) (seen_object object.now) offset count bytes.now) }
{
    first_failure(&[
        (!is_file(object), NfsStatus::Inval),
        (!may_change_bytes(caller, object.content), NfsStatus::Acces),
        (count as usize != bytes.len(), NfsStatus::Inval),
        (ends_too_far(offset, taken_part(bytes)), NfsStatus::FBig),
    ])
}

/// Whether bytes from the offset on end where no file may end.
fn ends_too_far(offset: u64, bytes: &[u8]) -> bool
    ensures { result ≡ nat_lt longest_file (offset + length bytes.now) }
{
    offset.saturating_add(bytes.len() as u64) > LONGEST_FILE
}

/// The bytes of a WRITE that are taken.
pub fn taken_part(bytes: &[u8]) -> &[u8]
    ensures taken { result.now ≡ taken_part bytes.now }
    ensures few { length result.now ≤ 8192 }
{
    &bytes[..MOST_TAKEN.min(bytes.len())]
}

/// The operation that writes the bytes that are taken, where there are any. The error is: out of memory.
fn write_taken(
    alloc: Global,
    tree: &Tree,
    view: &View,
    object: &LiveObject<'_>,
    offset: u64,
    bytes: &[u8],
) -> Result<Plan, Memory>
    ensures { IfOk result (λ given. seen given ≡ (if length bytes.now == 0 then Nothing (Reply.Written (cache_data tree.now tree.now view.now object.now.number) 0) else Operations (Op.Write object.now.number offset (taken_part bytes.now) ∷ []))) }
{
    if bytes.is_empty() {
        return Ok(Plan::Nothing(Reply::Written {
            cache: told_of(tree, view, object),
            count: 0,
        }));
    }
    planned(
        alloc,
        Op::Write {
            ino: object.number,
            offset,
            bytes: Bytes::copy_of(alloc, taken_part(bytes))?,
        },
    )
}
