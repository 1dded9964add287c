//! Who may do what with an object (RFC 1813, section 2.5; the permission bits are POSIX's).

ghost use Rattle.std.specs.Prelude.{◌≡◌, ◌<◌, ◌≤◌, ◌==◌};
ghost use Rattle.std.specs.List.{list_any};
ghost use Rattle.rpc_wire.specs.Callers.{identity_of};
ghost use Rattle.nfs_model.specs.Objects.{is_owner, is_in_group, class_unit, is_granted, may_read, may_write, may_search};

use inode_replay::Content;
use rpc_wire::Caller;

/// The rights of a class of callers.
const READ: u32 = 4;

const WRITE: u32 = 2;

const SEARCH: u32 = 1;

/// Whether the caller owns the inode.
pub fn is_owner(caller: &Caller, content: &Content) -> bool
    ensures { result ≡ is_owner (identity_of caller.now) content.now.inode }
{
    caller.uid == content.attr().uid
}

/// Whether the group is the caller's, or one of the caller's further groups.
pub fn is_in_group(caller: &Caller, gid: u32) -> bool
    ensures { result ≡ is_in_group (identity_of caller.now) gid }
{
    let count = caller.gids.len().min(caller.count as usize);
    caller.gid == gid || is_among(&caller.gids[..count], gid)
}

/// Whether the group is one of these.
fn is_among(groups: &[u32], gid: u32) -> bool
    ensures { result ≡ list_any (λ g. g == gid) groups.now }
{
    groups.iter().any(|group| *group == gid)
}

/// The place value of the bits of the caller's class in the inode's mode: those of the owner, else of the group, else
/// of the others.
fn class_unit(caller: &Caller, content: &Content) -> u32
    ensures unit { result ≡ class_unit (identity_of caller.now) content.now.inode }
    ensures some { 0 < result }
    ensures most { result ≤ 64 }
{
    if is_owner(caller, content) {
        64
    } else if is_in_group(caller, content.attr().gid) {
        8
    } else {
        1
    }
}

/// Whether the caller has the right: by the owner's bits, else by the group's, else by the others'; the superuser has
/// all rights.
fn is_granted(right: u32, caller: &Caller, content: &Content) -> bool
    requires some { 0 < right }
    requires most { right ≤ 4 }
    ensures { result ≡ is_granted right (identity_of caller.now) content.now.inode }
{
    if caller.uid == 0 {
        return true;
    }
    let bit = right * class_unit(caller, content);
    content.attr().mode / bit % 2 == 1
}

/// Whether the caller may read the inode by its mode.
pub fn may_read(caller: &Caller, content: &Content) -> bool
    ensures { result ≡ may_read (identity_of caller.now) content.now.inode }
{
    is_granted(READ, caller, content)
}

/// Whether the caller may write the inode by its mode.
pub fn may_write(caller: &Caller, content: &Content) -> bool
    ensures { result ≡ may_write (identity_of caller.now) content.now.inode }
{
    is_granted(WRITE, caller, content)
}

/// Whether the caller may search the inode, a directory, or execute it, by its mode.
pub fn may_search(caller: &Caller, content: &Content) -> bool
    ensures { result ≡ may_search (identity_of caller.now) content.now.inode }
{
    is_granted(SEARCH, caller, content)
}
