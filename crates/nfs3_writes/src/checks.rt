//! Checks in their order, of which the first that fails decides.

ghost use Rattle.std.specs.Prelude.{◌≡◌, ◌||◌, Some};
ghost use Rattle.rpc_wire.specs.Callers.{identity_of};
ghost use Rattle.nfs_model.specs.Checks.{first_failure, is_dot, is_dot_dot};
ghost use Rattle.nfs_model.specs.Changing.{may_change, directory_checks, taken, inode_under, is_empty_under};
ghost use Rattle.tree_model.specs.Tree.{is_file, is_directory};
ghost use Rattle.nfs3_objects.specs.Seen.{seen};
ghost use Rattle.nfs3_writes.specs.Checks.{place_checks};

use fs_tree::Tree;
use ivy_base::{Key, Kind};
use nfs_model::NfsStatus;
use nfs3_objects::{LiveObject, is_dot, is_dot_dot, may_search, may_write, name_fault};
use rpc_wire::Caller;

/// The status of the first check that fails; a check is whether it fails, and with which status.
pub fn first_failure(checks: &[(bool, NfsStatus)]) -> Option<NfsStatus>
    ensures { result ≡ first_failure checks.now }
{
    'checks: for (fails, status) in checks {
        if *fails {
            return Some(*status);
        }
    }
    None
}

/// Whether the caller may change the names of the directory.
pub fn may_change(caller: &Caller, dir: &LiveObject<'_>) -> bool
    ensures { result ≡ may_change (identity_of caller.now) (seen dir.now) }
{
    may_write(caller, dir.content) && may_search(caller, dir.content)
}

/// Whether the object is a directory.
pub fn is_directory(object: &LiveObject<'_>) -> bool
    ensures { result ≡ is_directory (Some (seen object.now).inode) }
{
    object.content.kind() == Kind::Dir
}

/// Whether the object is a regular file.
pub fn is_file(object: &LiveObject<'_>) -> bool
    ensures { result ≡ is_file (Some (seen object.now).inode) }
{
    object.content.kind() == Kind::Reg
}

/// Whether the name leads to the directory itself or to the one above.
pub fn is_dots(name: &[u8]) -> bool
    ensures { result ≡ (is_dot name.now || is_dot_dot name.now) }
{
    is_dot(name) || is_dot_dot(name)
}

/// The first check that fails on a directory in which a name is to be changed, and on that name.
pub fn place_fault(caller: &Caller, dir: &LiveObject<'_>, name: &[u8]) -> Option<NfsStatus>
    ensures { result ≡ first_failure (place_checks (identity_of caller.now) (seen dir.now) name.now) }
{
    directory_fault(caller, dir).or(name_fault(name))
}

/// The first check that fails on a directory in which a name is to be changed.
pub fn directory_fault(caller: &Caller, dir: &LiveObject<'_>) -> Option<NfsStatus>
    ensures { result ≡ first_failure (directory_checks (identity_of caller.now) (seen dir.now)) }
{
    first_failure(&[
        (!is_directory(dir), NfsStatus::NotDir),
        (!may_change(caller, dir), NfsStatus::Acces),
    ])
}

/// Whether the directory has the name, be it one of the two that each has.
pub fn is_taken(tree: &Tree, dir: &LiveObject<'_>, name: &[u8]) -> bool
    ensures { result ≡ (taken tree.now (seen dir.now) name.now).0 }
{
    is_dots(name) || tree.entry(&dir.number, name).is_some()
}

/// Whether the number, where one is given, is a directory's.
pub fn is_directory_under(tree: &Tree, number: Option<Key>) -> bool
    ensures { result ≡ is_directory (inode_under tree.now number) }
{
    match number {
        Some(number) => matches!(tree.kind(&number), Some(Kind::Dir)),
        None => false,
    }
}

/// Whether the number, where one is given, is a regular file's.
pub fn is_file_under(tree: &Tree, number: Option<Key>) -> bool
    ensures { result ≡ is_file (inode_under tree.now number) }
{
    match number {
        Some(number) => matches!(tree.kind(&number), Some(Kind::Reg)),
        None => false,
    }
}

/// Whether no names stand in the inode of that number, where one is given.
pub fn is_empty_under(tree: &Tree, number: Option<Key>) -> bool
    ensures { result ≡ is_empty_under tree.now number }
{
    match number {
        Some(number) => tree.names().entries(&number) == 0,
        None => true,
    }
}
