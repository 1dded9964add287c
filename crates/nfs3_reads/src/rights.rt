//! What a caller may do.

ghost use Rattle.std.specs.Prelude.{◌≡◌, ◌≤◌, if◌then◌else◌};
ghost use Rattle.rpc_wire.specs.Callers.{identity_of};
ghost use Rattle.nfs_model.specs.Reading.{granted_bits, access};

use crate::refusal::refused;
use fs_tree::Tree;
use inode_replay::Content;
use ivy_base::Kind;
use nfs_model::Reply;
use nfs3_objects::{attributes, may_read, may_search, may_write, object_of};
use rpc_wire::Caller;
use view_blocks::View;

/// The bits of ACCESS (RFC 1813, section 3.3.4): READ, LOOKUP, MODIFY and EXTEND, DELETE, EXECUTE.
const READ: u32 = 1;

const LOOK_UP: u32 = 2;

const MODIFY_AND_EXTEND: u32 = 12;

const DELETE: u32 = 16;

const EXECUTE: u32 = 32;

/// ACCESS (RFC 1813, section 3.3.4): of the asked bits, those that the caller is granted; directories alone have
/// LOOKUP and DELETE, and what is no directory has EXECUTE.
///
/// Refused is a bad or stale handle.
pub(crate) fn access(tree: &Tree, view: &View, caller: &Caller, handle: &[u8], bits: u32) -> Reply
    ensures { result ≡ access tree.now view.now (identity_of caller.now) handle.now bits }
{
    match object_of(tree, view, handle) {
        Ok(object) => Reply::Allowed {
            object: Some(attributes(tree, view, &object)),
            bits: bits & granted_bits(caller, object.content),
        },
        Err(status) => refused(status, None),
    }
}

/// The bits that the caller is granted.
fn granted_bits(caller: &Caller, content: &Content) -> u32
    ensures { result ≡ granted_bits (identity_of caller.now) content.now.inode }
{
    let is_dir = content.kind() == Kind::Dir;
    let may_search = may_search(caller, content);
    let may_write = may_write(caller, content);
    bits_if(may_read(caller, content), READ)
        + bits_if(may_search && is_dir, LOOK_UP)
        + bits_if(may_write, MODIFY_AND_EXTEND)
        + bits_if(may_write && is_dir, DELETE)
        + bits_if(may_search && !is_dir, EXECUTE)
}

/// The bits where they are granted, and else none.
fn bits_if(granted: bool, bits: u32) -> u32
    ensures value { result ≡ (if granted then bits else 0) }
    ensures most { result ≤ bits }
{
    if granted { bits } else { 0 }
}
