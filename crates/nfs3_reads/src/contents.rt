//! The bytes of files and the texts of symbolic links.

ghost use Rattle.std.specs.Prelude.{◌≡◌, ◌≤◌, ◌+◌, nat_le, length, IfOk};
ghost use Rattle.rpc_wire.specs.Callers.{identity_of};
ghost use Rattle.nfs_model.specs.Checks.{first_failure};
ghost use Rattle.nfs_model.specs.Reading.{part, read, read_link};
ghost use Rattle.nfs3_reads.specs.ReadChecks.{read_checks};

use crate::refusal::refused;
use fs_tree::Tree;
use inode_replay::Content;
use ivy_base::{Bytes, Kind, Memory};
use nfs_model::{NfsStatus, Reply};
use nfs3_objects::{attributes, is_owner, may_read, object_of};
use rpc_wire::Caller;
use std::alloc::Global;
use view_blocks::View;

/// The most bytes that one READ gives.
const MOST_READ: u32 = 8192;

/// READLINK (RFC 1813, section 3.3.5): the text of a symbolic link.
///
/// Refused are, in this order, a bad or stale handle, and what is no symbolic link (`Inval`). The error is: out of
/// memory.
pub(crate) fn read_link(
    alloc: Global,
    tree: &Tree,
    view: &View,
    handle: &[u8],
) -> Result<Reply, Memory>
    ensures { IfOk result (λ reply. reply ≡ read_link tree.now view.now handle.now) }
{
    let link = match object_of(tree, view, handle) {
        Ok(link) => link,
        Err(status) => return Ok(refused(status, None)),
    };
    let shown = Some(attributes(tree, view, &link));
    if link.content.kind() != Kind::Lnk {
        return Ok(refused(NfsStatus::Inval, shown));
    }
    Ok(Reply::Text {
        link: shown,
        text: Bytes::copy_of(alloc, link.content.target())?,
    })
}

/// READ (RFC 1813, section 3.3.6): the bytes of a file from the offset on, at most `count` and at most 8,192, and
/// whether they reach the file's end.
///
/// Refused are, in this order, a bad or stale handle, what is no regular file (`Inval`), and who may not read it and
/// isn't its owner (`Acces`). The error is: out of memory.
pub(crate) fn read(
    alloc: Global,
    tree: &Tree,
    view: &View,
    caller: &Caller,
    handle: &[u8],
    offset: u64,
    count: u32,
) -> Result<Reply, Memory>
    ensures { IfOk result (λ reply. reply ≡ read tree.now view.now (identity_of caller.now) handle.now offset count) }
{
    let file = match object_of(tree, view, handle) {
        Ok(file) => file,
        Err(status) => return Ok(refused(status, None)),
    };
    let shown = Some(attributes(tree, view, &file));
    if let Some(fault) = read_fault(caller, file.content) {
        return Ok(refused(fault, shown));
    }
    let bytes = part_of(alloc, file.content, offset, count)?;
    let given = bytes.as_slice().len() as u32;
    Ok(Reply::Bytes {
        file: shown,
        count: given,
        eof: is_end(file.content, offset, given),
        bytes,
    })
}

/// The first check of a READ that fails, where one does.
fn read_fault(caller: &Caller, file: &Content) -> Option<NfsStatus>
    ensures { result ≡ first_failure (read_checks (identity_of caller.now) file.now.inode) }
{
    if file.kind() != Kind::Reg {
        return Some(NfsStatus::Inval);
    }
    if may_read(caller, file) || is_owner(caller, file) {
        None
    } else {
        Some(NfsStatus::Acces)
    }
}

/// The bytes from the offset on, at most so many and at most 8,192. The error is: out of memory.
fn part_of(alloc: Global, file: &Content, offset: u64, count: u32) -> Result<Bytes, Memory>
    ensures part { IfOk result (λ bytes. bytes ≡ part file.now.inode.body offset count) }
    ensures short { IfOk result (λ bytes. length bytes ≤ 8192) }
{
    file.read_range(alloc, offset, count.min(MOST_READ))
}

/// Whether so many bytes from the offset on reach the file's end.
fn is_end(file: &Content, offset: u64, count: u32) -> bool
    ensures { result ≡ nat_le (length file.now.inode.body) (offset + count) }
{
    file.size() <= offset.saturating_add(count as u64)
}
