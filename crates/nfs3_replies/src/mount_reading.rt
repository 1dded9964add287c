//! Reading the results of MOUNT (RFC 1813, section 5.2).

ghost use Rattle.std.specs.Prelude.{◌≡◌, ◌<◌, IfOk};
ghost use Rattle.nfs_model.specs.Results.{result as bytes_of};
ghost use Rattle.wire_model.specs.Parts.{Reads};
ghost use Rattle.nfs3_replies.specs.ReadParts.{IsAnswer, mount_form_at};

use crate::attributes_reading::read_constant;
use crate::constants::{EXPORTS, FLAVOURS, MOST_HANDLE, NO_MOUNTS, NO_SUCH_PATH, OK};
use ivy_base::{Bytes, Memory};
use nfs_model::Reply;
use std::alloc::Global;
use xdr_codec::Parts;

/// A result of MOUNT's.
pub fn read_mount_result(alloc: Global, parts: &mut Parts, procedure: u32) -> Result<Reply, Memory>
    requires { procedure < 6 }
    ensures { IfOk result (λ r. Reads (IsAnswer 5 (mount_form_at procedure)) bytes_of parts.old r parts.new) }
{
    match procedure {
        1 => read_mount(alloc, parts),
        2 => Ok(read_no_mounts(parts)),
        5 => Ok(read_exports(parts)),
        _ => Ok(Reply::Nothing),
    }
}

/// MNT: a file handle and the flavours, or that the path isn't there (MNT3ERR_NOENT, 2).
fn read_mount(alloc: Global, parts: &mut Parts) -> Result<Reply, Memory>
    ensures { IfOk result (λ r. Reads (IsAnswer 5 101) bytes_of parts.old r parts.new) }
{
    let status = parts.u32();
    if status == OK {
        let handle = parts.opaque(MOST_HANDLE);
        read_constant(parts, &FLAVOURS);
        let handle = Bytes::copy_of(alloc, handle)?;
        Ok(Reply::Mounted { handle })
    } else if status == NO_SUCH_PATH {
        Ok(Reply::NoSuchPath)
    } else {
        parts.miss();
        Ok(Reply::NoSuchPath)
    }
}

/// DUMP.
fn read_no_mounts(parts: &mut Parts) -> Reply
    ensures { Reads (IsAnswer 5 102) bytes_of parts.old result parts.new }
{
    read_constant(parts, &NO_MOUNTS);
    Reply::NoMounts
}

/// EXPORT.
fn read_exports(parts: &mut Parts) -> Reply
    ensures { Reads (IsAnswer 5 105) bytes_of parts.old result parts.new }
{
    read_constant(parts, &EXPORTS);
    Reply::Exports
}
