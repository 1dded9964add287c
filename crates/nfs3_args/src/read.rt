//! Reading whole arguments.

ghost use Rattle.std.specs.Prelude.{◌≡◌, IfOk, IfErr};
ghost use Rattle.wire_model.specs.Parts.{Reads};
ghost use Rattle.nfs_model.specs.Arguments.{arguments, AreArguments};
ghost use Rattle.nfs_model.specs.Laws.{AreOf};
ghost use Rattle.nfs3_args.specs.Reading.{RefusesArguments};

use crate::mount::read_mount;
use crate::nfs::read_nfs;
use ivy_base::Memory;
use nfs_model::{Args, ArgsFault};
use std::alloc::Global;
use xdr_codec::Parts;

/// The number of the program NFS (RFC 1813, section 3).
pub const NFS_PROGRAM: u32 = 100_003;

/// The number of the program MOUNT (section 5).
pub const MOUNT_PROGRAM: u32 = 100_005;

/// The arguments of that procedure of NFS version 3 or MOUNT version 3 that the bytes are (RFC 1813, sections 3.3
/// and 5.2).
///
/// `Garbage` comes exactly where the bytes are no arguments of the procedure: cut, or with a byte after the last
/// one; with padding that isn't zero, a boolean or an enumeration outside its list, a handle above 64 bytes, a name
/// or a text above 4,096, or a path above 1,024. So it does where there is no such procedure. `Memory` means out of
/// memory, which is taken only for bytes that are there.
pub fn read_args(
    alloc: Global,
    program: u32,
    procedure: u32,
    bytes: &[u8],
) -> Result<Args, ArgsFault>
    ensures ok { IfOk result (λ args. AreArguments program procedure bytes.now args) }
    ensures err { IfErr result (RefusesArguments program procedure bytes.now) }
{
    let mut parts = Parts::of(bytes);
    let args = read_procedure(alloc, &mut parts, program, procedure)?;
    if parts.are_read() {
        Ok(args)
    } else {
        Err(ArgsFault::Garbage)
    }
}

/// The arguments of that procedure.
fn read_procedure(
    alloc: Global,
    parts: &mut Parts,
    program: u32,
    procedure: u32,
) -> Result<Args, Memory>
    ensures { IfOk result (λ args. Reads (AreOf program procedure) arguments parts.old args parts.new) }
{
    match program {
        NFS_PROGRAM => read_nfs(alloc, parts, procedure),
        MOUNT_PROGRAM => read_mount(alloc, parts, procedure),
        _ => {
            parts.miss();
            Ok(Args::Null)
        }
    }
}
