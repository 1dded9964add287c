//! Reading the arguments of the procedures of MOUNT version 3 (RFC 1813, section 5.2).

ghost use Rattle.std.specs.Prelude.{◌≡◌, IfOk, ◌⊎◌};
ghost use Rattle.wire_model.specs.Parts.{Reads};
ghost use Rattle.nfs_model.specs.Arguments.{arguments};
ghost use Rattle.nfs3_args.specs.Reading.{AreMount};

use ivy_base::{Bytes, Memory};
use nfs_model::Args;
use std::alloc::Global;
use xdr_codec::Parts;

/// The most bytes of a path (section 5.1.4, MNTPATHLEN).
const LONGEST_PATH: u32 = 1024;

/// The arguments of a procedure, by its number.
pub fn read_mount(alloc: Global, parts: &mut Parts, procedure: u32) -> Result<Args, Memory>
    ensures { IfOk result (λ args. Reads (AreMount procedure) arguments parts.old args parts.new) }
{
    match procedure {
        0 => Ok(Args::MountNull),
        1 | 3 => read_of_path(alloc, parts, procedure),
        2 => Ok(Args::Dump),
        4 => Ok(Args::UmntAll),
        5 => Ok(Args::Export),
        _ => {
            parts.miss();
            Ok(Args::MountNull)
        }
    }
}

/// MNT and UMNT (sections 5.2.1 and 5.2.3): the path of a directory.
fn read_of_path(alloc: Global, parts: &mut Parts, procedure: u32) -> Result<Args, Memory>
    requires { (procedure ≡ 1) ⊎ (procedure ≡ 3) }
    ensures { IfOk result (λ args. Reads (AreMount procedure) arguments parts.old args parts.new) }
{
    let path = parts.opaque(LONGEST_PATH);
    let path = Bytes::copy_of(alloc, path)?;
    if procedure == 1 {
        Ok(Args::Mnt { path })
    } else {
        Ok(Args::Umnt { path })
    }
}
