//! Reading the arguments of the procedures of NFS version 3 (RFC 1813, section 3.3).

ghost use Rattle.std.specs.Prelude.{◌≡◌, IfOk};
ghost use Rattle.wire_model.specs.Parts.{Reads};
ghost use Rattle.nfs_model.specs.Arguments.{arguments};
ghost use Rattle.nfs3_args.specs.Reading.{AreNfs, IsOfHandle, IsOfPlace};

use crate::attributes::{read_how, read_node, read_set_what};
use crate::parts::{
    LONGEST_HANDLE, LONGEST_TEXT, copy_two, read_optional_moment, read_place, read_stable,
};
use ivy_base::{Bytes, Memory};
use nfs_model::Args;
use std::alloc::Global;
use xdr_codec::Parts;

/// The arguments of a procedure, by its number.
pub fn read_nfs(alloc: Global, parts: &mut Parts, procedure: u32) -> Result<Args, Memory>
    ensures { IfOk result (λ args. Reads (AreNfs procedure) arguments parts.old args parts.new) }
{
    match procedure {
        0 => Ok(Args::Null),
        1 | 2 | 4 | 5 | 6 | 16 | 17 | 18 | 19 | 20 | 21 => read_of_handle(alloc, parts, procedure),
        3 | 8 | 9 | 11 | 12 | 13 => read_of_place(alloc, parts, procedure),
        7 => read_write(alloc, parts),
        10 => read_symlink(alloc, parts),
        14 => read_rename(alloc, parts),
        15 => read_link(alloc, parts),
        _ => {
            parts.miss();
            Ok(Args::Null)
        }
    }
}

/// A handle, and no other string after it: GETATTR, SETATTR, ACCESS, READLINK, READ, READDIR, READDIRPLUS, FSSTAT,
/// FSINFO, PATHCONF and COMMIT (sections 3.3.1 to 3.3.21).
fn read_of_handle(alloc: Global, parts: &mut Parts, procedure: u32) -> Result<Args, Memory>
    requires { IsOfHandle procedure }
    ensures { IfOk result (λ args. Reads (AreNfs procedure) arguments parts.old args parts.new) }
{
    let handle = parts.opaque(LONGEST_HANDLE);
    let object = Bytes::copy_of(alloc, handle)?;
    match procedure {
        1 => Ok(Args::GetAttr { object }),
        2 => {
            let what = read_set_what(parts);
            let guard = read_optional_moment(parts);
            Ok(Args::SetAttr {
                object,
                what,
                guard,
            })
        }
        4 => Ok(Args::Access {
            object,
            bits: parts.u32(),
        }),
        5 => Ok(Args::ReadLink { link: object }),
        6 => {
            let offset = parts.u64();
            let count = parts.u32();
            Ok(Args::Read {
                file: object,
                offset,
                count,
            })
        }
        16 => {
            let cookie = parts.u64();
            let verifier = parts.eight();
            let count = parts.u32();
            Ok(Args::ReadDir {
                dir: object,
                cookie,
                verifier,
                count,
            })
        }
        17 => {
            let cookie = parts.u64();
            let verifier = parts.eight();
            let dircount = parts.u32();
            let maxcount = parts.u32();
            Ok(Args::ReadDirPlus {
                dir: object,
                cookie,
                verifier,
                dircount,
                maxcount,
            })
        }
        18 => Ok(Args::FsStat { object }),
        19 => Ok(Args::FsInfo { object }),
        20 => Ok(Args::PathConf { object }),
        _ => {
            let offset = parts.u64();
            let count = parts.u32();
            Ok(Args::Commit {
                file: object,
                offset,
                count,
            })
        }
    }
}

/// A name in a directory, and no other string after it: LOOKUP, CREATE, MKDIR, MKNOD, REMOVE and RMDIR (sections
/// 3.3.3 to 3.3.13).
fn read_of_place(alloc: Global, parts: &mut Parts, procedure: u32) -> Result<Args, Memory>
    requires { IsOfPlace procedure }
    ensures { IfOk result (λ args. Reads (AreNfs procedure) arguments parts.old args parts.new) }
{
    let (dir, name) = read_place(alloc, parts)?;
    match procedure {
        3 => Ok(Args::Lookup { dir, name }),
        8 => Ok(Args::Create {
            dir,
            name,
            how: read_how(parts),
        }),
        9 => Ok(Args::MkDir {
            dir,
            name,
            what: read_set_what(parts),
        }),
        11 => Ok(Args::MkNod {
            dir,
            name,
            node: read_node(parts),
        }),
        12 => Ok(Args::Remove { dir, name }),
        _ => Ok(Args::RmDir { dir, name }),
    }
}

/// WRITE (section 3.3.7): where bytes go, how safely, and the bytes.
fn read_write(alloc: Global, parts: &mut Parts) -> Result<Args, Memory>
    ensures { IfOk result (λ args. Reads (AreNfs 7) arguments parts.old args parts.new) }
{
    let file = parts.opaque(LONGEST_HANDLE);
    let offset = parts.u64();
    let count = parts.u32();
    let stable = read_stable(parts);
    let bytes = parts.opaque(u32::MAX);
    let (file, bytes) = copy_two(alloc, file, bytes)?;
    Ok(Args::Write {
        file,
        offset,
        count,
        stable,
        bytes,
    })
}

/// SYMLINK (section 3.3.10): a name in a directory, attributes and a text.
fn read_symlink(alloc: Global, parts: &mut Parts) -> Result<Args, Memory>
    ensures { IfOk result (λ args. Reads (AreNfs 10) arguments parts.old args parts.new) }
{
    let (dir, name) = read_place(alloc, parts)?;
    let what = read_set_what(parts);
    let text = parts.opaque(LONGEST_TEXT);
    let text = Bytes::copy_of(alloc, text)?;
    Ok(Args::SymLink {
        dir,
        name,
        what,
        text,
    })
}

/// RENAME (section 3.3.14): the name that there is, and the one that there is to be.
fn read_rename(alloc: Global, parts: &mut Parts) -> Result<Args, Memory>
    ensures { IfOk result (λ args. Reads (AreNfs 14) arguments parts.old args parts.new) }
{
    let (dir, name) = read_place(alloc, parts)?;
    let (to_dir, to_name) = read_place(alloc, parts)?;
    Ok(Args::Rename {
        dir,
        name,
        to_dir,
        to_name,
    })
}

/// LINK (section 3.3.15): a file, and a name in a directory.
fn read_link(alloc: Global, parts: &mut Parts) -> Result<Args, Memory>
    ensures { IfOk result (λ args. Reads (AreNfs 15) arguments parts.old args parts.new) }
{
    let file = parts.opaque(LONGEST_HANDLE);
    let (dir, name) = read_place(alloc, parts)?;
    let file = Bytes::copy_of(alloc, file)?;
    Ok(Args::Link { file, dir, name })
}
