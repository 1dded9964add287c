//! Reading statuses, attributes and what stands after a refusal (RFC 1813, sections 2.5 and 2.6).

ghost use Rattle.std.specs.Prelude.{◌≡◌, ◌≢◌, MatchOption};
ghost use Rattle.ivy_base.specs.declared.operation.Kind.{Kind as AnyKind};
ghost use Rattle.log_model.specs.Spelling.{kind_number};
ghost use Rattle.wire_model.specs.Xdr.{optional, moment, IsWordMoment, IsAny};
ghost use Rattle.nfs_model.specs.Results.{fattr, before, wcc};
ghost use Rattle.nfs_model.specs.Replies.{IsFattr, IsBefore, IsWcc};
ghost use Rattle.wire_model.specs.Parts.{Reads, IsOptional};
ghost use Rattle.nfs3_replies.specs.ReadParts.{constant, kind_word};

use crate::constants::NO_DEVICE;
use ivy_base::{Kind, Moment};
use nfs_model::{Fattr, Wcc, WccBefore};
use xdr_codec::Parts;

/// Words that are the same in each result.
pub fn read_constant(parts: &mut Parts, words: &[u32])
    ensures { Reads IsAny (constant words.now) parts.old tt parts.new }
{
    'words: for &word in words {
        if parts.u32() != word {
            parts.miss();
            return;
        }
    }
}

/// The attributes of an object (fattr3).
pub fn read_fattr(parts: &mut Parts) -> Fattr
    ensures { Reads IsFattr fattr parts.old result parts.new }
{
    let kind = read_kind(parts);
    let mode = parts.u32();
    let nlink = parts.u32();
    let uid = parts.u32();
    let gid = parts.u32();
    let size = parts.u64();
    let used = parts.u64();
    read_constant(parts, &NO_DEVICE);
    let fsid = parts.u64();
    let fileid = parts.u64();
    let atime = read_time(parts);
    let mtime = read_time(parts);
    let ctime = read_time(parts);
    Fattr {
        kind,
        mode,
        nlink,
        uid,
        gid,
        size,
        used,
        fsid,
        fileid,
        atime,
        mtime,
        ctime,
    }
}

/// An object's type (ftype3): a regular file, a directory or a symbolic link.
fn read_kind(parts: &mut Parts) -> Kind
    ensures { Reads IsAny kind_word parts.old result parts.new }
{
    match kind_of(parts.u32()) {
        Some(kind) => kind,
        None => {
            parts.miss();
            Kind::Reg
        }
    }
}

/// The type of that number (ftype3, section 2.6), if it is one that is given here.
fn kind_of(number: u32) -> Option<Kind>
    ensures { MatchOption result ((k : AnyKind) → kind_number k ≢ number) (λ k. kind_number k ≡ number) }
{
    match number {
        1 => Some(Kind::Reg),
        2 => Some(Kind::Dir),
        5 => Some(Kind::Lnk),
        _ => None,
    }
}

/// A time (nfstime3).
fn read_time(parts: &mut Parts) -> Moment
    ensures { Reads IsWordMoment moment parts.old result parts.new }
{
    let sec = parts.u32();
    let nsec = parts.u32();
    Moment { sec, nsec }
}

/// The attributes of an object, where they are given (post_op_attr).
pub fn read_optional_fattr(parts: &mut Parts) -> Option<Fattr>
    ensures { Reads (IsOptional IsFattr) (optional fattr) parts.old result parts.new }
{
    if parts.boolean() {
        Some(read_fattr(parts))
    } else {
        None
    }
}

/// The attributes before an operation (wcc_attr).
fn read_before(parts: &mut Parts) -> WccBefore
    ensures { Reads IsBefore before parts.old result parts.new }
{
    let size = parts.u64();
    let mtime = read_time(parts);
    let ctime = read_time(parts);
    WccBefore { size, mtime, ctime }
}

/// The attributes before an operation, where they are given (pre_op_attr).
fn read_optional_before(parts: &mut Parts) -> Option<WccBefore>
    ensures { Reads (IsOptional IsBefore) (optional before) parts.old result parts.new }
{
    if parts.boolean() {
        Some(read_before(parts))
    } else {
        None
    }
}

/// Weak cache consistency data (wcc_data).
pub fn read_wcc(parts: &mut Parts) -> Wcc
    ensures { Reads IsWcc wcc parts.old result parts.new }
{
    let before = read_optional_before(parts);
    let after = read_optional_fattr(parts);
    Wcc { before, after }
}
