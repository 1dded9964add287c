//! Reading whole results.

ghost use Rattle.std.specs.Prelude.{◌≡◌, ◌≢◌, ◌≤◌, ◌<◌, IfOk, IfErr, MatchOption};
ghost use Rattle.wire_model.specs.Xdr.{IsAny};
ghost use Rattle.nfs_model.specs.declared.replies.NfsStatus.{NfsStatus as AnyStatus};
ghost use Rattle.nfs_model.specs.Results.{result as bytes_of, tail as tail_bytes, status_number};
ghost use Rattle.nfs3_replies.specs.Reading.{IsProcedure, IsReply, NoReply};
ghost use Rattle.wire_model.specs.Parts.{Reads};
ghost use Rattle.nfs3_replies.specs.ReadParts.{status_or_ok, IsDone, after_status, IsTailOf, IsAnswer, tail_form_at, result_form_at, tail_form_for, result_form_for};

use crate::attributes_reading::{read_fattr, read_optional_fattr, read_wcc};
use crate::constants::{LIMITS, PATHS, SPACE};
use crate::forms_reading::{
    read_allowed, read_changed, read_committed, read_content, read_found, read_linked, read_made,
    read_numbered, read_renamed, read_text, read_written,
};
use crate::mount_reading::read_mount_result;
use crate::pages_reading::read_directory;
use ivy_base::Memory;
use nfs_model::{ArgsFault, NfsStatus, Reply, Tail};
use std::alloc::Global;
use xdr_codec::Parts;

/// The program of MOUNT (RFC 1813, section 5.2).
const MOUNT_PROGRAM: u32 = 100_005;

/// The reply that bytes are to a procedure of NFS version 3 or of MOUNT (RFC 1813, sections 3.3 and 5.2), from its
/// status on.
///
/// `Garbage` comes exactly where the bytes are no reply to the procedure: cut, followed by other bytes, with
/// another status or another boolean, with padding that isn't zero, or with another number where this server's
/// results always have the same one. `Memory` means out of memory; the memory that is taken is bounded by the
/// bytes that are there, whatever lengths they tell.
pub fn read_reply(
    alloc: Global,
    program: u32,
    procedure: u32,
    bytes: &[u8],
) -> Result<Reply, ArgsFault>
    requires { IsProcedure program procedure }
    ensures ok { IfOk result (λ reply. IsReply program procedure bytes.now reply) }
    ensures err { IfErr result (NoReply program procedure bytes.now) }
{
    let mut parts = Parts::of(bytes);
    let reply = read_any(alloc, &mut parts, program, procedure)?;
    if parts.are_read() {
        Ok(reply)
    } else {
        Err(ArgsFault::Garbage)
    }
}

/// A result at the front.
fn read_any(alloc: Global, parts: &mut Parts, program: u32, procedure: u32) -> Result<Reply, Memory>
    requires { IsProcedure program procedure }
    ensures { IfOk result (λ r. Reads (IsAnswer (tail_form_for program procedure) (result_form_for program procedure)) bytes_of parts.old r parts.new) }
{
    if program == MOUNT_PROGRAM {
        read_mount_result(alloc, parts, procedure)
    } else if procedure == 0 {
        Ok(Reply::Nothing)
    } else {
        read_result(alloc, parts, procedure)
    }
}

/// A result of NFS's, of another procedure than NULL.
fn read_result(alloc: Global, parts: &mut Parts, procedure: u32) -> Result<Reply, Memory>
    requires first { 1 ≤ procedure }
    requires last { procedure < 22 }
    ensures { IfOk result (λ r. Reads (IsAnswer (tail_form_at procedure) (result_form_at procedure)) bytes_of parts.old r parts.new) }
{
    match read_status(parts) {
        None => read_done(alloc, parts, procedure),
        Some(status) => {
            let tail = read_tail(parts, procedure);
            Ok(Reply::Refused { status, tail })
        }
    }
}

/// A status, `None` where it is OK.
fn read_status(parts: &mut Parts) -> Option<NfsStatus>
    ensures { Reads IsAny status_or_ok parts.old result parts.new }
{
    let number = parts.u32();
    if number == 0 {
        return None;
    }
    match status_of(number) {
        Some(status) => Some(status),
        None => {
            parts.miss();
            None
        }
    }
}

/// The status of that number (nfsstat3, section 2.6), if it is one that is given here.
fn status_of(number: u32) -> Option<NfsStatus>
    ensures { MatchOption result ((s : AnyStatus) → status_number s ≢ number) (λ s. status_number s ≡ number) }
{
    match number {
        1 => Some(NfsStatus::Perm),
        2 => Some(NfsStatus::NoEnt),
        5 => Some(NfsStatus::Io),
        13 => Some(NfsStatus::Acces),
        17 => Some(NfsStatus::Exist),
        20 => Some(NfsStatus::NotDir),
        21 => Some(NfsStatus::IsDir),
        22 => Some(NfsStatus::Inval),
        27 => Some(NfsStatus::FBig),
        30 => Some(NfsStatus::RoFs),
        31 => Some(NfsStatus::MLink),
        63 => Some(NfsStatus::NameTooLong),
        66 => Some(NfsStatus::NotEmpty),
        70 => Some(NfsStatus::Stale),
        10001 => Some(NfsStatus::BadHandle),
        10002 => Some(NfsStatus::NotSync),
        10003 => Some(NfsStatus::BadCookie),
        10004 => Some(NfsStatus::NotSupp),
        10005 => Some(NfsStatus::TooSmall),
        10006 => Some(NfsStatus::ServerFault),
        10008 => Some(NfsStatus::Jukebox),
        _ => None,
    }
}

/// What stands after status 0. MKNOD never gives it.
fn read_done(alloc: Global, parts: &mut Parts, procedure: u32) -> Result<Reply, Memory>
    requires first { 1 ≤ procedure }
    requires last { procedure < 22 }
    ensures { IfOk result (λ r. Reads (IsDone (result_form_at procedure)) after_status parts.old r parts.new) }
{
    match procedure {
        1 => Ok(Reply::Attributes {
            object: read_fattr(parts),
        }),
        2 | 12 | 13 => Ok(read_changed(parts)),
        3 => read_found(alloc, parts),
        4 => Ok(read_allowed(parts)),
        5 => read_text(alloc, parts),
        6 => read_content(alloc, parts),
        7 => Ok(read_written(parts)),
        8..=10 => read_made(alloc, parts),
        14 => Ok(read_renamed(parts)),
        15 => Ok(read_linked(parts)),
        16 => read_directory(alloc, parts, false),
        17 => read_directory(alloc, parts, true),
        18 => Ok(Reply::Space {
            object: read_numbered(parts, &SPACE),
        }),
        19 => Ok(Reply::Limits {
            object: read_numbered(parts, &LIMITS),
        }),
        20 => Ok(Reply::Paths {
            object: read_numbered(parts, &PATHS),
        }),
        21 => Ok(read_committed(parts)),
        _ => {
            parts.miss();
            Ok(Reply::Nothing)
        }
    }
}

/// What stands after another status.
fn read_tail(parts: &mut Parts, procedure: u32) -> Tail
    requires first { 1 ≤ procedure }
    requires last { procedure < 22 }
    ensures { Reads (IsTailOf (tail_form_at procedure)) tail_bytes parts.old result parts.new }
{
    match procedure {
        1 => Tail::Empty,
        14 => read_two_caches(parts),
        15 => read_attributes_and_cache(parts),
        3..=6 | 16..=20 => Tail::Attributes(read_optional_fattr(parts)),
        _ => Tail::Cache(read_wcc(parts)),
    }
}

/// The directories of the source and of the target.
fn read_two_caches(parts: &mut Parts) -> Tail
    ensures { Reads (IsTailOf 3) tail_bytes parts.old result parts.new }
{
    let from = read_wcc(parts);
    let to = read_wcc(parts);
    Tail::TwoCaches(from, to)
}

/// The file and the directory.
fn read_attributes_and_cache(parts: &mut Parts) -> Tail
    ensures { Reads (IsTailOf 4) tail_bytes parts.old result parts.new }
{
    let file = read_optional_fattr(parts);
    let dir = read_wcc(parts);
    Tail::AttributesAndCache(file, dir)
}
