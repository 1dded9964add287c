//! Reading the operation of a record. What bounds its parts have is tested where the record stands as a whole.

ghost use Rattle.std.specs.Prelude.{◌≡◌, IfOk, IfErr};
ghost use Rattle.wire_model.specs.Parts.{Reads};
ghost use Rattle.log_model.specs.Spelling.{body};
ghost use Rattle.log_records.specs.Shapes.{IsShapeOf};
ghost use Rattle.log_records.specs.Reading.{IsSpelled, RefusesWhole};

use crate::change::read_change;
use crate::parts::{read_key, read_kind};
use block_parts::{BlockFault, LONGEST_NAME, LONGEST_PIECE, LONGEST_TARGET};
use ivy_base::{Bytes, Memory, Op};
use std::alloc::Global;
use xdr_codec::Parts;

/// The operation of a record of that kind, 1 to 9, that the bytes are.
pub fn read_operation(alloc: Global, bytes: &[u8], kind: u32) -> Result<Op, BlockFault>
    ensures ok { IfOk result (λ op. IsSpelled (IsShapeOf kind) body bytes.now op) }
    ensures err { IfErr result (RefusesWhole (IsShapeOf kind) body bytes.now) }
{
    let mut parts = Parts::of(bytes);
    let Ok(op) = read_body(alloc, &mut parts, kind) else {
        return Err(BlockFault::Memory);
    };
    if parts.are_read() {
        Ok(op)
    } else {
        Err(BlockFault::Malformed)
    }
}

/// The operation of a record of that kind. Another kind than 1 to 9 has none.
#[tactic(auto, using(crate::proofs::Operations::no_operation_read))]
fn read_body(alloc: Global, parts: &mut Parts, kind: u32) -> Result<Op, Memory>
    ensures { IfOk result (λ op. Reads (IsShapeOf kind) body parts.old op parts.new) }
{
    match kind {
        1 => read_inode(alloc, parts),
        2 => read_write(alloc, parts),
        3 => read_link(alloc, parts),
        4 => read_unlink(alloc, parts),
        5 => read_rename(alloc, parts),
        6 => read_prepare(alloc, parts),
        7 => Ok(read_cancel(parts)),
        8 => Ok(read_set_attrs(parts)),
        9 => Ok(Op::End),
        _ => {
            parts.miss();
            Ok(Op::End)
        }
    }
}

/// A new inode.
fn read_inode(alloc: Global, parts: &mut Parts) -> Result<Op, Memory>
    ensures { IfOk result (λ op. Reads (IsShapeOf 1) body parts.old op parts.new) }
{
    let ino = read_key(parts);
    let kind = read_kind(parts);
    let mode = parts.u32();
    let uid = parts.u32();
    let gid = parts.u32();
    let target = parts.opaque(LONGEST_TARGET);
    let Ok(target) = Bytes::copy_of(alloc, target) else {
        return Err(Memory);
    };
    Ok(Op::Inode {
        ino,
        kind,
        mode,
        uid,
        gid,
        target,
    })
}

/// Bytes that are written into a file.
fn read_write(alloc: Global, parts: &mut Parts) -> Result<Op, Memory>
    ensures { IfOk result (λ op. Reads (IsShapeOf 2) body parts.old op parts.new) }
{
    let ino = read_key(parts);
    let offset = parts.u64();
    let bytes = parts.opaque(LONGEST_PIECE);
    let Ok(bytes) = Bytes::copy_of(alloc, bytes) else {
        return Err(Memory);
    };
    Ok(Op::Write { ino, offset, bytes })
}

/// A name that is given.
fn read_link(alloc: Global, parts: &mut Parts) -> Result<Op, Memory>
    ensures { IfOk result (λ op. Reads (IsShapeOf 3) body parts.old op parts.new) }
{
    let dir = read_key(parts);
    let name = parts.opaque(LONGEST_NAME);
    let ino = read_key(parts);
    let Ok(name) = Bytes::copy_of(alloc, name) else {
        return Err(Memory);
    };
    Ok(Op::Link { dir, name, ino })
}

/// A name that is removed.
fn read_unlink(alloc: Global, parts: &mut Parts) -> Result<Op, Memory>
    ensures { IfOk result (λ op. Reads (IsShapeOf 4) body parts.old op parts.new) }
{
    let dir = read_key(parts);
    let name = parts.opaque(LONGEST_NAME);
    let Ok(name) = Bytes::copy_of(alloc, name) else {
        return Err(Memory);
    };
    Ok(Op::Unlink { dir, name })
}

/// A name that is moved.
fn read_rename(alloc: Global, parts: &mut Parts) -> Result<Op, Memory>
    ensures { IfOk result (λ op. Reads (IsShapeOf 5) body parts.old op parts.new) }
{
    let dir = read_key(parts);
    let name = parts.opaque(LONGEST_NAME);
    let to_dir = read_key(parts);
    let to_name = parts.opaque(LONGEST_NAME);
    let Ok(name) = Bytes::copy_of(alloc, name) else {
        return Err(Memory);
    };
    let Ok(to_name) = Bytes::copy_of(alloc, to_name) else {
        return Err(Memory);
    };
    Ok(Op::Rename {
        dir,
        name,
        to_dir,
        to_name,
    })
}

/// An exclusive creation that is announced.
fn read_prepare(alloc: Global, parts: &mut Parts) -> Result<Op, Memory>
    ensures { IfOk result (λ op. Reads (IsShapeOf 6) body parts.old op parts.new) }
{
    let dir = read_key(parts);
    let name = parts.opaque(LONGEST_NAME);
    let verf = parts.eight();
    let Ok(name) = Bytes::copy_of(alloc, name) else {
        return Err(Memory);
    };
    Ok(Op::Prepare { dir, name, verf })
}

/// An announcement that is taken back.
fn read_cancel(parts: &mut Parts) -> Op
    ensures { Reads (IsShapeOf 7) body parts.old result parts.new }
{
    let seq = parts.u32();
    Op::Cancel { seq }
}

/// Attributes that are set.
fn read_set_attrs(parts: &mut Parts) -> Op
    ensures { Reads (IsShapeOf 8) body parts.old result parts.new }
{
    let ino = read_key(parts);
    let change = read_change(parts);
    Op::SetAttrs { ino, change }
}
