//! Writing the operation of a record.

ghost use Rattle.std.specs.Prelude.{◌≡◌, ◌+◌, ◌^◌, ◌<◌, ◌≤◌, ◌++◌, length, IfNone, IfSome};
ghost use Rattle.wire_model.specs.Xdr.{word, double_word, opaque};
ghost use Rattle.log_model.specs.Spelling.{record_kind, body, kind_number as number_of_kind};
ghost use Rattle.block_parts.specs.Parts.{key_bytes};
ghost use Rattle.log_records.specs.Parts.{place_block};
ghost use Rattle.block_parts.specs.Parts.{opaque_size, IsShort};
ghost use Rattle.log_records.specs.Sizes.{body_size, HasShortTexts};

use crate::change_writing::{change_len, put_change};
use block_parts::{kind_number, opaque_len, put_key};
use ivy_base::{Bytes, Key, Kind, Op};
use xdr_codec::XdrWrite;

/// Which operation it is, 1 to 9.
pub fn kind_of(op: &Op) -> u32
    ensures { result ≡ record_kind op.now }
{
    match op {
        Op::Inode { .. } => 1,
        Op::Write { .. } => 2,
        Op::Link { .. } => 3,
        Op::Unlink { .. } => 4,
        Op::Rename { .. } => 5,
        Op::Prepare { .. } => 6,
        Op::Cancel { .. } => 7,
        Op::SetAttrs { .. } => 8,
        Op::End => 9,
    }
}

/// How many bytes the operation takes; none where a text has 2^32 bytes or more.
pub fn body_len(op: &Op) -> Option<usize>
    ensures size { IfSome result (λ n. n ≡ body_size op.now) }
    ensures short { IfSome result (λ _. HasShortTexts op.now) }
    ensures long { IfNone result (HasShortTexts op.now → ⊥) }
    ensures bound { IfSome result (λ n. n ≤ 2 ^ 35) }
{
    match op {
        Op::Inode { target, .. } => len_with(36, target),
        Op::Write { bytes, .. } => len_with(28, bytes),
        Op::Link { name, .. } => len_with(40, name),
        Op::Unlink { name, .. } => len_with(20, name),
        Op::Rename { name, to_name, .. } => match len_with(40, name) {
            Some(before) => len_with(before, to_name),
            None => None,
        },
        Op::Prepare { name, .. } => len_with(28, name),
        Op::Cancel { .. } => Some(4),
        Op::SetAttrs { change, .. } => Some(20 + change_len(change)),
        Op::End => Some(0),
    }
}

/// How many bytes a text takes together with those before it; none where it has 2^32 bytes or more.
fn len_with(before: usize, text: &Bytes) -> Option<usize>
    requires { before ≤ 2 ^ 34 }
    ensures size { IfSome result (λ n. n ≡ before + opaque_size text.now) }
    ensures short { IfSome result (λ _. IsShort text.now) }
    ensures long { IfNone result (IsShort text.now → ⊥) }
    ensures bound { IfSome result (λ n. n ≤ before + 2 ^ 33) }
{
    match opaque_len(text.as_slice()) {
        Some(len) => Some(before + len),
        None => None,
    }
}

/// Appends the operation.
pub fn put_body(out: &mut XdrWrite, op: &Op)
    requires room { body_size op.now ≤ out.old.spare }
    requires short { HasShortTexts op.now }
    ensures written { out.new.written ≡ out.old.written ++ body op.now }
    ensures spare { out.new.spare + body_size op.now ≡ out.old.spare }
{
    match op {
        Op::Inode {
            ino,
            kind,
            mode,
            uid,
            gid,
            target,
        } => put_inode(out, ino, *kind, *mode, *uid, *gid, target),
        Op::Write { ino, offset, bytes } => put_write(out, ino, *offset, bytes),
        Op::Link { dir, name, ino } => {
            put_place(out, dir, name);
            put_key(out, ino);
        }
        Op::Unlink { dir, name } => put_place(out, dir, name),
        Op::Rename {
            dir,
            name,
            to_dir,
            to_name,
        } => {
            put_place(out, dir, name);
            put_place(out, to_dir, to_name);
        }
        Op::Prepare { dir, name, verf } => {
            put_place(out, dir, name);
            put_verifier(out, verf);
        }
        Op::Cancel { seq } => out.put_u32(*seq),
        Op::SetAttrs { ino, change } => {
            put_key(out, ino);
            put_change(out, change);
        }
        Op::End => {}
    }
}

/// Appends a new inode.
fn put_inode(
    out: &mut XdrWrite,
    ino: &Key,
    kind: Kind,
    mode: u32,
    uid: u32,
    gid: u32,
    target: &Bytes,
)
    requires room { 36 + opaque_size target.now ≤ out.old.spare }
    requires short { IsShort target.now }
    ensures written { out.new.written ≡ out.old.written ++ (key_bytes ino.now ++ word (number_of_kind kind) ++ word mode ++ word uid ++ word gid ++ opaque target.now) }
    ensures spare { out.new.spare + (36 + opaque_size target.now) ≡ out.old.spare }
{
    put_key(out, ino);
    out.put_u32(kind_number(kind));
    out.put_u32(mode);
    out.put_u32(uid);
    out.put_u32(gid);
    out.put_opaque(target.as_slice());
}

/// Appends bytes that are written into a file.
fn put_write(out: &mut XdrWrite, ino: &Key, offset: u64, bytes: &Bytes)
    requires room { 28 + opaque_size bytes.now ≤ out.old.spare }
    requires short { IsShort bytes.now }
    ensures written { out.new.written ≡ out.old.written ++ (key_bytes ino.now ++ double_word offset ++ opaque bytes.now) }
    ensures spare { out.new.spare + (28 + opaque_size bytes.now) ≡ out.old.spare }
{
    put_key(out, ino);
    out.put_u64(offset);
    out.put_opaque(bytes.as_slice());
}

/// Appends the verifier of an exclusive creation.
fn put_verifier(out: &mut XdrWrite, verifier: &[u8; 8])
    requires { 8 ≤ out.old.spare }
    ensures written { out.new.written ≡ out.old.written ++ verifier.now }
    ensures spare { out.new.spare + 8 ≡ out.old.spare }
{
    out.put_fixed(verifier);
}

/// Appends a name after its directory's number.
fn put_place(out: &mut XdrWrite, dir: &Key, name: &Bytes)
    requires room { 20 + opaque_size name.now ≤ out.old.spare }
    requires short { IsShort name.now }
    ensures written { out.new.written ≡ out.old.written ++ place_block (dir.now, name.now) }
    ensures spare { out.new.spare + (20 + opaque_size name.now) ≡ out.old.spare }
{
    put_key(out, dir);
    out.put_opaque(name.as_slice());
}
