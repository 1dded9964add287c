//! Writing the parts that the arguments of several procedures share.

ghost use Rattle.std.specs.Prelude.{◌≡◌, ◌+◌, ◌≤◌, ◌++◌, length};
ghost use Rattle.xdr_codec.specs.Writing.{padded};
ghost use Rattle.wire_model.specs.Xdr.{word, double_word, opaque, optional, moment};
ghost use Rattle.nfs3_args.specs.Parts.{place, range, page};
ghost use Rattle.nfs3_args.specs.Writable.{IsShort};

use ivy_base::{Bytes, Moment};
use xdr_codec::XdrWrite;

/// The bytes of an optional item of eight bytes, where it is given.
pub const OPTIONAL: usize = 12;

/// Appends a handle, a name, a text, a path or data.
pub fn put_string(out: &mut XdrWrite, bytes: &Bytes)
    requires short { IsShort bytes.now }
    requires room { 4 + padded (length bytes.now) ≤ out.old.spare }
    ensures written { out.new.written ≡ out.old.written ++ opaque bytes.now }
    ensures spare { out.new.spare + (4 + padded (length bytes.now)) ≡ out.old.spare }
{
    out.put_opaque(bytes.as_slice());
}

/// Appends a verifier.
pub fn put_verifier(out: &mut XdrWrite, verifier: &[u8; 8])
    requires { 8 ≤ out.old.spare }
    ensures written { out.new.written ≡ out.old.written ++ verifier.now }
    ensures spare { out.new.spare + 8 ≡ out.old.spare }
{
    out.put_fixed(verifier);
}

/// Appends a time: the seconds and the nanoseconds.
pub fn put_moment(out: &mut XdrWrite, m: Moment)
    requires { 8 ≤ out.old.spare }
    ensures written { out.new.written ≡ out.old.written ++ moment m }
    ensures spare { out.new.spare + 8 ≡ out.old.spare }
{
    out.put_u32(m.sec);
    out.put_u32(m.nsec);
}

/// Appends a number of four bytes, where there is one.
pub fn put_optional_word(out: &mut XdrWrite, item: Option<u32>)
    requires { 8 ≤ out.old.spare }
    ensures written { out.new.written ≡ out.old.written ++ optional word item }
    ensures spare { out.old.spare ≤ out.new.spare + 8 }
{
    match item {
        None => out.put_bool(false),
        Some(n) => {
            out.put_bool(true);
            out.put_u32(n);
        }
    }
}

/// Appends a number of eight bytes, where there is one.
pub fn put_optional_double_word(out: &mut XdrWrite, item: Option<u64>)
    requires { OPTIONAL ≤ out.old.spare }
    ensures written { out.new.written ≡ out.old.written ++ optional double_word item }
    ensures spare { out.old.spare ≤ out.new.spare + OPTIONAL }
{
    match item {
        None => out.put_bool(false),
        Some(n) => {
            out.put_bool(true);
            out.put_u64(n);
        }
    }
}

/// Appends a time, where there is one.
pub fn put_optional_moment(out: &mut XdrWrite, item: Option<Moment>)
    requires { OPTIONAL ≤ out.old.spare }
    ensures written { out.new.written ≡ out.old.written ++ optional moment item }
    ensures spare { out.old.spare ≤ out.new.spare + OPTIONAL }
{
    match item {
        None => out.put_bool(false),
        Some(m) => {
            out.put_bool(true);
            put_moment(out, m);
        }
    }
}

/// Appends a name in a directory: the directory's handle, and the name.
pub fn put_place(out: &mut XdrWrite, dir: &Bytes, name: &Bytes)
    requires short_dir { IsShort dir.now }
    requires short_name { IsShort name.now }
    requires room { 8 + padded (length dir.now) + padded (length name.now) ≤ out.old.spare }
    ensures written { out.new.written ≡ out.old.written ++ place (dir.now, name.now) }
    ensures spare { out.new.spare + (8 + padded (length dir.now) + padded (length name.now)) ≡ out.old.spare }
{
    put_string(out, dir);
    put_string(out, name);
}

/// Appends some bytes of a file: its handle, an offset and a count.
pub fn put_range(out: &mut XdrWrite, file: &Bytes, offset: u64, count: u32)
    requires short { IsShort file.now }
    requires room { 16 + padded (length file.now) ≤ out.old.spare }
    ensures written { out.new.written ≡ out.old.written ++ range ((file.now, offset), count) }
    ensures spare { out.new.spare + (16 + padded (length file.now)) ≡ out.old.spare }
{
    put_string(out, file);
    out.put_u64(offset);
    out.put_u32(count);
}

/// Appends a page of a directory: its handle, the cookie after which the page begins, and the cookie's verifier.
pub fn put_page(out: &mut XdrWrite, dir: &Bytes, cookie: u64, verifier: &[u8; 8])
    requires short { IsShort dir.now }
    requires room { 20 + padded (length dir.now) ≤ out.old.spare }
    ensures written { out.new.written ≡ out.old.written ++ page ((dir.now, cookie), verifier.now) }
    ensures spare { out.new.spare + (20 + padded (length dir.now)) ≡ out.old.spare }
{
    put_string(out, dir);
    out.put_u64(cookie);
    put_verifier(out, verifier);
}
