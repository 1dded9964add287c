//! Results after status 0, by their forms (RFC 1813, section 3.3), but for the pages of directories.

ghost use Rattle.std.specs.Prelude.{◌≡◌, ◌+◌, ◌*◌, ◌≤◌, ◌++◌, length};
ghost use Rattle.xdr_codec.specs.Writing.{padded};
ghost use Rattle.wire_model.specs.Xdr.{word};
ghost use Rattle.nfs_model.specs.Results.{result as bytes_of, many};
ghost use Rattle.nfs_model.specs.declared.replies.Reply.TheVariants.{Refused, Attributes, Changed, Found, Allowed, Text, Bytes as Content, Written, Made, Renamed, Linked, Committed, Space, Limits, Paths, Mounted, Exports};
ghost use Rattle.nfs3_replies.specs.Writable.{IsShort};

use crate::attributes::{put_fattr, put_optional_fattr, put_tail, put_wcc, status_number};
use crate::constants::{EXPORTS, FLAVOURS, LIMITS, OK, PATHS, SPACE, STORED, WRITE_VERIFIER};
use ivy_base::Bytes;
use nfs_model::{Fattr, NfsStatus, Tail, Wcc};
use xdr_codec::XdrWrite;

/// Appends the bytes of `Reply::Refused`: a status other than OK, and what stands after it.
pub fn put_refused(out: &mut XdrWrite, status: NfsStatus, after: &Tail)
    requires { 240 ≤ out.old.spare }
    ensures { out.new.written ≡ out.old.written ++ bytes_of (Refused status after.now) }
{
    out.put_u32(status_number(status));
    put_tail(out, after);
}

/// Appends the bytes of `Reply::Attributes`: GETATTR (section 3.3.1).
pub fn put_attributes(out: &mut XdrWrite, object: &Fattr)
    requires { 240 ≤ out.old.spare }
    ensures { out.new.written ≡ out.old.written ++ bytes_of (Attributes object.now) }
{
    out.put_u32(OK);
    put_fattr(out, object);
}

/// Appends the bytes of `Reply::Changed`: SETATTR, REMOVE and RMDIR (sections 3.3.2, 3.3.12 and 3.3.13).
pub fn put_changed(out: &mut XdrWrite, cache: &Wcc)
    requires { 240 ≤ out.old.spare }
    ensures { out.new.written ≡ out.old.written ++ bytes_of (Changed cache.now) }
{
    out.put_u32(OK);
    put_wcc(out, cache);
}

/// Appends the bytes of `Reply::Found`: LOOKUP (section 3.3.3).
pub fn put_found(out: &mut XdrWrite, handle: &Bytes, object: &Option<Fattr>, dir: &Option<Fattr>)
    requires short { IsShort handle.now }
    requires room { 240 + padded (length handle.now) ≤ out.old.spare }
    ensures { out.new.written ≡ out.old.written ++ bytes_of (Found handle.now object.now dir.now) }
{
    out.put_u32(OK);
    out.put_opaque(handle.as_slice());
    put_optional_fattr(out, object);
    put_optional_fattr(out, dir);
}

/// Appends the bytes of `Reply::Allowed`: ACCESS (section 3.3.4).
pub fn put_allowed(out: &mut XdrWrite, object: &Option<Fattr>, bits: u32)
    requires { 240 ≤ out.old.spare }
    ensures { out.new.written ≡ out.old.written ++ bytes_of (Allowed object.now bits) }
{
    out.put_u32(OK);
    put_optional_fattr(out, object);
    out.put_u32(bits);
}

/// Appends the bytes of `Reply::Text`: READLINK (section 3.3.5).
pub fn put_text(out: &mut XdrWrite, link: &Option<Fattr>, text: &Bytes)
    requires short { IsShort text.now }
    requires room { 240 + padded (length text.now) ≤ out.old.spare }
    ensures { out.new.written ≡ out.old.written ++ bytes_of (Text link.now text.now) }
{
    out.put_u32(OK);
    put_optional_fattr(out, link);
    out.put_opaque(text.as_slice());
}

/// Appends the bytes of `Reply::Bytes`: READ (section 3.3.6).
pub fn put_content(out: &mut XdrWrite, file: &Option<Fattr>, count: u32, eof: bool, bytes: &Bytes)
    requires short { IsShort bytes.now }
    requires room { 240 + padded (length bytes.now) ≤ out.old.spare }
    ensures { out.new.written ≡ out.old.written ++ bytes_of (Content file.now count eof bytes.now) }
{
    out.put_u32(OK);
    put_optional_fattr(out, file);
    out.put_u32(count);
    out.put_bool(eof);
    out.put_opaque(bytes.as_slice());
}

/// Appends the bytes of `Reply::Written`: WRITE (section 3.3.7).
pub fn put_written(out: &mut XdrWrite, cache: &Wcc, count: u32)
    requires { 240 ≤ out.old.spare }
    ensures { out.new.written ≡ out.old.written ++ bytes_of (Written cache.now count) }
{
    out.put_u32(OK);
    put_wcc(out, cache);
    out.put_u32(count);
    put_words(out, &STORED);
}

/// Appends the bytes of `Reply::Made`: CREATE, MKDIR and SYMLINK (sections 3.3.8 to 3.3.10).
pub fn put_made(out: &mut XdrWrite, handle: &Bytes, object: &Option<Fattr>, cache: &Wcc)
    requires short { IsShort handle.now }
    requires room { 240 + padded (length handle.now) ≤ out.old.spare }
    ensures { out.new.written ≡ out.old.written ++ bytes_of (Made handle.now object.now cache.now) }
{
    out.put_u32(OK);
    out.put_bool(true);
    out.put_opaque(handle.as_slice());
    put_optional_fattr(out, object);
    put_wcc(out, cache);
}

/// Appends the bytes of `Reply::Renamed`: RENAME (section 3.3.14).
pub fn put_renamed(out: &mut XdrWrite, from: &Wcc, to: &Wcc)
    requires { 240 ≤ out.old.spare }
    ensures { out.new.written ≡ out.old.written ++ bytes_of (Renamed from.now to.now) }
{
    out.put_u32(OK);
    put_wcc(out, from);
    put_wcc(out, to);
}

/// Appends the bytes of `Reply::Linked`: LINK (section 3.3.15).
pub fn put_linked(out: &mut XdrWrite, file: &Option<Fattr>, cache: &Wcc)
    requires { 240 ≤ out.old.spare }
    ensures { out.new.written ≡ out.old.written ++ bytes_of (Linked file.now cache.now) }
{
    out.put_u32(OK);
    put_optional_fattr(out, file);
    put_wcc(out, cache);
}

/// Appends the bytes of `Reply::Committed`: COMMIT (section 3.3.21).
pub fn put_committed(out: &mut XdrWrite, cache: &Wcc)
    requires { 240 ≤ out.old.spare }
    ensures { out.new.written ≡ out.old.written ++ bytes_of (Committed cache.now) }
{
    out.put_u32(OK);
    put_wcc(out, cache);
    put_words(out, &WRITE_VERIFIER);
}

/// Appends the bytes of `Reply::Space`: FSSTAT (section 3.3.18).
pub fn put_space(out: &mut XdrWrite, object: &Option<Fattr>)
    requires { 240 ≤ out.old.spare }
    ensures { out.new.written ≡ out.old.written ++ bytes_of (Space object.now) }
{
    out.put_u32(OK);
    put_optional_fattr(out, object);
    put_words(out, &SPACE);
}

/// Appends the bytes of `Reply::Limits`: FSINFO (section 3.3.19).
pub fn put_limits(out: &mut XdrWrite, object: &Option<Fattr>)
    requires { 240 ≤ out.old.spare }
    ensures { out.new.written ≡ out.old.written ++ bytes_of (Limits object.now) }
{
    out.put_u32(OK);
    put_optional_fattr(out, object);
    put_words(out, &LIMITS);
}

/// Appends the bytes of `Reply::Paths`: PATHCONF (section 3.3.20).
pub fn put_paths(out: &mut XdrWrite, object: &Option<Fattr>)
    requires { 240 ≤ out.old.spare }
    ensures { out.new.written ≡ out.old.written ++ bytes_of (Paths object.now) }
{
    out.put_u32(OK);
    put_optional_fattr(out, object);
    put_words(out, &PATHS);
}

/// Appends the bytes of `Reply::Mounted`: MNT, with AUTH_SYS as the only flavour (section 5.2.1).
pub fn put_mounted(out: &mut XdrWrite, handle: &Bytes)
    requires short { IsShort handle.now }
    requires room { 240 + padded (length handle.now) ≤ out.old.spare }
    ensures { out.new.written ≡ out.old.written ++ bytes_of (Mounted handle.now) }
{
    out.put_u32(OK);
    out.put_opaque(handle.as_slice());
    put_words(out, &FLAVOURS);
}

/// Appends the bytes of `Reply::Exports`: EXPORT, with the one directory `/` for everybody (section 5.2.5).
pub fn put_exports(out: &mut XdrWrite)
    requires { 240 ≤ out.old.spare }
    ensures { out.new.written ≡ out.old.written ++ bytes_of Exports }
{
    put_words(out, &EXPORTS);
}

/// Appends numbers of four bytes.
fn put_words(out: &mut XdrWrite, values: &[u32])
    requires { 4 * length values.now ≤ out.old.spare }
    ensures written { out.new.written ≡ out.old.written ++ many word values.now }
    ensures spare { out.new.spare + 4 * length values.now ≡ out.old.spare }
{
    for &value in values {
        out.put_u32(value);
    }
}
