//! Pages of directories: READDIR and READDIRPLUS (RFC 1813, sections 3.3.16 and 3.3.17).

ghost use Rattle.std.specs.Prelude.{◌≡◌, ◌+◌, ◌≤◌, ◌++◌};
ghost use Rattle.std.specs.List.{All, flat_map, sum_by};
ghost use Rattle.wire_model.specs.Xdr.{word, boolean, opaque, optional};
ghost use Rattle.nfs_model.specs.Arguments.{IsVerifier};
ghost use Rattle.nfs_model.specs.Results.{result as bytes_of, listed_entry, listed_entry_plus};
ghost use Rattle.nfs_model.specs.declared.replies.Reply.TheVariants.{Directory, DirectoryPlus};
ghost use Rattle.nfs3_replies.specs.Writable.{IsShortHandle, HasShortName, IsWritableEntry};
ghost use Rattle.nfs3_replies.specs.Room.{entry_room, entry_plus_room, handle_room};

use crate::attributes::put_optional_fattr;
use crate::constants::OK;
use ivy_base::Bytes;
use nfs_model::{Fattr, Listed, Page};
use xdr_codec::XdrWrite;

/// Appends the bytes of `Reply::Directory`.
pub fn put_directory(
    out: &mut XdrWrite,
    dir: &Option<Fattr>,
    verifier: &[u8; 8],
    page: &Page,
    eof: bool,
)
    requires short { All HasShortName page.now }
    requires room { 240 + sum_by entry_room page.now ≤ out.old.spare }
    ensures written { out.new.written ≡ out.old.written ++ bytes_of (Directory dir.now verifier.now page.now eof) }
    ensures whole { IsVerifier verifier.now }
{
    out.put_u32(OK);
    put_optional_fattr(out, dir);
    out.put_fixed(verifier);
    put_entries(out, page.as_slice());
    put_page_end(out, eof);
}

/// Appends the bytes of `Reply::DirectoryPlus`.
pub fn put_directory_plus(
    out: &mut XdrWrite,
    dir: &Option<Fattr>,
    verifier: &[u8; 8],
    page: &Page,
    eof: bool,
)
    requires short { All IsWritableEntry page.now }
    requires room { 240 + sum_by entry_plus_room page.now ≤ out.old.spare }
    ensures written { out.new.written ≡ out.old.written ++ bytes_of (DirectoryPlus dir.now verifier.now page.now eof) }
    ensures whole { IsVerifier verifier.now }
{
    out.put_u32(OK);
    put_optional_fattr(out, dir);
    out.put_fixed(verifier);
    put_entries_plus(out, page.as_slice());
    put_page_end(out, eof);
}

/// Appends that no entry follows, and whether the directory ends there.
fn put_page_end(out: &mut XdrWrite, eof: bool)
    requires { 8 ≤ out.old.spare }
    ensures { out.new.written ≡ out.old.written ++ word 0 ++ boolean eof }
{
    out.put_bool(false);
    out.put_bool(eof);
}

/// Appends the entries of a page (entry3).
fn put_entries(out: &mut XdrWrite, entries: &[Listed])
    requires short { All HasShortName entries.now }
    requires room { sum_by entry_room entries.now ≤ out.old.spare }
    ensures written { out.new.written ≡ out.old.written ++ flat_map listed_entry entries.now }
    ensures spare { out.old.spare ≤ out.new.spare + sum_by entry_room entries.now }
{
    for entry in entries {
        put_entry(out, entry);
    }
}

/// Appends the entries of a page with their attributes and handles (entryplus3).
fn put_entries_plus(out: &mut XdrWrite, entries: &[Listed])
    requires short { All IsWritableEntry entries.now }
    requires room { sum_by entry_plus_room entries.now ≤ out.old.spare }
    ensures written { out.new.written ≡ out.old.written ++ flat_map listed_entry_plus entries.now }
    ensures spare { out.old.spare ≤ out.new.spare + sum_by entry_plus_room entries.now }
{
    for entry in entries {
        put_entry_plus(out, entry);
    }
}

/// Appends an entry: that there is one, its file number, its name and its cookie.
fn put_entry(out: &mut XdrWrite, entry: &Listed)
    requires short { HasShortName entry.now }
    requires room { entry_room entry.now ≤ out.old.spare }
    ensures written { out.new.written ≡ out.old.written ++ listed_entry entry.now }
    ensures spare { out.old.spare ≤ out.new.spare + entry_room entry.now }
{
    out.put_bool(true);
    out.put_u64(entry.fileid);
    out.put_opaque(entry.name.as_slice());
    out.put_u64(entry.cookie);
}

/// Appends an entry, its attributes and its handle.
fn put_entry_plus(out: &mut XdrWrite, entry: &Listed)
    requires short { IsWritableEntry entry.now }
    requires room { entry_plus_room entry.now ≤ out.old.spare }
    ensures written { out.new.written ≡ out.old.written ++ listed_entry_plus entry.now }
    ensures spare { out.old.spare ≤ out.new.spare + entry_plus_room entry.now }
{
    put_entry(out, entry);
    put_optional_fattr(out, &entry.attributes);
    put_optional_handle(out, &entry.handle);
}

/// Appends a handle, where it is given (post_op_fh3).
fn put_optional_handle(out: &mut XdrWrite, handle: &Option<Bytes>)
    requires short { IsShortHandle handle.now }
    requires room { handle_room handle.now ≤ out.old.spare }
    ensures written { out.new.written ≡ out.old.written ++ optional opaque handle.now }
    ensures spare { out.new.spare + handle_room handle.now ≡ out.old.spare }
{
    match handle {
        None => out.put_bool(false),
        Some(handle) => {
            out.put_bool(true);
            out.put_opaque(handle.as_slice());
        }
    }
}
