//! Reading pages of directories: READDIR and READDIRPLUS (RFC 1813, sections 3.3.16 and 3.3.17).

ghost use Rattle.std.specs.Prelude.{◌≡◌, true, false, IfOk};
ghost use Rattle.wire_model.specs.Parts.{Reads};
ghost use Rattle.nfs3_replies.specs.ReadParts.{IsEntry, entry_body, ArePage, page_bytes, directory_form, IsDone, after_status};

use crate::attributes_reading::read_optional_fattr;
use crate::forms_reading::read_given_handle;
use ivy_base::{Bytes, Memory};
use nfs_model::{Listed, Page, Reply};
use std::alloc::Global;
use xdr_codec::Parts;

/// READDIRPLUS (section 3.3.17), or else READDIR (section 3.3.16).
pub fn read_directory(alloc: Global, parts: &mut Parts, plus: bool) -> Result<Reply, Memory>
    ensures { IfOk result (λ r. Reads (IsDone (directory_form plus)) after_status parts.old r parts.new) }
{
    let dir = read_optional_fattr(parts);
    let verifier = parts.eight();
    let page = read_page(alloc, parts, plus)?;
    let eof = parts.boolean();
    if plus {
        Ok(Reply::DirectoryPlus {
            dir,
            verifier,
            page,
            eof,
        })
    } else {
        Ok(Reply::Directory {
            dir,
            verifier,
            page,
            eof,
        })
    }
}

/// Entries up to the mark that there is no more: those of READDIRPLUS, or else of READDIR.
///
/// Room is made for an entry only where its bytes were read.
fn read_page(alloc: Global, parts: &mut Parts, plus: bool) -> Result<Page, Memory>
    ensures { IfOk result (λ page. Reads (ArePage plus) (page_bytes plus) parts.old page parts.new) }
{
    let mut entries = Vec::new(alloc);
    'entries: while parts.boolean() {
        let entry = read_entry(alloc, parts, plus)?;
        entries.push(entry)?;
    }
    Ok(Page::of(entries))
}

/// An entry after its flag.
fn read_entry(alloc: Global, parts: &mut Parts, plus: bool) -> Result<Listed, Memory>
    ensures { IfOk result (λ entry. Reads (IsEntry plus) (entry_body plus) parts.old entry parts.new) }
{
    if plus {
        read_plus_entry(alloc, parts)
    } else {
        read_plain_entry(alloc, parts)
    }
}

/// An entry without attributes and file handle (entry3).
fn read_plain_entry(alloc: Global, parts: &mut Parts) -> Result<Listed, Memory>
    ensures { IfOk result (λ entry. Reads (IsEntry false) (entry_body false) parts.old entry parts.new) }
{
    let fileid = parts.u64();
    let name = parts.opaque(u32::MAX);
    let cookie = parts.u64();
    let name = Bytes::copy_of(alloc, name)?;
    Ok(Listed {
        fileid,
        name,
        cookie,
        attributes: None,
        handle: None,
    })
}

/// An entry with its file handle, and with attributes where they are given (entryplus3).
fn read_plus_entry(alloc: Global, parts: &mut Parts) -> Result<Listed, Memory>
    ensures { IfOk result (λ entry. Reads (IsEntry true) (entry_body true) parts.old entry parts.new) }
{
    let fileid = parts.u64();
    let name = parts.opaque(u32::MAX);
    let cookie = parts.u64();
    let attributes = read_optional_fattr(parts);
    let handle = read_given_handle(parts);
    let name = Bytes::copy_of(alloc, name)?;
    let handle = Bytes::copy_of(alloc, handle)?;
    Ok(Listed {
        fileid,
        name,
        cookie,
        attributes,
        handle: Some(handle),
    })
}
