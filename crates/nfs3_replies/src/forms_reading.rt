//! Reading results after status 0 that have several parts, by their forms (RFC 1813, section 3.3), but for the pages of
//! directories.

ghost use Rattle.std.specs.Prelude.{◌≡◌, IfOk};
ghost use Rattle.nfs_model.specs.Arguments.{IsHandle};
ghost use Rattle.wire_model.specs.Parts.{Reads};
ghost use Rattle.nfs3_replies.specs.ReadParts.{given_handle, IsNumbered, numbered, IsDone, after_status};

use crate::attributes_reading::{read_constant, read_optional_fattr, read_wcc};
use crate::constants::{GIVEN, MOST_HANDLE, STORED, WRITE_VERIFIER};
use ivy_base::{Bytes, Memory};
use nfs_model::{Fattr, Reply};
use std::alloc::Global;
use xdr_codec::Parts;

/// SETATTR, REMOVE and RMDIR (sections 3.3.2, 3.3.12 and 3.3.13).
pub fn read_changed(parts: &mut Parts) -> Reply
    ensures { Reads (IsDone 2) after_status parts.old result parts.new }
{
    let cache = read_wcc(parts);
    Reply::Changed { cache }
}

/// LOOKUP (section 3.3.3).
pub fn read_found(alloc: Global, parts: &mut Parts) -> Result<Reply, Memory>
    ensures { IfOk result (λ r. Reads (IsDone 3) after_status parts.old r parts.new) }
{
    let handle = parts.opaque(MOST_HANDLE);
    let object = read_optional_fattr(parts);
    let dir = read_optional_fattr(parts);
    let handle = Bytes::copy_of(alloc, handle)?;
    Ok(Reply::Found {
        handle,
        object,
        dir,
    })
}

/// ACCESS (section 3.3.4).
pub fn read_allowed(parts: &mut Parts) -> Reply
    ensures { Reads (IsDone 4) after_status parts.old result parts.new }
{
    let object = read_optional_fattr(parts);
    let bits = parts.u32();
    Reply::Allowed { object, bits }
}

/// READLINK (section 3.3.5).
pub fn read_text(alloc: Global, parts: &mut Parts) -> Result<Reply, Memory>
    ensures { IfOk result (λ r. Reads (IsDone 5) after_status parts.old r parts.new) }
{
    let link = read_optional_fattr(parts);
    let text = parts.opaque(u32::MAX);
    let text = Bytes::copy_of(alloc, text)?;
    Ok(Reply::Text { link, text })
}

/// READ (section 3.3.6).
pub fn read_content(alloc: Global, parts: &mut Parts) -> Result<Reply, Memory>
    ensures { IfOk result (λ r. Reads (IsDone 6) after_status parts.old r parts.new) }
{
    let file = read_optional_fattr(parts);
    let count = parts.u32();
    let eof = parts.boolean();
    let bytes = parts.opaque(u32::MAX);
    let bytes = Bytes::copy_of(alloc, bytes)?;
    Ok(Reply::Bytes {
        file,
        count,
        eof,
        bytes,
    })
}

/// WRITE (section 3.3.7).
pub fn read_written(parts: &mut Parts) -> Reply
    ensures { Reads (IsDone 7) after_status parts.old result parts.new }
{
    let cache = read_wcc(parts);
    let count = parts.u32();
    read_constant(parts, &STORED);
    Reply::Written { cache, count }
}

/// CREATE, MKDIR and SYMLINK (sections 3.3.8 to 3.3.10).
pub fn read_made(alloc: Global, parts: &mut Parts) -> Result<Reply, Memory>
    ensures { IfOk result (λ r. Reads (IsDone 8) after_status parts.old r parts.new) }
{
    let handle = read_given_handle(parts);
    let object = read_optional_fattr(parts);
    let cache = read_wcc(parts);
    let handle = Bytes::copy_of(alloc, handle)?;
    Ok(Reply::Made {
        handle,
        object,
        cache,
    })
}

/// A file handle that may be missing (post_op_fh3), but isn't.
pub fn read_given_handle<'a>(parts: &mut Parts<'a>) -> &'a [u8]
    ensures { Reads IsHandle given_handle parts.old result.now parts.new }
{
    read_constant(parts, &GIVEN);
    parts.opaque(MOST_HANDLE)
}

/// RENAME (section 3.3.14).
pub fn read_renamed(parts: &mut Parts) -> Reply
    ensures { Reads (IsDone 14) after_status parts.old result parts.new }
{
    let from = read_wcc(parts);
    let to = read_wcc(parts);
    Reply::Renamed { from, to }
}

/// LINK (section 3.3.15).
pub fn read_linked(parts: &mut Parts) -> Reply
    ensures { Reads (IsDone 15) after_status parts.old result parts.new }
{
    let file = read_optional_fattr(parts);
    let cache = read_wcc(parts);
    Reply::Linked { file, cache }
}

/// Attributes, and words that are the same in each result: FSSTAT, FSINFO and PATHCONF (sections 3.3.18 to 3.3.20).
pub fn read_numbered(parts: &mut Parts, words: &[u32]) -> Option<Fattr>
    ensures { Reads IsNumbered (numbered words.now) parts.old (result, tt) parts.new }
{
    let object = read_optional_fattr(parts);
    read_constant(parts, words);
    object
}

/// COMMIT (section 3.3.21).
pub fn read_committed(parts: &mut Parts) -> Reply
    ensures { Reads (IsDone 21) after_status parts.old result parts.new }
{
    let cache = read_wcc(parts);
    read_constant(parts, &WRITE_VERIFIER);
    Reply::Committed { cache }
}
