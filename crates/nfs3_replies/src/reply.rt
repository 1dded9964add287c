//! Whole results.

ghost use Rattle.std.specs.Prelude.{◌≡◌, ◌≤◌, ◌++◌, IfOk, OnOk, OnErr, length};
ghost use Rattle.nfs_model.specs.Results.{result as bytes_of};
ghost use Rattle.nfs3_replies.specs.Writable.{IsWritable};
ghost use Rattle.nfs3_replies.specs.Room.{room};
ghost use Rattle.nfs3_replies.specs.Sizes.{result_bound, HasShortHandles, HasWholeVerifier};

use crate::constants::NO_SUCH_PATH;
use crate::forms::{
    put_allowed, put_attributes, put_changed, put_committed, put_content, put_exports, put_found,
    put_limits, put_linked, put_made, put_mounted, put_paths, put_refused, put_renamed, put_space,
    put_text, put_written,
};
use crate::pages::{put_directory, put_directory_plus};
use crate::room::room_for;
use ivy_base::{Bytes, Memory};
use nfs_model::Reply;
use std::alloc::Global;
use xdr_codec::XdrWrite;

/// The bytes of a result, from its status on (RFC 1813, sections 3.3 and 5.2).
///
/// They are at most as many as its parts take, where the handles of a page of READDIRPLUS have at most 44 bytes each.
/// The error is: out of memory; it also comes where a string that the result shows has 2^32 bytes or more, which no word
/// counts, and where the result has 2^64 bytes or more.
pub fn write_reply(alloc: Global, reply: &Reply) -> Result<Bytes, Memory>
    ensures written { IfOk result (λ bytes. bytes ≡ bytes_of reply.now) }
    ensures counted { OnOk result (IsWritable reply.now) }
    ensures short { IfOk result (λ bytes. HasShortHandles reply.now → length bytes ≤ result_bound reply.now) }
{
    let mut out = XdrWrite::new(alloc);
    put_reply(&mut out, reply)?;
    Ok(out.into_bytes())
}

/// Appends the bytes of a result, as [`write_reply`] gives them.
///
/// It makes room for all of it first, for [`room_for`] bytes. The errors are those of [`write_reply`], and nothing is
/// written then.
#[tactic(auto, using(crate::proofs::Sizes::most_result))]
pub fn put_reply(out: &mut XdrWrite, reply: &Reply) -> Result<(), Memory>
    ensures ok { OnOk result (out.new.written ≡ out.old.written ++ bytes_of reply.now) }
    ensures counted { OnOk result (IsWritable reply.now) }
    ensures short { OnOk result (HasShortHandles reply.now → length (bytes_of reply.now) ≤ result_bound reply.now) }
    ensures err { OnErr result (out.new.written ≡ out.old.written) }
{
    let room = room_for(reply).ok_or(Memory)?;
    out.reserve(room)?;
    put_within(out, reply);
    Ok(())
}

/// Appends the bytes of a result for which there is room.
fn put_within(out: &mut XdrWrite, reply: &Reply)
    requires writable { IsWritable reply.now }
    requires room { room reply.now ≤ out.old.spare }
    ensures written { out.new.written ≡ out.old.written ++ bytes_of reply.now }
    ensures whole { HasWholeVerifier reply.now }
{
    match reply {
        Reply::Nothing => {}
        Reply::Refused { status, tail } => put_refused(out, *status, tail),
        Reply::Attributes { object } => put_attributes(out, object),
        Reply::Changed { cache } => put_changed(out, cache),
        Reply::Found {
            handle,
            object,
            dir,
        } => put_found(out, handle, object, dir),
        Reply::Allowed { object, bits } => put_allowed(out, object, *bits),
        Reply::Text { link, text } => put_text(out, link, text),
        Reply::Bytes {
            file,
            count,
            eof,
            bytes,
        } => put_content(out, file, *count, *eof, bytes),
        Reply::Written { cache, count } => put_written(out, cache, *count),
        Reply::Made {
            handle,
            object,
            cache,
        } => put_made(out, handle, object, cache),
        Reply::Renamed { from, to } => put_renamed(out, from, to),
        Reply::Linked { file, cache } => put_linked(out, file, cache),
        Reply::Committed { cache } => put_committed(out, cache),
        Reply::Directory {
            dir,
            verifier,
            page,
            eof,
        } => put_directory(out, dir, verifier, page, *eof),
        Reply::DirectoryPlus {
            dir,
            verifier,
            page,
            eof,
        } => put_directory_plus(out, dir, verifier, page, *eof),
        Reply::Space { object } => put_space(out, object),
        Reply::Limits { object } => put_limits(out, object),
        Reply::Paths { object } => put_paths(out, object),
        Reply::Mounted { handle } => put_mounted(out, handle),
        Reply::NoSuchPath => out.put_u32(NO_SUCH_PATH),
        Reply::NoMounts => out.put_bool(false),
        Reply::Exports => put_exports(out),
    }
}
