//! The parts of results.

ghost use Rattle.std.specs.Prelude.{◌≡◌, IfOk, IfSome, MatchOption};
ghost use Rattle.session_model.specs.Replies.{handle_given, verifier_given};
ghost use Rattle.command_messages.specs.Reading.{GivesParts, IsNoReply, IsReadFrom};

use crate::numbers::{procedure_number, program_number};
use crate::replies::ReplyParts;
use ivy_base::{Bytes, Memory};
use nfs_model::{Args, ArgsFault, Reply};
use nfs3_replies::read_reply;
use std::alloc::Global;

/// What the result of a call with these arguments gives, whose bytes these are, from its status on. None where they are no reply
/// of the call's procedure. The error is: out of memory.
pub fn parts_of(alloc: Global, args: &Args, bytes: &[u8]) -> Result<Option<ReplyParts>, Memory>
    ensures { IfOk result (λ found. MatchOption found (IsNoReply args.now bytes.now) (GivesParts args.now bytes.now)) }
{
    match reply_of(alloc, args, bytes)? {
        Some(reply) => Ok(Some(left_by(alloc, &reply)?)),
        None => Ok(None),
    }
}

/// The reply of the call's procedure that the bytes are, if they are one. The error is: out of memory.
fn reply_of(alloc: Global, args: &Args, bytes: &[u8]) -> Result<Option<Reply>, Memory>
    ensures { IfOk result (λ found. MatchOption found (IsNoReply args.now bytes.now) (IsReadFrom args.now bytes.now)) }
{
    match read_reply(alloc, program_number(args), procedure_number(args), bytes) {
        Ok(reply) => Ok(Some(reply)),
        Err(ArgsFault::Garbage) => Ok(None),
        Err(ArgsFault::Memory) => Err(Memory),
    }
}

/// What the reply gives: a handle, or a verifier. The error is: out of memory.
fn left_by(alloc: Global, reply: &Reply) -> Result<ReplyParts, Memory>
    ensures handle { IfOk result (λ given. given.handle ≡ handle_given reply.now) }
    ensures verifier { IfOk result (λ given. given.verifier ≡ verifier_given reply.now) }
{
    Ok(ReplyParts::of(handle_of(alloc, reply)?, verifier_of(reply)))
}

/// The verifier of the page of a directory that the reply is, if it is one.
fn verifier_of(reply: &Reply) -> Option<[u8; 8]>
    ensures { result ≡ verifier_given reply.now }
{
    match reply {
        Reply::Directory { verifier, .. } | Reply::DirectoryPlus { verifier, .. } => Some(
            *verifier,
        ),
        _ => None,
    }
}

/// A copy of the handle that the reply made or found, if any. The error is: out of memory.
fn handle_of(alloc: Global, reply: &Reply) -> Result<Option<Bytes>, Memory>
    ensures { IfOk result (λ handle. handle ≡ handle_given reply.now) }
{
    match reply {
        Reply::Found { handle, .. } | Reply::Made { handle, .. } => Ok(Some(handle.copy(alloc)?)),
        _ => Ok(None),
    }
}
