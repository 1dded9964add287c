//! What a message comes to before any turn.

ghost use Rattle.std.specs.Prelude.{◌≡◌, ℕ, List, Some, IfOk, MatchResult, option_map};
ghost use Rattle.nfs_model.specs.Results.{result as bytes_of};
ghost use Rattle.rpc_wire.specs.Callers.{IsGoodCall};
ghost use Rattle.rpc_wire.specs.ReplyHead.{head_bytes};
ghost use Rattle.session_model.specs.Replies.{alone_answer, procedures_of};
ghost use Rattle.wire_model.specs.Rpc.{Success, reply as reply_bytes};
ghost use Rattle.ivy_session.specs.Admitting.{IsAdmitted, IsRefused};
ghost use Rattle.ivy_session.specs.Reading.{IsReading, reading_by};

use crate::alone::alone_answer;
use crate::heads::{head_alone, success};
use ivy_base::{Bytes, Memory};
use log_fetch::Asked;
use nfs3_args::{Args, ArgsFault, MOUNT_PROGRAM, NFS_PROGRAM, read_args};
use rpc_wire::{Call, Caller, Heading, ReplyHead, read_call};
use std::alloc::Global;
use view_blocks::View;

/// The version of both programs that is spoken here (RFC 1813).
const VERSION: u32 = 3;

/// How many procedures NFS has (section 3.3).
const NFS_PROCEDURES: u32 = 22;

/// How many MOUNT has (section 5.2).
const MOUNT_PROCEDURES: u32 = 6;

/// What a message comes to before any turn.
#[derive(Drop)]
pub enum Reading {
    /// It reaches no turn: this is its reply, or it has none, since it is no call.
    Alone(Option<Bytes>),
    /// A call that asks for a turn.
    Asks { xid: u32, asked: Asked },
}

/// Reads a message (RFC 5531, section 9). No call has no reply. A call of another version of RPC, of a program, a version or
/// a procedure that isn't here, of no caller or with arguments that can't be read is refused, by the first of these that
/// holds; NULL and all of MOUNT are answered; any other call asks for a turn. The error is: out of memory.
pub fn read_message(alloc: Global, view: &View, message: &[u8]) -> Result<Reading, Memory>
    ensures { IfOk result (IsReading view.now message.now) }
{
    match read_call(message) {
        Heading::NotACall => Ok(Reading::Alone(None)),
        Heading::Mismatch { xid } => refused(alloc, xid, &ReplyHead::RpcMismatch),
        Heading::Good(call) => read_good(alloc, view, &call),
    }
}

/// What a call of this version of RPC comes to. The error is: out of memory.
fn read_good(alloc: Global, view: &View, call: &Call<'_>) -> Result<Reading, Memory>
    ensures { (message : List ℕ) → IsGoodCall message call.now → IfOk result (IsReading view.now message) }
{
    match admitted(call) {
        Ok(caller) => read_admitted(alloc, view, call, caller),
        Err(head) => refused(alloc, call.xid, &head),
    }
}

/// Who calls, where the procedure is here; else why the call is refused.
fn admitted(call: &Call<'_>) -> Result<Caller, ReplyHead>
    ensures { MatchResult result (IsAdmitted call.now) (IsRefused call.now) }
{
    let Some(count) = procedures_of(call.program) else {
        return Err(ReplyHead::ProgUnavail);
    };
    if call.version != VERSION {
        return Err(ReplyHead::ProgMismatch {
            low: VERSION,
            high: VERSION,
        });
    }
    if call.procedure >= count {
        return Err(ReplyHead::ProcUnavail);
    }
    call.caller.ok_or(ReplyHead::BadCred)
}

/// How many procedures the program has, where it is served.
fn procedures_of(program: u32) -> Option<u32>
    ensures { result ≡ procedures_of program }
{
    match program {
        NFS_PROGRAM => Some(NFS_PROCEDURES),
        MOUNT_PROGRAM => Some(MOUNT_PROCEDURES),
        _ => None,
    }
}

/// What an admitted call comes to. The error is: out of memory.
fn read_admitted(
    alloc: Global,
    view: &View,
    call: &Call<'_>,
    caller: Caller,
) -> Result<Reading, Memory>
    requires { IsAdmitted call.now caller }
    ensures { (message : List ℕ) → IsGoodCall message call.now → IfOk result (IsReading view.now message) }
{
    let xid = call.xid;
    match read_args(alloc, call.program, call.procedure, call.args) {
        Ok(args) => read_asked(alloc, view, xid, Asked { caller, args }),
        Err(ArgsFault::Garbage) => refused(alloc, xid, &ReplyHead::GarbageArgs),
        Err(ArgsFault::Memory) => Err(Memory),
    }
}

/// What the call `xid`, which asks for that, comes to. The error is: out of memory.
fn read_asked(alloc: Global, view: &View, xid: u32, asked: Asked) -> Result<Reading, Memory>
    ensures { IfOk result (λ reading. reading ≡ reading_by (alone_answer view.now asked.args) xid asked) }
{
    match answered_alone(alloc, view, xid, &asked.args)? {
        Some(reply) => Ok(Reading::Alone(Some(reply))),
        None => Ok(Reading::Asks { xid, asked }),
    }
}

/// The reply to the call `xid` with these arguments, where it needs no turn. The error is: out of memory.
fn answered_alone(
    alloc: Global,
    view: &View,
    xid: u32,
    args: &Args,
) -> Result<Option<Bytes>, Memory>
    ensures { IfOk result (λ given. given ≡ option_map (λ r. reply_bytes xid (Success (bytes_of r))) (alone_answer view.now args.now)) }
{
    match alone_answer(alloc, view, args)? {
        Some(reply) => Ok(Some(success(alloc, xid, &reply)?)),
        None => Ok(None),
    }
}

/// The refusal of the call `xid`. The error is: out of memory.
fn refused(alloc: Global, xid: u32, head: &ReplyHead) -> Result<Reading, Memory>
    ensures { IfOk result (λ reading. reading ≡ Reading.Alone (Some (head_bytes xid head.now))) }
{
    Ok(Reading::Alone(Some(head_alone(alloc, xid, head)?)))
}
