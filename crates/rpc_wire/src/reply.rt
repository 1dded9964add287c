//! Replies: what stands in front of a procedure's result.

ghost use Rattle.std.specs.Prelude.{◌≡◌, ◌+◌, ◌≤◌, ◌++◌, length};
ghost use Rattle.wire_model.specs.Xdr.{word};
ghost use Rattle.wire_model.specs.Rpc.{accepted, denied};
ghost use Rattle.rpc_wire.specs.ReplyHead.{head_bytes, IsFrontOfSuccess, IsWholeElse};

use xdr_codec::XdrWrite;

/// The version of RPC, which a mismatch names as both the lowest and the highest (RFC 5531, section 9).
const RPC_VERSION: u32 = 2;

/// The message type of a reply (msg_type).
const REPLY: u32 = 1;

/// The states of a reply (reply_stat).
const MSG_ACCEPTED: u32 = 0;

const MSG_DENIED: u32 = 1;

/// The flavour of the verifier, whose body is empty (auth_flavor, section 8.2).
const AUTH_NONE: u32 = 0;

/// The states of an accepted call (accept_stat).
const SUCCESS: u32 = 0;

const PROG_UNAVAIL: u32 = 1;

const PROG_MISMATCH: u32 = 2;

const PROC_UNAVAIL: u32 = 3;

const GARBAGE_ARGS: u32 = 4;

const SYSTEM_ERR: u32 = 5;

/// Why a call was denied (reject_stat), and what is wrong with its credential (auth_stat).
const RPC_MISMATCH: u32 = 0;

const AUTH_ERROR: u32 = 1;

const AUTH_BADCRED: u32 = 1;

/// What a reply tells in front of a procedure's result (RFC 5531, section 9).
#[derive(Clone, Copy)]
pub enum ReplyHead {
    /// The call was done; its result follows.
    Success,
    /// There is no such program here.
    ProgUnavail,
    /// The program has the versions from `low` to `high` alone.
    ProgMismatch { low: u32, high: u32 },
    /// The program has no such procedure.
    ProcUnavail,
    /// The arguments can't be read.
    GarbageArgs,
    /// The call could not be done, as when out of memory.
    SystemErr,
    /// Denied: the call is of another version of RPC than 2.
    RpcMismatch,
    /// Denied: the credential can't be read, or its flavour isn't known.
    BadCred,
}

/// The bytes of the longest head.
pub const LONGEST_HEAD: usize = 32;

/// Appends the head of the reply to the call `xid`: 20 to 32 bytes (RFC 5531, section 9).
pub fn write_head(out: &mut XdrWrite, xid: u32, head: &ReplyHead)
    requires { LONGEST_HEAD ≤ out.old.spare }
    ensures written { out.new.written ≡ out.old.written ++ head_bytes xid head.now }
    ensures spare { out.new.spare + length (head_bytes xid head.now) ≡ out.old.spare }
    ensures longest { out.old.spare ≤ out.new.spare + LONGEST_HEAD }
{
    match *head {
        ReplyHead::Success => put_accepted(out, xid, SUCCESS),
        ReplyHead::ProgUnavail => put_accepted(out, xid, PROG_UNAVAIL),
        ReplyHead::ProgMismatch { low, high } => {
            put_accepted(out, xid, PROG_MISMATCH);
            out.put_u32(low);
            out.put_u32(high);
        }
        ReplyHead::ProcUnavail => put_accepted(out, xid, PROC_UNAVAIL),
        ReplyHead::GarbageArgs => put_accepted(out, xid, GARBAGE_ARGS),
        ReplyHead::SystemErr => put_accepted(out, xid, SYSTEM_ERR),
        ReplyHead::RpcMismatch => {
            put_denied(out, xid, RPC_MISMATCH);
            out.put_u32(RPC_VERSION);
            out.put_u32(RPC_VERSION);
        }
        ReplyHead::BadCred => {
            put_denied(out, xid, AUTH_ERROR);
            out.put_u32(AUTH_BADCRED);
        }
    }
}

/// Appends the front of an accepted reply: its verifier is of no flavour, with an empty body.
fn put_accepted(out: &mut XdrWrite, xid: u32, state: u32)
    requires { 24 ≤ out.old.spare }
    ensures written { out.new.written ≡ out.old.written ++ accepted xid (word state) }
    ensures spare { out.new.spare + 24 ≡ out.old.spare }
{
    out.put_u32(xid);
    out.put_u32(REPLY);
    out.put_u32(MSG_ACCEPTED);
    out.put_u32(AUTH_NONE);
    out.put_u32(0);
    out.put_u32(state);
}

/// Appends the front of a denied reply.
fn put_denied(out: &mut XdrWrite, xid: u32, reason: u32)
    requires { 16 ≤ out.old.spare }
    ensures written { out.new.written ≡ out.old.written ++ denied xid (word reason) }
    ensures spare { out.new.spare + 16 ≡ out.old.spare }
{
    out.put_u32(xid);
    out.put_u32(REPLY);
    out.put_u32(MSG_DENIED);
    out.put_u32(reason);
}

/// A law and no code: a reply of success is its head and then the result, and any other reply is its head.
pub fn heads_are_fronts()
    ensures success { IsFrontOfSuccess }
    ensures others { IsWholeElse }
{}
