//! Reply messages: a head alone, or the head of a success and its result.

ghost use Rattle.std.specs.Prelude.{◌≡◌, ◌≤◌, [], length, IfOk};
ghost use Rattle.nfs_model.specs.Results.{result as bytes_of};
ghost use Rattle.rpc_wire.specs.ReplyHead.{head_bytes};
ghost use Rattle.wire_model.specs.Rpc.{Success, reply as reply_bytes};

use ivy_base::{Bytes, Memory};
use nfs_model::Reply;
use nfs3_replies::put_reply;
use rpc_wire::{LONGEST_HEAD, ReplyHead, write_head};
use std::alloc::Global;
use xdr_codec::XdrWrite;

/// A message with nothing written and room for any head. The error is: out of memory.
pub fn room_for_head(alloc: Global) -> Result<XdrWrite, Memory>
    ensures empty { IfOk result (λ out. out.written ≡ []) }
    ensures room { IfOk result (λ out. LONGEST_HEAD ≤ out.spare) }
{
    let mut out = XdrWrite::new(alloc);
    out.reserve(LONGEST_HEAD)?;
    Ok(out)
}

/// The head of a reply to the call `xid`, in room that was taken for it. It takes no memory.
pub fn head_within(mut room: XdrWrite, xid: u32, head: &ReplyHead) -> Bytes
    requires empty { room.written ≡ [] }
    requires room { LONGEST_HEAD ≤ room.spare }
    ensures head { result ≡ head_bytes xid head.now }
    ensures short { length result ≤ LONGEST_HEAD }
{
    write_head(&mut room, xid, head);
    room.into_bytes()
}

/// The reply to the call `xid` that is that head alone. The error is: out of memory.
pub fn head_alone(alloc: Global, xid: u32, head: &ReplyHead) -> Result<Bytes, Memory>
    ensures { IfOk result (λ bytes. bytes ≡ head_bytes xid head.now) }
{
    Ok(head_within(room_for_head(alloc)?, xid, head))
}

/// The reply to the call `xid` of success with that result. The error is: out of memory.
pub fn success(alloc: Global, xid: u32, reply: &Reply) -> Result<Bytes, Memory>
    ensures { IfOk result (λ bytes. bytes ≡ reply_bytes xid (Success (bytes_of reply.now))) }
{
    let mut out = room_for_head(alloc)?;
    write_head(&mut out, xid, &ReplyHead::Success);
    put_reply(&mut out, reply)?;
    Ok(out.into_bytes())
}
