//! Room for a reply message, taken before the reply is known.

ghost use Rattle.std.specs.Prelude.{◌≡◌, ◌+◌, ◌≤◌, [], length, vec_len, vec_capacity};
ghost use Rattle.wire_model.specs.Rpc.{Success, SystemError, reply};
ghost use Rattle.nfs_model.specs.Results.{longest_result};

use crate::heads::{head_within, room_for_head};
use ivy_base::{Bytes, Memory};
use rpc_wire::{LONGEST_HEAD, ReplyHead};
use std::alloc::Global;
use xdr_codec::XdrWrite;

/// The most bytes of a procedure's result, from its status on.
const LONGEST_RESULT: usize = 32_772;

/// Room for any reply message, taken before it is known: a head, and a result of at most 32,772 bytes.
#[derive(Drop)]
pub struct ReplyRoom {
    head: XdrWrite,
    message: Vec<u8>,
    ghost head_is_empty: { head.written ≡ [] },
    ghost head_has_room: { 32 ≤ head.spare },
    ghost message_is_empty: { message.items ≡ [] },
    ghost message_has_room: { vec_len message + (32 + longest_result) ≤ vec_capacity message },
}

impl ReplyRoom {
    /// Takes the room. The error is: out of memory.
    pub fn take(alloc: Global) -> Result<ReplyRoom, Memory> {
        Ok(ReplyRoom {
            head: room_for_head(alloc)?,
            message: Vec::with_capacity(alloc, LONGEST_HEAD + LONGEST_RESULT)?,
        })
    }

    /// The reply to the call `xid` of success with that result, from its status on. It takes no memory.
    pub fn success(self, xid: u32, bytes: &[u8]) -> Bytes
        requires { length bytes.now ≤ longest_result }
        ensures { result ≡ reply xid (Success bytes.now) }
    {
        let head = head_within(self.head, xid, &ReplyHead::Success);
        let mut message = self.message;
        message.extend_from_slice(head.as_slice()).unwrap();
        message.extend_from_slice(bytes).unwrap();
        Bytes::of(message)
    }

    /// The reply SYSTEM_ERR to the call `xid`. It takes no memory.
    pub fn system_error(self, xid: u32) -> Bytes
        ensures { result ≡ reply xid SystemError }
    {
        head_within(self.head, xid, &ReplyHead::SystemErr)
    }
}
