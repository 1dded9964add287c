//! How sessions end, and what a call's reply is made of.

ghost use Rattle.std.specs.Prelude.{◌≡◌, ◌≤◌, length};
ghost use Rattle.ivy_session.specs.Ending.{lacking, replying};
ghost use Rattle.nfs_model.specs.Results.{longest_result};

use crate::room::ReplyRoom;
use ivy_base::Bytes;
use log_fetch::Asked;

/// How a session ends.
#[derive(Drop)]
pub enum Served {
    /// This is the reply.
    Reply(Bytes),
    /// The message is no call, and has no reply.
    NotACall,
    /// The posts were published, for no call.
    Published,
}

/// A call that asks for a turn, and room for its reply.
pub(crate) struct Call {
    pub xid: u32,
    pub asked: Asked,
    pub room: ReplyRoom,
}

/// One function, so that whatever drops a call calls it and isn't proved over all that may be asked once more.
impl Drop for Call {
    fn drop(self) {
        let Call {
            xid: _,
            asked,
            room: _,
        } = self;
        drop(asked);
    }
}

impl Call {
    /// The room for its reply, which is told without what was asked.
    fn into_room(self) -> ReplyRoom {
        let Call {
            xid: _,
            asked,
            room,
        } = self;
        drop(asked);
        room
    }
}

/// Tells that memory runs out. It takes none.
pub(crate) fn no_memory(call: Call) -> Served
    ensures { result ≡ lacking call }
{
    let xid = call.xid;
    Served::Reply(call.into_room().system_error(xid))
}

/// Tells what the call's turn gave, from its status on. It takes no memory.
pub(crate) fn reply_of(call: Call, bytes: &[u8]) -> Served
    requires { length bytes.now ≤ longest_result }
    ensures { result ≡ replying call bytes.now }
{
    let xid = call.xid;
    Served::Reply(call.into_room().success(xid, bytes))
}
