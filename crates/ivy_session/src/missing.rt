//! The reply where a refresh failed.

ghost use Rattle.std.specs.Prelude.{◌≡◌, IfOk};
ghost use Rattle.log_fetch.specs.Standings.{asked_of};
ghost use Rattle.nfs_model.specs.Results.{result as bytes_of};
ghost use Rattle.session_model.specs.Replies.{missed_reply, missed_status};
ghost use Rattle.wire_model.specs.Rpc.{Success, reply as reply_bytes};

use crate::heads::success;
use dhash_client::Miss;
use ivy_base::{Bytes, Memory};
use log_fetch::Asked;
use nfs_model::{NfsStatus, Reply};
use nfs3_objects::bare_tail;
use std::alloc::Global;

/// The reply to the call `xid` after a refresh that failed by that miss: the procedure's refusal without attributes, with
/// JUKEBOX, or IO where a block was damaged. The error is: out of memory.
pub fn missed(alloc: Global, xid: u32, asked: &Asked, miss: &Miss) -> Result<Bytes, Memory>
    ensures { IfOk result (λ bytes. bytes ≡ reply_bytes xid (Success (bytes_of (missed_reply (asked_of asked.now) miss.now)))) }
{
    let refusal = Reply::Refused {
        status: missed_status(miss),
        tail: bare_tail(&asked.args),
    };
    success(alloc, xid, &refusal)
}

/// The status by which a miss is told: damage is an IO error, else the client is to try again later.
fn missed_status(miss: &Miss) -> NfsStatus
    ensures { result ≡ missed_status miss.now }
{
    match miss {
        Miss::NoRoute(_) | Miss::Missing { .. } => NfsStatus::Jukebox,
        Miss::Damaged { .. } => NfsStatus::Io,
    }
}
