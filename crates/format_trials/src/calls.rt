//! Calls, and the heads of replies.

use crate::line::Line;
use crate::text::Text;
use rpc_wire::{Call, Caller, Heading, LONGEST_HEAD, ReplyHead, read_call, write_head};
use xdr_codec::XdrWrite;

/// Tells the bytes as a call.
pub fn call(out: &mut Text, message: &[u8]) {
    match read_call(message) {
        Heading::Good(call) => put_call(out, &call),
        Heading::Mismatch { xid } => out.count("mismatch ", u64::from(xid)),
        Heading::NotACall => out.add("none"),
    }
}

fn put_call(out: &mut Text, call: &Call<'_>) {
    out.count("call ", u64::from(call.xid));
    out.next_number(u64::from(call.program));
    out.next_number(u64::from(call.version));
    out.next_number(u64::from(call.procedure));
    put_caller(out, &call.caller);
    out.next_word(call.args);
}

/// Adds the caller, where there is one: the user, the group and the other groups.
fn put_caller(out: &mut Text, caller: &Option<Caller>) {
    match caller {
        Some(caller) => {
            out.next_number(u64::from(caller.uid));
            out.count(",", u64::from(caller.gid));
            for place in 0..caller.count as usize {
                if let Some(gid) = caller.gids.get(place) {
                    out.count(",", u64::from(*gid));
                }
            }
        }
        None => out.add(" -"),
    }
}

/// The head that the words name.
fn head_of(line: &mut Line<'_>) -> ReplyHead {
    match line.word() {
        "success" => ReplyHead::Success,
        "garbage" => ReplyHead::GarbageArgs,
        "system" => ReplyHead::SystemErr,
        "mismatch" => ReplyHead::RpcMismatch,
        "credential" => ReplyHead::BadCred,
        "no" => head_without(line),
        "versions" => ReplyHead::ProgMismatch {
            low: line.number(),
            high: line.number(),
        },
        _ => {
            line.fail();
            ReplyHead::Success
        }
    }
}

/// The head that says that there is no such thing as the word names.
fn head_without(line: &mut Line<'_>) -> ReplyHead {
    match line.word() {
        "program" => ReplyHead::ProgUnavail,
        "procedure" => ReplyHead::ProcUnavail,
        _ => {
            line.fail();
            ReplyHead::Success
        }
    }
}

/// Tells the head of the reply to a call, whose number the first word is.
pub fn front(line: &mut Line<'_>) {
    let xid = line.number();
    let head = head_of(line);
    put_head(&mut line.text, xid, &head);
}

/// Adds the bytes of the head.
fn put_head(out: &mut Text, xid: u32, head: &ReplyHead) {
    let mut written = XdrWrite::new(out.alloc);
    if written.reserve(LONGEST_HEAD).is_ok() {
        write_head(&mut written, xid, head);
        out.word(written.into_bytes().as_slice());
    } else {
        out.lack();
    }
}
