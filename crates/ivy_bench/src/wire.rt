//! Times of reading calls and writing replies, beside the time of copying as many bytes.

use crate::measured::{Copies, Measured, Task, repeat};
use crate::words::Words;
use ivy_base::{Bytes, Kind, Memory, Moment};
use nfs3_args::read_args;
use nfs3_replies::{Fattr, Reply, put_reply, room_for};
use rpc_wire::{Heading, LONGEST_HEAD, ReplyHead, read_call, write_head};
use std::alloc::Global;
use std::rt::Clock;
use xdr_codec::XdrWrite;

/// The call and its arguments, up to the bytes (RFC 5531, section 9, and RFC 1813, section 3.3.7).
const FRONT: [u32; 35] = [
    // the call 1 of WRITE of NFS version 3
    1,
    0,
    2,
    100_003,
    3,
    7,
    // AUTH_SYS: a stamp, the machine `host`, user, group and two groups; no verifier
    1,
    32,
    0,
    4,
    0x686f_7374,
    1000,
    100,
    2,
    100,
    101,
    0,
    0,
    // a file handle of 44 bytes
    44,
    1,
    2,
    3,
    4,
    5,
    6,
    7,
    8,
    9,
    10,
    11,
    // offset, count, FILE_SYNC, and the count of the bytes
    0,
    8192,
    8192,
    2,
    8192,
];

const MOMENT: Moment = Moment {
    sec: 1_000_000_000,
    nsec: 5,
};

const FILE: Fattr = Fattr {
    kind: Kind::Reg,
    mode: 0o644,
    nlink: 1,
    uid: 1000,
    gid: 100,
    size: 16_384,
    used: 16_384,
    fsid: 1,
    fileid: 2,
    atime: MOMENT,
    mtime: MOMENT,
    ctime: MOMENT,
};

/// The 8,192 bytes that are written and read.
const CONTENT: [u8; 8192] = [5; 8192];

/// A call of WRITE.
fn call(alloc: Global) -> Result<Vec<u8>, Memory> {
    let mut message = Vec::new(alloc);
    for word in FRONT {
        message.extend_from_slice(&word.to_be_bytes())?;
    }
    message.extend_from_slice(&CONTENT)?;
    Ok(message)
}

/// A result of READ.
fn reply(alloc: Global) -> Result<Reply, Memory> {
    let content = CONTENT;
    Ok(Reply::Bytes {
        file: Some(FILE),
        count: 8192,
        eof: false,
        bytes: Bytes::copy_of(alloc, content.as_slice())?,
    })
}

/// A reading of the call in this message, and of its arguments.
#[derive(Clone, Copy)]
struct Reads<'a>(&'a [u8]);

impl Task for Reads<'_> {
    fn turn(&mut self, alloc: Global) -> bool {
        match read_call(self.0) {
            Heading::Good(call) => {
                call.caller.is_some()
                    && read_args(alloc, call.program, call.procedure, call.args).is_ok()
            }
            _ => false,
        }
    }
}

/// Writes the message of a reply. None where memory is short.
fn write(out: &mut XdrWrite, reply: &Reply) -> Option<()> {
    let room = room_for(reply)?.checked_add(LONGEST_HEAD)?;
    out.reserve(room).ok()?;
    write_head(out, 1, &ReplyHead::Success);
    put_reply(out, reply).ok()
}

/// A writing of the reply, into a message of its own.
#[derive(Clone, Copy)]
struct Writes<'a>(&'a Reply);

impl Task for Writes<'_> {
    fn turn(&mut self, alloc: Global) -> bool {
        let mut out = XdrWrite::new(alloc);
        write(&mut out, self.0).is_some()
    }
}

/// Measures what the words ask for. None where they ask for nothing of this family, or memory is short.
pub fn answer<R: Clock>(rt: &R, alloc: Global, words: &mut Words<'_>) -> Option<Measured> {
    let what = words.word();
    let count = words.number();
    match what {
        "copy" => {
            let content = CONTENT;
            repeat(rt, alloc, "copied", count, &mut Copies(content.as_slice()))
        }
        "read" => match call(alloc) {
            Ok(message) => repeat(rt, alloc, "read", count, &mut Reads(&message)),
            Err(Memory) => None,
        },
        "write" => match reply(alloc) {
            Ok(reply) => repeat(rt, alloc, "written", count, &mut Writes(&reply)),
            Err(Memory) => None,
        },
        _ => None,
    }
}
