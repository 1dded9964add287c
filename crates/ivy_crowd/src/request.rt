//! What a thread asks for, as the bytes of its link.

ghost use Rattle.std.specs.Prelude.{◌≡◌, ◌≤◌, ◌++◌, [], Some, true, length, IfOk, OnOk};
ghost use Rattle.rpc_wire.specs.Frames.{fragment, header, longest_message};
ghost use Rattle.script_model.specs.Messages.{message_of};
ghost use Rattle.ivy_crowd.specs.Requests.{file_name, pieces, stream};

use command_messages::message;
use ivy_base::{Bytes, Memory};
use script_model::Piece;
use std::alloc::Global;
use view_blocks::View;

/// The procedure CREATE (RFC 1813, section 3.3.8).
const CREATE: u32 = 8;

/// The way of creation UNCHECKED.
const UNCHECKED: u32 = 0;

/// The mode of the new file: its owner may read and write, others may read.
const MODE: u32 = 0o644;

/// The bit of a fragment's header that tells the last one of a message (RFC 5531, section 11).
const LAST: u32 = 0x8000_0000;

/// The name of a file: `tK-I`. The error is: out of memory.
fn file_name(alloc: Global, thread: u32, call: u32) -> Result<Bytes, Memory>
    ensures { IfOk result (λ name. name ≡ file_name thread call) }
{
    let name = format!(in alloc; "t{thread}-{call}")?;
    Ok(Bytes::of(name.into_bytes()))
}

/// The message of a thread's call of that number, where it is within the limit. The error is: out of memory.
fn message_of(alloc: Global, view: &View, thread: u32, call: u32) -> Result<Option<Bytes>, Memory>
    ensures { IfOk result (λ message. message ≡ message_of [] view.now (pieces thread call)) }
{
    let pieces = [
        Piece::Call {
            mount: false,
            procedure: CREATE,
            uid: 0,
            gid: 0,
            groups: 0,
        },
        Piece::Root,
        Piece::Text {
            text: file_name(alloc, thread, call)?,
        },
        Piece::Word { number: UNCHECKED },
        Piece::Mode { mode: MODE },
    ];
    message(alloc, &[], view, &pieces)
}

/// The message of a thread's call of that number, which is within the limit. The error is: out of memory.
fn request(alloc: Global, view: &View, thread: u32, call: u32) -> Result<Bytes, Memory>
    ensures { IfOk result (λ bytes. Some bytes ≡ message_of [] view.now (pieces thread call)) }
{
    match message_of(alloc, view, thread, call)? {
        Some(message) => Ok(message),
        None => unreachable!(),
    }
}

/// The header of a message's only fragment.
fn header_of(length: usize) -> [u8; 4]
    requires { length ≤ longest_message }
    ensures { result ≡ header true length }
{
    (LAST + length as u32).to_be_bytes()
}

/// Appends a message as one fragment. The error is: out of memory.
fn put_fragment(stream: &mut Vec<u8>, message: &[u8]) -> Result<(), Memory>
    requires { length message.now ≤ longest_message }
    ensures { OnOk result (stream.new.items ≡ stream.old.items ++ fragment true message.now) }
{
    let header = header_of(message.len());
    stream.extend_from_slice(&header[..])?;
    stream.extend_from_slice(message)?;
    Ok(())
}

/// The first calls of a thread, so many, each as one fragment. The error is: out of memory.
pub(crate) fn requests(alloc: Global, view: &View, thread: u32, calls: u32) -> Result<Bytes, Memory>
    ensures { IfOk result (λ bytes. Some bytes ≡ stream view.now thread calls) }
{
    let mut stream = Vec::new(alloc);
    for call in 0..calls {
        let message = request(alloc, view, thread, call + 1)?;
        put_fragment(&mut stream, message.as_slice())?;
    }
    Ok(Bytes::of(stream))
}
