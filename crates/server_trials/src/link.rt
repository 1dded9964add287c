//! The source and the sink of a line's link.

use ivy_base::Bytes;
use ivy_io::{Failing, MemSink, MemSource};
use std::alloc::Global;

/// NULL of NFS (RFC 1813, section 3.3.0) as one fragment, after its number: call, version 2 of RPC, the program, its version, the
/// procedure, and no credentials.
const NULL: [u8; 36] = [
    0, 0, 0, 0, 0, 0, 0, 2, 0, 1, 0x86, 0xa3, 0, 0, 0, 3, 0, 0, 0, 0, 0, 0, 0, 0, 0, 0, 0, 0, 0, 0,
    0, 0, 0, 0, 0, 0,
];

/// The ends of a link.
#[derive(Drop)]
pub struct Link {
    pub source: MemSource,
    pub sink: MemSink,
}

/// The link of a line. None means out of memory, or that the line is no `R W STREAM`.
pub fn link_of(alloc: Global, line: &str) -> Option<Link> {
    let (reads, rest) = line.split_once(' ')?;
    let (writes, stream) = rest.split_once(' ')?;
    let reads = failing(alloc, reads)?;
    let writes = failing(alloc, writes)?;
    let bytes = stream_of(alloc, stream)?;
    Some(Link {
        source: MemSource::new(bytes, reads),
        sink: MemSink::new(alloc, writes),
    })
}

/// The call of that number is to fail; calls count from 1, so that 0 names none. None means out of memory, or no
/// number.
fn failing(alloc: Global, number: &str) -> Option<Failing> {
    let Ok(number) = number.parse() else {
        return None;
    };
    let Ok(calls) = vec![in alloc; number] else {
        return None;
    };
    Some(Failing::of(calls))
}

/// The bytes of a stream's words. None means out of memory, or a word of another form.
fn stream_of(alloc: Global, stream: &str) -> Option<Bytes> {
    let mut bytes = Vec::new(alloc);
    if stream == "-" {
        return Some(Bytes::of(bytes));
    }
    for word in stream.split(' ') {
        if !add_word(alloc, &mut bytes, word) {
            return None;
        }
    }
    Some(Bytes::of(bytes))
}

/// Adds the bytes of a word. The result is whether it is one, and there was memory for it.
fn add_word(alloc: Global, bytes: &mut Vec<u8>, word: &str) -> bool {
    if let Some(count) = word.strip_prefix("nulls:") {
        return match count.parse() {
            Ok(count) => add_nulls(bytes, count),
            Err(_) => false,
        };
    }
    match hex::decode(alloc, word) {
        Ok(more) => bytes.extend_from_slice(more.as_slice()).is_ok(),
        Err(_) => false,
    }
}

/// Adds so many calls of NULL, with the numbers from 1 on. The result is whether there was memory for them.
fn add_nulls(bytes: &mut Vec<u8>, count: u32) -> bool {
    for before in 0..count {
        let number = before + 1;
        if bytes.extend_from_slice(&[0x80, 0, 0, 40]).is_err()
            || bytes.extend_from_slice(&number.to_be_bytes()).is_err()
            || bytes.extend_from_slice(&NULL).is_err()
        {
            return false;
        }
    }
    true
}
