//! Two links, of which the first one's call ends once the second one has its reply.

ghost use Rattle.std.specs.Prelude.{◌≡◌, ◌≤◌, ℕ, None, IfOk, IfErr, OnErr};

use crate::board::Board;
use ivy_base::{Bytes, Memory};
use ivy_io::{Failed, OpenFault, Ports, Sink, SinkFault, Source};
use std::alloc::Global;
use std::collections::VecDeque;
use std::sync::Arc;

/// NULL of NFS with the number 1, as one fragment (RFC 5531, sections 9 and 11).
const CALL: [u8; 44] =
    *b"\x80\x00\x00\x28\x00\x00\x00\x01\x00\x00\x00\x00\x00\x00\x00\x02\x00\x01\x86\xa3\x00\x00\x00\x03\x00\x00\x00\x00\x00\x00\x00\x00\x00\x00\x00\x00\x00\x00\x00\x00\x00\x00\x00\x00";

/// The reply to it.
const REPLY: [u8; 28] =
    *b"\x80\x00\x00\x18\x00\x00\x00\x01\x00\x00\x00\x01\x00\x00\x00\x00\x00\x00\x00\x00\x00\x00\x00\x00\x00\x00\x00\x00";

/// The bit of the second link's reply.
const REPLIED: u64 = 1;

/// A source of one call. One that waits gives the last byte once the board tells of the reply, and where it looks for that in
/// vain, the end of input in its place.
#[derive(Drop)]
pub struct CallSource {
    board: Arc<Board, Global>,
    call: Bytes,
    at: usize,
    waits: bool,
}

impl CallSource {
    /// How many of so many bytes that are left may be given now.
    fn open(&self, left: usize) -> usize {
        if !self.waits {
            left
        } else if left > 1 {
            left - 1
        } else if self.board.look(1) {
            left
        } else {
            0
        }
    }
}

impl Source for CallSource {
    ghost left = { λ _. None };

    ghost faults = { λ _. 0 };

    fn read(&mut self, into: &mut [u8]) -> Result<usize, Failed> {
        let call = self.call.as_slice();
        if self.at >= call.len() {
            return Ok(0);
        }
        let rest = &call[self.at..];
        let count = self.open(rest.len()).min(rest.len()).min(into.len());
        into[..count].copy_from_slice(&rest[..count]);
        self.at += count;
        Ok(count)
    }
}

/// A sink that keeps what it is given. One that tells has the board tell once it holds the reply.
#[derive(Drop)]
pub struct ReplySink {
    board: Arc<Board, Global>,
    bytes: Vec<u8>,
    tells: bool,
}

impl ReplySink {
    /// Whether it holds the reply, and no more.
    fn has_reply(&self) -> bool {
        self.bytes.as_slice() == REPLY.as_slice()
    }
}

impl Sink for ReplySink {
    ghost contents = { λ _. None };

    ghost faults = { λ _. 0 };

    fn write(&mut self, from: &[u8]) -> Result<usize, SinkFault> {
        if self.bytes.extend_from_slice(from).is_err() {
            return Err(SinkFault::Memory);
        }
        if self.tells && self.has_reply() {
            self.board.tell(REPLIED);
        }
        Ok(from.len())
    }
}

/// Ports that give two links, and then none. Those that come back are kept.
#[derive(Drop)]
pub struct TwoLinks {
    coming: VecDeque<(CallSource, ReplySink)>,
    back: Vec<(CallSource, ReplySink)>,
    ends: u64,
}

/// A link, which is the first one or the second one. The error is: out of memory.
fn link(
    alloc: Global,
    board: &Arc<Board, Global>,
    is_first: bool,
) -> Result<(CallSource, ReplySink), Memory> {
    let source = CallSource {
        board: Arc::try_clone(board)?,
        call: Bytes::copy_of(alloc, &CALL)?,
        at: 0,
        waits: is_first,
    };
    let sink = ReplySink {
        board: Arc::try_clone(board)?,
        bytes: Vec::new(alloc),
        tells: !is_first,
    };
    Ok((source, sink))
}

impl TwoLinks {
    /// Ports that give the two links of a board. The error is: out of memory.
    pub fn new(alloc: Global, board: &Arc<Board, Global>) -> Result<TwoLinks, Memory> {
        let mut links = Vec::new(alloc);
        links.push(link(alloc, board, true)?)?;
        links.push(link(alloc, board, false)?)?;
        Ok(TwoLinks {
            coming: VecDeque::from_vec(links),
            back: Vec::with_capacity(alloc, 2)?,
            ends: 0,
        })
    }

    /// How many links came back, and how many of these hold the reply and no more.
    pub fn counts(&self) -> (usize, usize) {
        let replied = self
            .back
            .iter()
            .filter(|(_, sink)| sink.has_reply())
            .count();
        (self.back.len(), replied)
    }
}

impl Ports for TwoLinks {
    type Reads = CallSource;

    type Writes = ReplySink;

    ghost links = { λ _. None };

    ghost faults = { λ _. 0 };

    ghost ends = { λ p. p.ends };

    ghost gives = { λ _ _ _. Unit {0} };

    ghost takes = { λ _ _ _ _. Unit {0} };

    fn listen(&mut self, _alloc: Global, _port: u16) -> Result<(), OpenFault> {
        Ok(())
    }

    fn accept(&mut self, _alloc: Global) -> Result<Option<(CallSource, ReplySink)>, OpenFault> {
        match self.coming.pop_front() {
            Some(link) => Ok(Some(link)),
            None => {
                self.ends = self.ends.saturating_add(1);
                Ok(None)
            }
        }
    }

    fn give_back(&mut self, reads: CallSource, writes: ReplySink) {
        // There is room for both, so a link that finds none is no link of these ports.
        let _ = self.back.push((reads, writes));
    }
}
