//! Times of writing a regular file in pieces of 8,192 bytes.

use crate::measured::{Measured, Task, repeat_all};
use crate::replay::Replay;
use crate::words::Words;
use ivy_base::{Bytes, Key, Kind, Op};
use std::alloc::Global;
use std::rt::Clock;

const FILE: Key = Key([9; 20]);

/// How many bytes a piece has.
const PIECE: u64 = 8192;

/// How many pieces the longest file has.
const MOST_PIECES: u64 = 2048;

/// The piece that is written after this one: the next one, or one in an order that seems to have no pattern and comes to
/// each of 2,048 once (a linear congruence of full period).
fn next_piece(piece: u64, shuffled: bool) -> u64 {
    let piece = piece % MOST_PIECES;
    if shuffled {
        (piece * 1029 + 371) % MOST_PIECES
    } else {
        (piece + 1) % MOST_PIECES
    }
}

/// A file, and the piece that is written next, one after the other or shuffled.
struct Pieces {
    replay: Replay,
    piece: u64,
    shuffled: bool,
}

impl Drop for Pieces {
    fn drop(self) {
        let Pieces {
            replay: _,
            piece: _,
            shuffled: _,
        } = self;
    }
}

/// Writes one piece of the file.
fn write_piece(replay: &mut Replay, alloc: Global, piece: u64, bytes: &[u8]) -> bool {
    match Bytes::copy_of(alloc, &bytes[..bytes.len().min(PIECE as usize)]) {
        Ok(bytes) => replay.apply(Op::Write {
            ino: FILE,
            offset: piece % MOST_PIECES * PIECE,
            bytes,
        }),
        Err(_) => false,
    }
}

impl Task for Pieces {
    fn turn(&mut self, alloc: Global) -> bool {
        let bytes = [7; 8192];
        let written = write_piece(&mut self.replay, alloc, self.piece, &bytes);
        self.piece = next_piece(self.piece, self.shuffled);
        written
    }
}

/// Writes so many pieces into an empty file, and says whether all were written. None where memory is short for that file.
fn time_writes<R: Clock>(rt: &R, alloc: Global, count: u32, shuffled: bool) -> Option<Measured> {
    let mut replay = Replay::new(alloc)?;
    replay.make(FILE, Kind::Reg);
    let mut pieces = Pieces {
        replay,
        piece: 0,
        shuffled,
    };
    repeat_all(rt, alloc, "all written", count, &mut pieces)
}

/// Measures what the words ask for. None where they ask for nothing of this family.
pub fn answer<R: Clock>(rt: &R, alloc: Global, words: &mut Words<'_>) -> Option<Measured> {
    let order = words.word();
    let count = words.number();
    match order {
        "ordered" => time_writes(rt, alloc, count, false),
        "shuffled" => time_writes(rt, alloc, count, true),
        _ => None,
    }
}
