//! The bytes.

ghost use Rattle.std.specs.Prelude.{◌≡◌, ◌+◌, ◌-◌, ◌^◌, ◌<◌, ◌≤◌, [], ◌++◌, length, take, drop, replicate, IfOk, OnOk, OnErr};
ghost use Rattle.inode_replay.specs.Pieces.{Fit, piece_size};

use crate::edits::append_part;
use crate::pieces::Pieces;
use ivy_base::{Bytes, Memory};
use std::alloc::Global;
use std::marker::Model;

// How many places a piece has.
const PIECE_SIZE: u64 = 8192;

/// Bytes. A copy shares its pieces with these, and what is written to one of the two later doesn't reach the other.
///
/// Contracts see the list of them.
pub struct SharedBytes {
    pieces: Pieces,
    size: u64,
}

/// One function, so that whatever drops it calls this and isn't proved over all of its parts once more.
impl Drop for SharedBytes {
    fn drop(self) {
        let SharedBytes { pieces: _, size: _ } = self;
    }
}

impl Model for SharedBytes {
    ghost use Rattle.std.specs.Prelude.{ℕ, List};
    ghost use Rattle.inode_replay.specs.Pieces.{bytes_in, pieces_in, Fit, piece_size};

    ghost Value = { List ℕ };

    ghost view = { λ b. bytes_in piece_size (pieces_in b.pieces.map) b.size };

    ghost invariant = { λ b. Fit piece_size (pieces_in b.pieces.map) b.size };
}

impl SharedBytes {
    /// No bytes.
    pub fn new() -> SharedBytes
        ensures { result ≡ [] }
    {
        SharedBytes {
            pieces: Pieces::new(),
            size: 0,
        }
    }

    /// How many bytes there are.
    pub fn len(&self) -> u64
        ensures { result ≡ length self.now }
    {
        self.size
    }

    /// Equal bytes. It takes no memory: the only error is that a part of them already has as many owners as can be
    /// counted.
    pub fn copy(&self) -> Result<SharedBytes, Memory>
        ensures { IfOk result (λ copy. copy ≡ self.now) }
    {
        Ok(SharedBytes {
            pieces: self.pieces.copy()?,
            size: self.size,
        })
    }

    /// A copy of the slice's bytes. The error is: out of memory.
    pub fn of(alloc: Global, bytes: &[u8]) -> Result<SharedBytes, Memory>
        ensures { IfOk result (λ copy. copy ≡ bytes.now) }
    {
        let mut copy = SharedBytes::new();
        copy.overwrite(alloc, 0, bytes)?;
        Ok(copy)
    }

    /// Replaces the bytes from the offset on by others; where they begin after the end, zeros fill the gap. The error
    /// is: out of memory, and then nothing has changed.
    pub fn overwrite(&mut self, alloc: Global, offset: u64, bytes: &[u8]) -> Result<(), Memory>
        requires { offset + length bytes.now < 2 ^ 64 }
        ensures ok { OnOk result (self.new ≡ take offset self.old ++ replicate (offset - length self.old) 0 ++ bytes.now ++ drop (offset + length bytes.now) self.old) }
        ensures err { OnErr result (self.new ≡ self.old) }
    {
        let mut changed = self.copy()?;
        changed.grow(offset);
        let mut written = 0;
        'pieces: while written < bytes.len() {
            written += changed.write_within(alloc, offset + written as u64, &bytes[written..])?;
        }
        *self = changed;
        Ok(())
    }

    /// Cuts the bytes off after that size, or puts zeros after them up to it. The error is: out of memory, and then
    /// nothing has changed.
    pub fn resize(&mut self, alloc: Global, size: u64) -> Result<(), Memory>
        ensures ok { OnOk result (self.new ≡ take size self.old ++ replicate (size - length self.old) 0) }
        ensures err { OnErr result (self.new ≡ self.old) }
    {
        let mut changed = self.copy()?;
        'pieces: while size < changed.len() {
            changed.cut_within(alloc, size)?;
        }
        changed.grow(size);
        *self = changed;
        Ok(())
    }

    /// The bytes from the offset on, at most so many: fewer where the end comes first, and none at or past the end.
    /// The error is: out of memory.
    pub fn read(&self, alloc: Global, offset: u64, count: u32) -> Result<Bytes, Memory>
        ensures { IfOk result (λ bytes. bytes ≡ take count (drop offset self.now)) }
    {
        let count = self.len().saturating_sub(offset).min(count as u64) as usize;
        let mut bytes = Vec::with_capacity(alloc, count)?;
        let mut read = 0;
        'pieces: while read < count {
            read += self.read_within(offset + read as u64, count - read, &mut bytes)?;
        }
        Ok(Bytes::of(bytes))
    }

    // Puts zeros after the bytes up to that size, if there are fewer.
    fn grow(&mut self, size: u64)
        ensures { self.new ≡ self.old ++ replicate (size - length self.old) 0 }
    {
        if self.size < size {
            self.size = size;
        }
    }

    // Writes the first of the bytes at that place, as many as its piece takes; answers how many those are. The error
    // is: out of memory.
    fn write_within(&mut self, alloc: Global, place: u64, bytes: &[u8]) -> Result<usize, Memory>
        requires some { 0 < length bytes.now }
        requires there { place ≤ length self.old }
        requires fits { place + length bytes.now < 2 ^ 64 }
        ensures count { IfOk result (λ n. (0 < n) × (n ≤ length bytes.now)) }
        ensures written { IfOk result (λ n. self.new ≡ take place self.old ++ take n bytes.now ++ drop (place + n) self.old) }
    {
        let start = (place % PIECE_SIZE) as usize;
        let count = bytes.len().min(PIECE_SIZE as usize - start);
        self.pieces
            .write(alloc, place / PIECE_SIZE, start, &bytes[..count])?;
        self.size = self.size.max(place + count as u64);
        Ok(count)
    }

    // Cuts bytes off the last piece that has places, all that lie after the size; answers how many bytes are left.
    // The error is: out of memory.
    fn cut_within(&mut self, alloc: Global, size: u64) -> Result<u64, Memory>
        requires { size < length self.old }
        ensures left { IfOk result (λ n. (size ≤ n) × (n < length self.old)) }
        ensures cut { IfOk result (λ n. self.new ≡ take n self.old) }
    {
        let number = (self.size - 1) / PIECE_SIZE;
        let start = number * PIECE_SIZE;
        let end = size.max(start);
        self.pieces.cut(alloc, number, (end - start) as usize)?;
        self.size = end;
        Ok(end)
    }

    // Puts the bytes from that place on at the end of the list, as many as its piece has and at most so many; answers
    // how many those are. The error is: out of memory.
    fn read_within(&self, place: u64, most: usize, list: &mut Vec<u8>) -> Result<usize, Memory>
        requires some { 0 < most }
        requires there { place + most ≤ length self.now }
        requires fits { length list.old.items + most < 2 ^ 63 }
        ensures count { IfOk result (λ n. (0 < n) × (n ≤ most)) }
        ensures read { IfOk result (λ n. list.new.items ≡ list.old.items ++ take n (drop place self.now)) }
    {
        let start = (place % PIECE_SIZE) as usize;
        let count = most.min(PIECE_SIZE as usize - start);
        let piece = self.pieces.piece(place / PIECE_SIZE);
        append_part(list, piece, start, count)?;
        Ok(count)
    }
}
