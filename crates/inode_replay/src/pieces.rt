//! The pieces, under their numbers.

ghost use Rattle.std.specs.Prelude.{◌≡◌, ◌+◌, ◌^◌, ◌<◌, [], length, take, IfOk, OnOk, OnErr};
ghost use Rattle.inode_replay.specs.Pieces.{pieces_in, overwritten, ChangesOne};

use crate::edits::patched;
use crate::number::PieceNumber;
use ivy_base::Memory;
use shared_map::SharedMap;
use std::alloc::Global;

/// Pieces under their numbers, which copies share.
#[derive(Drop)]
pub struct Pieces {
    map: SharedMap<PieceNumber, Vec<u8>>,
}

impl Pieces {
    /// No piece.
    pub fn new() -> Pieces
        ensures { result.map ≡ [] }
    {
        Pieces {
            map: SharedMap::new(),
        }
    }

    /// The same pieces. The error is that a part of them has as many owners as can be counted.
    pub fn copy(&self) -> Result<Pieces, Memory>
        ensures { IfOk result (λ copy. copy ≡ self.now) }
    {
        Ok(Pieces {
            map: self.map.copy()?,
        })
    }

    /// The bytes of a piece: none where there is no such piece.
    pub fn piece(&self, number: u64) -> &[u8]
        ensures { result.now ≡ pieces_in self.now.map number }
    {
        match self.map.get(&PieceNumber(number)) {
            None => b"".as_slice(),
            Some(piece) => piece.as_slice(),
        }
    }

    /// Replaces a part of a piece, which is copied. The error is: out of memory.
    pub fn write(
        &mut self,
        alloc: Global,
        number: u64,
        start: usize,
        part: &[u8],
    ) -> Result<(), Memory>
        requires { start + length part.now < 2 ^ 63 }
        ensures ok { OnOk result (ChangesOne (pieces_in self.old.map) (pieces_in self.new.map) number (overwritten (pieces_in self.old.map number) start part.now)) }
        ensures err { OnErr result (self.new ≡ self.old) }
    {
        let piece = patched(alloc, self.piece(number), start, part)?;
        self.map.insert(alloc, PieceNumber(number), piece)?;
        Ok(())
    }

    /// Keeps the first bytes of a piece alone, so many. The error is: out of memory.
    pub fn cut(&mut self, alloc: Global, number: u64, kept: usize) -> Result<(), Memory>
        ensures ok { OnOk result (ChangesOne (pieces_in self.old.map) (pieces_in self.new.map) number (take kept (pieces_in self.old.map number))) }
        ensures err { OnErr result (self.new ≡ self.old) }
    {
        if kept == 0 {
            self.map.remove(alloc, &PieceNumber(number))?;
            return Ok(());
        }
        let piece = self.piece(number);
        if kept < piece.len() {
            let piece = piece[..kept].to_vec(alloc)?;
            self.map.insert(alloc, PieceNumber(number), piece)?;
        }
        Ok(())
    }
}
