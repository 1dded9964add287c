//! Pieces of files.

ghost use Rattle.std.specs.Prelude.{◌↔◌, IsTrue};
ghost use Rattle.snapshot_model.specs.Blocks.{IsPiece};

use block_parts::LONGEST_PIECE;

/// Whether the bytes may be a piece of a file: there are 1 to 8,192.
pub fn is_piece(block: &[u8]) -> bool
    ensures { IsTrue result ↔ IsPiece block.now }
{
    !block.is_empty() && block.len() <= LONGEST_PIECE as usize
}
