//! The numbers of pieces, as keys.

ghost use Rattle.std.specs.Prelude.{◌≡◌};

use ivy_base::Memory;
use shared_map::MapKey;
use std::cmp::Ordering;

/// The number of a piece: the number of its first place, over the size of a piece.
#[derive(Clone, Copy, Drop)]
pub struct PieceNumber(pub u64);

impl MapKey for PieceNumber {
    ghost use Rattle.std.proofs.lemmas.Cmp.{on_total};
    ghost use Rattle.std.specs.Cmp.{nat_cmp_total};
    ghost use Rattle.inode_replay.specs.Numbers.{number_cmp};

    ghost order = { number_cmp };

    ghost total = { on_total (λ n. n.0) nat_cmp_total };

    fn compare(&self, other: &PieceNumber) -> Ordering {
        self.0.cmp(&other.0)
    }

    fn share(&self) -> Result<PieceNumber, Memory> {
        Ok(*self)
    }
}
