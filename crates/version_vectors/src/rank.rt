//! The order of records.

ghost use Rattle.std.specs.Prelude.{◌≡◌};
ghost use Rattle.std.specs.Cmp.{IsTotalOrder};
ghost use Rattle.log_model.specs.Rank.{rank_cmp};
ghost use Rattle.version_vectors.specs.Ranks.{IsOrderOfRanks, OnlyEqualRanksTie};

use ivy_base::PubKey;

/// What the order of records goes by: ranks are ordered by weight, then by the owner's public key, and then by number.
#[derive(Clone, Copy, PartialEq, Eq, PartialOrd, Ord)]
pub struct Rank {
    /// The record's number and those of its vector.
    pub weight: u64,
    /// Whose log the record is of.
    pub owner: PubKey,
    /// The record's number in its log.
    pub seq: u32,
}

/// A law and no code: the order of ranks is `rank_cmp`, it is total, and only equal ranks tie.
pub fn ranks_are_ordered()
    ensures order { IsOrderOfRanks ⟦<Rank as Ord>⟧.cmp }
    ensures total { IsTotalOrder rank_cmp }
    ensures exact { OnlyEqualRanksTie }
{}
