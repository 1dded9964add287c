//! Laws of closed sets.

ghost use Rattle.causal_order.specs.Laws.{FreshIsPlain, FreshPartIsPlain, RanksDiffer, CausesAreBefore, FrontsJoin, BatchesAreFetched};

/// A law and no code.
///
/// Over the empty front the closed sets and closed parts of this crate are those of `log_model`. Two records of one
/// closed set have different ranks, and each cause a smaller one than its effect. The front of the union of two sets
/// is the join of their fronts, where no log has two different records of one number.
pub fn closed_sets_are_lawful()
    ensures fresh { FreshIsPlain }
    ensures parts { FreshPartIsPlain }
    ensures ranks { RanksDiffer }
    ensures causes { CausesAreBefore }
    ensures fronts { FrontsJoin }
{}

/// A law and no code.
///
/// The chains of a batch that were added under a view, are of its members, and don't begin above what is held, are such as
/// [`closed_part`](crate::closed_part) is taken of.
pub fn batches_are_fetched()
    ensures { BatchesAreFetched }
{}
