//! Laws of the blocks, without code that runs.

ghost use Rattle.log_records.specs.Laws.{RecordsAreUnambiguous, RecordsAreShort, HeadsAreUnambiguous, PlainHeadsAreJudged};

/// A law and no code: what a block is of.
///
/// Of one owner, each block is of one record at most, and no record's block begins another's; likewise each block
/// is one head at most. No record is longer than 12,288 bytes. [`crate::PlainJudge`] takes each head that has an
/// empty signature under its owner's key, and nothing else.
pub fn blocks_are_unambiguous()
    ensures records { RecordsAreUnambiguous }
    ensures short { RecordsAreShort }
    ensures heads { HeadsAreUnambiguous }
    ensures judged { PlainHeadsAreJudged }
{}
