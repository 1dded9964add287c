//! Laws of batches, without code that runs.

ghost use Rattle.log_records.specs.BatchLaws.{ChainsBegin, ChainsGoOn};

/// A law and no code: what a chain of a batch is on top of what is held of its log.
///
/// Where nothing is held it is a chain of its log from the opening record on. Over a held chain that ends at the held
/// record, whose edge is known, the two together are one chain, which ends at the head's record.
pub fn chains_go_on()
    ensures begin { ChainsBegin }
    ensures go_on { ChainsGoOn }
{}
