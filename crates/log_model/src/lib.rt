//! What a log is, which sets of records are closed, and what a set of records stands for.
//!
//! Layer: definitions, laws and a plain data type, over the words of `ivy_base`, the spellings of `wire_model` and the
//! trees of `tree_model`; no code of the program.
//!
//! For the layers above: a set of records is an ascending list. Its chains, its closed part and its replay
//! are what the definitions say; [`closed_sets`] has the laws that they keep.
//!
//! Definitions: `specs/Record.antt`, `specs/Spelling.antt` (the block of a record, and which records have
//! one), `specs/Vector.antt`, `specs/Rank.antt` (weights, the order of records, fronts), `specs/View.antt`,
//! `specs/ViewKeys.antt`, `specs/Heads.antt` (the parts of a head), `specs/Chain.antt`, `specs/Fetched.antt` (chains that
//! were fetched, and by [`ChainFault`] why one isn't taken), `specs/Closed.antt`, `specs/Part.antt`,
//! `specs/Replay.antt`, `specs/Touching.antt` (what operations touch), `specs/Conflicts.antt` (which records of a set are
//! in conflict). The laws: `specs/Laws.antt`.
#![tactic(auto)]

mod chain_fault;

ghost use Rattle.log_model.specs.Laws.{OpeningIsClosed, ClosedPartIsUnique, PartIsLargest, UnionIsClosed, LaterRecordsApply, FrontOutweighs, RecordsMakeKeys};

pub use chain_fault::ChainFault;

/// Laws of closed sets.
/// - A new log is one. Available records have one largest closed part, and it exists. A union of two closed
///   sets is one.
/// - Records above a set only add to its tree. What is written over the front of a set comes after all of it.
/// - The inodes of their trees have keys as their numbers.
pub fn closed_sets()
    ensures opening { OpeningIsClosed }

    ensures largest { ClosedPartIsUnique }
    ensures exists { PartIsLargest }
    ensures union { UnionIsClosed }

    ensures later { LaterRecordsApply }
    ensures after { FrontOutweighs }

    ensures keys { RecordsMakeKeys }
{}
