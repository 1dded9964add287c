//! Which two heads of one log a list of blocks shows as forked, and the bytes of the proof: definitions.
//!
//! Layer: definitions, over the spellings of `wire_model`, the records and heads of `log_model` and the judged heads of
//! `dhash_model`; below the code that finds and checks proofs, and below the worlds of scripts. No code.
//!
//! For the layers above:
//! - `specs/Bytes.antt` has the bytes of a proof.
//! - `specs/Before.antt` says when a function tells of blocks whose record they are. Each two such functions agree,
//!   since a block is one record of an owner's.
//! - `specs/Finding.antt` has `find_fork`: the proof of the first two heads that the blocks show as forked.
#![tactic(auto)]
