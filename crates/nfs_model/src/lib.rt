//! The procedures of NFS version 3 and of MOUNT (RFC 1813): their arguments, their replies, and what each is to
//! answer.
//!
//! Layer: definitions, above `wire_model` (spellings), `tree_model` (the tree) and `log_model` (views); of `xdr_codec` it
//! knows the faults alone. The types
//! of `arguments` and `replies` are the program's own values, and [`ArgsFault`] is why bytes aren't read as one; what they
//! mean is in `specs/`, and the program's functions state their contracts in those words:
//!
//! - bytes are the arguments of a procedure where `AreArguments` holds (`specs/Arguments.antt`); that they are the
//!   arguments of one value alone is the law of [`arguments_are_unambiguous`];
//! - a reading procedure answers `answer`, or `mount_answer`, of the tree (`specs/Reading.antt`, `Pages.antt`);
//! - a changing one (`is_changing`) does what `plan` says, and once its operations stand it answers `finish`
//!   (`specs/Changing.antt`);
//! - `result` is the bytes of a reply, from its status on (`specs/Results.antt`); `IsReplyTo` and `ReplyFits`
//!   (`specs/Replies.antt`) say which replies are a procedure's and have a spelling, and that the spelling is of one of
//!   them alone is the law of [`replies_are_unambiguous`]. That each answer is such a reply is a law of `nfs_laws`.
//!
//! Lemmas for the layers above are in `proofs/`: `OneArguments.antt` and `OneReplies.antt` (spellings),
//! `NameChecks.antt` and `Objects.antt` (names and handles that pass), `FirstCalls.antt` (what a lookup and a new
//! directory are answered).
//!
//! The layouts are RFC 1813's. Which check comes first, which status it gives, and how a page is measured are
//! this project's own.
#![tactic(auto)]

ghost use Rattle.nfs_model.specs.Laws.{ArgumentsReadOne, ArgumentsAreUnambiguous, RepliesReadOne, RepliesAreUnambiguous};

pub mod arguments;
pub mod fault;
pub mod replies;

pub use arguments::{Args, How, SetTime, SetWhat, SpecialNode};
pub use fault::ArgsFault;
pub use replies::{Fattr, Listed, NfsStatus, Page, Reply, Tail, Wcc, WccBefore};

/// A law and no code: the bytes of a procedure's arguments are the spelling of one value, and whatever follows
/// them they begin no other's, for each of the 22 procedures of NFS and the 6 of MOUNT.
pub fn arguments_are_unambiguous()
    ensures fronts { ArgumentsReadOne }
    ensures whole { ArgumentsAreUnambiguous }
{}

/// A law and no code: the bytes of a result, from its status on, are the spelling of one reply alone to the
/// procedure that was called, and whatever follows them they begin no other's.
pub fn replies_are_unambiguous()
    ensures fronts { RepliesReadOne }
    ensures whole { RepliesAreUnambiguous }
{}
