//! How XDR's items (RFC 4506) and RPC's messages (RFC 5531) are spelled.
//!
//! Layer: definitions alone, above `ivy_base`; it has no code that runs. Readers and writers of messages state their contracts in
//! its words: a message is a call where `IsCall` holds of it, its caller is the one of `IsCaller`, and a reply is the bytes of
//! `reply`. That each of these spellings can be read in one way only is the law of [`readings_are_unambiguous`]; its lemmas, for
//! other formats over the same items, are in `proofs/OneReading.antt`, and those of values that are read part by part in
//! `proofs/PartByPart.antt`.
//!
//! Definitions: `specs/Xdr.antt` (items), `specs/Rpc.antt` (messages), `specs/OneReading.antt` (what it means
//! that a spelling has one value), `specs/Parts.antt` (what a reader tells that keeps in mind that a part was missed), `specs/Laws.antt`.
#![tactic(auto)]

ghost use Rattle.wire_model.specs.Laws.{NumbersAreUnambiguous, ItemsAreUnambiguous, CallsAreUnambiguous, CallersAreUnambiguous};

/// A law and no code: what is spelled has one value.
///
/// Of two equal byte sequences that begin with an item each, the items and what follows them are equal. A
/// message is of one call at most, with its whole credential and verifier, and not of another RPC version at
/// the same time; a credential has one caller at most.
pub fn readings_are_unambiguous()
    ensures numbers { NumbersAreUnambiguous }
    ensures items { ItemsAreUnambiguous }
    ensures calls { CallsAreUnambiguous }
    ensures callers { CallersAreUnambiguous }
{}
