//! Hierarchical signatures of RFC 8554 (HSS): one to three levels of signature trees. Each level signs the
//! public key of the next one, and the last level signs the message.
//!
//! Layer: over `lms_core`, which grows and checks one level, `ivy_base`, which has the public keys of
//! participants, and `dht_ids`, which says why nothing was signed.
//!
//! For the layers above:
//! - [`Hss::verify`] answers yes exactly where RFC 8554 accepts. Otherwise it gives the first fault in
//!   reading order, the key before the signature; `Wrong` comes only after all was read.
//! - Contracts see an [`Hss`] as what it was made from and how many signatures it made. [`Hss::sign`] gives
//!   the next signature of the definitions, byte for byte; it is accepted under [`Hss::owner`], and is
//!   counted.
//! - `Spent` comes exactly where [`Hss::left`] is 0. After an error nothing has changed.
//! - No two signatures of a key use the same leaf, and an upper leaf signs one key alone
//!   ([`no_leaf_signs_twice`]). That no copy of a key signs beside it is the caller's duty.
//! - [`Hss::save`] gives a key's bytes, which are no other key's ([`saved_bytes_are_of_one_signer`]).
//!   [`Hss::load`] gives the key again, or `Malformed` exactly where the bytes are no key's.
//!
//! [`Signs`] is what the owner of a log needs of a key that signs. It says which signature comes next, what
//! the key is then, and that its saved bytes are those of no other key. So a key that is loaded equals the
//! one that was saved, and goes on where that was ([`loads_give_the_saved_key`]).
//! [`signatures_name_their_leaves`] says which leaves each signature of an [`Hss`] then uses, however often
//! it is saved and loaded.
//!
//! Definitions:
//! - `specs/Hss.antt` says by `HssAccepts` when a signature is accepted, level by level over `Accepts` of
//!   `hash_signature_model`.
//! - `hash_signature_model` says by `hss_verdict` (`specs/Levels.antt` there) which fault counts.
//!   `proofs/Acceptance.antt` proves that its yes and `HssAccepts` are one. It also has the signer's side:
//!   how the lower trees are derived, each signature, and the bytes of a saved key.
//! - `specs/Reading.antt` says by `leaves_named` which leaves stand in a signature, `specs/Signer.antt` which
//!   leaves signature n uses, and `specs/Saved.antt` that saved bytes are of one signer.
//! - `specs/Uses.antt` has what a key signs that is saved and loaded.
//! - `specs/Checks.antt` and `specs/SavedReading.antt` serve the functions inside.
//!
//! Costs: nothing allocates in [`Hss::verify`], and nothing is copied but a level's key. A signature is
//! hashed once for each level, the message's first. After a level that is wrong those above are not hashed;
//! where the bytes are refused none is. A key that signs keeps a tree for each level, 64 bytes for each leaf,
//! and the signature of each lower tree's key. A signature costs one leaf of the lowest tree. A tree is grown
//! only where the leaf above it changes.
#![tactic(auto)]

mod laws;
mod save;
mod signer;
mod signs;
mod spelling;
mod trees;
mod verifying;

pub use laws::{loads_give_the_saved_key, no_leaf_signs_twice, signatures_name_their_leaves};
pub use save::saved_bytes_are_of_one_signer;
pub use signer::Hss;
pub use signs::Signs;
