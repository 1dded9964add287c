//! SHA-256 (FIPS 180-4) of four messages at once, each of 55 bytes, which is one block.
//!
//! Layer: over the kit's `sha2`, by whose definition `sha256` the contract is stated; it knows nothing of what is hashed.
//! For the layers above: [`hash_four`] gives the digests of four messages, each of which is a head of 20 bytes
//! ([`Heads`]), three bytes that all four have in common, and a value of 32 bytes ([`Values`]). [`hash_four_each`] takes
//! three bytes of each message's own. Digests are [`Values`] again, so the values of a chain of hashes stay words until
//! [`Values::to_bytes`].
//!
//! Nothing allocates. Each word is a vector with a lane for each message; where it was measured, four messages took less
//! time than two of the kit's hashes (docs/ARCHITECTURE.md, "Measured"). Definitions: `specs/Lanes.antt` says which lane is which list;
//! `proofs/BlockLemmas.antt` has the block of a message, `proofs/LaneLemmas.antt` the lanes.
#![tactic(auto)]

mod block;
mod messages;
mod words;

pub use messages::{Heads, Values, hash_four, hash_four_each};
