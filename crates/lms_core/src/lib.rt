//! Signature trees of RFC 8554 (LMS over LM-OTS): a tree that signs messages by its leaves, and the check of a
//! signature.
//!
//! Layer: over `hash_signature_model`, which has the definitions, the kit's `sha2`, which has the hash, and
//! `sha256_lanes`, which has it for four messages at once.
//! For the layers above: [`verify`] answers yes exactly where RFC 8554 accepts, and otherwise the first fault in
//! reading order. A [`Tree`] is seen as its private key; [`Tree::grow`] and [`Tree::grow_joined`] give the same tree,
//! [`Tree::public`] is the key over the root of the whole tree, and what [`Tree::sign_leaf`] gives is the signature of
//! the definitions, byte for byte, and is accepted under that key. That no leaf signs twice is the caller's to see to.
//! For signatures of several levels: [`read_key`] and [`read_signature`] read from the front and give the bytes that
//! are left, [`recompute_root`] is the check of one level, [`lower_id`] and [`lower_seed`] derive the tree below a leaf.
//!
//! Nothing allocates in [`verify`]. Growing hashes the chains of four leaves at a time; signing and checking walk four
//! chains of one leaf at a time (`Walks`). The leaves' keys and the nodes are single hashes. Definitions:
//! `hash_signature_model`'s `specs/`; `specs/Kept.antt` says what a tree keeps, `specs/Fours.antt` what hashes of four
//! leaves or four chains begin with, `specs/Walks.antt` how far chains have gone, and `specs/Readers.antt` what the
//! readers give.
#![tactic(auto)]

mod chains;
mod hashing;
mod leaf;
mod nodes;
mod one_time;
mod reading;
mod signing;
mod tree;
mod verifying;
mod walks;

pub use hash_signature_model::{Height, LmsFault, PrivateKey, PublicKey, Set, Width};
pub use hashing::{lower_id, lower_seed};
pub use reading::{SignatureParts, read_key, read_signature};
pub use tree::Tree;
pub use verifying::{recompute_root, verify};
