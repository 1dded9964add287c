//! One-time signatures and signature trees of RFC 8554 (LM-OTS and LMS), and up to three levels of them (HSS): parameters,
//! keys, and what it means that a signature is accepted.
//!
//! Layer: definitions alone, over the kit's `sha2`; a saved key is spelled by `wire_model`, and a signer is a `Signing`
//! of `log_model`. The profile has the widths 4 and 8 and the heights 5 and
//! 10, all over SHA-256 with digests of 32 bytes.
//! For the layers above: `specs/Signatures.antt` says by `Accepts` when a signature is accepted, which is the
//! recomputation of the root and knows nothing of a tree, and by `signature_of` what a tree signs;
//! `proofs/Acceptance.antt` proves that each such signature is accepted. `specs/Reading.antt` says by `verdict` which
//! fault counts, and `proofs/Readings.antt` proves that its yes and `Accepts` are one.
//! Definitions: `specs/Parameters.antt` (tables), `specs/OneTime.antt` (chains and checksum), `specs/Nodes.antt` (the
//! tree), `specs/Signatures.antt`, `specs/Reading.antt`; of several levels `specs/Levels.antt` (acceptance), `specs/Signer.antt`
//! and `specs/Saved.antt`. `proofs/Tables.antt` derives the tables from the formulas.
#![tactic(auto)]

mod keys;
mod set;

pub use keys::{PrivateKey, PublicKey};
pub use set::{Height, LmsFault, Set, Width};
