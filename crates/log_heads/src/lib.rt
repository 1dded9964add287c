//! Signed heads of logs, sealed and judged (Ivy).
//!
//! Layer: over `log_records`, which reads heads, `hss_keys`, which checks their signatures, and `dht_ids`,
//! whose trait of judges [`HssJudge`] implements. Nodes that hold heads and crates that fetch them stand
//! above.
//!
//! For the layers above:
//! - [`HssJudge`] takes exactly the bytes that are a head, under the SHA-1 of its public key, with an
//!   accepted signature. [`signed_heads_are_judged`] is the law that its answer, a function of the key and
//!   the bytes alone, says so.
//! - [`seal`] makes the head that a key of any kind signs. [`sealed_heads_are_judged`] is the law that each
//!   head of such a key of `hss_keys` is taken, with its number and name.
//!
//! Definitions: what a head is and what its signature signs are `IsHeadOf` and `head_message` of `log_model`.
//! When a signature is accepted is `HssAccepts` of `hss_keys`. `specs/Signed.antt` joins them, and has the
//! law; the function is `hss_judged` of `dhash_model`. `specs/Sealed.antt` has the law of sealed heads.
//!
//! Costs: nothing allocates, and nothing is copied but the owner's key and the name. The signature, which
//! takes hundreds to thousands of hashes, is checked only where the key is right, which takes one SHA-1.
#![tactic(auto)]

pub mod judge;
mod laws;
mod sealing;

pub use judge::HssJudge;
pub use laws::signed_heads_are_judged;
pub use sealing::{Head, seal, sealed_heads_are_judged};
