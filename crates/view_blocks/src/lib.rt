//! Views: whose logs make up the file system, as values and as blocks (Ivy, section 4).
//!
//! Layer: a format above `xdr_codec`, `block_parts` and `log_model`, whose view (`specs/View.antt` there) contracts see.
//! For the layers above: [`View::make`] and [`View::read`] give a view exactly where one may be made, and else the
//! first test that fails; [`View::write`] is its block, [`View::name`] the block's name, which is kept, and
//! [`View::is_member`] answers by head keys, which are kept too. [`views_have_blocks`] is the laws: a block is that of
//! one view, and a fault is one.
//!
//! Inside, `form` is the bytes of a block, `owners` a list of keys with their head keys, and `view` the tests.
//! Definitions: `specs/Faults.antt` (the form of a block, and which test fails), `specs/Owners.antt`, `specs/Laws.antt`.
//! Lemmas to cite: `proofs/OneView` (one reading of a block, and which views have one), `proofs/Refusals`.
//!
//! Costs: a view of n keys hashes each key and its block once, when it is made. Reading takes no memory before the
//! form is read and the keys are counted; a question takes a search over at most 16 head keys.
#![tactic(auto)]

pub mod fault;
mod form;
pub mod laws;
mod owners;
pub mod view;

pub use fault::ViewFault;
pub use laws::views_have_blocks;
pub use view::{MOST_FORMER, MOST_MEMBERS, View};
