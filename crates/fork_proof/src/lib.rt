//! Fork proofs: bytes by which anybody may tell that the owner of a log signed two histories of it.
//!
//! Layer: over `log_records`, whose heads and records are read, `hss_keys` and `log_heads`, which check signatures, and
//! `fork_model`, which says what is found; below whoever makes, shows and checks proofs.
//!
//! For the layers above:
//! - [`check`] says which fork the bytes show, or which test fails first (`specs/Checks.antt`).
//! - [`find`] gives the proof of the first two heads that some blocks show as forked (`find_fork` of `fork_model`).
//! - [`forks_are_forks`] has the laws (`specs/Laws.antt`). Of what is shown: no history of the log up to one of the heads
//!   begins a history up to the other, unless two different blocks share a name. Bytes are of one proof. And a proof of what
//!   is shown is refused only because memory ran out.
//! - [`found_forks_are_shown`] has those of what is found: it shows a fork, and its check fails only because memory ran out.
//!   Where no names collide, it is the proof of the first two heads that are shown as forked (`specs/Firsts.antt`), and
//!   nothing is found only where no two are.
//!
//! A citation of a log by somebody else is no part of a proof: it says nothing about the log's owner.
//!
//! Definitions: `specs/Forms.antt` has the parts of a proof and when blocks lead from one record down to another; its bytes
//! are those of `fork_model`. Only the functions inside use `specs/Reading`, `specs/Places`,
//! `specs/Found` and `specs/Trunks`.
//!
//! Costs: a check reads the bytes once. It verifies two signatures, and hashes and reads each record once; one is
//! dropped before the next is read. Besides one record at a time, only the places of the blocks take memory.
//! [`find`] verifies each head once and hashes each block once. It goes down from each head, at most 1,024 records, and no
//! further where it comes to the record of an earlier head. So of heads that ascend it reads each record once. By the names
//! that it comes to it learns below which number all heads lead to one name of each number. The heads below that number are
//! forked with none, so in a log that isn't forked no two heads are compared. Of the others it goes down once more, and keeps
//! 20 bytes for each name that one leads to; then each two of them take a comparison, until two are forked. Heads of several
//! logs are all compared. For each block its name and its place are kept.
#![tactic(auto)]

pub mod checking;
mod claim;
pub mod fault;
mod finding;
mod form;
mod laws;
mod named;
mod tips;
mod trunk;
mod walked;
mod ways;
mod writing;

pub use checking::{Forked, check};
pub use fault::ProofFault;
pub use finding::find;
pub use laws::{forks_are_forks, found_forks_are_shown};
