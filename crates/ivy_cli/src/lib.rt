//! The words of the command line, and what they ask for.
//!
//! Layer: the top of the library, over `ivy_play`, `ivy_crowd`, `ivy_service` and `ivy_io`. The program above
//! hands over its words, its source and its sink, and a clock, ports and keepers.
//!
//! For the program: [`run`] does what the words ask for (`Does` in `specs/Runs.antt`; which words ask for
//! what is in `specs/Words.antt`). It is one call for each form.
//! - `play`: the script of the source is played, with all that `play` promises (`IsPlay`).
//! - `load SEED CALLS`: the generated script is played in memory, and a summary of what it shows is written
//!   ([`load`]; `specs/Loads.antt`). If the script isn't played to its line `end`, nothing is written, and
//!   the status is that of its play.
//! - `crowd T CALLS`: threads of one participant create files over a live ring, and four lines of what they
//!   came to are written (`IsCrowd` in `specs/Crowds.antt`). Status 0 comes only where all four were written,
//!   of a tally with `HasCome` of `ivy_crowd`. Status 5 comes only where the sink's count of faults rose.
//! - `serve PORT NAME ID SEED SETS`: the participant of the script's line `log NAME ID SEED SETS` is served on
//!   the port. Its key grows, and signed nothing before. All that `serve` of `ivy_service` promises is handed
//!   on (`Goes`, with the key that the words name).
//! - `fork`: the fork proof that the source has in hexadecimal digits is checked, and the log that it shows with
//!   two histories is written, or `no proof` ([`fork`]; `IsFork` in `specs/Forks.antt`). Status 0 comes only for
//!   one line of digits (`specs/ProofLines.antt`), and 3 only for any other input. Status 4 comes only where the
//!   source's count of faults rose, and 5 only where the sink's did.
//! - Any other words: the status is 2, exactly where no form fits. Then the usage line was written, or the
//!   sink's count of faults rose. If memory ran out for that line, the status is 6.
//!
//! What a form doesn't use stays as it was, which `Does` says form by form: the source is read by `play` and
//! `fork` alone, the clock is asked by `crowd` and `serve`, and the ports and the keepers are used by `serve` alone.
//!
//! `crowd` and `serve` start threads and wait for them. So no clause says that [`run`] returns: its contract is of a
//! call that does. What it calls for `play`, `load` and `fork` has no bound that would let it wait. Reading the
//! words takes memory for the form `serve` alone, and so does growing its key. If it runs out there, the status is 6
//! and nothing outside was touched.
//!
//! Within:
//! - [`generate`] gives exactly the script of a seed and a number of calls. The definition says it line by
//!   line (`specs/Generator.antt`).
//! - [`summary`] gives exactly the summary of a text (`specs/Summary.antt`): the statuses of the replies that
//!   its lines show, ascending, each with its count, and the text's SHA-1.
//! - The only error of both is running out of memory.
//! - [`lines_show_statuses`] is the law that says which status of RPC's replies such a status is.
//! - [`forks_are_judged_alike`] says that what `fork` tells is determined by its input, and
//!   [`written_digits_are_read`] that the digits of some bytes are read as these bytes (`specs/ForkLaws.antt`).
//! - `proofs/Examples.antt` computes scripts and summaries from the definitions; other programs made the same
//!   ones.
//!
//! Costs: a script has at most 53 bytes for each call. A summary reads the first 62 bytes of each line. It
//! goes over the statuses once more for each different one, of which NFS has 29. The key of a service grows
//! before its keeper is asked for: a tree for each set. `fork` holds all digits of its input,
//! and the bytes that they are.
#![tactic(auto)]

mod crowding;
mod draws;
mod forking;
mod laws;
mod loading;
mod memory;
mod proof_line;
mod running;
mod script;
mod serving;
mod statuses;
mod summing;
mod words;

pub use forking::fork;
pub use laws::{forks_are_judged_alike, lines_show_statuses, written_digits_are_read};
pub use loading::load;
pub use running::run;
pub use script::generate;
pub use summing::summary;
pub use words::{Asked, Participant};
