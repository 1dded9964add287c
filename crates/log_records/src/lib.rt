//! Records and heads of logs as blocks, and batches of chains of records that were fetched (Ivy).
//!
//! Layer: below the crates that fetch records, apply them and sign heads; over
//! - `log_model`, which says what a record is and how it is spelled;
//! - `xdr_codec`, `block_parts` and `version_vectors`, whose readers and writers carry the bytes;
//! - `view_blocks`, under whose views chains are tested;
//! - `dht_ids`, whose trait of judges [`PlainJudge`] implements.
//!
//! For the layers above:
//! - [`Record::read`] takes exactly the blocks that are a record of the owner's, of either format, and says
//!   exactly why it takes no other.
//! - [`Record::write`], [`Record::name`] and [`Record::rank`] are what the definitions of these names say,
//!   whatever the record is.
//! - [`Head::read`] takes exactly the blocks that are a head; [`Head::write`] and [`plain_head`] write one.
//!   [`PlainJudge`] takes the heads that nobody signed.
//! - [`blocks_are_unambiguous`] is the law that each block has one value, and that no other value's block begins
//!   with it.
//! - After running out of memory nothing is changed.
//!
//! A [`Batch`] has chains that were fetched over what is held, one of each log at most.
//! - [`Batch::add_chain`] takes a chain exactly if two things hold. Its records keep the rules of logs under
//!   a view, from the held record up to a judged head's. And they are of the history that is held and that
//!   the floor is of. It says which of the two fails.
//! - [`chains_go_on`] is the law that what is held of a log and its chain in the batch are together one
//!   chain.
//! - Where the held record's [`Edge`] isn't handed in, one test is left to the layer above: that the chain's
//!   oldest record knows what the held one knows.
//!
//! [`merge_place`] is how many records of a row that ascends by rank have a smaller rank than another record.
//!
//! Inside, a block is read from left to right by one small function for each part, which keeps in mind that
//! one isn't there.
//! - `parts` is for what operations share and for the tags, `change` and `body` for the nine operations,
//!   `frame` for what stands in front of each operation. `change_writing` and `body_writing` are their counterparts.
//! - The bounds of the parts, and what depends on several (as that a log begins with End), are tested at the
//!   end. `spelled` does that: it decides for any record whether it has a block.
//! - Of a batch, `chain` has the tests of a chain.
//!
//! Definitions: the spellings are those of `log_model`.
//! - `specs/Records.antt`: what a read record is and when each fault comes; `specs/Heads.antt`: what the
//!   plain judge takes; `specs/Laws.antt`: the laws.
//! - `specs/Batches.antt`: what each batch is, and that its chains were added under a view. When a chain is
//!   sound and goes on is said by `log_model` (`specs/Fetched.antt` there).
//! - `specs/BatchLaws.antt`: the laws of batches; `specs/Kept.antt`: how a [`Chain`] is seen;
//!   `specs/Places.antt`: the place of a record.
//! - Only the functions inside use `specs/Parts`, `specs/Shapes`, `specs/Frames`, `specs/Sizes`,
//!   `specs/Reading`, `specs/Spelled` and `specs/Walks`.
//! - For readers of other formats `proofs/OneRecord.antt` and `proofs/OneHead.antt` have that a block can be
//!   read in one way only. For users of batches `proofs/Batches.antt` has how a batch grows, and how an edge
//!   is put in later. `proofs/Standing.antt` has what follows from that a record stands among blocks.
//!
//! Costs: a block is read in one pass, and takes memory once for each field that owns some. It is written
//! with one allocation, and each byte is copied once. [`Batch::add_chain`] hashes each record once. A record
//! doesn't keep its name, so its block is written for that, one at a time; the names take 20 bytes each until
//! the call ends. [`merge_place`] ranks as many records as the logarithm of their number.
#![tactic(auto)]

pub mod batch;
mod batch_laws;
mod body;
mod body_writing;
mod chain;
mod change;
mod change_writing;
pub mod edge;
pub mod fault;
mod frame;
pub mod head;
pub mod judge;
mod laws;
mod parts;
pub mod places;
pub mod record;
pub mod records;
mod spelled;

pub use batch::{Batch, Chain};
pub use batch_laws::chains_go_on;
pub use edge::Edge;
pub use fault::RecordFault;
pub use frame::MOST_CITED;
pub use head::{Head, plain_head};
pub use judge::PlainJudge;
pub use laws::blocks_are_unambiguous;
pub use log_model::ChainFault;
pub use parts::MOST_RECORDS;
pub use places::merge_place;
pub use record::{MOST_WEIGHED, Record};
pub use records::Records;
