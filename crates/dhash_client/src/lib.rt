//! What a client of the ring does to find the owners of a key, to get what they hold under it and to put it there: four
//! machines, each of which says whom to ask next and is told what was answered. Whatever carries asks drives them, so
//! they have no transport of their own.
//!
//! Layer: over `dht_ids`, `ring_model` and `dhash_model`, whose definitions the contracts cite; below whatever drives the
//! machines.
//! For the layers above: the asks and answers of a driven [`Lookup`] are a look-up of the definition in `ring_model`
//! (`specs/Lookup.antt`), so that the laws of look-ups hold of it. Each node is asked at most once and at most 512 asks are
//! made, whatever is answered. The trail of a driven [`GetBlock`], [`GetHead`] or [`PutPost`], which puts content blocks and
//! heads, is a look-up and then a get or a put of the definition (`ring_model`'s `specs/Gets.antt`), which ends with the
//! machine's result; an owner is asked at most once, and an answer of another form than the ask's is silence.
//! `proofs/Driven.antt` and `proofs/DrivenGets.antt` have what a driver cites. Definitions: what a get and a put are over a
//! whole trail is said by `dhash_model`. The machines are defined here: `specs/Machine.antt` (of look-ups),
//! `specs/Execution.antt` (what gets and puts share), `specs/GetBlock.antt`, `specs/GetHead.antt` and `specs/Puts.antt`.
//! Costs: a get hashes each block that an owner gives once and moves its bytes out, and a get of a head judges equal heads that
//! come one after the other once; a put copies its bytes for each ask of an owner, since an ask owns its bytes.
#![tactic(auto)]

mod execution;
mod get_block;
mod get_head;
mod lookup;
mod put;
mod remembering;
mod round;

pub use dhash_model::Miss;
pub use dht_ids::Want;
pub use get_block::GetBlock;
pub use get_head::GetHead;
pub use lookup::Lookup;
pub use put::PutPost;
