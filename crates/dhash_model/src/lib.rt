//! What nodes of the ring keep and take, and what gets and puts of blocks are, ask by ask.
//!
//! Layer: definitions and two plain data types, over `ring_model`, the peers and asks of `dht_ids`, the blocks of
//! `log_model` and the signatures of `hash_signature_model`; below the code of nodes and of clients.
//!
//! A get or a put is a trail of asks and answers: those of a look-up, and then those of the owners that it
//! found. It ends with a result or with a [`Miss`].
//!
//! Definitions, in reading order:
//! - a node: `specs/State.antt` (what it knows of others), `specs/Settled.antt` (in a settled ring),
//!   `specs/Stores.antt` (the blocks that it holds, each of its [`BlockKind`]);
//! - `specs/Signed.antt`: which heads are judged good;
//! - gets and puts: `specs/Execution.antt` (what they share), `specs/GetBlock.antt`, `specs/GetHead.antt`,
//!   `specs/Puts.antt`;
//! - `specs/Cache.antt`: the blocks that a participant keeps.
#![tactic(auto)]

mod kind;
mod miss;

pub use kind::BlockKind;
pub use miss::Miss;
