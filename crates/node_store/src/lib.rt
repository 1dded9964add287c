//! The blocks that a node of the ring holds.
//!
//! Layer: over `dht_ids`, whose faults, posts and judges it speaks of, and `dhash_model`, which says what a store is;
//! below whatever answers gets and puts.
//! For the layers above: contracts see a [`Store`] as its blocks by their keys, in the order of the keys, each with its kind and
//! its bytes (`specs/Stores.antt` there and here). [`Store::put_block`] takes bytes under their SHA-1, [`Store::put_known`]
//! likewise without hashing what is known to have that name, and [`Store::put_head`] those that a judge takes and that are newer
//! than the head that is held; each refusal comes exactly where the definitions name its cause, and changes nothing, as running
//! out of memory doesn't. No store has more than 2^28 bytes. [`Store::spoil`] is the damage that a script may do.
//!
//! Costs: each question or change takes the logarithm of the number of blocks in comparisons of keys. A put also hashes
//! or judges the bytes once and copies them once, and judges the head that is held under the key, where it has
//! other bytes. The number of bytes held is kept.
#![tactic(auto)]

mod fault;
mod kept;
mod store;

pub use dhash_model::BlockKind;
pub use fault::PutFault;
pub use store::Store;
