//! The content blocks that a participant has fetched, so that what was read once is not asked of the ring again.
//!
//! Layer: over `ivy_base`, `dhash_model`, whose definitions of a cache the contracts cite, and the kit's `lru`; below
//! whatever reads blocks.
//! For the layers above: a [`BlockCache`] is the list of its pairs of a key and a block's bytes, the most recently used
//! first. Each key is the name of its block, each key stands once, and there are at most 256 pairs
//! (`IsCache`). [`BlockCache::find`] moves what it finds to the front, and [`BlockCache::keep`] puts a block there.
//! Definitions: `specs/Blocks.antt` (`IsCache`). Lemmas to cite: `proofs/Pairs` (what was kept is found; a cache stays one).
#![tactic(auto)]

mod cache;

pub use cache::BlockCache;
