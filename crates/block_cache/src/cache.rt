ghost use Rattle.std.specs.Prelude.{◌≡◌, [], MatchBool, IfOk, IfSome, option_copied};
ghost use Rattle.std.specs.Borrow.{sem};
ghost use Rattle.ivy_base.specs.Naming.{name};
ghost use Rattle.dhash_model.specs.Cache.{block_of, moved_to_front, kept};
ghost use Rattle.block_cache.specs.Blocks.{IsCache};
ghost use Rattle.block_cache.specs.Ends.{EndsAs};

use ivy_base::{Bytes, Key, Memory};
use lru::LruCache;
use std::alloc::Global;
use std::marker::Model;
use std::num::NonZeroUsize;

/// The most blocks that a cache holds.
const MOST_BLOCKS: usize = 256;

/// Content blocks by their names, at most 256. Contracts see it as the list of pairs of a key and the block's bytes,
/// the most recently used first.
#[derive(Drop)]
pub struct BlockCache {
    blocks: LruCache<[u8; 20], Bytes>,
}

impl Model for BlockCache {
    ghost use Rattle.std.specs.Prelude.{◌≡◌, List, ℕ, map};
    ghost use Rattle.ivy_base.specs.declared.key.Key.{Key};

    ghost Value = { List (Key × List ℕ) };

    ghost use Rattle.block_cache.specs.Blocks.{IsCache, pair_of};

    ghost view = { λ c. map pair_of c.blocks.entries };

    ghost invariant = { λ c. (c.blocks.cap ≡ 256) × IsCache (map pair_of c.blocks.entries) };
}

impl BlockCache {
    /// A cache with no block, with room for the keys of 256. The error is: out of memory.
    pub fn new(alloc: Global) -> Result<BlockCache, Memory>
        ensures { IfOk result (λ cache. cache ≡ []) }
    {
        let Some(capacity) = NonZeroUsize::new(MOST_BLOCKS) else {
            unreachable!()
        };
        Ok(BlockCache {
            blocks: LruCache::new(alloc, capacity)?,
        })
    }

    /// The bytes of the block of that name, where it is held. It is then the most recently used.
    pub fn find(&mut self, key: &Key) -> Option<&[u8]>
        ensures found { option_copied result ≡ block_of key.now self.old }
        ensures named { IfSome result (λ block. key.now ≡ name block.now) }
        ensures valid { IsCache self.old }
        ensures* moved { sem 𝓛 (EndsAs self.entry (moved_to_front key.now self.old)) }
    {
        let block = self.blocks.get(&key.0)?;
        Some(block.as_slice())
    }

    /// The bytes of the block of that name, where it is held. What was used most recently stays so.
    pub fn peek(&self, key: &Key) -> Option<&[u8]>
        ensures found { option_copied result ≡ block_of key.now self.now }
        ensures named { IfSome result (λ block. key.now ≡ name block.now) }
    {
        let block = self.blocks.peek(&key.0)?;
        Some(block.as_slice())
    }

    /// Keeps a block under its name, as the most recently used. Where 256 others are held, the least recently used one
    /// goes. False means out of memory, and then nothing has changed.
    pub fn keep(&mut self, key: Key, bytes: Bytes) -> bool
        requires { key ≡ name bytes }
        ensures kept { MatchBool result (self.new ≡ kept key bytes self.old) (self.new ≡ self.old) }
        ensures valid { IsCache self.new }
    {
        self.blocks.put(key.0, bytes).is_ok()
    }
}
