//! Blocks that were met.

ghost use Rattle.std.specs.Prelude.{◌≡◌, ℕ, List, [], length, set, take, IfOk, OnOk, OnErr};
ghost use Rattle.std.specs.List.{sum_by};
ghost use Rattle.world_model.specs.Steps.{met_by};
ghost use Rattle.world_model.specs.World.{meets};

use dht_ids::Post;
use ivy_base::{Bytes, Memory};
use std::alloc::Global;
use std::collections::BTreeMap;
use std::marker::Model;

/// The blocks that were met, each once, in the order in which they were met, and how many bytes they have in all.
#[derive(Drop)]
pub struct MetBlocks {
    /// Each block with its place: how many were met before it.
    places: BTreeMap<Vec<u8>, usize>,
    bytes: u64,
}

impl Model for MetBlocks {
    ghost use Rattle.std.specs.Prelude.{map};
    ghost use Rattle.session_steps.specs.MetState.{MetState};

    ghost Value = { MetState };

    ghost view = { λ m. record { places = map (λ e. (e.0.items, e.1)) m.places.entries; bytes = m.bytes } };
}

impl MetBlocks {
    ghost use Rattle.session_steps.specs.MetState.{AreMet};

    /// No blocks. It takes no memory.
    pub fn new(alloc: Global) -> MetBlocks
        ensures { AreMet [] result }
    {
        MetBlocks {
            places: BTreeMap::new(alloc),
            bytes: 0,
        }
    }

    /// Meets a block, which is copied where it is new. The error is: out of memory, or 2^64 bytes; nothing is changed then.
    pub fn meet(&mut self, alloc: Global, block: &[u8]) -> Result<(), Memory>
        ensures met { OnOk result ((met : List (List ℕ)) → AreMet met self.old → AreMet (meets met block.now) self.new) }
        ensures unchanged { OnErr result (self.new ≡ self.old) }
    {
        if self.places.contains_key(block) {
            return Ok(());
        }
        let Some(bytes) = self.bytes.checked_add(block.len() as u64) else {
            return Err(Memory);
        };
        let place = self.places.len();
        self.places.insert(block.to_vec(alloc)?, place)?;
        self.bytes = bytes;
        Ok(())
    }

    /// Meets the blocks of these posts. The error is: out of memory, or 2^64 bytes; then the blocks of some first posts are met.
    pub fn meet_all(&mut self, alloc: Global, posts: &[Post]) -> Result<(), Memory>
        ensures met { OnOk result ((met : List (List ℕ)) → AreMet met self.old → AreMet (met_by met posts.now) self.new) }
        ensures some { OnErr result ((count : ℕ) × ((met : List (List ℕ)) → AreMet met self.old → AreMet (met_by met (take count posts.now)) self.new)) }
    {
        'posts: for post in posts {
            self.meet(alloc, post.bytes.as_slice())?;
        }
        Ok(())
    }

    /// How many bytes the blocks have in all.
    pub fn bytes(&self) -> u64
        ensures { (met : List (List ℕ)) → AreMet met self.now → result ≡ sum_by (λ block. length block) met }
    {
        self.bytes
    }

    /// Copies of the blocks, in the order in which they were met. The error is: out of memory.
    pub fn in_order(&self, alloc: Global) -> Result<Vec<Bytes>, Memory>
        ensures { IfOk result (λ blocks. (met : List (List ℕ)) → AreMet met self.now → blocks.items ≡ met) }
    {
        let mut blocks = empty_blocks(alloc, self.places.len())?;
        'places: for (block, place) in self.places.iter() {
            put_at(
                &mut blocks,
                *place,
                Bytes::copy_of(alloc, block.as_slice())?,
            );
        }
        Ok(blocks)
    }
}

/// So many blocks of no bytes. The error is: out of memory.
fn empty_blocks(alloc: Global, count: usize) -> Result<Vec<Bytes>, Memory>
    ensures { IfOk result (λ blocks. length blocks.items ≡ count) }
{
    let mut blocks = Vec::with_capacity(alloc, count)?;
    'slots: for _ in 0..count {
        blocks.push(Bytes::of(Vec::new(alloc)))?;
    }
    Ok(blocks)
}

/// Puts the block in the place of the one that stands there, if there is such a place.
fn put_at(blocks: &mut Vec<Bytes>, place: usize, block: Bytes)
    ensures { blocks.new.items ≡ set blocks.old.items place block }
{
    if place < blocks.len() {
        blocks[place] = block;
    }
}
