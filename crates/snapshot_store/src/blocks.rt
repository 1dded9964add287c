//! The blocks that were put, each once.

ghost use Rattle.std.specs.Prelude.{◌≡◌, [], ◌∷◌, ◌++◌, IfOk, OnOk, None, Some, ◌||◌};
ghost use Rattle.std.specs.List.{list_any};
ghost use Rattle.std.specs.Str.{bytes_eq};
ghost use Rattle.ivy_base.specs.Naming.{name};
ghost use Rattle.snapshot_model.specs.Spelling.{with_block};
ghost use Rattle.snapshot_store.specs.Places.{place_of};

use crate::block::Block;
use ivy_base::{Bytes, Key, Memory};
use std::alloc::Global;
use std::collections::BTreeMap;
use std::marker::Model;

/// The blocks that were put, each once, which contracts see as a list in the order in which they were put.
#[derive(Drop)]
pub struct Blocks {
    blocks: Vec<Block>,
    /// Where in `blocks` the first block of each name stands.
    places: BTreeMap<Key, usize>,
}

impl Model for Blocks {
    ghost use Rattle.std.specs.Prelude.{List, ℕ};
    ghost use Rattle.snapshot_store.specs.Places.{ArePlaced};

    ghost Value = { List (List ℕ) };

    ghost view = { λ b. b.blocks.items };

    ghost invariant = { λ b. ArePlaced b.blocks.items b.places.entries };
}

impl Blocks {
    /// No blocks. It takes no memory.
    pub fn new(alloc: Global) -> Blocks
        ensures { result ≡ [] }
    {
        Blocks {
            blocks: Vec::new(alloc),
            places: BTreeMap::new(alloc),
        }
    }

    /// Puts the block of these bytes after the others, where it isn't among them, and gives its name. The error is: out of
    /// memory.
    pub fn add(&mut self, bytes: Bytes) -> Result<Key, Memory>
        ensures blocks { OnOk result (self.new ≡ with_block self.old bytes) }
        ensures named { IfOk result (λ key. key ≡ name bytes) }
    {
        let block = Block::of(bytes);
        let key = block.name();
        match self.place(&key) {
            None => self.add_first(block)?,
            Some(place) => self.add_further(place, block)?,
        }
        Ok(key)
    }

    /// The blocks as a vector, which is not copied.
    pub fn into_vec(self) -> Vec<Block>
        ensures { result.items ≡ self }
    {
        self.blocks
    }

    // Where the first block of that name stands.
    fn place(&self, key: &Key) -> Option<usize>
        ensures { result ≡ place_of key.now self.now }
    {
        self.places.get(key).copied()
    }

    // Puts the first block of that name. Room for it is made before its place is noted, so that nothing has to be undone.
    fn add_first(&mut self, block: Block) -> Result<(), Memory>
        requires { place_of (name block) self.old ≡ None }
        ensures { OnOk result (self.new ≡ with_block self.old block) }
    {
        self.blocks.try_reserve(1)?;
        self.places.insert(block.name(), self.blocks.len())?;
        self.blocks.push(block)?;
        Ok(())
    }

    // Puts a block of whose name the first one stands at that place.
    fn add_further(&mut self, place: usize, block: Block) -> Result<(), Memory>
        requires { place_of (name block) self.old ≡ Some place }
        ensures { OnOk result (self.new ≡ with_block self.old block) }
    {
        if self.stands(place, block.as_slice()) {
            return Ok(());
        }
        self.blocks.push(block)?;
        Ok(())
    }

    // Whether the block, of whose name the first one stands at that place, is among these. It is sought among all only
    // where that is another block.
    fn stands(&self, place: usize, block: &[u8]) -> bool
        requires { place_of (name block.now) self.now ≡ Some place }
        ensures { result ≡ list_any (bytes_eq block.now) self.now }
    {
        self.blocks[place].as_slice() == block || self.is_among(block)
    }

    // Whether the block is among these.
    fn is_among(&self, block: &[u8]) -> bool
        ensures { result ≡ list_any (bytes_eq block.now) self.now }
    {
        self.blocks.iter().any(|other| block == other.as_slice())
    }
}
