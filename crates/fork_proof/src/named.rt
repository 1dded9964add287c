//! Blocks by their names.

ghost use Rattle.std.specs.Prelude.{◌≡◌, Some, IfOk, OnOk, option_copied, if◌then◌else◌};
ghost use Rattle.std.specs.Map.{lookup};
ghost use Rattle.ivy_base.specs.declared.key.Key.{Key};
ghost use Rattle.ivy_base.specs.Naming.{name as name_by};
ghost use Rattle.tree_model.specs.Tree.{same_key};
ghost use Rattle.fork_model.specs.Finding.{block_named};
ghost use Rattle.fork_proof.specs.Places.{place_of, ArePlaced, had_first};

use ivy_base::{Bytes, Key, Memory, name_of};
use std::alloc::Global;
use std::collections::BTreeMap;
use std::marker::Model;

/// Blocks, which are found by their names. Contracts see the list of the blocks.
#[derive(Drop)]
pub struct NamedBlocks<'a> {
    blocks: &'a [Bytes],
    /// Where in `blocks` the first block of each name stands.
    places: BTreeMap<Key, usize>,
}

impl<'a> Model for NamedBlocks<'a> {
    ghost use Rattle.std.specs.Prelude.{List, ℕ};
    ghost use Rattle.fork_proof.specs.Places.{ArePlaced};

    ghost Value = { List (List ℕ) };

    ghost view = { λ n. n.blocks.now };

    ghost invariant = { λ n. ArePlaced n.blocks.now n.places.entries };
}

impl<'a> NamedBlocks<'a> {
    /// These blocks. Each is hashed once. The error is: out of memory.
    pub fn of(alloc: Global, blocks: &'a [Bytes]) -> Result<NamedBlocks<'a>, Memory>
        ensures { IfOk result (λ named. named ≡ blocks.now) }
    {
        let places = places_of(alloc, blocks)?;
        Ok(NamedBlocks { blocks, places })
    }

    /// The first block of that name.
    pub fn get(&self, name: &Key) -> Option<&'a [u8]>
        ensures { option_copied result ≡ block_named self.now name.now }
    {
        let place = self.places.get(name).copied()?;
        let block = self.blocks.get(place)?;
        Some(block.as_slice())
    }
}

/// Where the first block of each name stands. The error is: out of memory.
fn places_of(alloc: Global, blocks: &[Bytes]) -> Result<BTreeMap<Key, usize>, Memory>
    ensures { IfOk result (λ places. ArePlaced blocks.now places.entries) }
{
    let mut places = BTreeMap::new(alloc);
    'blocks: for (place, block) in blocks.iter().enumerate() {
        note(&mut places, name_of(block.as_slice()), place)?;
    }
    Ok(places)
}

/// Notes the place of a block of that name, where none was noted. The error is: out of memory.
fn note(places: &mut BTreeMap<Key, usize>, name: Key, place: usize) -> Result<(), Memory>
    ensures { OnOk result ((k : Key) → lookup (same_key k) places.new.entries ≡ had_first (lookup (same_key k) places.old.entries) (same_key name k) place) }
{
    if !places.contains_key(&name) {
        places.insert(name, place)?;
    }
    Ok(())
}
