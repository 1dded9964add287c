//! The list blocks over blocks that are put one after the other.

ghost use Rattle.std.specs.Prelude.{◌≡◌, ◌<◌, ◌≤◌, ℕ, List, [], ◌∷◌, ◌++◌, length, IfOk, OnOk, MatchBool};
ghost use Rattle.log_model.specs.Spelling.{no_name};
ghost use Rattle.snapshot_blocks.specs.Parsed.{listed_of};
ghost use Rattle.snapshot_store.specs.Levels.{Appends, Closes, ClosesRest, Finishes, HasOneList, HasRoom, IsOver, TakesIn, top_listed};

use crate::blocks::Blocks;
use ivy_base::{Key, Memory};
use snapshot_blocks::{Listed, write_list};
use std::alloc::Global;

/// The most names in a list block.
const MOST_NAMES: usize = 512;

/// In place of a name, where there is none.
const NO_NAME: Key = Key([0; 20]);

/// A list of blocks as far as it was put: the names that no list block has yet, level by level. A list block is put as soon
/// as its names are 512, so that each stands after the blocks that it names, and before those of the next one.
pub struct Levels {
    /// The names of items.
    firsts: Vec<Key>,
    /// The names of list blocks of level 1.
    seconds: Vec<Key>,
    /// The names of list blocks of level 2.
    thirds: Vec<Key>,
}

// Written out, so that whatever drops one calls this and isn't proved over all of its parts once more.
impl Drop for Levels {
    fn drop(self) {
        let Levels {
            firsts: _,
            seconds: _,
            thirds: _,
        } = self;
    }
}

impl Levels {
    /// No items. It takes no memory.
    pub fn new(alloc: Global) -> Levels
        ensures { (blocks : List (List ℕ)) → IsOver blocks [] blocks result }
    {
        Levels {
            firsts: Vec::new(alloc),
            seconds: Vec::new(alloc),
            thirds: Vec::new(alloc),
        }
    }

    /// Takes in an item, whose block and those below it were put last. The error is: out of memory.
    pub fn push(&mut self, alloc: Global, blocks: &mut Blocks, item: Key) -> Result<(), Memory>
        requires { HasRoom self.old }
        ensures { OnOk result (TakesIn item self.old blocks.old self.new blocks.new) }
    {
        let Some(first) = append(alloc, blocks, 1, &mut self.firsts, item)? else {
            return Ok(());
        };
        let Some(second) = append(alloc, blocks, 2, &mut self.seconds, first)? else {
            return Ok(());
        };
        self.thirds.push(second)?;
        Ok(())
    }

    /// Puts the list blocks that are left, and gives the list. The error is: out of memory; it also comes where there are more
    /// than 134,217,728 items, for which a list has no room.
    pub fn finish(mut self, alloc: Global, blocks: &mut Blocks) -> Result<Listed, Memory>
        requires { HasRoom self }
        ensures { IfOk result (Finishes self blocks.old blocks.new) }
    {
        close_rest(alloc, blocks, 1, &mut self.firsts, &mut self.seconds)?;
        if self.has_one_list() {
            return Ok(named(1, self.seconds.as_slice()));
        }
        close_rest(alloc, blocks, 2, &mut self.seconds, &mut self.thirds)?;
        if self.thirds.len() <= 1 {
            return Ok(named(2, self.thirds.as_slice()));
        }
        if self.thirds.len() > MOST_NAMES {
            return Err(Memory);
        }
        let top = close(alloc, blocks, 3, &mut self.thirds)?;
        Ok(Listed { level: 3, top })
    }

    // Whether no names wait but that of one list block of level 1, or none.
    fn has_one_list(&self) -> bool
        ensures { MatchBool result (HasOneList self.now) (HasOneList self.now → ⊥) }
    {
        self.thirds.is_empty() && self.seconds.len() <= 1
    }
}

/// Lets the name wait after these, and puts the list block over all once there are 512, of which the name is given.
fn append(
    alloc: Global,
    blocks: &mut Blocks,
    level: u32,
    names: &mut Vec<Key>,
    one: Key,
) -> Result<Option<Key>, Memory>
    requires { length names.old.items < 512 }
    ensures { IfOk result (Appends level (names.old.items ++ one ∷ []) blocks.old names.new.items blocks.new) }
{
    names.push(one)?;
    if names.len() < MOST_NAMES {
        return Ok(None);
    }
    Ok(Some(close(alloc, blocks, level, names)?))
}

/// Puts the list block over names that are left, if any, and lets its name wait a level above.
fn close_rest(
    alloc: Global,
    blocks: &mut Blocks,
    level: u32,
    names: &mut Vec<Key>,
    above: &mut Vec<Key>,
) -> Result<(), Memory>
    requires { length names.old.items ≤ 512 }
    ensures { OnOk result (ClosesRest level names.old.items above.old.items blocks.old above.new.items blocks.new) }
{
    if names.is_empty() {
        return Ok(());
    }
    above.push(close(alloc, blocks, level, names)?)?;
    Ok(())
}

/// Puts the list block of that level over these names, which are taken out, and gives its name.
fn close(
    alloc: Global,
    blocks: &mut Blocks,
    level: u32,
    names: &mut Vec<Key>,
) -> Result<Key, Memory>
    requires { length names.old.items ≤ 512 }
    ensures closed { IfOk result (Closes level names.old.items blocks.old blocks.new) }
    ensures taken { OnOk result (names.new.items ≡ []) }
{
    let block = write_list(alloc, level, names.as_slice())?;
    names.clear();
    let name = blocks.add(block)?;
    Ok(name)
}

/// The empty list.
pub fn nothing() -> Listed
    ensures { listed_of result ≡ record { level = 0; top = no_name } }
{
    Listed {
        level: 0,
        top: NO_NAME,
    }
}

/// The list whose topmost block has this name, of that level, or which is empty.
fn named(level: u32, names: &[Key]) -> Listed
    requires { length names.now ≤ 1 }
    ensures { listed_of result ≡ top_listed level names.now }
{
    match names.first() {
        Some(top) => Listed { level, top: *top },
        None => nothing(),
    }
}
