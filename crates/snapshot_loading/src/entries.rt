//! The entries of a directory.

ghost use Rattle.std.specs.Prelude.{◌≡◌, ◌++◌, map, option_map, IfOk, OnOk};
ghost use Rattle.snapshot_blocks.specs.Parsed.{entries_of};
ghost use Rattle.snapshot_loading.specs.Answers.{AreAllEntries};

use block_parts::BlockFault;
use ivy_base::{Bytes, Key, Memory};
use snapshot_blocks::{Entry, read_entries};
use std::alloc::Global;

/// How many entries a block has, but for the last one of a directory.
const MOST_ENTRIES: usize = snapshot_blocks::MOST_ENTRIES as usize;

/// The entries that these blocks have; none where they aren't blocks of entries, all but the last full. The error is: out of
/// memory.
pub(crate) fn all_entries(
    alloc: Global,
    blocks: &[&[u8]],
) -> Result<Option<Vec<(Bytes, Key)>>, Memory>
    ensures { IfOk result (λ all. AreAllEntries (map (λ b. b.now) blocks.now) (option_map (λ es. es.items) all)) }
{
    let mut all = Vec::new(alloc);
    let mut before = MOST_ENTRIES;
    'each: for block in blocks {
        if before != MOST_ENTRIES {
            return Ok(None);
        }
        let entries = match read_entries(alloc, block) {
            Ok(entries) => entries,
            Err(BlockFault::Malformed) => return Ok(None),
            Err(BlockFault::Memory) => return Err(Memory),
        };
        copy_all(alloc, &mut all, entries.as_slice())?;
        before = entries.len();
    }
    Ok(Some(all))
}

/// Appends copies of the entries. The error is: out of memory.
fn copy_all(alloc: Global, all: &mut Vec<(Bytes, Key)>, entries: &[Entry<'_>]) -> Result<(), Memory>
    ensures { OnOk result (all.new.items ≡ all.old.items ++ entries_of entries.now) }
{
    'each: for entry in entries {
        let name = Bytes::copy_of(alloc, entry.name)?;
        all.push((name, entry.number))?;
    }
    Ok(())
}
