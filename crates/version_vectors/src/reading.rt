//! Reading entries.

ghost use Rattle.std.specs.Prelude.{ℕ, ◌≡◌, ◌^◌, ◌<◌, ◌≤◌, IsTrue, length, IfOk, IfErr, MatchBool};
ghost use Rattle.std.specs.FinMap.Entries.{is_sorted};
ghost use Rattle.ivy_base.specs.Naming.{key_cmp};
ghost use Rattle.version_vectors.specs.Places.{AreBefore};
ghost use Rattle.wire_model.specs.OneReading.{IsFront, ReadsOne};
ghost use Rattle.wire_model.specs.Xdr.{array};
ghost use Rattle.log_model.specs.Spelling.{vector_entry};
ghost use Rattle.version_vectors.specs.Vectors.{EntriesFit, VectorFits};
ghost use Rattle.version_vectors.specs.Entries.{vector_of};
ghost use Rattle.version_vectors.specs.Reading.{entries_bytes, EntriesFault};

use crate::entry::{ENTRY_BYTES, Entry, read_entry};
use block_parts::BlockFault;
use ivy_base::Key;
use std::alloc::Global;
use xdr_codec::XdrRead;

/// So many entries, ascending by log. It takes memory only where bytes for them are left.
pub fn read_entries(
    alloc: Global,
    reader: &mut XdrRead<'_>,
    count: u32,
) -> Result<Vec<Entry>, BlockFault>
    ensures ok { IfOk result (λ es. IsFront (EntriesFit count) entries_bytes reader.old (vector_of es.items) reader.new) }
    ensures err { IfErr result (EntriesFault count reader.old) }
{
    if reader.rest().len() / ENTRY_BYTES < count as usize {
        return Err(BlockFault::Malformed);
    }
    let mut entries = Vec::with_capacity(alloc, count as usize)?;
    'entries: for _n in 0..count {
        let entry = read_entry(reader)?;
        if !is_last(entries.as_slice(), &entry.log) {
            return Err(BlockFault::Malformed);
        }
        entries.push(entry)?;
    }
    Ok(entries)
}

/// Whether the log comes after those of all entries, which ascend.
fn is_last(entries: &[Entry], log: &Key) -> bool
    requires { IsTrue (is_sorted key_cmp (vector_of entries.now)) }
    ensures { MatchBool result (AreBefore log.now (vector_of entries.now)) (AreBefore log.now (vector_of entries.now) → ⊥) }
{
    match entries.last() {
        Some(last) => last.log.cmp(log).is_lt(),
        None => true,
    }
}

/// A law and no code: bytes begin with one vector at most, whatever follows it.
pub fn vectors_read_one_way()
    ensures { (most : ℕ) → most < 2 ^ 32 → ReadsOne (VectorFits most) (array vector_entry) }
{}
