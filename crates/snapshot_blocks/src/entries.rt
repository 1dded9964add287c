//! Blocks of entries of a directory.

ghost use Rattle.std.specs.Prelude.{◌≡◌, ◌≤◌, ◌++◌, length, IfOk, IfErr, OnOk, OnErr, MatchBool};
ghost use Rattle.std.specs.List.{AllByRecursion, flat_map};
ghost use Rattle.wire_model.specs.Xdr.{array, AreSoMany};
ghost use Rattle.wire_model.specs.OneReading.{IsFront, HasNoFront};
ghost use Rattle.snapshot_model.specs.Blocks.{AreEntries, Ascend, IsEntry, Says, entries_block, entry_bytes, most_entries};
ghost use Rattle.snapshot_blocks.specs.Parsed.{entries_of, entry_of};
ghost use Rattle.snapshot_blocks.specs.Parts.{AreSomeEntries};
ghost use Rattle.snapshot_blocks.specs.Refusals.{Refuses, RefusesFront};

use block_parts::{
    BlockFault, Malformed, opaque_len, put_constant, put_key, read_constant, read_key, read_name,
};
use ivy_base::{Bytes, Key, Memory};
use std::alloc::Global;
use xdr_codec::{XdrRead, XdrWrite};

/// What a block of entries begins with.
const MAGIC: [u8; 4] = *b"IVE1";

/// The most entries of a block.
pub const MOST_ENTRIES: u32 = 32;

/// An entry of a directory.
#[derive(Clone, Copy)]
pub struct Entry<'a> {
    /// The name.
    pub name: &'a [u8],
    /// The number of the inode that has it.
    pub number: Key,
}

/// The entries of a directory that a block has: 1 to 32, ascending by the bytes of their names.
///
/// `Malformed` comes exactly where the block is no such one, and `Memory` means out of memory.
pub fn read_entries(alloc: Global, block: &[u8]) -> Result<Vec<Entry<'_>>, BlockFault>
    ensures ok { IfOk result (λ es. Says AreEntries entries_block block.now (entries_of es.items)) }
    ensures err { IfErr result (Refuses AreEntries entries_block block.now) }
{
    let mut reader = XdrRead::new(block);
    let entries = read_some(alloc, &mut reader)?;
    reader.finish()?;
    if !ascend(entries.as_slice()) {
        return Err(BlockFault::Malformed);
    }
    Ok(entries)
}

/// 1 to 32 entries in any order, after the tag and their count.
fn read_some<'a>(alloc: Global, reader: &mut XdrRead<'a>) -> Result<Vec<Entry<'a>>, BlockFault>
    ensures ok { IfOk result (λ es. IsFront AreSomeEntries entries_block reader.old (entries_of es.items) reader.new) }
    ensures err { IfErr result (RefusesFront AreSomeEntries entries_block reader.old) }
{
    read_constant(reader, &MAGIC)?;
    let count = reader.u32()?;
    if count == 0 || count > MOST_ENTRIES {
        return Err(BlockFault::Malformed);
    }
    let entries = read_each(alloc, reader, count)?;
    Ok(entries)
}

/// So many entries.
fn read_each<'a>(
    alloc: Global,
    reader: &mut XdrRead<'a>,
    count: u32,
) -> Result<Vec<Entry<'a>>, BlockFault>
    requires { count ≤ most_entries }
    ensures ok { IfOk result (λ es. IsFront (AreSoMany IsEntry count) (flat_map entry_bytes) reader.old (entries_of es.items) reader.new) }
    ensures err { IfErr result (RefusesFront (AreSoMany IsEntry count) (flat_map entry_bytes) reader.old) }
{
    let mut entries = Vec::with_capacity(alloc, count as usize)?;
    'entries: for _n in 0..count {
        entries.push(read_entry(reader)?)?;
    }
    Ok(entries)
}

/// An entry: the name and the number.
fn read_entry<'a>(reader: &mut XdrRead<'a>) -> Result<Entry<'a>, Malformed>
    ensures ok { IfOk result (λ e. IsFront IsEntry entry_bytes reader.old (entry_of e) reader.new) }
    ensures err { OnErr result (HasNoFront IsEntry entry_bytes reader.old) }
{
    let name = read_name(reader)?;
    let number = read_key(reader)?;
    Ok(Entry { name, number })
}

/// Whether the names ascend strictly by their bytes.
fn ascend(entries: &[Entry<'_>]) -> bool
    ensures { MatchBool result (Ascend (entries_of entries.now)) (Ascend (entries_of entries.now) → ⊥) }
{
    entries.is_sorted_by(|a, b| a.name.cmp(b.name).is_lt())
}

/// The block of these entries. The error is: out of memory; it also comes where a name has 2^32 bytes or more.
pub fn write_entries(alloc: Global, entries: &[Entry<'_>]) -> Result<Bytes, Memory>
    requires { length entries.now ≤ most_entries }
    ensures { IfOk result (λ block. block ≡ entries_block (entries_of entries.now)) }
{
    let mut out = XdrWrite::new(alloc);
    out.reserve(8)?;
    put_constant(&mut out, &MAGIC);
    out.put_u32(entries.len() as u32);
    put_entries(&mut out, entries)?;
    Ok(out.into_bytes())
}

/// Appends the entries. After the error, which is that of [`write_entries`], some of them may be there.
fn put_entries(out: &mut XdrWrite, entries: &[Entry<'_>]) -> Result<(), Memory>
    ensures { OnOk result (out.new.written ≡ out.old.written ++ flat_map entry_bytes (entries_of entries.now)) }
{
    for entry in entries {
        put_entry(out, entry)?;
    }
    Ok(())
}

/// Appends an entry. The error is that of [`write_entries`].
fn put_entry(out: &mut XdrWrite, entry: &Entry<'_>) -> Result<(), Memory>
    ensures { OnOk result (out.new.written ≡ out.old.written ++ entry_bytes (entry_of entry.now)) }
{
    let Some(name_len) = opaque_len(entry.name) else {
        return Err(Memory);
    };
    out.reserve(name_len + 20)?;
    out.put_opaque(entry.name);
    put_key(out, &entry.number);
    Ok(())
}
