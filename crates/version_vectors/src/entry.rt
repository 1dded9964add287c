//! One log of a vector.

ghost use Rattle.std.specs.Prelude.{◌≡◌, ◌+◌, ◌*◌, ◌^◌, ◌<◌, ◌≤◌, ◌++◌, length, if◌then◌else◌, IfOk, OnErr};
ghost use Rattle.log_model.specs.Vector.{later, weight_of};
ghost use Rattle.wire_model.specs.OneReading.{IsFront, HasNoFront};
ghost use Rattle.log_model.specs.Spelling.{IsKey, vector_entry};
ghost use Rattle.version_vectors.specs.Vectors.{EntryFits};
ghost use Rattle.version_vectors.specs.Entries.{stamped, vector_of};
ghost use Rattle.version_vectors.specs.Reading.{entries_bytes};

use block_parts::{Malformed, check_block, put_key, read_key};
use ivy_base::Key;
use std::cmp::Ordering;
use xdr_codec::{XdrRead, XdrWrite};

/// A log, and the newest of its records that is known (Ivy: an entry of a version vector).
#[derive(Clone, Copy, PartialEq, Eq)]
pub struct Entry {
    /// The log's head key.
    pub log: Key,
    /// The record's number in its log, from 1 on.
    pub seq: u32,
    /// The record's name.
    pub name: Key,
}

/// The bytes of an entry.
pub const ENTRY_BYTES: usize = 44;

/// Whether the other entry of the same log is the later one: of the greater number, or of an equal number and the
/// lesser name.
pub fn is_later(held: &Entry, other: &Entry) -> bool
    ensures { later (stamped held.now).1 (stamped other.now).1 ≡ (if result then (stamped other.now).1 else (stamped held.now).1) }
{
    match held.seq.cmp(&other.seq) {
        Ordering::Less => true,
        Ordering::Equal => other.name.cmp(&held.name).is_lt(),
        Ordering::Greater => false,
    }
}

/// What the types say of an entry: its keys have 20 bytes, and its number has four.
pub fn check_types(entry: Entry)
    ensures log { IsKey entry.log }
    ensures seq { entry.seq < 2 ^ 32 }
    ensures name { IsKey entry.name }
{
    check_block(&entry.log.0);
    check_block(&entry.name.0);
}

/// The entry at the front. The error is that the bytes are too few, or the number is 0; then the reader may stand
/// anywhere.
pub fn read_entry(reader: &mut XdrRead<'_>) -> Result<Entry, Malformed>
    ensures ok { IfOk result (λ e. IsFront EntryFits vector_entry reader.old (stamped e) reader.new) }
    ensures err { OnErr result (HasNoFront EntryFits vector_entry reader.old) }
{
    let log = read_key(reader)?;
    let seq = reader.u32()?;
    let name = read_key(reader)?;
    if seq == 0 {
        return Err(Malformed);
    }
    Ok(Entry { log, seq, name })
}

/// The sum of the entries' numbers.
pub fn sum_of(entries: &[Entry]) -> u64
    requires { length entries.now ≤ 2 ^ 31 }
    ensures { result ≡ weight_of (vector_of entries.now) }
{
    let mut sum = 0;
    for entry in entries {
        sum += u64::from(entry.seq);
    }
    sum
}

/// Appends the entries in their order.
pub fn write_entries(out: &mut XdrWrite, entries: &[Entry])
    requires { ENTRY_BYTES * length entries.now ≤ out.old.spare }
    ensures written { out.new.written ≡ out.old.written ++ entries_bytes (vector_of entries.now) }
    ensures spare { out.new.spare + ENTRY_BYTES * length entries.now ≡ out.old.spare }
{
    for entry in entries {
        write_entry(out, entry);
    }
}

/// Appends the entry: the key, the number and the name.
fn write_entry(out: &mut XdrWrite, entry: &Entry)
    requires { ENTRY_BYTES ≤ out.old.spare }
    ensures written { out.new.written ≡ out.old.written ++ vector_entry (stamped entry.now) }
    ensures spare { out.new.spare + ENTRY_BYTES ≡ out.old.spare }
{
    put_key(out, &entry.log);
    out.put_u32(entry.seq);
    put_key(out, &entry.name);
}
