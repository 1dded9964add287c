//! Version vectors.

ghost use Rattle.std.specs.Prelude.{◌≡◌, ◌+◌, ◌*◌, ◌^◌, ◌<◌, ◌≤◌, [], ◌++◌, ◌↔◌, length, IsTrue, nat_le, IfOk, IfErr, option_map};
ghost use Rattle.std.specs.List.{list_all};
ghost use Rattle.std.specs.FinMap.Entries.{put};
ghost use Rattle.ivy_base.specs.Naming.{key_cmp};
ghost use Rattle.wire_model.specs.Xdr.{array};
ghost use Rattle.wire_model.specs.OneReading.{IsFront};
ghost use Rattle.log_model.specs.Vector.{stamp_at, seq_of, join, Dominates, without_log, weight_of};
ghost use Rattle.log_model.specs.Spelling.{vector_entry};
ghost use Rattle.version_vectors.specs.Vectors.{IsVector, VectorFits};
ghost use Rattle.version_vectors.specs.Entries.{entry_of, stamped, vector_of};
ghost use Rattle.version_vectors.specs.Reading.{ReadFault};

use crate::entry::{ENTRY_BYTES, Entry, check_types, sum_of, write_entries};
use crate::place::{around, place_of, take_all_in};
use crate::reading::read_entries;
use block_parts::BlockFault;
use ivy_base::{Key, Memory};
use std::alloc::Global;
use std::marker::Model;
use xdr_codec::{XdrRead, XdrWrite};

/// Of each log that a writer held, the newest record by number and name (Ivy). Contracts see it as the list of its
/// entries, ascending by log.
///
/// Its entries have keys, and numbers from 1 on that 32 bits hold; each log has one entry at most.
pub struct Vector {
    entries: Vec<Entry>,
}

// Written out, so that whatever drops one calls this and isn't proved over all of its parts once more.
impl Drop for Vector {
    fn drop(self) {
        let Vector { entries: _ } = self;
    }
}

impl Model for Vector {
    ghost use Rattle.std.specs.Prelude.{List};
    ghost use Rattle.ivy_base.specs.declared.key.Key.{Key};
    ghost use Rattle.log_model.specs.Vector.{Stamp};

    ghost Value = { List (Key × Stamp) };

    ghost use Rattle.version_vectors.specs.Entries.{vector_of};
    ghost use Rattle.version_vectors.specs.Vectors.{IsVector};

    ghost view = { λ v. vector_of v.entries.items };

    ghost invariant = { λ v. IsVector (vector_of v.entries.items) };
}

impl Vector {
    /// The vector of no log. It takes no memory.
    pub fn empty(alloc: Global) -> Vector
        ensures { result ≡ [] }
    {
        Vector {
            entries: Vec::new(alloc),
        }
    }

    /// The log's entry, where the vector has one.
    pub fn get(&self, log: &Key) -> Option<Entry>
        ensures { result ≡ option_map (entry_of log.now) (stamp_at self.now log.now) }
    {
        match place_of(self.entries.as_slice(), log) {
            Ok(i) => Some(self.entries[i]),
            Err(_) => None,
        }
    }

    /// How far the vector goes in the log: the number of its entry, or 0 where it has none.
    pub fn seq_of(&self, log: &Key) -> u32
        ensures { result ≡ seq_of self.now log.now }
    {
        match self.get(log) {
            Some(entry) => entry.seq,
            None => 0,
        }
    }

    /// The vector with that entry in place of its log's, whichever of the two is newer. The error is: out of memory.
    pub fn with(&self, alloc: Global, entry: Entry) -> Result<Vector, Memory>
        requires { 1 ≤ entry.seq }
        ensures { IfOk result (λ v. v ≡ put key_cmp entry.log (stamped entry).1 self.now) }
    {
        check_types(entry);
        let (front, back) = around(self.entries.as_slice(), &entry.log);
        let mut entries = Vec::with_capacity(alloc, self.entries.len() + 1)?;
        entries.extend_from_slice(front)?;
        entries.push(entry)?;
        entries.extend_from_slice(back)?;
        Ok(Vector { entries })
    }

    /// The vector without the log's entry. The error is: out of memory.
    pub fn without(&self, alloc: Global, log: &Key) -> Result<Vector, Memory>
        ensures { IfOk result (λ v. v ≡ without_log log.now self.now) }
    {
        let (front, back) = around(self.entries.as_slice(), log);
        let mut entries = Vec::with_capacity(alloc, self.entries.len())?;
        entries.extend_from_slice(front)?;
        entries.extend_from_slice(back)?;
        Ok(Vector { entries })
    }

    /// Of each log the later of the two vectors' entries: the one of the greater number, and of equal numbers the
    /// one of the least name. The error is: out of memory.
    pub fn join(&self, alloc: Global, other: &Vector) -> Result<Vector, Memory>
        ensures { IfOk result (λ v. v ≡ join self.now other.now) }
    {
        let mut entries = Vec::with_capacity(alloc, self.entries.len() + other.entries.len())?;
        entries.extend_from_slice(self.entries.as_slice())?;
        take_all_in(&mut entries, other.entries.as_slice())?;
        Ok(Vector { entries })
    }

    /// Whether the vector goes at least as far as the other in each log, by the numbers.
    pub fn dominates(&self, other: &Vector) -> bool
        ensures { IsTrue result ↔ Dominates self.now other.now }
    {
        self.reaches(other.entries())
    }

    /// Whether the vector goes as far as each of the entries.
    fn reaches(&self, entries: &[Entry]) -> bool
        ensures { result ≡ list_all (λ e. nat_le e.seq (seq_of self.now e.log)) entries.now }
    {
        entries.iter().all(|e: &Entry| e.seq <= self.seq_of(&e.log))
    }

    /// An equal vector. The error is: out of memory.
    pub fn copy(&self, alloc: Global) -> Result<Vector, Memory>
        ensures { IfOk result (λ v. v ≡ self.now) }
    {
        Ok(Vector {
            entries: self.entries.as_slice().to_vec(alloc)?,
        })
    }

    /// How many entries there are.
    pub fn len(&self) -> usize
        ensures count { result ≡ length self.now }
        ensures fits { IsVector self.now }
    {
        self.entries.len()
    }

    /// The entries, ascending by log.
    pub fn entries(&self) -> &[Entry]
        ensures entries { vector_of result.now ≡ self.now }
        ensures fits { IsVector self.now }
    {
        self.entries.as_slice()
    }

    /// The sum of the entries' numbers.
    pub fn weight(&self) -> u64
        requires { length self.now ≤ 2 ^ 31 }
        ensures { result ≡ weight_of self.now }
    {
        sum_of(self.entries.as_slice())
    }

    /// The vector at the front of the bytes, of at most `most` entries: their count (RFC 4506, section 4.13), and of
    /// each entry the head key, the number and the name, ascending strictly by head key.
    ///
    /// The error is `Malformed` exactly where no such vector stands there, and else running out of memory. Memory is
    /// taken only where bytes for so many entries are left. After an error the reader may stand anywhere.
    pub fn read(alloc: Global, reader: &mut XdrRead<'_>, most: u32) -> Result<Vector, BlockFault>
        ensures ok { IfOk result (λ v. IsFront (VectorFits most) (array vector_entry) reader.old v reader.new) }
        ensures err { IfErr result (ReadFault most reader.old) }
    {
        let Ok(count) = reader.u32() else {
            return Err(BlockFault::Malformed);
        };
        if count > most {
            return Err(BlockFault::Malformed);
        }
        let entries = read_entries(alloc, reader, count)?;
        Ok(Vector { entries })
    }

    /// How many bytes [`Vector::write`] appends: 4, and 44 for each entry.
    pub fn written_len(&self) -> usize
        requires { length self.now < 2 ^ 32 }
        ensures spelled { result ≡ length (array vector_entry self.now) }
        ensures count { result ≡ 4 + 44 * length self.now }
    {
        4 + ENTRY_BYTES * self.entries.len()
    }

    /// Appends the vector as [`Vector::read`] reads it: the count, and of each entry the head key, the number and the
    /// name.
    pub fn write(&self, out: &mut XdrWrite)
        requires few { length self.now < 2 ^ 32 }
        requires room { length (array vector_entry self.now) ≤ out.old.spare }
        ensures written { out.new.written ≡ out.old.written ++ array vector_entry self.now }
        ensures spare { out.new.spare + length (array vector_entry self.now) ≡ out.old.spare }
    {
        out.put_u32(self.entries.len() as u32);
        write_entries(out, self.entries.as_slice());
    }
}
