//! Logs as they grow, whose owners are letters.

ghost use Rattle.std.specs.Prelude.{◌≡◌};

use crate::records::named;
use crate::text::Text;
use dht_ids::Judged;
use ivy_base::{Format, Key, Moment, Op, PubKey, head_key};
use log_records::Record;
use std::alloc::Global;
use version_vectors::{Entry, Vector};
use view_blocks::{View, ViewFault};

/// When each record was made.
const MOMENT: Moment = Moment { sec: 5, nsec: 0 };

/// The name of no record.
const UNKNOWN: Key = Key([9; 20]);

/// A log as it grows.
#[derive(Drop)]
pub struct Log {
    /// Whose log it is.
    pub owner: PubKey,
    /// The owner's head key.
    pub key: Key,
    /// The number and the name of the newest record; zeros where there is none.
    pub newest: Judged,
    /// The records, oldest first.
    pub records: Vec<Record>,
}

/// The owner of that letter; owners ascend as letters do.
pub fn owner(letter: u8) -> PubKey {
    PubKey([letter; 60])
}

/// The letters' owners.
fn owners(out: &mut Text, letters: &str) -> Vec<PubKey> {
    let mut owners = Vec::new(out.alloc);
    for letter in letters.as_bytes() {
        out.push(&mut owners, owner(*letter));
    }
    owners
}

/// The view of the members before the dash and the former members after it, where there is one.
pub fn view_of(out: &mut Text, letters: &str) -> Result<View, ViewFault> {
    let (members, former) = letters.split_once('-').unwrap_or((letters, ""));
    let members = owners(out, members);
    let former = owners(out, former);
    View::make(out.alloc, &members, &former)
}

impl Log {
    /// A log with no records.
    pub fn empty(alloc: Global, owner: PubKey) -> Log {
        Log {
            owner,
            key: head_key(&owner),
            newest: Judged {
                seq: 0,
                name: Key([0; 20]),
            },
            records: Vec::new(alloc),
        }
    }

    /// The next record: the first one opens the log, and each other one cancels it.
    fn next(&self, vector: Vector) -> Record {
        let seq = self.newest.seq.saturating_add(1);
        Record {
            owner: self.owner,
            seq,
            prev: self.newest.name,
            vector,
            moment: MOMENT,
            op: if seq == 1 {
                Op::End
            } else {
                Op::Cancel { seq: 1 }
            },
            format: Format::One,
        }
    }

    /// Writes the next record.
    pub fn write(&mut self, out: &mut Text, vector: Vector) {
        let record = self.next(vector);
        self.newest = Judged {
            seq: record.seq,
            name: named(out, &record),
        };
        out.push(&mut self.records, record);
    }

    /// Loses the newest record.
    pub fn lose(&mut self) {
        if let Some(last) = self.records.last() {
            self.newest = Judged {
                seq: last.seq.saturating_sub(1),
                name: last.prev,
            };
        }
        self.records.truncate(self.newest.seq as usize);
    }

    /// The name of the record of that number; there may be none.
    fn name_at(&self, seq: u32) -> Key {
        if seq == self.newest.seq {
            return self.newest.name;
        }
        match self.records.get(seq as usize) {
            Some(next) => next.prev,
            None => UNKNOWN,
        }
    }

    /// What the newest record cites of the other log.
    pub fn cited(&self, log: &Key) -> u32 {
        match self.records.last() {
            Some(newest) => newest.vector.seq_of(log),
            None => 0,
        }
    }
}

/// The entry of the log of that key up to that number, by the name of its record, or of no record.
pub fn entry(logs: &[Log], key: Key, seq: u32, is_known: bool) -> Entry
    ensures { result.seq ≡ seq }
{
    let name = if is_known {
        name_in(logs, &key, seq)
    } else {
        UNKNOWN
    };
    Entry {
        log: key,
        seq,
        name,
    }
}

/// The name of the record of that number in the log of that key; there may be none.
fn name_in(logs: &[Log], key: &Key, seq: u32) -> Key {
    for log in logs {
        if log.key == *key {
            return log.name_at(seq);
        }
    }
    UNKNOWN
}
