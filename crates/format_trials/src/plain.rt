//! The largest closed part by a plain slow program: records are taken that may follow what was taken, again
//! and again, until none is left that may.

use crate::logs::Log;
use crate::records::named;
use crate::text::Text;
use ivy_base::{Key, PubKey};
use log_records::Record;
use version_vectors::{Entry, Vector};
use view_blocks::View;

/// A record, and whether it was taken.
pub struct Plain {
    owner: PubKey,
    own: Entry,
    prev: Key,
    vector: Vector,
    taken: bool,
}

impl Drop for Plain {
    fn drop(self) {
        let Plain {
            owner: _,
            own: _,
            prev: _,
            vector: _,
            taken: _,
        } = self;
    }
}

impl Plain {
    /// The record of that log, which wasn't taken.
    fn of(out: &mut Text, log: &Key, record: &Record) -> Plain {
        Plain {
            owner: record.owner,
            own: Entry {
                log: *log,
                seq: record.seq,
                name: named(out, record),
            },
            prev: record.prev,
            vector: out.vector(record.vector.copy(out.alloc)),
            taken: false,
        }
    }

    /// How far the record knows a log.
    fn reach(&self, log: &Key) -> u32 {
        if *log == self.own.log {
            self.own.seq
        } else {
            self.vector.seq_of(log)
        }
    }

    /// The sum of its number and those of its vector.
    fn weight(&self) -> u64 {
        let mut weight = u64::from(self.own.seq);
        for entry in self.vector.entries() {
            weight = weight.saturating_add(u64::from(entry.seq));
        }
        weight
    }

    /// Whether it knows each log as far as the entries go.
    fn reaches(&self, entries: &[Entry]) -> bool {
        for entry in entries {
            if self.reach(&entry.log) < entry.seq {
                return false;
            }
        }
        true
    }

    /// Whether it knows all that the other one does.
    fn knows(&self, other: &Plain) -> bool {
        self.reach(&other.own.log) >= other.own.seq && self.reaches(other.vector.entries())
    }

    /// Whether the other one is the record that it cites by the entry.
    fn is_caused(&self, entry: &Entry, other: &Plain) -> bool {
        other.taken && other.own == *entry && other.weight() < self.weight() && self.knows(other)
    }

    /// Whether the record that it cites by the entry is among those.
    fn has_cause(&self, entry: &Entry, all: &[Plain]) -> bool {
        for other in all {
            if self.is_caused(entry, other) {
                return true;
            }
        }
        false
    }

    /// Whether each record of a member's that it cites is among those.
    fn has_causes(&self, view: &View, all: &[Plain]) -> bool {
        for entry in self.vector.entries() {
            if view.is_member(&entry.log) && !self.has_cause(entry, all) {
                return false;
            }
        }
        true
    }

    /// Whether it follows the other one.
    fn follows(&self, other: &Plain) -> bool {
        other.taken && other.owner == self.owner && other.own.name == self.prev
    }

    /// Whether it opens its log, or follows one of those.
    fn has_former(&self, all: &[Plain]) -> bool {
        if self.own.seq == 1 {
            return true;
        }
        for other in all {
            if self.follows(other) {
                return true;
            }
        }
        false
    }

    /// Whether it may follow what was taken.
    fn may_follow(&self, view: &View, all: &[Plain]) -> bool {
        self.has_former(all) && self.has_causes(view, all)
    }

    /// Whether it was taken, and is that record.
    fn is(&self, record: &Record) -> bool {
        self.taken && self.owner == record.owner && self.own.seq == record.seq
    }
}

/// Adds the records of a log.
fn add_log(out: &mut Text, all: &mut Vec<Plain>, log: &Log) {
    for record in log.records.iter() {
        let plain = Plain::of(out, &log.key, record);
        out.push(all, plain);
    }
}

/// Takes what may follow, in one pass.
fn pass(view: &View, all: &mut [Plain]) {
    for i in 0..all.len() {
        let known = &all[..];
        if known[i].may_follow(view, known) {
            all[i].taken = true;
        }
    }
}

/// All records of the logs, of which those of the largest closed part are taken.
pub fn plain_part(out: &mut Text, view: &View, logs: &[Log]) -> Vec<Plain> {
    let mut all = Vec::new(out.alloc);
    for log in logs {
        add_log(out, &mut all, log);
    }
    for _pass in 0..all.len() {
        pass(view, all.as_mut_slice());
    }
    all
}

/// How many were taken.
fn count_taken(all: &[Plain]) -> u64 {
    let mut count: u64 = 0;
    for plain in all {
        if plain.taken {
            count = count.saturating_add(1);
        }
    }
    count
}

/// Whether the record was taken.
fn is_taken(all: &[Plain], record: &Record) -> bool {
    for plain in all {
        if plain.is(record) {
            return true;
        }
    }
    false
}

/// Whether the records are those that were taken.
pub fn agrees(all: &[Plain], part: &[Record]) -> bool {
    for record in part {
        if !is_taken(all, record) {
            return false;
        }
    }
    count_taken(all) == part.len() as u64
}
