//! An engine, and the calls that lines ask for.

ghost use Rattle.std.specs.Prelude.{◌≡◌, length};
ghost use Rattle.log_records.specs.Records.{records_of};
ghost use Rattle.replay_engine.specs.Rows.{IsRow};

use crate::alike::are_alike;
use crate::engine::making::single;
use crate::engine::taking::{are_behind, are_new, put_in};
use crate::inodes::made_by;
use crate::lines::Line;
use fs_tree::{Basis, Tree};
use ivy_base::{Key, Memory, Steps};
use log_records::Record;
use replay_engine::{Engine, replay};
use std::alloc::Global;
use std::sync::ledger::Ledger;
use version_vectors::Vector;

/// How far the number of a record is from that of the one before it, so that others go between them, and there is room for
/// 100,000.
const SPACE: u32 = 10;

/// An engine over the empty tree, and what was given to it.
pub struct Trial {
    engine: Engine,
    /// How many calls can be taken back.
    kept: u32,
    /// How many records were made.
    turn: u32,
    /// The files that records make.
    files: Vec<Key>,
    ghost kept_is: { kept ≡ length engine.before },
}

// Written out, so that what drops a trial calls it and isn't made over all its parts.
impl Drop for Trial {
    fn drop(self) {
        let Trial {
            engine: _,
            kept: _,
            turn: _,
            files: _,
        } = self;
    }
}

/// The records of a call.
#[derive(Clone, Copy)]
enum Call {
    /// So many after all others.
    Behind(u32),
    /// None, wherever they go.
    Empty,
    /// One for each of the places that the line tells.
    Late,
}

/// A number between those of the records at both sides of the place, where there is one.
fn between(line: &mut Line<'_>, records: &[Record], place: usize) -> u32 {
    if place > records.len() {
        line.fail();
        return 0;
    }
    let before = if place == 0 {
        1
    } else {
        records[place - 1].seq
    };
    let after = if place == records.len() {
        before.saturating_add(2 * SPACE)
    } else {
        records[place].seq
    };
    before.saturating_add(after.saturating_sub(before) / 2)
}

/// Whether the records, which are of one owner and cite none, ascend by rank.
fn is_in_order(records: &[Record]) -> bool {
    let mut before = 0u32;
    for record in records {
        if record.seq <= before {
            return false;
        }
        before = record.seq;
    }
    true
}

impl Trial {
    /// With no records. The error is: out of memory.
    pub fn new(alloc: Global) -> Result<Trial, Memory> {
        let tree = Tree::empty(alloc)?;
        let basis = Basis {
            front: Vector::empty(alloc),
            tide: None,
            tree,
        };
        Ok(Trial {
            engine: Engine::over(alloc, basis)?,
            kept: 0,
            turn: 0,
            files: Vec::new(alloc),
        })
    }

    /// Answers a line.
    pub fn answer<L: Ledger>(&mut self, line: &mut Line<'_>, steps: &mut Steps<L>) {
        let word = line.word();
        line.answer.add(": ");
        match word {
            "start" => self.start(line),
            "undo" => self.undo(line),
            _ => self.call(line, word, steps),
        }
        if line.is_good() {
            line.is_repeated = true;
            self.judge(line);
        }
    }

    fn start(&mut self, line: &mut Line<'_>) {
        match Trial::new(line.alloc) {
            Ok(trial) => {
                *self = trial;
                line.answer.add("started");
            }
            Err(_) => line.fail(),
        }
    }

    // The next record, of that number, as a row of its own.
    fn made(&mut self, line: &mut Line<'_>, seq: u32) -> Vec<Record>
        ensures { IsRow (records_of result.items) }
    {
        let row = single(line, seq, self.turn, &self.files);
        if self.turn % 8 == 0 {
            if self.files.push(made_by(seq)).is_err() {
                line.fail();
            }
        }
        self.turn = self.turn.saturating_add(1);
        row
    }

    // A row of so many records after that number: two halves in one.
    fn row_behind(&mut self, line: &mut Line<'_>, last: u32, count: u32) -> Vec<Record>
        ensures { IsRow (records_of result.items) }
    {
        match count {
            0 => Vec::new(line.alloc),
            1 => self.made(line, last.saturating_add(SPACE)),
            _ => {
                let half = count / 2;
                let mut row = self.row_behind(line, last, half);
                let last = last.saturating_add(SPACE.saturating_mul(half));
                let rest = self.row_behind(line, last, count - half);
                put_in(line, &mut row, rest);
                row
            }
        }
    }

    // A row of so many records after all others.
    fn last_ones(&mut self, line: &mut Line<'_>, count: u32) -> Vec<Record>
        ensures { IsRow (records_of result.items) }
    {
        let last = match self.engine.records().last() {
            Some(record) => record.seq,
            None => 1,
        };
        self.row_behind(line, last, count)
    }

    // A record for each of the places that the line tells, as a row.
    fn late_ones(&mut self, line: &mut Line<'_>) -> Vec<Record>
        ensures { IsRow (records_of result.items) }
    {
        let mut row = Vec::new(line.alloc);
        'places: for _n in 0..line.rest.len() {
            if line.rest.is_empty() {
                break;
            }
            let place = line.number() as usize;
            let seq = between(line, self.engine.records(), place);
            let record = self.made(line, seq);
            put_in(line, &mut row, record);
        }
        row
    }

    // Takes records in by one call, and says how many were applied.
    fn take_in<L: Ledger>(&mut self, line: &mut Line<'_>, call: Call, steps: &mut Steps<L>) -> u64 {
        let row = match call {
            Call::Behind(count) => self.last_ones(line, count),
            Call::Empty => Vec::new(line.alloc),
            Call::Late => self.late_ones(line),
        };
        let held = self.engine.records();
        let taken = match call {
            _ if !line.is_good() => Err(Memory),
            Call::Behind(_) if are_behind(held, &row) => self.engine.append(line.alloc, row, steps),
            Call::Empty | Call::Late if are_new(held, &row) => self
                .engine
                .absorb(line.alloc, row, steps),
            _ => Err(Memory),
        };
        match taken {
            Ok(applied) => {
                self.kept = if self.kept == 0 { 1 } else { 2 };
                applied
            }
            Err(_) => {
                line.fail();
                0
            }
        }
    }

    // Takes records in by as many calls as the line says, and tells how many were applied.
    fn call<L: Ledger>(&mut self, line: &mut Line<'_>, word: &str, steps: &mut Steps<L>) {
        let (calls, call) = match word {
            "append" => (line.small_number(), Call::Behind(1)),
            "row" => (1, Call::Behind(line.small_number())),
            "read" => (line.small_number(), Call::Empty),
            "absorb" => (1, Call::Late),
            _ => return line.fail(),
        };
        let mut applied = 0u64;
        for _n in 0..calls {
            applied = applied.saturating_add(self.take_in(line, call, steps));
        }
        line.answer.count("", applied);
        line.answer.add(" applied");
    }

    // Takes the last call back, and tells whether the tree is the one that was there before.
    fn undo(&mut self, line: &mut Line<'_>) {
        if self.kept == 0 {
            return line.fail();
        }
        let Ok(before) = self.engine.tree_before().copy(line.alloc) else {
            return line.fail();
        };
        self.engine.undo();
        self.kept = self.kept.saturating_sub(1);
        let is_before = are_alike(line, self.engine.tree(), &before, &self.files);
        line.answer.add(if is_before {
            "taken back"
        } else {
            "not as before"
        });
    }

    // Tells how many records are held, and whether the tree shows what their replay from nothing does.
    fn judge(&self, line: &mut Line<'_>) {
        let records = self.engine.records();
        line.answer.count(", ", records.len() as u64);
        let Ok(plain) = replay(line.alloc, records) else {
            return line.fail();
        };
        let verdict = if !is_in_order(records) {
            " held, not in order"
        } else if are_alike(line, self.engine.tree(), &plain, &self.files) {
            " held, agree"
        } else {
            " held, not as replayed"
        };
        line.answer.add(verdict);
    }
}
