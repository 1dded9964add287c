//! Records whose effects depend on those before them.

ghost use Rattle.log_records.specs.Records.{records_of};
ghost use Rattle.replay_engine.specs.Rows.{IsRow};

use crate::inodes::made_by;
use crate::lines::Line;
use crate::records::record;
use fs_tree::ROOT;
use ivy_base::{Bytes, Change, Key, Kind, Moment, Op};
use log_records::Record;

/// How many names there are in the root.
const NAMES: u32 = 5;

/// One of the names in the root.
fn name(line: &mut Line<'_>, number: u32) -> Bytes {
    line.counted("name ", number % NAMES)
}

/// One of the files, or the root where there is none.
fn file(files: &[Key], number: u32) -> Key {
    if files.is_empty() {
        return ROOT;
    }
    files[number as usize % files.len()]
}

/// A change of nothing.
const UNCHANGED: Change = Change {
    mode: None,
    uid: None,
    gid: None,
    size: None,
    atime: None,
    mtime: None,
};

/// What the record of that number does, as that turn comes up.
fn operation(line: &mut Line<'_>, seq: u32, turn: u32, files: &[Key]) -> Op {
    let round = turn / 8;
    match turn % 8 {
        0 => Op::Inode {
            ino: made_by(seq),
            kind: Kind::Reg,
            mode: 0o644,
            uid: turn,
            gid: 100,
            target: Bytes::of(Vec::new(line.alloc)),
        },
        1 => Op::Link {
            dir: ROOT,
            name: name(line, round),
            ino: file(files, round),
        },
        2 => Op::Write {
            ino: file(files, round),
            offset: u64::from(turn % 50),
            bytes: line.counted("turn ", turn),
        },
        3 => Op::SetAttrs {
            ino: ROOT,
            change: Change {
                mode: Some(turn % 4096),
                ..UNCHANGED
            },
        },
        4 => Op::Rename {
            dir: ROOT,
            name: name(line, round),
            to_dir: ROOT,
            to_name: name(line, round / 2),
        },
        5 => Op::Write {
            ino: file(files, turn),
            offset: 3,
            bytes: line.counted("", turn),
        },
        6 => Op::Unlink {
            dir: ROOT,
            name: name(line, turn),
        },
        _ => Op::SetAttrs {
            ino: file(files, turn / 3),
            change: Change {
                size: Some(u64::from(turn % 40)),
                ..UNCHANGED
            },
        },
    }
}

/// The record of that number, which does what the turn says, as a row of its own; where memory is short, that is noted.
pub fn single(line: &mut Line<'_>, seq: u32, turn: u32, files: &[Key]) -> Vec<Record>
    ensures { IsRow (records_of result.items) }
{
    let op = operation(line, seq, turn, files);
    let moment = Moment { sec: turn, nsec: 0 };
    let mut row = Vec::new(line.alloc);
    match record(line.alloc, seq, moment, op) {
        Ok(record) => {
            if row.push(record).is_err() {
                line.fail();
            }
        }
        Err(_) => line.fail(),
    }
    row
}
