//! The operations that lines ask for.

ghost use Rattle.std.specs.Prelude.{◌≤◌, IfSome};
ghost use Rattle.fs_tree.specs.Applicable.{IsApplicable};
ghost use Rattle.tree_model.specs.Tree.{longest_file};

use crate::lines::Line;
use block_parts::LONGEST_FILE;
use ivy_base::{Bytes, Change, Key, Kind, Moment, Op};

/// Makes an inode.
pub fn made(ino: Key, kind: Kind, target: Bytes) -> Op
    ensures { IsApplicable result }
{
    Op::Inode {
        ino,
        kind,
        mode: 0o644,
        uid: 10,
        gid: 20,
        target,
    }
}

fn inode(line: &mut Line<'_>) -> Op
    ensures { IsApplicable result }
{
    let ino = line.inode();
    let kind = line.kind();
    made(ino, kind, line.bytes(LONGEST_FILE))
}

/// Bytes that are written, which end within a file's limit.
fn write(line: &mut Line<'_>) -> Op
    ensures { IsApplicable result }
{
    let ino = line.inode();
    let offset = line.size();
    let bytes = line.bytes(LONGEST_FILE - offset);
    Op::Write { ino, offset, bytes }
}

/// A number in digits of that radix, where the line goes on with that name.
fn number_of(line: &mut Line<'_>, name: &str, radix: u32) -> Option<u32>
    requires low { 2 ≤ radix }
    requires high { radix ≤ 36 }
{
    if line.takes(name) {
        Some(line.digits_until(' ', radix))
    } else {
        None
    }
}

/// A size within a file's limit, where the line goes on with one.
fn size(line: &mut Line<'_>) -> Option<u64>
    ensures { IfSome result (λ size. size ≤ longest_file) }
{
    if line.takes("size=") {
        Some(line.size())
    } else {
        None
    }
}

/// A moment, where the line goes on with that name.
fn moment_of(line: &mut Line<'_>, name: &str) -> Option<Moment> {
    if line.takes(name) {
        Some(line.moment())
    } else {
        None
    }
}

fn set_attributes(line: &mut Line<'_>) -> Op
    ensures { IsApplicable result }
{
    let ino = line.inode();
    let change = Change {
        mode: number_of(line, "mode=", 8),
        uid: number_of(line, "uid=", 10),
        gid: number_of(line, "gid=", 10),
        size: size(line),
        atime: moment_of(line, "atime="),
        mtime: moment_of(line, "mtime="),
    };
    Op::SetAttrs { ino, change }
}

/// The operation that the word and those after it ask for; where they ask for none, that is noted.
pub fn operation(line: &mut Line<'_>, word: &str) -> Op
    ensures { IsApplicable result }
{
    match word {
        "inode" => inode(line),
        "link" => Op::Link {
            dir: line.inode(),
            name: line.name(),
            ino: line.inode(),
        },
        "unlink" => Op::Unlink {
            dir: line.inode(),
            name: line.name(),
        },
        "rename" => Op::Rename {
            dir: line.inode(),
            name: line.name(),
            to_dir: line.inode(),
            to_name: line.name(),
        },
        "write" => write(line),
        "setattr" => set_attributes(line),
        "prepare" => Op::Prepare {
            dir: line.inode(),
            name: line.name(),
            verf: [1; 8],
        },
        "cancel" => Op::Cancel {
            seq: line.small_number(),
        },
        "end" => Op::End,
        _ => {
            line.fail();
            Op::End
        }
    }
}
