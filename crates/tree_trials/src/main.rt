//! Runs operations of records on trees, and what stands on trees, a step for each line of the standard input. A line `== FAMILY`
//! says of which family the lines after it are; at first it is `trees`. `no answer` stands for a line that is none of its
//! family's, and when out of memory.
//!
//! Of `== trees`: an inode has a number up to 11, the root 0, and a moment is `SECONDS:NANOSECONDS`.
//!
//! - `new`: a tree of the root alone. `keep`: a copy of the tree is kept. `back`: the tree is as the kept one is
//! - `MOMENT OPERATION`: does the operation, and tells which directories' entries it changed (`touched`), that it changed
//!   something else (`changed`), or `nothing`:
//!   `inode NUMBER reg|dir|lnk TARGET` (with mode 644, user 10, group 20), `link DIR NAME NUMBER`, `unlink DIR NAME`,
//!   `rename DIR NAME TO_DIR TO_NAME`, `write NUMBER OFFSET BYTES`, `setattr NUMBER ..` (in this order any of `mode=`, `uid=`,
//!   `gid=`, `size=`, `atime=` and `mtime=`, with a value each), `prepare DIR NAME`, `cancel SEQ`, `end`
//! - `attr NUMBER`: an inode's kind, mode, owners, size and the three times. `names NUMBER`: how many names it has, the
//!   directory of a directory's name, and whether it is live
//! - `list DIR`: a directory's entries in their order. `entry DIR NAME`: the inode of one
//! - `inside NUMBER DIR`: whether an inode is the directory or lies inside it
//! - `read NUMBER OFFSET COUNT`: a file's bytes, `\0` being a zero byte, and `\NUMBER;` a quote, a backslash or what isn't
//!   printed. `target NUMBER`: the text of a link. `stored NUMBER`: how many of a file's bytes were written and not cut away
//! - `many COUNT`: in a tree of its own, so many directories in the root, beside as many names of one file
//! - `generated SEED COUNT`: so many operations that a generator of that seed chooses, on trees of their own; how many had an
//!   effect
//!
//! Each operation is done by `fs_tree`, by `dir_replay` alone and by `plain_tree`, and `they differ` says that these don't
//! answer alike about all inodes afterwards; of bytes the first and the last 64 are compared. Empty lines and those that
//! begin with `#` say what comes. The answers of the stored run follow from the rules of the operations; those to generated ones
//! are of a model of the tree in another language.
//!
//! Of `== maps`: maps and copies of them. Maps are numbered from 0 on, and map 0 is empty at first; a key is the 20 bytes of a
//! number, and a value is a number.
//!
//! - `insert MAP KEY VALUE`, `remove MAP KEY`, `get MAP KEY`: the value that the key stood for, or `none`
//! - `copy MAP`: the number of the copy
//! - `list MAP`: how many entries there are, and each as `KEY=VALUE`
//! - `from MAP KEY COUNT`: so many entries at most, of those from the key on
//!
//! The answers of the stored run are those of sorted dictionaries in another language.
//!
//! Of `== engine`: takes records into a replay engine over the empty tree as they come, and compares its tree with a replay from
//! nothing.
//!
//! - `start`: a new engine
//! - `append N`: so many records, each after all others, by a call each
//! - `row N`: so many records after all others, by one call; 0 is an empty one
//! - `read N`: so many empty calls
//! - `absorb P ..`: by one call, a record for each of these places among those that are held, which ascend; none is an
//!   empty call
//! - `undo`: the last call that stands is taken back
//!
//! Each answer tells how many records were applied and how many are held, and then `agree` where these are in order and the
//! tree shows of every inode what their replay from nothing shows, or else which of that isn't so; no file has more than 64 bytes.
//! Taking a call back must also give the tree that was there before; where none can be taken back, `undo` has no answer. What a
//! record does depends on those before it: files are made, named, renamed, written, cut and unnamed by turns. The counts of the
//! stored run are those of a model in another language.
//!
//! Of `== snapshots`: makes snapshots of trees and loads them again. Inodes have the numbers of one log's records, from 2 on, and
//! 0 is the root.
//!
//! - `new`: a tree of the root alone
//! - an operation as in `== trees`, without a moment: does it, where a record may have it
//! - `fill NUMBER OFFSET COUNT VALUE`: writes so many bytes of that value, by operations of 8,192 bytes at most
//! - `many DIR FIRST COUNT`: makes so many files, and names each by its number
//! - `cover BLOCK`: from now on snapshots cover what that root block says, which is given by hexadecimal digits
//! - `snapshot`: makes a snapshot, and tells how many blocks it has and its root's name
//! - `load`: loads it block by block, and tells what that came to; of a basis the name of the root of a snapshot made again
//! - `stored NUMBER`: how many bytes of a file were written and not cut away, in the tree and in what loading the last snapshot
//!   comes to, where all below the size count as written
//! - `lack`: loads it without each block in turn, and tells how often that came to what; of bases how many gave the same root
//! - `spoil`: the same with the first, the middle and the last byte of each block changed in turn
//! - `forge`: the same, and each such block has its new name, by which those name it that named it before
//!
//! A bare line is an answer to an operation. Empty lines and those that begin with `#` say what comes. The roots' names and the
//! counts of the stored run are those of a program in another language, which spells and reads the blocks by the rules of their
//! formats. How many bytes are stored follows from the rules.
#![tactic(auto)]

mod alike;
mod engine;
mod families;
mod generated;
mod inodes;
mod lines;
mod many;
mod maps;
mod operations;
mod records;
mod snapshots;
mod telling;
mod text;
mod trees;
mod trial;

ghost use Rattle.std.specs.Prelude.{◌≡◌, ◌<◌};

use families::Trials;
use ivy_base::Steps;
use lines::Line;
use std::io;
use std::marker::Brand;
use std::sync::ledger::{Blank, Ledger};

// Writes the answer to a line.
fn answer<L: Ledger>(
    rt: &HostRuntime,
    trials: &mut Trials,
    line: &str,
    steps: &mut Steps<L>,
) -> io::Result<()> {
    let mut line = Line::of(rt.alloc(), line);
    trials.answer(&mut line, steps);
    println!(rt; "{}{}", line.front(), line.told())
}

// Answers each line.
fn answer_all<L: Ledger>(
    rt: &HostRuntime,
    trials: &mut Trials,
    steps: &mut Steps<L>,
) -> io::Result<()> {
    for line in rt.lines(rt.alloc()) {
        answer(rt, trials, line?.as_str(), steps)?;
    }
    Ok(())
}

// Answers each line, with one counter of steps for all.
fn run<L: Ledger>(rt: HostRuntime, blank: Blank) -> io::Result<()>
    requires name { L.name ≡ blank.name }
    requires parts { (L.parts ≡ blank.parts) × (0 < L.parts) }
{
    let mut steps = Steps::<L>::new(blank);
    match Trials::new(rt.alloc()) {
        Ok(mut trials) => answer_all(&rt, &mut trials, &mut steps),
        Err(_) => println!(rt; "no answer"),
    }
}

fn main(rt: HostRuntime) -> io::Result<()> {
    run::<Brand>(rt, Blank::new(1))
}
