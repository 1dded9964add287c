//! Times of replaying records on a tree.

use crate::measured::{Measured, Task, repeat_all, since};
use crate::replay::Replay;
use crate::words::Words;
use fs_tree::{ROOT, Tree};
use ivy_base::{Bytes, Key, Kind, Memory, Op};
use std::alloc::Global;
use std::rt::Clock;
use std::time::Instant;

// Numbers that lie far from each other in the order of keys where the counted ones are near.
fn key(number: u32) -> Key {
    let [a, b, c, d] = number.to_be_bytes();
    Key([d, c, 3, 3, 3, 3, 3, 3, 3, 3, 3, 3, 3, 3, 3, 3, a, b, c, d])
}

fn name_of(alloc: Global, number: u32) -> Result<Bytes, Memory> {
    Ok(Bytes::of(format!(in alloc; "entry {number}")?.into_bytes()))
}

/// Makes the directory of that number, and names it in another.
fn make(replay: &mut Replay, dir: Key, number: u32) {
    let ino = key(number);
    replay.make(ino, Kind::Dir);
    match name_of(replay.alloc, number) {
        Ok(name) => {
            replay.apply(Op::Link { dir, name, ino });
        }
        Err(_) => replay.is_whole = false,
    }
}

/// Makes so many directories, in turn in those of the first numbers.
fn create(replay: &mut Replay, count: u32, dirs: u32) {
    let dirs = dirs.max(1);
    for number in 0..dirs {
        make(replay, ROOT, number);
    }
    for n in 0..count {
        make(replay, key(n % dirs), dirs.wrapping_add(n));
    }
}

/// Makes a chain of directories, each named in the one before it, from number 0 on: in the last, of number `depth`, are the
/// two after it, in the first of these is the next, and in that the one after it.
fn chain(replay: &mut Replay, depth: u32) {
    let mut above = ROOT;
    for number in 0..=depth {
        make(replay, above, number);
        above = key(number);
    }
    let first = depth.wrapping_add(1);
    let third = depth.wrapping_add(3);
    make(replay, above, first);
    make(replay, above, depth.wrapping_add(2));
    make(replay, key(first), third);
    make(replay, key(third), depth.wrapping_add(4));
}

/// A chain whose directory of that number is moved to and fro.
struct Moves {
    replay: Replay,
    number: u32,
    dir: Key,
    to_dir: Key,
}

impl Drop for Moves {
    fn drop(self) {
        let Moves {
            replay: _,
            number: _,
            dir: _,
            to_dir: _,
        } = self;
    }
}

impl Moves {
    /// Moves the directory, under that name.
    fn rename(&mut self, name: Bytes, to_name: Bytes) -> bool {
        let dir = self.dir;
        let to_dir = self.to_dir;
        self.dir = to_dir;
        self.to_dir = dir;
        self.replay.apply(Op::Rename {
            dir,
            name,
            to_dir,
            to_name,
        })
    }
}

impl Task for Moves {
    fn turn(&mut self, alloc: Global) -> bool {
        let Ok(name) = name_of(alloc, self.number) else {
            return false;
        };
        match name.copy(alloc) {
            Ok(to_name) => self.rename(name, to_name),
            Err(_) => false,
        }
    }
}

/// Copies of a tree, each dropped before the next one is made.
#[derive(Clone, Copy)]
struct TreeCopies<'a>(&'a Tree);

impl Task for TreeCopies<'_> {
    fn turn(&mut self, alloc: Global) -> bool {
        self.0.copy(alloc).is_ok()
    }
}

/// Makes so many directories, and says how many the first one has.
fn time_create<R: Clock>(rt: &R, alloc: Global, count: u32, dirs: u32) -> Option<Measured> {
    let mut replay = Replay::new(alloc)?;
    let start = Instant::now(rt);
    create(&mut replay, count, dirs);
    let made = replay.tree.subdirs(&key(0));
    replay.whole(since(rt, start, "in the first directory", made))
}

fn time_rename<R: Clock>(rt: &R, alloc: Global, count: u32, depth: u32) -> Option<Measured> {
    let mut replay = Replay::new(alloc)?;
    chain(&mut replay, depth);
    let mut moves = Moves {
        replay,
        number: depth.wrapping_add(3),
        dir: key(depth.wrapping_add(1)),
        to_dir: key(depth.wrapping_add(2)),
    };
    repeat_all(rt, alloc, "all moved", count, &mut moves)
}

fn time_copy<R: Clock>(rt: &R, alloc: Global, count: u32, times: u32) -> Option<Measured> {
    let mut replay = Replay::new(alloc)?;
    create(&mut replay, count, 1);
    let mut copies = TreeCopies(&replay.tree);
    let copied = repeat_all(rt, alloc, "all copied", times, &mut copies);
    replay.whole(copied)
}

/// Measures what the words ask for. None where they ask for nothing of this family, or memory is short.
pub fn answer<R: Clock>(rt: &R, alloc: Global, words: &mut Words<'_>) -> Option<Measured> {
    let what = words.word();
    let count = words.number();
    let size = words.number();
    match what {
        "create" => time_create(rt, alloc, count, size),
        "rename" => time_rename(rt, alloc, count, size),
        "copy" => time_copy(rt, alloc, count, size),
        _ => None,
    }
}
