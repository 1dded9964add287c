//! A trial: the tree, its last snapshot, and how each line is answered.

use crate::inodes::{OWNER, made_by};
use crate::lines::Line;
use crate::operations::{made, operation};
use crate::snapshots::growing::Grown;
use crate::snapshots::loading::{End, Wrong, basis, load};
use crate::snapshots::trying::{Change, Loads};
use crate::text::Text;
use fs_tree::Tree;
use ivy_base::{Bytes, Key, Kind, Memory, Op};
use snapshot_store::Made;
use std::alloc::Global;
use view_blocks::View;

/// The most bytes that an operation writes.
const MOST_WRITTEN: u32 = 8192;

/// The number of a record that makes no inode.
const OTHER: u32 = 2;

/// The tree, the view, a root block that says what snapshots cover, and the last snapshot.
pub struct Trial {
    view: View,
    covers: Bytes,
    tree: Grown,
    made: Option<Made>,
}

// Written out, so that what drops a trial calls it and isn't made over all its parts.
impl Drop for Trial {
    fn drop(self) {
        let Trial {
            view: _,
            covers: _,
            tree: _,
            made: _,
        } = self;
    }
}

/// The view whose only member is the owner. The error is: out of memory.
fn only_view(alloc: Global) -> Result<View, Memory> {
    match View::make(alloc, &[OWNER], &[]) {
        Ok(view) => Ok(view),
        Err(_) => Err(Memory),
    }
}

/// So many bytes of that value.
fn filled(line: &mut Line<'_>, size: u32, value: u8) -> Bytes {
    let mut bytes = Vec::new(line.alloc);
    if bytes.resize(size as usize, value).is_err() {
        line.fail();
    }
    Bytes::of(bytes)
}

/// Tells how many bytes of the inode are stored, where the tree has it.
fn tell_stored(text: &mut Text, words: &str, tree: &Tree, ino: &Key) {
    match tree.content(ino) {
        Some(content) => text.count(words, content.stored()),
        None => {
            text.add(words);
            text.add("none");
        }
    }
}

impl Trial {
    /// The root alone. The error is: out of memory.
    pub fn new(alloc: Global) -> Result<Trial, Memory> {
        let view = only_view(alloc)?;
        let tree = Grown::new(alloc)?;
        Ok(Trial {
            view,
            covers: Bytes::of(Vec::new(alloc)),
            tree,
            made: None,
        })
    }

    /// Answers a line.
    pub fn answer(&mut self, line: &mut Line<'_>) {
        line.is_repeated = true;
        line.is_of_log = true;
        if line.is_comment() {
            return;
        }
        match line.word() {
            "new" => self.begin(line),
            "cover" => self.cover(line),
            "fill" => self.fill(line),
            "many" => self.make_many(line),
            "snapshot" => self.snapshot(line),
            "load" => self.load(line),
            "stored" => self.stored(line),
            "lack" => self.load_changed(line, Change::Lack),
            "spoil" => self.load_changed(line, Change::Spoil),
            "forge" => self.load_changed(line, Change::Forge),
            word => self.operate(line, word),
        }
    }

    fn begin(&mut self, line: &mut Line<'_>) {
        match Grown::new(line.alloc) {
            Ok(tree) => self.tree = tree,
            Err(_) => line.fail(),
        }
    }

    fn cover(&mut self, line: &mut Line<'_>) {
        match hex::decode(line.alloc, line.word()) {
            Ok(bytes) => self.covers = Bytes::of(bytes),
            Err(_) => line.fail(),
        }
    }

    /// Does an operation, by the record that makes the inode which was read last, or by another one.
    fn operate(&mut self, line: &mut Line<'_>, word: &str) {
        let op = operation(line, word);
        let seq = line.last_inode.max(OTHER);
        self.tree.grow(line, seq, op);
    }

    /// Writes bytes of one value, from an offset on.
    fn fill(&mut self, line: &mut Line<'_>) {
        let ino = line.inode();
        let offset = line.small_number();
        let count = line.small_number();
        let [.., value] = line.small_number().to_be_bytes();
        for part in 0..count.div_ceil(MOST_WRITTEN) {
            let done = part.saturating_mul(MOST_WRITTEN);
            let size = count.saturating_sub(done).min(MOST_WRITTEN);
            let op = Op::Write {
                ino,
                offset: u64::from(offset) + u64::from(done),
                bytes: filled(line, size, value),
            };
            self.tree.grow(line, OTHER, op);
        }
    }

    /// Makes files that are named by their numbers.
    fn make_many(&mut self, line: &mut Line<'_>) {
        let dir = line.inode();
        let first = line.small_number();
        let count = line.small_number();
        for number in first..first.saturating_add(count) {
            self.make_one(line, dir, number);
        }
    }

    fn make_one(&mut self, line: &mut Line<'_>, dir: Key, number: u32) {
        let ino = made_by(number);
        let none = Bytes::of(Vec::new(line.alloc));
        self.tree.grow(line, number, made(ino, Kind::Reg, none));
        let name = line.counted("", number);
        self.tree.grow(line, OTHER, Op::Link { dir, name, ino });
    }

    fn snapshot(&mut self, line: &mut Line<'_>) {
        let covers = self.covers.as_slice();
        match self.tree.snapshot(line.alloc, &self.view, covers) {
            Some(made) => {
                line.answer.count(": ", made.blocks.len() as u64);
                line.answer.key(" blocks, root ", &made.root);
                self.made = Some(made);
            }
            None => line.fail(),
        }
    }

    /// What loading the last snapshot comes to.
    fn load(&self, line: &mut Line<'_>) {
        let Some(made) = &self.made else {
            return line.fail();
        };
        let blocks = made.blocks.as_slice();
        match load(line, &self.view, blocks, Wrong::Nothing, made.root) {
            End::Missing => line.answer.add(": missing"),
            End::Damaged => line.answer.add(": damaged"),
            End::Malformed => line.answer.add(": malformed"),
            End::Basis(root) => line.answer.key(": a basis, root ", &root),
        }
    }

    /// How many bytes of an inode are stored: in the tree, and in what loading the last snapshot comes to.
    fn stored(&self, line: &mut Line<'_>) {
        let ino = line.inode();
        let Some(made) = &self.made else {
            return line.fail();
        };
        let Some(basis) = basis(line, made.blocks.as_slice(), made.root) else {
            return line.fail();
        };
        tell_stored(&mut line.answer, ": ", self.tree.tree(), &ino);
        tell_stored(&mut line.answer, ", loaded ", &basis.tree, &ino);
    }

    /// What loads of the last snapshot come to, with that done to each block in turn.
    fn load_changed(&self, line: &mut Line<'_>, change: Change) {
        let Some(made) = &self.made else {
            return line.fail();
        };
        let mut loads = Loads::of(&self.view, made);
        loads.change_each(line, change);
        loads.tell(&mut line.answer);
    }
}
