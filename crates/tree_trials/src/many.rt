//! Many names in one directory.

ghost use Rattle.fs_tree.specs.Applicable.{IsApplicable};

use crate::lines::Line;
use crate::operations::made;
use dir_replay::Listing;
use fs_tree::{ROOT, Tree};
use ivy_base::{Bytes, Key, Kind, Moment, Op};

const NOW: Moment = Moment { sec: 1, nsec: 7 };

/// The file that has many names.
const FILE: Key = Key([9; 20]);

/// The directory of that number; near numbers lie far from each other in the order of keys.
fn directory(number: u32) -> Key {
    let [a, b, c, d] = number.to_be_bytes();
    Key([d, c, 3, 3, 3, 3, 3, 3, 3, 3, 3, 3, 3, 3, 3, 3, a, b, c, d])
}

fn apply(line: &mut Line<'_>, tree: &mut Tree, op: Op)
    requires { IsApplicable op }
{
    if tree.apply(line.alloc, NOW, &op).is_err() {
        line.fail();
    }
    drop(op);
}

fn make(line: &mut Line<'_>, tree: &mut Tree, ino: Key, kind: Kind) {
    let target = Bytes::of(Vec::new(line.alloc));
    apply(line, tree, made(ino, kind, target));
}

/// Gives the inode a name in the root: the letter and the number's bytes.
fn name(line: &mut Line<'_>, tree: &mut Tree, ino: Key, letter: u8, number: u32) {
    let [a, b, c, d] = number.to_be_bytes();
    let op = Op::Link {
        dir: ROOT,
        name: line.copy_of(&[letter, a, b, c, d]),
        ino,
    };
    apply(line, tree, op);
}

/// Whether each name is below the next one.
fn is_ascending(pairs: &[(Bytes, Key)]) -> bool {
    for index in 1..pairs.len() {
        if pairs[index - 1].0.as_slice() >= pairs[index].0.as_slice() {
            return false;
        }
    }
    true
}

/// Adds so many directories to the root, beside as many names of the file.
fn fill(line: &mut Line<'_>, tree: &mut Tree, count: u32) {
    make(line, tree, FILE, Kind::Reg);
    for step in 0..count {
        let number = step.wrapping_mul(7) % count;
        let dir = directory(number);
        make(line, tree, dir, Kind::Dir);
        name(line, tree, dir, b'd', number);
        name(line, tree, FILE, b'f', number);
    }
}

/// Tells what a copy of the tree has.
fn show(line: &mut Line<'_>, copy: &Tree) {
    let Ok(listing) = copy.names().listing(line.alloc, &ROOT) else {
        return line.fail();
    };
    let listing = Listing::of(listing.into_vec());
    let pairs = listing.as_slice();
    let text = &mut line.answer;
    text.count("entries ", pairs.len() as u64);
    text.add(if is_ascending(pairs) {
        " in order"
    } else {
        " out of order"
    });
    text.count(", directories ", copy.subdirs(&ROOT));
    text.count(", names of the file ", copy.names().names_of(&FILE));
}

/// Fills the tree, and tells what a copy of it has.
fn run_on(line: &mut Line<'_>, mut tree: Tree) {
    let count = line.small_number();
    fill(line, &mut tree, count);
    match tree.copy(line.alloc) {
        Ok(copy) => show(line, &copy),
        Err(_) => line.fail(),
    }
}

/// Tells what such a tree has, of so many directories as the line says.
pub fn run(line: &mut Line<'_>) {
    match Tree::empty(line.alloc) {
        Ok(tree) => run_on(line, tree),
        Err(_) => line.fail(),
    }
}
