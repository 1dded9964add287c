//! Whether trees answer alike.

use crate::generated::NAMES;
use crate::inodes::{HIGHEST, key};
use crate::lines::Line;
use crate::telling::{attributes, bytes, entries, kind_name, naming};
use crate::text::Text;
use crate::trees::{Effect, Trees};
use dir_replay::{Names, Touched};
use fs_tree::{ROOT, Tree};
use inode_replay::Content;
use ivy_base::Key;
use plain_tree::Plain;

/// How many bytes at each end of an inode are compared.
const ENDS: u32 = 64;

/// Tells an inode's kind, attributes, size, count of stored bytes and bytes at both ends.
fn tell_content(text: &mut Text, content: &Content) {
    let size = content.size();
    text.add(kind_name(Some(content.kind())));
    attributes(text, &content.attr(), size);
    text.count(" stored ", content.stored());
    bytes(text, content, 0, ENDS);
    bytes(text, content, size.saturating_sub(u64::from(ENDS)), ENDS);
}

/// Tells what names answer about an inode, and what it contains.
fn tell_inode(text: &mut Text, names: &Names, content: Option<&Content>, ino: &Key) {
    text.add(kind_name(names.kind(ino)));
    naming(text, names, ino);
    text.count(" has ", names.entries(ino));
    entries(text, names, ino);
    match content {
        Some(content) => tell_content(text, content),
        None => text.add("none"),
    }
}

/// Tells what a tree answers about an inode.
fn tell(text: &mut Text, tree: &Tree, ino: &Key) {
    tell_inode(text, tree.names(), tree.content(ino), ino);
}

/// Whether both trees answer alike about the root and these inodes.
pub fn are_alike(line: &mut Line<'_>, a: &Tree, b: &Tree, inodes: &[Key]) -> bool {
    let mut text = Text::new(line.alloc);
    let mut other = Text::new(line.alloc);
    tell(&mut text, a, &ROOT);
    tell(&mut other, b, &ROOT);
    for ino in inodes {
        tell(&mut text, a, ino);
        tell(&mut other, b, ino);
    }
    line.are_same(&text, &other)
}

/// Whether the plain tree has the entries of the directory, and none where there are none.
fn same_listing(line: &mut Line<'_>, tree: &Tree, plain: &Plain, dir: &Key) -> bool {
    let Ok(listing) = tree.names().listing(line.alloc, dir) else {
        line.fail();
        return false;
    };
    let entries = listing.as_slice();
    let mut is_same = plain.is_empty_directory(dir) == entries.is_empty();
    for (name, ino) in entries {
        is_same = is_same && plain.entry(dir, name.as_slice()) == Some(*ino);
    }
    is_same
}

/// Whether each name that is chosen leads to the same inode in both.
fn same_entries(tree: &Tree, plain: &Plain, dir: &Key) -> bool {
    for name in NAMES {
        if plain.entry(dir, name.as_bytes()) != tree.entry(dir, name.as_bytes()) {
            return false;
        }
    }
    true
}

/// Whether both trees say the same of what is inside the directory.
fn same_inside(tree: &Tree, plain: &Plain, dir: &Key) -> bool {
    for number in 0..=HIGHEST {
        let ino = key(number);
        if tree.names().inside(&ino, dir) != plain.is_inside(&ino, dir) {
            return false;
        }
    }
    true
}

/// Whether the plain tree has the same names for the inode and in it.
fn same_place(line: &mut Line<'_>, tree: &Tree, plain: &Plain, ino: &Key) -> bool {
    same_listing(line, tree, plain, ino)
        && same_entries(tree, plain, ino)
        && same_inside(tree, plain, ino)
        && tree.subdirs(ino) == plain.subdirs(ino) as u64
        && tree.live(ino) == (*ino == ROOT || plain.has_name(ino))
}

/// What an operation did that touched these directories, before which the tree was like that one.
pub fn effect(line: &mut Line<'_>, before: &Tree, trees: &Trees, touched: Touched) -> Effect {
    let mut old = Text::new(line.alloc);
    let mut new = Text::new(line.alloc);
    let mut apart = Text::new(line.alloc);
    let mut agree = true;
    for number in 0..=HIGHEST {
        let ino = key(number);
        tell(&mut old, before, &ino);
        tell(&mut new, &trees.tree, &ino);
        tell_inode(&mut apart, &trees.names, trees.plain.inode(&ino), &ino);
        agree = agree && same_place(line, &trees.tree, &trees.plain, &ino);
    }
    Effect {
        touched,
        has_changed: !line.are_same(&old, &new),
        agree: agree && line.are_same(&new, &apart),
    }
}
