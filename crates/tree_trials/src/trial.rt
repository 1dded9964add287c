//! A trial: the trees, and how each line is answered.

use crate::lines::Line;
use crate::telling::{attributes, bytes, entries, kind_name, naming};
use crate::text::Text;
use crate::trees::{Effect, Trees};
use crate::{generated, many};
use fs_tree::Tree;
use ivy_base::{Kind, Memory};
use std::alloc::Global;

/// The trees that operations are done to, and those that are kept.
pub struct Trial {
    trees: Trees,
    kept: Trees,
}

// Written out, so that what drops a trial calls it and isn't made over all its parts.
impl Drop for Trial {
    fn drop(self) {
        let Trial { trees: _, kept: _ } = self;
    }
}

impl Trial {
    /// The root alone, twice. The error is: out of memory.
    pub fn new(alloc: Global) -> Result<Trial, Memory> {
        Ok(Trial {
            trees: Trees::empty(alloc)?,
            kept: Trees::empty(alloc)?,
        })
    }

    /// Answers a line.
    pub fn answer(&mut self, line: &mut Line<'_>) {
        line.is_repeated = true;
        if line.is_comment() {
            return;
        }
        line.answer.add(": ");
        match line.word() {
            "new" => put(&mut self.trees, Trees::empty(line.alloc), line),
            "keep" => put(&mut self.kept, self.trees.copy(line.alloc), line),
            "back" => put(&mut self.trees, self.kept.copy(line.alloc), line),
            "many" => many::run(line),
            "generated" => generated::run(line),
            word => {
                if !shows(line, &self.trees.tree, word) {
                    self.operate(line);
                }
            }
        }
    }

    /// Does an operation, and tells what it changed.
    fn operate(&mut self, line: &mut Line<'_>) {
        line.begin();
        let moment = line.moment();
        let effect = self.trees.operate(line, moment);
        tell(&mut line.answer, &effect);
    }
}

/// Puts the trees in place of others.
fn put(place: &mut Trees, trees: Result<Trees, Memory>, line: &mut Line<'_>) {
    match trees {
        Ok(trees) => {
            *place = trees;
            line.answer.add("done");
        }
        Err(_) => line.fail(),
    }
}

fn tell(text: &mut Text, effect: &Effect) {
    if !effect.agree {
        return text.add("they differ");
    }
    let Some(first) = &effect.touched.first else {
        return text.add(if effect.has_changed {
            "changed"
        } else {
            "nothing"
        });
    };
    text.inode("touched ", first);
    if let Some(second) = &effect.touched.second {
        text.inode(" ", second);
    }
}

/// Tells what is asked about an inode, where the word asks for that.
fn shows(line: &mut Line<'_>, tree: &Tree, word: &str) -> bool {
    match word {
        "attr" => attr(line, tree),
        "names" => names(line, tree),
        "list" => list(line, tree),
        "entry" => entry(line, tree),
        "inside" => inside(line, tree),
        "stored" => stored(line, tree),
        "target" => target(line, tree),
        "read" => read(line, tree),
        _ => return false,
    }
    true
}

/// Tells an inode's kind, attributes and size, or that it is missing.
fn attr(line: &mut Line<'_>, tree: &Tree) {
    let ino = line.inode();
    line.answer.add(kind_name(tree.kind(&ino)));
    if let Some(attr) = tree.attr(&ino) {
        if let Some(content) = tree.content(&ino) {
            attributes(&mut line.answer, &attr, content.size());
        }
    }
}

/// Tells how many names an inode has, the directory of a directory's name, and whether it is live.
fn names(line: &mut Line<'_>, tree: &Tree) {
    let ino = line.inode();
    naming(&mut line.answer, tree.names(), &ino);
    line.answer.add(if tree.live(&ino) {
        ", live"
    } else {
        ", not live"
    });
}

/// Tells the entries of a directory.
fn list(line: &mut Line<'_>, tree: &Tree) {
    let dir = line.inode();
    entries(&mut line.answer, tree.names(), &dir);
}

/// Tells the inode of a directory's entry.
fn entry(line: &mut Line<'_>, tree: &Tree) {
    let dir = line.inode();
    let ino = tree.entry(&dir, line.word().as_bytes());
    line.answer.any_inode("", &ino);
}

/// Tells whether an inode is a directory or lies inside it.
fn inside(line: &mut Line<'_>, tree: &Tree) {
    let ino = line.inode();
    let dir = line.inode();
    line.answer.add(if tree.names().inside(&ino, &dir) {
        "yes"
    } else {
        "no"
    });
}

/// Tells how many of an inode's bytes are stored.
fn stored(line: &mut Line<'_>, tree: &Tree) {
    match tree.content(&line.inode()) {
        Some(content) => line.answer.count("", content.stored()),
        None => line.answer.add("none"),
    }
}

/// Tells the text of a symbolic link.
fn target(line: &mut Line<'_>, tree: &Tree) {
    match tree.content(&line.inode()) {
        Some(content) if content.kind() == Kind::Lnk => line.answer.quote(content.target()),
        _ => line.answer.add("none"),
    }
}

/// Tells some of an inode's bytes.
fn read(line: &mut Line<'_>, tree: &Tree) {
    let ino = line.inode();
    let offset = line.number();
    let count = line.small_number();
    match tree.content(&ino) {
        Some(content) => bytes(&mut line.answer, content, offset, count),
        None => line.answer.add("none"),
    }
}
