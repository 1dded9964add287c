//! What is told of an inode.

use crate::text::Text;
use dir_replay::Names;
use inode_replay::{Attr, Content};
use ivy_base::{Key, Kind};

/// The name of an inode's kind, or that it is missing.
pub fn kind_name(kind: Option<Kind>) -> &'static str {
    match kind {
        Some(Kind::Reg) => "reg",
        Some(Kind::Dir) => "dir",
        Some(Kind::Lnk) => "lnk",
        None => "none",
    }
}

/// An inode's attributes and size.
pub fn attributes(text: &mut Text, attr: &Attr, size: u64) {
    text.octal(" mode ", attr.mode);
    text.count(" owner ", u64::from(attr.uid));
    text.count(" ", u64::from(attr.gid));
    text.count(" size ", size);
    text.moment(" atime ", attr.atime);
    text.moment(" mtime ", attr.mtime);
    text.moment(" ctime ", attr.ctime);
}

/// Some of an inode's bytes.
pub fn bytes(text: &mut Text, content: &Content, offset: u64, count: u32) {
    match content.read_range(text.alloc, offset, count) {
        Ok(bytes) => text.quote(bytes.as_slice()),
        Err(_) => text.fail(),
    }
}

/// How many names an inode has, and the directory of a directory's name.
pub fn naming(text: &mut Text, names: &Names, ino: &Key) {
    text.count("names ", names.names_of(ino));
    text.any_inode(", parent ", &names.parent(ino));
}

/// The entries of a directory, and how many lead to directories.
pub fn entries(text: &mut Text, names: &Names, dir: &Key) {
    let Ok(listing) = names.listing(text.alloc, dir) else {
        return text.fail();
    };
    let pairs = listing.as_slice();
    text.count("entries ", pairs.len() as u64);
    text.count(", directories ", names.subdirs(dir));
    text.add(":");
    for (name, ino) in pairs {
        text.add(" ");
        text.quote(name.as_slice());
        text.inode(" ", ino);
    }
}
