//! Names and numbers.

use crate::line::Line;
use crate::text::Text;
use ivy_base::{Bytes, PubKey, head_key, name_of, name_ok, number_of};

/// Tells the name of a block, where its copy is the same.
pub fn name(out: &mut Text, bytes: &[u8]) {
    out.word(&name_of(bytes).0);
    match Bytes::copy_of(out.alloc, bytes) {
        Ok(first) => out.compare(first.copy(out.alloc), bytes),
        Err(_) => out.lack(),
    }
}

/// Tells the head key of the owner that the bytes are.
pub fn key(out: &mut Text, bytes: &[u8]) {
    let owner = PubKey(out.array(bytes));
    out.word(&head_key(&owner).0);
}

/// Tells the number of the inode that the record of that number makes, of the owner that the bytes are.
pub fn number(line: &mut Line<'_>, bytes: &[u8]) {
    let seq = line.number();
    let owner = PubKey(line.text.array(bytes));
    line.text.word(&number_of(&owner, seq).0);
}

/// Tells whether a directory may hold the name.
pub fn entry(out: &mut Text, name: &[u8]) {
    out.add(if name_ok(name) { "yes" } else { "no" });
}
