//! The list of all inodes, by their numbers.

ghost use Rattle.std.specs.Prelude.{◌≡◌, IfOk, IfErr, OnOk, OnErr};
ghost use Rattle.std.specs.Option.{option_copied};
ghost use Rattle.std.specs.FinMap.Entries.{find as value_at, put};
ghost use Rattle.ivy_base.specs.Naming.{key_cmp};
ghost use Rattle.plain_tree.specs.Search.{IsFoundAt, BelongsAt};

use crate::keys::same;
use inode_replay::Content;
use ivy_base::{Key, Memory};
use std::alloc::Global;
use std::cmp::Ordering;

// The inode of that number.
pub(crate) fn find<'a>(inodes: &'a [(Key, Content)], ino: &Key) -> Option<&'a Content>
    ensures { option_copied result ≡ value_at key_cmp ino.now inodes.now }
{
    for entry in inodes {
        if same(ino, &entry.0) {
            return Some(&entry.1);
        }
    }
    None
}

// Lets the number stand for that inode. The error is: out of memory, and then nothing has changed.
pub(crate) fn put(
    inodes: &mut Vec<(Key, Content)>,
    ino: &Key,
    content: Content,
) -> Result<(), Memory>
    ensures ok { OnOk result (inodes.new.items ≡ put key_cmp ino.now content inodes.old.items) }
    ensures err { OnErr result (inodes.new.items ≡ inodes.old.items) }
{
    match search(inodes, ino) {
        Ok(at) => inodes[at].1 = content,
        Err(at) => inodes.insert(at, (*ino, content))?,
    }
    Ok(())
}

// Where the inode of that number stands, or else where it belongs.
fn search(inodes: &[(Key, Content)], ino: &Key) -> Result<usize, usize>
    ensures found { IfOk result (λ at. IsFoundAt key_cmp ino.now at inodes.now) }
    ensures missing { IfErr result (λ at. BelongsAt key_cmp ino.now at inodes.now) }
{
    'entries: for (at, entry) in inodes.iter().enumerate() {
        match ino.cmp(&entry.0) {
            Ordering::Less => return Err(at),
            Ordering::Equal => return Ok(at),
            Ordering::Greater => {}
        }
    }
    Err(inodes.len())
}

// The same list, each inode with bytes of its own. The error is: out of memory.
pub(crate) fn copy(inodes: &[(Key, Content)], alloc: Global) -> Result<Vec<(Key, Content)>, Memory>
    ensures { IfOk result (λ copy. copy.items ≡ inodes.now) }
{
    let mut copy = Vec::new(alloc);
    for entry in inodes {
        copy.push((entry.0, entry.1.copy()?))?;
    }
    Ok(copy)
}
