//! The list of all names, by the places at which they stand.

ghost use Rattle.std.specs.Prelude.{◌≡◌, OnOk, OnErr, IfOk, IfErr, not};
ghost use Rattle.std.specs.List.{list_any};
ghost use Rattle.std.specs.Ordering.{eq_by_cmp};
ghost use Rattle.std.specs.FinMap.Entries.{find as value_at, put, where_key};
ghost use Rattle.tree_model.specs.Tree.{place_cmp, same_key, ends_without};
ghost use Rattle.plain_tree.specs.Search.{IsFoundAt, BelongsAt};

use crate::keys::same;
use ivy_base::{Bytes, Key, Memory};
use std::alloc::Global;
use std::cmp::Ordering;

/// A name: the directory and the bytes, and the number that it leads to.
pub(crate) type Name = ((Key, Bytes), Key);

// How the place stands to that of the entry.
fn compare(dir: &Key, name: &[u8], entry: &Name) -> Ordering
    ensures { result ≡ place_cmp (dir.now, name.now) entry.now.0 }
{
    dir.cmp(&entry.0.0)
        .then_with(|| name.cmp(entry.0.1.as_slice()))
}

// Whether the place is that of the entry.
fn is_at(dir: &Key, name: &[u8], entry: &Name) -> bool
    ensures { result ≡ eq_by_cmp place_cmp (dir.now, name.now) entry.now.0 }
{
    compare(dir, name, entry) == Ordering::Equal
}

// The number that the name at that place leads to.
pub(crate) fn find(names: &[Name], dir: &Key, name: &[u8]) -> Option<Key>
    ensures { result ≡ value_at place_cmp (dir.now, name.now) names.now }
{
    for entry in names {
        if is_at(dir, name, entry) {
            return Some(entry.1);
        }
    }
    None
}

// Where the name at that place stands, or else where it belongs.
fn search(names: &[Name], dir: &Key, name: &[u8]) -> Result<usize, usize>
    ensures found { IfOk result (λ at. IsFoundAt place_cmp (dir.now, name.now) at names.now) }
    ensures missing { IfErr result (λ at. BelongsAt place_cmp (dir.now, name.now) at names.now) }
{
    'entries: for (at, entry) in names.iter().enumerate() {
        match compare(dir, name, entry) {
            Ordering::Less => return Err(at),
            Ordering::Equal => return Ok(at),
            Ordering::Greater => {}
        }
    }
    Err(names.len())
}

// Lets the name at that place lead to the inode. The error is: out of memory, and then nothing has changed.
pub(crate) fn put(
    names: &mut Vec<Name>,
    alloc: Global,
    dir: &Key,
    name: &[u8],
    ino: &Key,
) -> Result<(), Memory>
    ensures ok { OnOk result (names.new.items ≡ put place_cmp (dir.now, name.now) ino.now names.old.items) }
    ensures err { OnErr result (names.new.items ≡ names.old.items) }
{
    match search(names, dir, name) {
        Ok(at) => names[at].1 = *ino,
        Err(at) => names.insert(at, ((*dir, Bytes::copy_of(alloc, name)?), *ino))?,
    }
    Ok(())
}

// Takes the name at that place out, where it is there.
pub(crate) fn remove(names: &mut Vec<Name>, dir: &Key, name: &[u8])
    ensures { names.new.items ≡ where_key place_cmp (λ p. not (eq_by_cmp place_cmp p (dir.now, name.now))) names.old.items }
{
    names.retain(|entry| !is_at(dir, name, entry));
}

// Whether a name leads to the inode.
pub(crate) fn lead_to(names: &[Name], ino: &Key) -> bool
    ensures { result ≡ list_any (λ e. same_key ino.now e.1) names.now }
{
    names.iter().any(|entry| same(ino, &entry.1))
}

// Whether a name stands in the directory.
pub(crate) fn stand_in(names: &[Name], dir: &Key) -> bool
    ensures { result ≡ list_any (λ e. same_key dir.now e.0.0) names.now }
{
    names.iter().any(|entry| same(dir, &entry.0.0))
}

// Whether going up from the inode ends, after at most so many directories, and doesn't meet that one.
pub(crate) fn climb_ends(names: &[Name], most: usize, ino: &Key, dir: &Key) -> bool
    ensures { result ≡ ends_without most names.now ino.now dir.now }
{
    if most == 0 {
        return false;
    }
    if same(ino, dir) {
        return false;
    }
    for entry in names {
        if same(ino, &entry.1) && !climb_ends(names, most - 1, &entry.0.0, dir) {
            return false;
        }
    }
    true
}

// The same list, each name with bytes of its own. The error is: out of memory.
pub(crate) fn copy(names: &[Name], alloc: Global) -> Result<Vec<Name>, Memory>
    ensures { IfOk result (λ copy. copy.items ≡ names.now) }
{
    let mut copy = Vec::new(alloc);
    for entry in names {
        copy.push(((entry.0.0, entry.0.1.copy(alloc)?), entry.1))?;
    }
    Ok(copy)
}
