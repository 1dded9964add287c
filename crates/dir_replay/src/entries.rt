//! The names in one directory. It knows nothing of the inodes but their numbers.

ghost use Rattle.std.specs.Prelude.{◌≡◌, ◌↔◌, OnOk, OnErr, IfOk, IsTrue, [], not, length};
ghost use Rattle.std.specs.List.{list_any};
ghost use Rattle.std.specs.Ordering.{eq_by_cmp};
ghost use Rattle.tree_model.specs.Tree.{same_key};
ghost use Rattle.ivy_base.specs.declared.key.Key.{Key};
ghost use Rattle.std.specs.FinMap.Entries.{find as value_at, put, where_key};
ghost use Rattle.dir_replay.specs.Entries.{name_cmp};

use crate::keys::same;
use crate::name::Name;
use ivy_base::{Bytes, Key, Memory};
use shared_map::{EntryTest, SharedMap};
use std::alloc::Global;
use std::marker::Model;

/// The names in one directory with the inodes that they lead to, in the order of the names' bytes. A copy shares what
/// it has in common with them.
#[derive(Drop)]
pub struct Entries {
    map: SharedMap<Name, Key>,
}

impl Model for Entries {
    ghost use Rattle.std.specs.Prelude.{List, ℕ};
    ghost use Rattle.ivy_base.specs.declared.key.Key.{Key};

    ghost Value = { List (List ℕ × Key) };

    ghost view = { λ n. n.map };
}

impl Entries {
    /// No names.
    pub fn new() -> Entries
        ensures { result ≡ [] }
    {
        Entries {
            map: SharedMap::new(),
        }
    }

    /// How many names there are.
    pub fn len(&self) -> usize
        ensures { result ≡ length self.now }
    {
        self.map.len()
    }

    /// Whether there is no name.
    pub fn is_empty(&self) -> bool
        ensures { IsTrue result ↔ (self.now ≡ []) }
    {
        self.map.is_empty()
    }

    /// The inode that the name leads to.
    pub fn get(&self, name: &[u8]) -> Option<Key>
        ensures { result ≡ value_at name_cmp name.now self.now }
    {
        self.map.get(&name).copied()
    }

    /// Whether one of the names leads to the inode.
    pub fn lead_to(&self, ino: &Key) -> bool
        ensures { result ≡ list_any (λ e. same_key ino.now e.1) self.now }
    {
        self.map.any(&LeadsTo { ino: *ino })
    }

    /// The same names. They take no memory: the only error is a count of owners that is full.
    pub fn copy(&self) -> Result<Entries, Memory>
        ensures { IfOk result (λ copy. copy ≡ self.now) }
    {
        Ok(Entries {
            map: self.map.copy()?,
        })
    }

    /// Lets the name lead to the inode. The error is: out of memory, and then nothing has changed.
    pub fn insert(&mut self, alloc: Global, name: &[u8], ino: Key) -> Result<(), Memory>
        ensures ok { OnOk result (self.new ≡ put name_cmp name.now ino self.old) }
        ensures err { OnErr result (self.new ≡ self.old) }
    {
        let name = Name::of(alloc, name)?;
        self.map.insert(alloc, name, ino)?;
        Ok(())
    }

    /// Takes the name out, where it is there. The error is: out of memory, and then nothing has changed.
    pub fn remove(&mut self, alloc: Global, name: &[u8]) -> Result<(), Memory>
        ensures ok { OnOk result (self.new ≡ where_key name_cmp (λ n. not (eq_by_cmp name_cmp n name.now)) self.old) }
        ensures err { OnErr result (self.new ≡ self.old) }
    {
        self.map.remove(alloc, &name)?;
        Ok(())
    }

    /// The names with the inodes that they lead to, in the names' order. The error is: out of memory.
    pub fn list(&self, alloc: Global) -> Result<Vec<(Bytes, Key)>, Memory>
        ensures { IfOk result (λ pairs. pairs.items ≡ self.now) }
    {
        let entries = self.map.entries(alloc)?;
        let mut pairs = Vec::with_capacity(alloc, entries.len())?;
        'names: for (name, ino) in &entries {
            pairs.push((Bytes::copy_of(alloc, name.as_slice())?, **ino))?;
        }
        Ok(pairs)
    }
}

// Whether a name leads to this inode.
#[derive(Drop)]
struct LeadsTo {
    ino: Key,
}

impl EntryTest<Name, Key> for LeadsTo {
    ghost passes = { λ test e. same_key test.ino e.1 };

    fn test(&self, _: &Name, ino: &Key) -> bool {
        same(&self.ino, ino)
    }
}
