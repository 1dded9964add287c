//! The map.

ghost use Rattle.std.specs.Prelude.{◌≡◌, ◌↔◌, [], T, IsTrue, length, map, take, not, IfOk, OnOk, OnErr};
ghost use Rattle.std.specs.List.{list_any};
ghost use Rattle.std.specs.Option.{is_some, option_copied, option_map};
ghost use Rattle.std.specs.Ordering.{eq_by_cmp, is_le};
ghost use Rattle.std.specs.FinMap.Entries.{find as value_at, put, where_key, is_sorted};
ghost use Rattle.shared_map.specs.Edits.{IsEdited, AreEdited};

use crate::attempting::{Attempt, Nothing};
use crate::key::{MapKey, Sought};
use crate::pairing::{Amend, update_two};
use crate::testing::EntryTest;
use crate::tree::Tree;
use crate::updating::{Edit, MapValue, update};
use ivy_base::Memory;
use std::alloc::Global;
use std::marker::Model;
use std::sync::Arc;

/// Values under keys, in the keys' order. A copy shares all that it has in common with this map, and what is put into
/// one of the two later doesn't reach the other.
///
/// Contracts see the list of its entries, in the order of their keys.
#[derive(Drop)]
pub struct SharedMap<K: MapKey, V> {
    tree: Tree<K, V>,
    count: usize,
}

impl<K: MapKey, V> Model for SharedMap<K, V> {
    ghost use Rattle.std.specs.Prelude.{◌≡◌, List, T, length};
    ghost use Rattle.std.specs.FinMap.Entries.{is_sorted};

    ghost Value = { List (K × V) };

    ghost view = { λ m. m.tree.0 };

    ghost invariant = { λ m. T (is_sorted K.order m.tree.0) × (m.count ≡ length m.tree.0) };
}

impl<K: MapKey + Drop, V: Drop> SharedMap<K, V> {
    /// An empty map.
    pub fn new() -> SharedMap<K, V>
        ensures { result ≡ [] }
    {
        SharedMap {
            tree: Tree::new(),
            count: 0,
        }
    }

    /// How many entries there are.
    pub fn len(&self) -> usize
        ensures count { result ≡ length self.now }
        ensures ordered { T (is_sorted K.order self.now) }
    {
        self.count
    }

    /// Whether there is no entry.
    pub fn is_empty(&self) -> bool
        ensures { IsTrue result ↔ (self.now ≡ []) }
    {
        self.count == 0
    }

    /// The value under the key.
    pub fn get<Q: Sought<K>>(&self, key: &Q) -> Option<&V>
        ensures value { option_copied result ≡ value_at K.order (Q.key key.now) self.now }
        ensures ordered { T (is_sorted K.order self.now) }
    {
        match self.tree.get(key) {
            None => None,
            Some(value) => Some(&**value),
        }
    }

    /// An equal map. It takes no memory: the only error is that a part of it already has as many owners as can be
    /// counted.
    pub fn copy(&self) -> Result<SharedMap<K, V>, Memory>
        ensures { IfOk result (λ copy. copy ≡ self.now) }
    {
        Ok(SharedMap {
            tree: self.tree.copy()?,
            count: self.count,
        })
    }

    /// Lets the key stand for the value, and answers the value that it stood for. A key that is equal to one of the map
    /// leaves that in its place. The error is: out of memory, and then nothing has changed.
    pub fn insert(&mut self, alloc: Global, key: K, value: V) -> Result<Option<Arc<V>>, Memory>
        ensures old { IfOk result (λ old. option_map (λ v. v.value) old ≡ value_at K.order key self.old) }
        ensures ok { OnOk result (self.new ≡ put K.order key value self.old) }
        ensures err { OnErr result (self.new ≡ self.old) }
    {
        self.insert_with(alloc, key, value, &mut Nothing)
    }

    /// The same together with something else, which is done too. The error is: out of memory, for the entry, for a node on
    /// its way or for what is done with it, or that there are as many entries as can be counted. Then nothing has changed,
    /// neither in the map nor in what was to be done.
    pub fn insert_with<P: Attempt>(
        &mut self,
        alloc: Global,
        key: K,
        value: V,
        rest: &mut P,
    ) -> Result<Option<Arc<V>>, Memory>
        ensures old { IfOk result (λ old. option_map (λ v. v.value) old ≡ value_at K.order key self.old) }
        ensures ok { OnOk result ((self.new ≡ put K.order key value self.old) × P.makes rest.old rest.new) }
        ensures err { OnErr result ((self.new ≡ self.old) × (rest.new ≡ rest.old)) }
    {
        if self.count == usize::MAX {
            return Err(Memory);
        }
        let value = Arc::new(alloc, value)?;
        let old = self.tree.insert(alloc, &key, &value, rest)?;
        if old.is_none() {
            self.count += 1;
        }
        Ok(old)
    }

    /// Takes the key out, and answers the value that it stood for. The error is: out of memory, and then nothing has
    /// changed; a key that isn't there takes none.
    pub fn remove<Q: Sought<K>>(&mut self, alloc: Global, key: &Q) -> Result<Option<Arc<V>>, Memory>
        ensures old { IfOk result (λ old. option_map (λ v. v.value) old ≡ value_at K.order (Q.key key.now) self.old) }
        ensures ok { OnOk result (self.new ≡ where_key K.order (λ k. not (eq_by_cmp K.order (Q.key key.now) k)) self.old) }
        ensures err { OnErr result (self.new ≡ self.old) }
    {
        let Some(old) = self.tree.shared(key)? else {
            return Ok(None);
        };
        self.tree = self.tree.without(alloc, key)?;
        self.count -= 1;
        Ok(Some(old))
    }

    /// Whether an entry passes the test.
    pub fn any<P: EntryTest<K, V>>(&self, test: &P) -> bool
        ensures { result ≡ list_any (P.passes test.now) self.now }
    {
        self.tree.any(test)
    }

    /// All entries, in the keys' order. The error is: out of memory.
    pub fn entries(&self, alloc: Global) -> Result<Vec<(&K, &V)>, Memory>
        ensures { IfOk result (λ list. map {B = K × V} (λ e. (e.0.now, e.1.now)) list.items ≡ self.now) }
    {
        let mut list = Vec::with_capacity(alloc, self.count)?;
        self.tree.list(self.count, &mut list)?;
        Ok(list)
    }

    /// The first entries, so many at most, of those whose keys are not below the one given, in the keys' order. The
    /// error is: out of memory.
    pub fn entries_from<'a, Q: Sought<K>>(
        &'a self,
        alloc: Global,
        key: &Q,
        most: usize,
    ) -> Result<Vec<(&'a K, &'a V)>, Memory>
        ensures { IfOk result (λ list. map {B = K × V} (λ e. (e.0.now, e.1.now)) list.items ≡ take most (where_key K.order (λ k. is_le (K.order (Q.key key.now) k)) self.now)) }
    {
        let mut list = Vec::new(alloc);
        self.tree.list_from(key, most, &mut list)?;
        Ok(list)
    }
}

impl<K: MapKey + Drop, V: MapValue> SharedMap<K, V> {
    /// Changes the value that the key stands for where it stands, and answers whether there is one; a value that has
    /// other owners is cloned first. The error is: out of memory, and then nothing has changed.
    pub fn update<Q: Sought<K>, E: Edit<V>>(
        &mut self,
        alloc: Global,
        key: &Q,
        edit: &mut E,
    ) -> Result<bool, Memory>
        ensures found { IfOk result (λ found. found ≡ is_some (value_at K.order (Q.key key.now) self.old)) }
        ensures ok { OnOk result (IsEdited K.order E.makes (Q.key key.now) edit.old edit.new self.old self.new) }
        ensures err { OnErr result ((edit.new ≡ edit.old) × (self.new ≡ self.old)) }
    {
        update(alloc, &mut self.tree, key, edit)
    }

    /// Changes the value that the first key stands for, and amends the one that the second stands for, each where it
    /// stands and if there is one. The error is: out of memory, and then nothing has changed.
    pub fn update_two<Q: Sought<K>, E: Edit<V>, A: Amend<V>>(
        &mut self,
        alloc: Global,
        first: &Q,
        edit: &mut E,
        second: &Q,
        amend: &A,
    ) -> Result<(), Memory>
        ensures ok { OnOk result (AreEdited K.order E.makes (A.makes amend.now) (Q.key first.now) (Q.key second.now) edit.old edit.new self.old self.new) }
        ensures err { OnErr result ((edit.new ≡ edit.old) × (self.new ≡ self.old)) }
    {
        update_two(alloc, &mut self.tree, first, edit, second, amend)
    }
}
