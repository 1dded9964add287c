//! Trees whose keys ascend: a search goes down one path.

ghost use Rattle.std.specs.Prelude.{◌≡◌, ◌+◌, ◌^◌, ◌<◌, ◌≤◌, [], ◌∷◌, ◌++◌, T, length, map, take, drop, not, IfOk, OnOk, IfNone, IfSome, Some};
ghost use Rattle.std.specs.Option.{option_map};
ghost use Rattle.std.specs.Ordering.{eq_by_cmp, is_le};
ghost use Rattle.std.specs.FinMap.Entries.{find as value_at, put, where_key, is_sorted};
ghost use Rattle.shared_map.specs.Trees.{IsBalanced, IsNear};

use crate::joining::{joined, with_side, with_value};
use crate::key::{MapKey, Sought};
use crate::tree::{Fork, Side, Tree};
use ivy_base::Memory;
use std::alloc::Global;
use std::cmp::Ordering;
use std::sync::Arc;

impl<K: MapKey + Drop, V: Drop> Tree<K, V> {
    /// The value under the key.
    pub fn get<Q: Sought<K>>(&self, key: &Q) -> Option<&Arc<V>>
        requires { T (is_sorted K.order self.now.0) }
        ensures { option_map (λ v. v.now.value) result ≡ value_at K.order (Q.key key.now) self.now.0 }
    {
        let Some(at) = self.top() else {
            return None;
        };
        match key.compare_with(&at.key) {
            Ordering::Less => at.left.get(key),
            Ordering::Equal => Some(&at.value),
            Ordering::Greater => at.right.get(key),
        }
    }

    /// The value under the key, with one owner more. The error is a count of owners that is full.
    pub fn shared<Q: Sought<K>>(&self, key: &Q) -> Result<Option<Arc<V>>, Memory>
        requires { T (is_sorted K.order self.now.0) }
        ensures { IfOk result (λ value. option_map (λ v. v.value) value ≡ value_at K.order (Q.key key.now) self.now.0) }
    {
        match self.get(key) {
            None => Ok(None),
            Some(value) => Ok(Some(value.clone()?)),
        }
    }

    /// The entries with the value under the key, both of which are shared. The error is: out of memory.
    pub fn with(&self, alloc: Global, key: &K, value: &Arc<V>) -> Result<Tree<K, V>, Memory>
        requires ordered { T (is_sorted K.order self.now.0) }
        requires few { length self.now.0 + 1 < 2 ^ 64 }
        ensures { IfOk result (IsNear (put K.order key.now value.now.value self.now.0) self.now.1) }
    {
        let Some(at) = self.top() else {
            return alone(alloc, key, value);
        };
        let Some(on) = Side::to(key.compare(&at.key)) else {
            return with_value(alloc, at, value);
        };
        let side = at.on(on).with(alloc, key, value)?;
        with_side(alloc, at, on, side, &at.key, &at.value)
    }

    /// The entries but the one of that key. The error is: out of memory.
    pub fn without<Q: Sought<K>>(&self, alloc: Global, key: &Q) -> Result<Tree<K, V>, Memory>
        requires ordered { T (is_sorted K.order self.now.0) }
        requires few { length self.now.0 < 2 ^ 64 }
        ensures { IfOk result (IsNear (where_key K.order (λ k. not (eq_by_cmp K.order (Q.key key.now) k)) self.now.0) self.now.1) }
    {
        let Some(at) = self.top() else {
            return Ok(Tree::new());
        };
        let Some(on) = Side::to(key.compare_with(&at.key)) else {
            return without_top(alloc, at);
        };
        let side = at.on(on).without(alloc, key)?;
        with_side(alloc, at, on, side, &at.key, &at.value)
    }
}

impl<K: MapKey + Drop, V: Drop> Tree<K, V> {
    /// The first entry.
    pub fn first(&self) -> Option<(&K, &Arc<V>)>
        ensures none { IfNone result (self.now ≡ ([], 0)) }
        ensures some { IfSome result (λ e. self.now.0 ≡ (e.0.now, e.1.now.value) ∷ drop 1 self.now.0) }
    {
        let Some(at) = self.top() else {
            return None;
        };
        match at.left.first() {
            None => Some((&at.key, &at.value)),
            Some(first) => Some(first),
        }
    }

    /// The entries but the first. The error is: out of memory.
    pub fn without_first(&self, alloc: Global) -> Result<Tree<K, V>, Memory>
        requires few { length self.now.0 < 2 ^ 64 }
        ensures { IfOk result (IsNear (drop 1 self.now.0) self.now.1) }
    {
        let Some(at) = self.top() else {
            return Ok(Tree::new());
        };
        let Some(_) = at.left.top() else {
            return at.right.copy();
        };
        let left = at.left.without_first(alloc)?;
        with_side(alloc, at, Side::Left, left, &at.key, &at.value)
    }
}

/// One entry, which is shared. The error is: out of memory.
pub fn alone<K: MapKey + Drop, V: Drop>(
    alloc: Global,
    key: &K,
    value: &Arc<V>,
) -> Result<Tree<K, V>, Memory>
    ensures { IfOk result (λ t. t ≡ ((key.now, value.now.value) ∷ [], 1)) }
{
    joined(alloc, Tree::new(), key, value, Tree::new())
}

// The node's entries but its own. The error is: out of memory.
fn without_top<K: MapKey + Drop, V: Drop>(
    alloc: Global,
    at: &Fork<K, V>,
) -> Result<Tree<K, V>, Memory>
    requires sides { IsBalanced (Some at.now) }
    requires few { length at.now.left.0 + length at.now.right.0 + 1 < 2 ^ 64 }
    ensures { IfOk result (IsNear (at.now.left.0 ++ at.now.right.0) at.now.height) }
{
    let Some((key, value)) = at.right.first() else {
        return at.left.copy();
    };
    let right = at.right.without_first(alloc)?;
    with_side(alloc, at, Side::Right, right, key, value)
}
