//! Entries that are put in place: only nodes that have other owners are copied.

ghost use Rattle.std.specs.Prelude.{◌≡◌, ◌+◌, ◌^◌, ◌<◌, ◌≤◌, max, T, length, MatchBool, IfOk, OnOk, OnErr, Some};
ghost use Rattle.std.specs.Option.{option_map};
ghost use Rattle.std.specs.FinMap.Entries.{find as value_at, put, is_sorted};
ghost use Rattle.shared_map.specs.Trees.{seen, IsTree, IsGrown, DifferByAtMost};

use crate::attempting::Attempt;
use crate::key::MapKey;
use crate::settling::give_back;
use crate::tree::{Fork, Side, Tree};
use ivy_base::Memory;
use std::alloc::{AllocError, Global};
use std::mem;
use std::sync::Arc;

/// An entry wasn't put in place, and nothing has changed: memory was short, or a node on the way leans too far.
#[derive(Drop)]
pub struct NotInPlace;

impl From<Memory> for NotInPlace {
    fn from(_: Memory) -> Self {
        NotInPlace
    }
}

impl From<AllocError> for NotInPlace {
    fn from(_: AllocError) -> Self {
        NotInPlace
    }
}

impl<K: MapKey + Drop, V: Drop> Tree<K, V> {
    /// Puts the value under the key once the rest is done, and answers the value before. The error is: out of memory; no
    /// entry has changed then, and the rest isn't done.
    pub fn insert<P: Attempt>(
        &mut self,
        alloc: Global,
        key: &K,
        value: &Arc<V>,
        rest: &mut P,
    ) -> Result<Option<Arc<V>>, Memory>
        requires ordered { T (is_sorted K.order self.old.0) }
        requires few { length self.old.0 + 1 < 2 ^ 64 }
        ensures before { IfOk result (λ before. option_map (λ v. v.value) before ≡ value_at K.order key.now self.old.0) }
        ensures ok { OnOk result ((self.new.0 ≡ put K.order key.now value.now.value self.old.0) × P.makes rest.old rest.new) }
        ensures err { OnErr result ((self.new.0 ≡ self.old.0) × (rest.new ≡ rest.old)) }
    {
        match put(alloc, self, key, value, rest) {
            Ok(before) => Ok(before),
            Err(_) => self.insert_anew(alloc, key, value, rest),
        }
    }

    // The same, where each node on the way is copied.
    fn insert_anew<P: Attempt>(
        &mut self,
        alloc: Global,
        key: &K,
        value: &Arc<V>,
        rest: &mut P,
    ) -> Result<Option<Arc<V>>, Memory>
        requires ordered { T (is_sorted K.order self.old.0) }
        requires few { length self.old.0 + 1 < 2 ^ 64 }
        ensures before { IfOk result (λ before. option_map (λ v. v.value) before ≡ value_at K.order key.now self.old.0) }
        ensures ok { OnOk result ((self.new.0 ≡ put K.order key.now value.now.value self.old.0) × P.makes rest.old rest.new) }
        ensures err { OnErr result ((self.new ≡ self.old) × (rest.new ≡ rest.old)) }
        ensures height { OnOk result (DifferByAtMost 1 self.new.1 self.old.1) }
    {
        let before = self.shared(key)?;
        let tree = self.with(alloc, key, value)?;
        rest.attempt(alloc)?;
        *self = tree;
        Ok(before)
    }
}

// Puts the value under the key in place once the rest is done, and answers the value before. After the error nothing has
// changed.
#[cycle(placing)]
fn put<K: MapKey + Drop, V: Drop, P: Attempt>(
    alloc: Global,
    tree: &mut Tree<K, V>,
    key: &K,
    value: &Arc<V>,
    rest: &mut P,
) -> Result<Option<Arc<V>>, NotInPlace>
    requires ordered { T (is_sorted K.order tree.old.0) }
    requires few { length tree.old.0 + 1 < 2 ^ 64 }
    ensures before { IfOk result (λ before. option_map (λ v. v.value) before ≡ value_at K.order key.now tree.old.0) }
    ensures ok { OnOk result (IsGrown (put K.order key.now value.now.value tree.old.0) tree.old.1 tree.new × P.makes rest.old rest.new) }
    ensures err { OnErr result ((tree.new ≡ tree.old) × (rest.new ≡ rest.old)) }
{
    let Some(mut top) = tree.take() else {
        return Ok(tree.insert_anew(alloc, key, value, rest)?);
    };
    let before = put_over(alloc, &mut top, key, value, rest);
    *tree = Tree::over(top);
    before
}

// Puts the value under the key, where the node is copied if it has other owners.
#[cycle(placing)]
fn put_over<K: MapKey + Drop, V: Drop, P: Attempt>(
    alloc: Global,
    top: &mut Arc<Fork<K, V>>,
    key: &K,
    value: &Arc<V>,
    rest: &mut P,
) -> Result<Option<Arc<V>>, NotInPlace>
    requires tree { IsTree top.old.value }
    requires ordered { T (is_sorted K.order (seen (Some top.old.value)).0) }
    requires few { length (seen (Some top.old.value)).0 + 1 < 2 ^ 64 }
    ensures before { IfOk result (λ before. option_map (λ v. v.value) before ≡ value_at K.order key.now (seen (Some top.old.value)).0) }
    ensures tree { IsTree top.new.value }
    ensures ok { OnOk result (IsGrown (put K.order key.now value.now.value (seen (Some top.old.value)).0) top.old.value.height (seen (Some top.new.value)) × P.makes rest.old rest.new) }
    ensures err { OnErr result ((seen (Some top.new.value) ≡ seen (Some top.old.value)) × (rest.new ≡ rest.old)) }
{
    let at = Arc::make_mut(top)?;
    put_at(alloc, at, key, value, rest)
}

// Puts the value under the key, at that node or below it.
#[cycle(placing)]
fn put_at<K: MapKey + Drop, V: Drop, P: Attempt>(
    alloc: Global,
    at: &mut Fork<K, V>,
    key: &K,
    value: &Arc<V>,
    rest: &mut P,
) -> Result<Option<Arc<V>>, NotInPlace>
    requires tree { IsTree at.old }
    requires ordered { T (is_sorted K.order (seen (Some at.old)).0) }
    requires few { length (seen (Some at.old)).0 + 1 < 2 ^ 64 }
    ensures before { IfOk result (λ before. option_map (λ v. v.value) before ≡ value_at K.order key.now (seen (Some at.old)).0) }
    ensures tree { IsTree at.new }
    ensures ok { OnOk result (IsGrown (put K.order key.now value.now.value (seen (Some at.old)).0) at.old.height (seen (Some at.new)) × P.makes rest.old rest.new) }
    ensures err { OnErr result ((seen (Some at.new) ≡ seen (Some at.old)) × (rest.new ≡ rest.old)) }
{
    let Some(on) = Side::to(key.compare(&at.key)) else {
        return put_here(alloc, &mut at.value, value, rest);
    };
    if is_two_higher(at.on(on), at.on(on.other()), at.height) {
        return Err(NotInPlace);
    }
    let mut side = at.take(on);
    let before = put(alloc, &mut side, key, value, rest);
    give_back(at, on, side);
    before
}

// Puts the value in the place of another one, which is the answer.
fn put_here<V: Drop, P: Attempt>(
    alloc: Global,
    old: &mut Arc<V>,
    value: &Arc<V>,
    rest: &mut P,
) -> Result<Option<Arc<V>>, NotInPlace>
    ensures before { IfOk result (λ before. option_map (λ v. v.value) before ≡ Some old.old.value) }
    ensures ok { OnOk result ((old.new.value ≡ value.now.value) × P.makes rest.old rest.new) }
    ensures err { OnErr result ((old.new ≡ old.old) × (rest.new ≡ rest.old)) }
{
    let value = value.clone()?;
    rest.attempt(alloc)?;
    Ok(Some(mem::replace(old, value)))
}

// Whether a side of a node of that height is two higher than the other one, of which the node isn't read where the height
// tells that it is the higher one.
fn is_two_higher<K: Drop, V: Drop>(side: &Tree<K, V>, other: &Tree<K, V>, height: u8) -> bool
    requires height { height ≡ max side.now.1 other.now.1 + 1 }
    ensures { MatchBool result (other.now.1 + 1 < side.now.1) (side.now.1 ≤ other.now.1 + 1) }
{
    let on_side = side.height();
    on_side + 1 == height && on_side > other.height() + 1
}
