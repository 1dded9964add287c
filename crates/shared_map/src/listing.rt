//! Entries in a row, borrowed from a tree.

ghost use Rattle.std.specs.Prelude.{◌≡◌, ◌≤◌, [], ◌∷◌, ◌++◌, T, length, map, take, OnOk};
ghost use Rattle.std.specs.Ordering.{is_le};
ghost use Rattle.std.specs.FinMap.Entries.{where_key, is_sorted};

use crate::key::{MapKey, Sought};
use crate::tree::{Fork, Tree};
use ivy_base::Memory;

impl<K: Drop, V: Drop> Tree<K, V> {
    /// Puts the entries at the end of the list, as far as it then has so many at most. The error is: out of memory.
    pub fn list<'a>(&'a self, most: usize, list: &mut Vec<(&'a K, &'a V)>) -> Result<(), Memory>
        requires { length list.old.items ≤ most }
        ensures { OnOk result (map {B = K × V} (λ e. (e.0.now, e.1.now)) list.new.items ≡ take most (map {B = K × V} (λ e. (e.0.now, e.1.now)) list.old.items ++ self.now.0)) }
    {
        if list.len() == most {
            return Ok(());
        }
        let Some(at) = self.top() else {
            return Ok(());
        };
        at.left.list(most, list)?;
        list_one(at, most, list)?;
        at.right.list(most, list)
    }
}

impl<K: MapKey + Drop, V: Drop> Tree<K, V> {
    /// The same with the entries from a key on alone. The error is: out of memory.
    pub fn list_from<'a, Q: Sought<K>>(
        &'a self,
        key: &Q,
        most: usize,
        list: &mut Vec<(&'a K, &'a V)>,
    ) -> Result<(), Memory>
        requires ordered { T (is_sorted K.order self.now.0) }
        requires few { length list.old.items ≤ most }
        ensures { OnOk result (map {B = K × V} (λ e. (e.0.now, e.1.now)) list.new.items ≡ take most (map {B = K × V} (λ e. (e.0.now, e.1.now)) list.old.items ++ where_key K.order (λ k. is_le (K.order (Q.key key.now) k)) self.now.0)) }
    {
        let Some(at) = self.top() else {
            return Ok(());
        };
        if key.compare_with(&at.key).is_gt() {
            return at.right.list_from(key, most, list);
        }
        at.left.list_from(key, most, list)?;
        list_one(at, most, list)?;
        at.right.list(most, list)
    }
}

// Puts the node's own entry at the end of the list, unless it has so many already. The error is: out of memory.
fn list_one<'a, K: Drop, V: Drop>(
    at: &'a Fork<K, V>,
    most: usize,
    list: &mut Vec<(&'a K, &'a V)>,
) -> Result<(), Memory>
    requires { length list.old.items ≤ most }
    ensures { OnOk result (map {B = K × V} (λ e. (e.0.now, e.1.now)) list.new.items ≡ take most (map {B = K × V} (λ e. (e.0.now, e.1.now)) list.old.items ++ (at.now.key, at.now.value.value) ∷ [])) }
{
    if list.len() < most {
        list.push((&at.key, &*at.value))?;
    }
    Ok(())
}
