//! Values that are changed where they stand.

ghost use Rattle.std.specs.Prelude.{◌≡◌, ◌+◌, T, length, IfOk, OnOk, OnErr, Some};
ghost use Rattle.std.specs.Option.{is_some};
ghost use Rattle.std.specs.FinMap.Entries.{find as value_at, is_sorted};
ghost use Rattle.shared_map.specs.Edits.{IsEdited};
ghost use Rattle.shared_map.specs.Trees.{seen, IsTree};

use crate::key::{MapKey, Sought};
use crate::tree::{Fork, Tree};
use ivy_base::Memory;
use std::alloc::Global;
use std::cmp::Ordering;
use std::sync::Arc;

/// A value that is changed where it stands, or, where it has other owners, a clone of it.
pub trait MapValue: Clone {
    ghost use Rattle.std.specs.Prelude.{◌≡◌};

    ghost equal: { (x y : Self) → Self.is_clone x y → y ≡ x };
}

/// A change of a value, which may take memory.
pub trait Edit<V> {
    ghost makes: { Self → V → Self → V → Type 0 };

    /// Makes the change. The error is: out of memory, and then nothing has changed.
    fn edit(&mut self, alloc: Global, value: &mut V) -> Result<(), Memory>
        ensures ok { OnOk result (makes self.old value.old self.new value.new) }
        ensures err { OnErr result ((self.new ≡ self.old) × (value.new ≡ value.old)) };
}

/// Changes the value under the key, if there is one, and answers whether there is. The error is: out of memory, and then
/// no entry has changed. What a search finds in a tree whose keys don't ascend isn't said.
#[cycle(updating)]
pub fn update<K: MapKey + Drop, V: MapValue, Q: Sought<K>, E: Edit<V>>(
    alloc: Global,
    tree: &mut Tree<K, V>,
    key: &Q,
    edit: &mut E,
) -> Result<bool, Memory>
    ensures found { T (is_sorted K.order tree.old.0) → IfOk result (λ found. found ≡ is_some (value_at K.order (Q.key key.now) tree.old.0)) }
    ensures ok { T (is_sorted K.order tree.old.0) → OnOk result (IsEdited K.order E.makes (Q.key key.now) edit.old edit.new tree.old.0 tree.new.0) }
    ensures err { OnErr result ((edit.new ≡ edit.old) × (tree.new.0 ≡ tree.old.0)) }
    ensures shape { (length tree.new.0 ≡ length tree.old.0) × (tree.new.1 ≡ tree.old.1) }
{
    let Some(mut top) = tree.take() else {
        return Ok(false);
    };
    let found = update_over(alloc, &mut top, key, edit);
    *tree = Tree::over(top);
    found
}

// Changes the value under the key, where the node is copied if it has other owners.
#[cycle(updating)]
fn update_over<K: MapKey + Drop, V: MapValue, Q: Sought<K>, E: Edit<V>>(
    alloc: Global,
    top: &mut Arc<Fork<K, V>>,
    key: &Q,
    edit: &mut E,
) -> Result<bool, Memory>
    requires tree { IsTree top.old.value }
    ensures found { T (is_sorted K.order (seen (Some top.old.value)).0) → IfOk result (λ found. found ≡ is_some (value_at K.order (Q.key key.now) (seen (Some top.old.value)).0)) }
    ensures ok { T (is_sorted K.order (seen (Some top.old.value)).0) → OnOk result (IsEdited K.order E.makes (Q.key key.now) edit.old edit.new (seen (Some top.old.value)).0 (seen (Some top.new.value)).0) }
    ensures err { OnErr result ((edit.new ≡ edit.old) × ((seen (Some top.new.value)).0 ≡ (seen (Some top.old.value)).0)) }
    ensures tree { IsTree top.new.value }
    ensures shape { (length (seen (Some top.new.value)).0 ≡ length (seen (Some top.old.value)).0) × (top.new.value.height ≡ top.old.value.height) }
{
    let at = Arc::make_mut(top)?;
    update_at(alloc, at, key, edit)
}

// Changes the value under the key, at that node or below it.
#[cycle(updating)]
fn update_at<K: MapKey + Drop, V: MapValue, Q: Sought<K>, E: Edit<V>>(
    alloc: Global,
    at: &mut Fork<K, V>,
    key: &Q,
    edit: &mut E,
) -> Result<bool, Memory>
    ensures found { T (is_sorted K.order (seen (Some at.old)).0) → IfOk result (λ found. found ≡ is_some (value_at K.order (Q.key key.now) (seen (Some at.old)).0)) }
    ensures ok { T (is_sorted K.order (seen (Some at.old)).0) → OnOk result (IsEdited K.order E.makes (Q.key key.now) edit.old edit.new (seen (Some at.old)).0 (seen (Some at.new)).0) }
    ensures err { OnErr result ((edit.new ≡ edit.old) × ((seen (Some at.new)).0 ≡ (seen (Some at.old)).0)) }
    ensures left { (length at.new.left.0 ≡ length at.old.left.0) × (at.new.left.1 ≡ at.old.left.1) }
    ensures right { (length at.new.right.0 ≡ length at.old.right.0) × (at.new.right.1 ≡ at.old.right.1) }
    ensures height { at.new.height ≡ at.old.height }
{
    match key.compare_with(&at.key) {
        Ordering::Less => update(alloc, &mut at.left, key, edit),
        Ordering::Equal => {
            update_value(alloc, &mut at.value, edit)?;
            Ok(true)
        }
        Ordering::Greater => update(alloc, &mut at.right, key, edit),
    }
}

// Changes the value, which is copied first if it has other owners.
fn update_value<V: MapValue, E: Edit<V>>(
    alloc: Global,
    value: &mut Arc<V>,
    edit: &mut E,
) -> Result<(), Memory>
    ensures ok { OnOk result (E.makes edit.old value.old.value edit.new value.new.value) }
    ensures err { OnErr result ((edit.new ≡ edit.old) × (value.new.value ≡ value.old.value)) }
{
    let value = Arc::make_mut(value)?;
    edit.edit(alloc, value)
}
