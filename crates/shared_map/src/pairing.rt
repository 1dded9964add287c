//! Two values of a tree that are changed together, or neither.
//!
//! The one change may want memory, the other can't: it is made once the first is. Nodes that are not on both ways are on
//! different sides of one node, so the first change can be made when the way to the second value is ready.

ghost use Rattle.std.specs.Prelude.{◌≡◌, T, length, IfOk, OnOk, OnErr, Some};
ghost use Rattle.std.specs.FinMap.Entries.{is_sorted};
ghost use Rattle.shared_map.specs.Edits.{IsEdited, IsAmended, AreEdited};
ghost use Rattle.shared_map.specs.Trees.{seen, IsTree};

use crate::attempting::Attempt;
use crate::key::{MapKey, Sought};
use crate::tree::{Fork, Tree};
use crate::updating::{Edit, MapValue, update};
use ivy_base::Memory;
use std::alloc::Global;
use std::cmp::Ordering;
use std::sync::Arc;

/// A change of a value that takes no memory.
pub trait Amend<V> {
    ghost makes: { Self → V → V → Type 0 };

    /// Makes the change.
    fn amend(&self, value: &mut V)
        ensures { makes self.now value.old value.new };
}

// A value is amended once something else is done.
#[derive(Drop)]
struct After<'a, P, A> {
    first: &'a mut P,
    amend: &'a A,
}

impl<V, P: Attempt, A: Amend<V>> Edit<V> for After<'_, P, A> {
    ghost use Rattle.std.specs.Prelude.{◌≡◌};

    ghost makes = { λ s v t w. (t.first.ghost_name ≡ s.first.ghost_name) × P.makes s.first.now t.first.now × A.makes s.amend.now v w };

    fn edit(&mut self, alloc: Global, value: &mut V) -> Result<(), Memory> {
        self.first.attempt(alloc)?;
        self.amend.amend(value);
        Ok(())
    }
}

// A value that is there is changed.
#[derive(Drop)]
struct Here<'a, 'b, V, E> {
    value: &'a mut V,
    edit: &'b mut E,
}

impl<V, E: Edit<V>> Attempt for Here<'_, '_, V, E> {
    ghost use Rattle.std.specs.Prelude.{◌≡◌};

    ghost makes = { λ s t. (t.value.ghost_name ≡ s.value.ghost_name) × (t.edit.ghost_name ≡ s.edit.ghost_name) × E.makes s.edit.now s.value.now t.edit.now t.value.now };

    fn attempt(&mut self, alloc: Global) -> Result<(), Memory> {
        self.edit.edit(alloc, self.value)
    }
}

// The value under a key of a tree is changed.
#[derive(Drop)]
struct Within<'a, 'b, 'c, K, V, Q, E> {
    tree: &'a mut Tree<K, V>,
    key: &'b Q,
    edit: &'c mut E,
}

impl<K: MapKey + Drop, V: MapValue, Q: Sought<K>, E: Edit<V>> Attempt
    for Within<'_, '_, '_, K, V, Q, E> {
    ghost use Rattle.std.specs.Prelude.{◌≡◌, T, length};
    ghost use Rattle.std.specs.FinMap.Entries.{is_sorted};
    ghost use Rattle.shared_map.specs.Edits.{IsEdited};

    ghost makes = { λ s t. (t.tree.ghost_name ≡ s.tree.ghost_name) × (t.edit.ghost_name ≡ s.edit.ghost_name) × (length t.tree.now.0 ≡ length s.tree.now.0) × (t.tree.now.1 ≡ s.tree.now.1) × (T (is_sorted K.order s.tree.now.0) → IsEdited K.order E.makes (Q.key s.key.now) s.edit.now t.edit.now s.tree.now.0 t.tree.now.0) };

    fn attempt(&mut self, alloc: Global) -> Result<(), Memory> {
        update(alloc, self.tree, self.key, self.edit)?;
        Ok(())
    }
}

/// Changes the value under the first key and amends the one under the second, each if there is one. The error is: out of
/// memory, and then no entry has changed.
#[cycle(pairing)]
pub fn update_two<K: MapKey + Drop, V: MapValue, Q: Sought<K>, E: Edit<V>, A: Amend<V>>(
    alloc: Global,
    tree: &mut Tree<K, V>,
    first: &Q,
    edit: &mut E,
    second: &Q,
    amend: &A,
) -> Result<(), Memory>
    requires ordered { T (is_sorted K.order tree.old.0) }
    ensures ok { OnOk result (AreEdited K.order E.makes (A.makes amend.now) (Q.key first.now) (Q.key second.now) edit.old edit.new tree.old.0 tree.new.0) }
    ensures err { OnErr result ((edit.new ≡ edit.old) × (tree.new.0 ≡ tree.old.0)) }
    ensures shape { (length tree.new.0 ≡ length tree.old.0) × (tree.new.1 ≡ tree.old.1) }
{
    let Some(mut top) = tree.take() else {
        return Ok(());
    };
    let done = update_two_over(alloc, &mut top, first, edit, second, amend);
    *tree = Tree::over(top);
    done
}

// The same, where the node is copied if it has other owners.
#[cycle(pairing)]
fn update_two_over<K: MapKey + Drop, V: MapValue, Q: Sought<K>, E: Edit<V>, A: Amend<V>>(
    alloc: Global,
    top: &mut Arc<Fork<K, V>>,
    first: &Q,
    edit: &mut E,
    second: &Q,
    amend: &A,
) -> Result<(), Memory>
    requires tree { IsTree top.old.value }
    requires ordered { T (is_sorted K.order (seen (Some top.old.value)).0) }
    ensures ok { OnOk result (AreEdited K.order E.makes (A.makes amend.now) (Q.key first.now) (Q.key second.now) edit.old edit.new (seen (Some top.old.value)).0 (seen (Some top.new.value)).0) }
    ensures err { OnErr result ((edit.new ≡ edit.old) × ((seen (Some top.new.value)).0 ≡ (seen (Some top.old.value)).0)) }
    ensures tree { IsTree top.new.value }
    ensures shape { (length (seen (Some top.new.value)).0 ≡ length (seen (Some top.old.value)).0) × (top.new.value.height ≡ top.old.value.height) }
{
    let at = Arc::make_mut(top)?;
    update_two_at(alloc, at, first, edit, second, amend)
}

// The same, at that node or below it.
#[cycle(pairing)]
fn update_two_at<K: MapKey + Drop, V: MapValue, Q: Sought<K>, E: Edit<V>, A: Amend<V>>(
    alloc: Global,
    at: &mut Fork<K, V>,
    first: &Q,
    edit: &mut E,
    second: &Q,
    amend: &A,
) -> Result<(), Memory>
    requires ordered { T (is_sorted K.order (seen (Some at.old)).0) }
    ensures ok { OnOk result (AreEdited K.order E.makes (A.makes amend.now) (Q.key first.now) (Q.key second.now) edit.old edit.new (seen (Some at.old)).0 (seen (Some at.new)).0) }
    ensures err { OnErr result ((edit.new ≡ edit.old) × ((seen (Some at.new)).0 ≡ (seen (Some at.old)).0)) }
    ensures left { (length at.new.left.0 ≡ length at.old.left.0) × (at.new.left.1 ≡ at.old.left.1) }
    ensures right { (length at.new.right.0 ≡ length at.old.right.0) × (at.new.right.1 ≡ at.old.right.1) }
    ensures height { at.new.height ≡ at.old.height }
{
    match (first.compare_with(&at.key), second.compare_with(&at.key)) {
        (Ordering::Less, Ordering::Less) => update_two(
            alloc,
            &mut at.left,
            first,
            edit,
            second,
            amend,
        ),
        (Ordering::Less, Ordering::Equal) => update_and_amend(
            alloc,
            &mut at.left,
            first,
            edit,
            &mut at.value,
            amend,
        ),
        (Ordering::Less, Ordering::Greater) => update_beside(
            alloc,
            &mut at.left,
            first,
            edit,
            &mut at.right,
            second,
            amend,
        ),
        (Ordering::Equal, Ordering::Less) => edit_beside(
            alloc,
            &mut at.value,
            edit,
            &mut at.left,
            second,
            amend,
        ),
        (Ordering::Equal, Ordering::Equal) => edit_and_amend(alloc, &mut at.value, edit, amend),
        (Ordering::Equal, Ordering::Greater) => edit_beside(
            alloc,
            &mut at.value,
            edit,
            &mut at.right,
            second,
            amend,
        ),
        (Ordering::Greater, Ordering::Less) => update_beside(
            alloc,
            &mut at.right,
            first,
            edit,
            &mut at.left,
            second,
            amend,
        ),
        (Ordering::Greater, Ordering::Equal) => update_and_amend(
            alloc,
            &mut at.right,
            first,
            edit,
            &mut at.value,
            amend,
        ),
        (Ordering::Greater, Ordering::Greater) => update_two(
            alloc,
            &mut at.right,
            first,
            edit,
            second,
            amend,
        ),
    }
}

// Changes the value under a key of a tree, if there is one, and amends another value, or does neither.
fn update_and_amend<K: MapKey + Drop, V: MapValue, Q: Sought<K>, E: Edit<V>, A: Amend<V>>(
    alloc: Global,
    tree: &mut Tree<K, V>,
    key: &Q,
    edit: &mut E,
    value: &mut Arc<V>,
    amend: &A,
) -> Result<(), Memory>
    requires ordered { T (is_sorted K.order tree.old.0) }
    ensures ok { OnOk result (IsEdited K.order E.makes (Q.key key.now) edit.old edit.new tree.old.0 tree.new.0 × A.makes amend.now value.old.value value.new.value) }
    ensures err { OnErr result ((edit.new ≡ edit.old) × (tree.new.0 ≡ tree.old.0) × (value.new.value ≡ value.old.value)) }
    ensures shape { (length tree.new.0 ≡ length tree.old.0) × (tree.new.1 ≡ tree.old.1) }
{
    let value = Arc::make_mut(value)?;
    update(alloc, tree, key, edit)?;
    amend.amend(value);
    Ok(())
}

// Changes a value, and amends what it has become, or does neither.
fn edit_and_amend<V: MapValue, E: Edit<V>, A: Amend<V>>(
    alloc: Global,
    value: &mut Arc<V>,
    edit: &mut E,
    amend: &A,
) -> Result<(), Memory>
    ensures ok { OnOk result ((v : V) × E.makes edit.old value.old.value edit.new v × A.makes amend.now v value.new.value) }
    ensures err { OnErr result ((edit.new ≡ edit.old) × (value.new.value ≡ value.old.value)) }
{
    let value = Arc::make_mut(value)?;
    edit.edit(alloc, value)?;
    amend.amend(value);
    Ok(())
}

// Changes a value, and amends the one under a key of a tree, if there is one, or does neither.
fn edit_beside<K: MapKey + Drop, V: MapValue, Q: Sought<K>, E: Edit<V>, A: Amend<V>>(
    alloc: Global,
    value: &mut Arc<V>,
    edit: &mut E,
    tree: &mut Tree<K, V>,
    key: &Q,
    amend: &A,
) -> Result<(), Memory>
    requires ordered { T (is_sorted K.order tree.old.0) }
    ensures ok { OnOk result (E.makes edit.old value.old.value edit.new value.new.value × IsAmended K.order (A.makes amend.now) (Q.key key.now) tree.old.0 tree.new.0) }
    ensures err { OnErr result ((edit.new ≡ edit.old) × (value.new.value ≡ value.old.value) × (tree.new.0 ≡ tree.old.0)) }
    ensures shape { (length tree.new.0 ≡ length tree.old.0) × (tree.new.1 ≡ tree.old.1) }
{
    let value = Arc::make_mut(value)?;
    let mut here = Here { value, edit };
    amend_after(alloc, &mut here, tree, key, amend)
}

// Changes the value under the first key of the one tree, and amends the one under the second key of the other, each if
// there is one, or does neither.
fn update_beside<K: MapKey + Drop, V: MapValue, Q: Sought<K>, E: Edit<V>, A: Amend<V>>(
    alloc: Global,
    tree: &mut Tree<K, V>,
    first: &Q,
    edit: &mut E,
    other: &mut Tree<K, V>,
    second: &Q,
    amend: &A,
) -> Result<(), Memory>
    requires ordered { T (is_sorted K.order tree.old.0) }
    requires other { T (is_sorted K.order other.old.0) }
    ensures ok { OnOk result (IsEdited K.order E.makes (Q.key first.now) edit.old edit.new tree.old.0 tree.new.0 × IsAmended K.order (A.makes amend.now) (Q.key second.now) other.old.0 other.new.0) }
    ensures err { OnErr result ((edit.new ≡ edit.old) × (tree.new.0 ≡ tree.old.0) × (other.new.0 ≡ other.old.0)) }
    ensures shape { (length tree.new.0 ≡ length tree.old.0) × (tree.new.1 ≡ tree.old.1) }
    ensures other { (length other.new.0 ≡ length other.old.0) × (other.new.1 ≡ other.old.1) }
{
    let mut within = Within {
        tree,
        key: first,
        edit,
    };
    amend_after(alloc, &mut within, other, second, amend)
}

// Does what is to be done first, and amends the value under the key, if there is one. The error is: out of memory, and
// then no entry has changed.
fn amend_after<K: MapKey + Drop, V: MapValue, Q: Sought<K>, P: Attempt, A: Amend<V>>(
    alloc: Global,
    first: &mut P,
    tree: &mut Tree<K, V>,
    key: &Q,
    amend: &A,
) -> Result<(), Memory>
    requires ordered { T (is_sorted K.order tree.old.0) }
    ensures ok { OnOk result (P.makes first.old first.new × IsAmended K.order (A.makes amend.now) (Q.key key.now) tree.old.0 tree.new.0) }
    ensures err { OnErr result ((first.new ≡ first.old) × (tree.new.0 ≡ tree.old.0)) }
    ensures shape { (length tree.new.0 ≡ length tree.old.0) × (tree.new.1 ≡ tree.old.1) }
{
    let mut after = After {
        first: &mut *first,
        amend,
    };
    if update(alloc, tree, key, &mut after)? {
        return Ok(());
    }
    first.attempt(alloc)
}
