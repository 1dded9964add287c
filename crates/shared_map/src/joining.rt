//! Nodes over two sides: how trees are put together so that they stay balanced.
//!
//! What is done on the left is done on the right in the same way, so functions are told which side is meant: a tree stands
//! on that side, and the other tree on the other one.

ghost use Rattle.std.specs.Prelude.{◌≡◌, ◌+◌, ◌^◌, ◌<◌, ◌≤◌, max, ◌∷◌, ◌++◌, length, IfOk, Some};
ghost use Rattle.shared_map.specs.Trees.{seen, side_on, opposite, in_order, IsBalanced, IsLow, IsNear, IsSettled, DifferByAtMost};

use crate::key::MapKey;
use crate::tree::{Fork, Side, Tree};
use ivy_base::Memory;
use std::alloc::Global;
use std::sync::Arc;

/// The entries of one tree on that side of a node, those on its other side, and one between them, which is shared. The
/// error is: out of memory.
pub fn with_side<K: MapKey + Drop, V: Drop>(
    alloc: Global,
    at: &Fork<K, V>,
    on: Side,
    side: Tree<K, V>,
    key: &K,
    value: &Arc<V>,
) -> Result<Tree<K, V>, Memory>
    requires sides { IsBalanced (Some at.now) }
    requires level { DifferByAtMost 1 side.1 (side_on on at.now).1 }
    requires few { length side.0 + length (side_on (opposite on) at.now).0 + 1 < 2 ^ 64 }
    ensures { IfOk result (IsNear (in_order on side.0 (key.now, value.now.value) (side_on (opposite on) at.now).0) at.now.height) }
{
    let other = at.on(on.other()).copy()?;
    balanced(alloc, on, side, key, value, other)
}

/// The node's entries with another value under its key. The error is: out of memory.
pub fn with_value<K: MapKey + Drop, V: Drop>(
    alloc: Global,
    at: &Fork<K, V>,
    value: &Arc<V>,
) -> Result<Tree<K, V>, Memory>
    requires sides { IsBalanced (Some at.now) }
    requires few { length at.now.left.0 + length at.now.right.0 + 1 < 2 ^ 64 }
    ensures { IfOk result (IsNear (at.now.left.0 ++ (at.now.key, value.now.value) ∷ at.now.right.0) at.now.height) }
{
    joined_anew(alloc, Side::Left, &at.left, &at.key, value, &at.right)
}

/// One above the higher of two sides that one node can have.
pub fn height_above<K: Drop, V: Drop>(left: &Tree<K, V>, right: &Tree<K, V>) -> u8
    requires few { length left.now.0 + length right.now.0 + 1 < 2 ^ 64 }
    ensures height { result ≡ max left.now.1 right.now.1 + 1 }
    ensures low { IsLow (length left.now.0) left.now.1 × IsLow (length right.now.0) right.now.1 }
{
    left.height().max(right.height()) + 1
}

/// The entries of two sides of about one height, with one between them, which is shared. The error is: out of memory.
pub fn joined<K: MapKey + Drop, V: Drop>(
    alloc: Global,
    left: Tree<K, V>,
    key: &K,
    value: &Arc<V>,
    right: Tree<K, V>,
) -> Result<Tree<K, V>, Memory>
    requires level { DifferByAtMost 2 left.1 right.1 }
    requires few { length left.0 + length right.0 + 1 < 2 ^ 64 }
    ensures { IfOk result (λ t. t ≡ (left.0 ++ (key.now, value.now.value) ∷ right.0, max left.1 right.1 + 1)) }
{
    let (key, value) = shared_entry(key, value)?;
    let height = height_above(&left, &right);
    let fork = Arc::new(
        alloc,
        Fork {
            left,
            key,
            value,
            height,
            right,
        },
    )?;
    Ok(Tree::over(fork))
}

// An equal key, and the value with one owner more. The error is: out of memory.
fn shared_entry<K: MapKey + Drop, V: Drop>(key: &K, value: &Arc<V>) -> Result<(K, Arc<V>), Memory>
    ensures { IfOk result (λ e. (e.0 ≡ key.now) × (e.1.value ≡ value.now.value)) }
{
    Ok((key.share()?, value.clone()?))
}

// The same, of a tree on that side and another one.
fn joined_on<K: MapKey + Drop, V: Drop>(
    alloc: Global,
    on: Side,
    side: Tree<K, V>,
    key: &K,
    value: &Arc<V>,
    other: Tree<K, V>,
) -> Result<Tree<K, V>, Memory>
    requires level { DifferByAtMost 2 side.1 other.1 }
    requires few { length side.0 + length other.0 + 1 < 2 ^ 64 }
    ensures { IfOk result (λ t. t ≡ (in_order on side.0 (key.now, value.now.value) other.0, max side.1 other.1 + 1)) }
{
    match on {
        Side::Left => joined(alloc, side, key, value, other),
        Side::Right => joined(alloc, other, key, value, side),
    }
}

// The same, where the tree on that side is shared.
fn joined_beside<K: MapKey + Drop, V: Drop>(
    alloc: Global,
    on: Side,
    side: &Tree<K, V>,
    key: &K,
    value: &Arc<V>,
    other: Tree<K, V>,
) -> Result<Tree<K, V>, Memory>
    requires level { DifferByAtMost 2 side.now.1 other.1 }
    requires few { length side.now.0 + length other.0 + 1 < 2 ^ 64 }
    ensures { IfOk result (λ t. t ≡ (in_order on side.now.0 (key.now, value.now.value) other.0, max side.now.1 other.1 + 1)) }
{
    let side = side.copy()?;
    joined_on(alloc, on, side, key, value, other)
}

// The same, where both are shared.
fn joined_anew<K: MapKey + Drop, V: Drop>(
    alloc: Global,
    on: Side,
    side: &Tree<K, V>,
    key: &K,
    value: &Arc<V>,
    other: &Tree<K, V>,
) -> Result<Tree<K, V>, Memory>
    requires level { DifferByAtMost 2 side.now.1 other.now.1 }
    requires few { length side.now.0 + length other.now.0 + 1 < 2 ^ 64 }
    ensures { IfOk result (λ t. t ≡ (in_order on side.now.0 (key.now, value.now.value) other.now.0, max side.now.1 other.now.1 + 1)) }
{
    let other = other.copy()?;
    joined_beside(alloc, on, side, key, value, other)
}

/// The entries of a tree on that side and of another one, whose heights differ by three at most, with one between them,
/// which is shared. The error is: out of memory.
pub fn balanced<K: MapKey + Drop, V: Drop>(
    alloc: Global,
    on: Side,
    side: Tree<K, V>,
    key: &K,
    value: &Arc<V>,
    other: Tree<K, V>,
) -> Result<Tree<K, V>, Memory>
    requires level { DifferByAtMost 3 side.1 other.1 }
    requires few { length side.0 + length other.0 + 1 < 2 ^ 64 }
    ensures { IfOk result (λ t. (t.0 ≡ in_order on side.0 (key.now, value.now.value) other.0) × IsSettled side.1 other.1 t.1) }
{
    let (height, beside) = (side.height(), other.height());
    if height > beside.saturating_add(1) {
        lowered(alloc, on, &side, key, value, other)
    } else if beside > height.saturating_add(1) {
        lowered(alloc, on.other(), &other, key, value, side)
    } else {
        joined_on(alloc, on, side, key, value, other)
    }
}

// The same, of a tree that is two or three higher than the other one.
fn lowered<K: MapKey + Drop, V: Drop>(
    alloc: Global,
    on: Side,
    side: &Tree<K, V>,
    key: &K,
    value: &Arc<V>,
    other: Tree<K, V>,
) -> Result<Tree<K, V>, Memory>
    requires higher { (other.1 + 2 ≤ side.now.1) × (side.now.1 ≤ other.1 + 3) }
    requires few { length side.now.0 + length other.0 + 1 < 2 ^ 64 }
    ensures { IfOk result (λ t. (t.0 ≡ in_order on side.now.0 (key.now, value.now.value) other.0) × (side.now.1 ≤ t.1) × (t.1 ≤ side.now.1 + 1)) }
{
    let Some(at) = side.top() else { unreachable!() };
    if at.on(on).height() < at.on(on.other()).height() {
        lowered_twice(alloc, on, at, key, value, other)
    } else {
        lowered_once(alloc, on, at, key, value, other)
    }
}

// The same, of that tree's node, which isn't higher towards the other tree.
fn lowered_once<K: MapKey + Drop, V: Drop>(
    alloc: Global,
    on: Side,
    at: &Fork<K, V>,
    key: &K,
    value: &Arc<V>,
    other: Tree<K, V>,
) -> Result<Tree<K, V>, Memory>
    requires balanced { IsBalanced (Some at.now) }
    requires higher { (other.1 + 2 ≤ at.now.height) × (at.now.height ≤ other.1 + 3) }
    requires leans { (side_on (opposite on) at.now).1 ≤ (side_on on at.now).1 }
    requires few { length (seen (Some at.now)).0 + length other.0 + 1 < 2 ^ 64 }
    ensures { IfOk result (λ t. (t.0 ≡ in_order on (seen (Some at.now)).0 (key.now, value.now.value) other.0) × (at.now.height ≤ t.1) × (t.1 ≤ at.now.height + 1)) }
{
    let other = joined_beside(alloc, on, at.on(on.other()), key, value, other)?;
    joined_beside(alloc, on, at.on(on), &at.key, &at.value, other)
}

// The same, of that tree's node, which is higher towards the other tree.
fn lowered_twice<K: MapKey + Drop, V: Drop>(
    alloc: Global,
    on: Side,
    at: &Fork<K, V>,
    key: &K,
    value: &Arc<V>,
    other: Tree<K, V>,
) -> Result<Tree<K, V>, Memory>
    requires balanced { IsBalanced (Some at.now) }
    requires higher { (other.1 + 2 ≤ at.now.height) × (at.now.height ≤ other.1 + 3) }
    requires leans { (side_on on at.now).1 < (side_on (opposite on) at.now).1 }
    requires few { length (seen (Some at.now)).0 + length other.0 + 1 < 2 ^ 64 }
    ensures { IfOk result (λ t. (t.0 ≡ in_order on (seen (Some at.now)).0 (key.now, value.now.value) other.0) × (at.now.height ≤ t.1) × (t.1 ≤ at.now.height + 1)) }
{
    let away = on.other();
    let Some(inner) = at.on(away).top() else {
        unreachable!()
    };
    let other = joined_beside(alloc, on, inner.on(away), key, value, other)?;
    let side = joined_anew(alloc, on, at.on(on), &at.key, &at.value, inner.on(on))?;
    joined_on(alloc, on, side, &inner.key, &inner.value, other)
}
