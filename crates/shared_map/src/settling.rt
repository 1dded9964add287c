//! Nodes whose sides were changed: their heights are set again, and one that leans is turned in place.
//!
//! No memory is taken. What a turn would change and has several owners stays as it is: the node then leans on, within what
//! a tree may.

ghost use Rattle.std.specs.Prelude.{◌≡◌, ◌+◌, ◌^◌, ◌<◌, ◌≤◌, max, length, MatchBool, Some};
ghost use Rattle.shared_map.specs.Trees.{seen, side_on, with_side, of_parts, opposite, in_order, IsTree, IsSettled, IsStraight, DifferByAtMost};

use crate::joining::height_above;
use crate::tree::{Fork, Side, Tree};
use std::mem;
use std::sync::Arc;

/// Puts a side back that was taken out, and settles the node where that side is as high as the node. While the side is lower,
/// the node's height is still right, so that nothing else is written and the other side's node isn't read.
pub fn give_back<K: Drop, V: Drop>(at: &mut Fork<K, V>, on: Side, side: Tree<K, V>)
    requires level { DifferByAtMost 2 side.1 (side_on (opposite on) at.old).1 }
    requires few { length side.0 + length (side_on (opposite on) at.old).0 + 1 < 2 ^ 64 }
    requires tree { side.1 < at.old.height → IsTree (with_side on side at.old) }
    ensures entries { (seen (Some at.new)).0 ≡ in_order on side.0 (at.old.key, at.old.value.value) (side_on (opposite on) at.old).0 }
    ensures tree { IsTree at.new }
    ensures lower { side.1 < at.old.height → at.new ≡ with_side on side at.old }
    ensures settled { at.old.height ≤ side.1 → IsSettled side.1 (side_on (opposite on) at.old).1 at.new.height }
{
    let height = side.height();
    at.set(on, side);
    if height >= at.height {
        settle(at);
    }
}

// Sets the height of a node whose sides differ by two at most, and turns the node where they differ by two, as far as
// that goes.
fn settle<K: Drop, V: Drop>(at: &mut Fork<K, V>)
    requires level { DifferByAtMost 2 at.old.left.1 at.old.right.1 }
    requires few { length at.old.left.0 + length at.old.right.0 + 1 < 2 ^ 64 }
    ensures entries { (seen (Some at.new)).0 ≡ (seen (Some at.old)).0 }
    ensures tree { IsTree at.new }
    ensures settled { IsSettled at.old.left.1 at.old.right.1 at.new.height }
{
    turn(at);
    set_height(at);
}

// Turns a node whose sides differ by two, as far as that goes.
fn turn<K: Drop, V: Drop>(at: &mut Fork<K, V>)
    requires level { DifferByAtMost 2 at.old.left.1 at.old.right.1 }
    requires few { length at.old.left.0 + length at.old.right.0 + 1 < 2 ^ 64 }
    ensures entries { (seen (Some at.new)).0 ≡ (seen (Some at.old)).0 }
    ensures level { DifferByAtMost 2 at.new.left.1 at.new.right.1 }
    ensures settled { IsSettled at.old.left.1 at.old.right.1 (max at.new.left.1 at.new.right.1 + 1) }
{
    let (on_left, on_right) = (at.left.height(), at.right.height());
    if on_left > on_right.saturating_add(1) {
        lower(at, Side::Left);
    } else if on_right > on_left.saturating_add(1) {
        lower(at, Side::Right);
    }
}

// Sets the height to one above that of the higher side.
fn set_height<K: Drop, V: Drop>(at: &mut Fork<K, V>)
    requires level { DifferByAtMost 2 at.old.left.1 at.old.right.1 }
    requires few { length at.old.left.0 + length at.old.right.0 + 1 < 2 ^ 64 }
    ensures only { at.new ≡ record at.old { height = max at.old.left.1 at.old.right.1 + 1 } }
    ensures tree { IsTree at.new }
{
    at.height = height_above(&at.left, &at.right);
}

// Turns a node whose side there is two higher, where the nodes that change have one owner.
fn lower<K: Drop, V: Drop>(at: &mut Fork<K, V>, on: Side)
    requires higher { (side_on on at.old).1 ≡ (side_on (opposite on) at.old).1 + 2 }
    requires few { length at.old.left.0 + length at.old.right.0 + 1 < 2 ^ 64 }
    ensures entries { (seen (Some at.new)).0 ≡ (seen (Some at.old)).0 }
    ensures level { DifferByAtMost 2 at.new.left.1 at.new.right.1 }
    ensures height { let h = max at.new.left.1 at.new.right.1 in ((side_on on at.old).1 ≤ h + 1) × (h ≤ (side_on on at.old).1) }
{
    let other = on.other();
    let Some(mut top) = at.take(on).into_top() else {
        unreachable!()
    };
    let Some(below) = Arc::get_mut(&mut top) else {
        at.set(on, Tree::over(top));
        return;
    };
    if straighten(below, other) {
        turn_away(at, below, on);
        at.set(other, Tree::over(top));
    } else {
        at.set(on, Tree::over(top));
    }
}

// Turns a node if its side there is the higher one, and answers whether the side isn't or that goes: the node on that
// side must have one owner.
fn straighten<K: Drop, V: Drop>(at: &mut Fork<K, V>, inner: Side) -> bool
    requires tree { IsTree at.old }
    requires few { length at.old.left.0 + length at.old.right.0 + 1 < 2 ^ 64 }
    ensures { MatchBool result (((seen (Some at.new)).0 ≡ (seen (Some at.old)).0) × IsStraight at.old.height (side_on (opposite inner) at.new).1 (side_on inner at.new).1) (at.new ≡ at.old) }
{
    let outer = inner.other();
    if at.on(inner).height() <= at.on(outer).height() {
        return true;
    }
    let Some(mut top) = at.take(inner).into_top() else {
        unreachable!()
    };
    let Some(below) = Arc::get_mut(&mut top) else {
        at.set(inner, Tree::over(top));
        return false;
    };
    turn_away(at, below, inner);
    at.set(outer, Tree::over(top));
    true
}

// Lets the node that was taken out of that side be the upper one, which gives up its other side for the entry and the
// other side of the upper one.
fn turn_away<K: Drop, V: Drop>(at: &mut Fork<K, V>, below: &mut Fork<K, V>, on: Side)
    requires level { DifferByAtMost 2 (side_on (opposite on) below.old).1 (side_on (opposite on) at.old).1 }
    requires few { length (side_on (opposite on) below.old).0 + length (side_on (opposite on) at.old).0 + 1 < 2 ^ 64 }
    ensures upper { at.new ≡ of_parts on (side_on on below.old) below.old.key below.old.value at.old.height (side_on on at.old) }
    ensures lower { below.new ≡ of_parts on (side_on (opposite on) below.old) at.old.key at.old.value (max (side_on (opposite on) below.old).1 (side_on (opposite on) at.old).1 + 1) (side_on (opposite on) at.old) }
    ensures tree { IsTree below.new }
{
    mem::swap(&mut at.key, &mut below.key);
    mem::swap(&mut at.value, &mut below.value);
    mem::swap(&mut below.left, &mut below.right);
    swap_side(at, below, on.other());
    mem::swap(&mut at.left, &mut at.right);
    set_height(below);
}

// Swaps the sides there of two nodes.
fn swap_side<K: Drop, V: Drop>(first: &mut Fork<K, V>, second: &mut Fork<K, V>, on: Side)
    ensures first { first.new ≡ with_side on (side_on on second.old) first.old }
    ensures second { second.new ≡ with_side on (side_on on first.old) second.old }
{
    match on {
        Side::Left => mem::swap(&mut first.left, &mut second.left),
        Side::Right => mem::swap(&mut first.right, &mut second.right),
    }
}
