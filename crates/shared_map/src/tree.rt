//! Trees of entries in order, which share their parts: a node is changed where it has one owner, and else copied.

ghost use Rattle.std.specs.Prelude.{◌≡◌, [], length, IfOk, Some};
ghost use Rattle.std.specs.Option.{option_copied};
ghost use Rattle.shared_map.specs.Trees.{seen, top as top_of, side_on, with_side, opposite, side_to, IsBalanced, IsLow};

use crate::key::MapKey;
use ivy_base::Memory;
use std::alloc::{AllocError, Global};
use std::cmp::Ordering;
use std::marker::Model;
use std::mem;
use std::sync::Arc;

/// Entries in order, as a tree; seen as their list, and the tree's height.
#[cycle(tree)]
#[derive(Drop)]
pub struct Tree<K, V> {
    root: Option<Arc<Fork<K, V>>>,
}

/// A node: an entry, with the entries before it and those after it.
#[cycle(tree)]
#[derive(Drop)]
pub struct Fork<K, V> {
    pub left: Tree<K, V>,
    pub key: K,
    pub value: Arc<V>,
    pub height: u8,
    pub right: Tree<K, V>,
}

/// A side of a node.
#[derive(Clone, Copy)]
pub enum Side {
    /// Where the entries before the node's own are.
    Left,
    /// Where those after it are.
    Right,
}

impl Side {
    /// The side of an entry on which a key is that compares so with the entry's, unless they are equal.
    pub fn to(order: Ordering) -> Option<Side>
        ensures { result ≡ side_to order }
    {
        match order {
            Ordering::Less => Some(Side::Left),
            Ordering::Equal => None,
            Ordering::Greater => Some(Side::Right),
        }
    }

    /// The other side.
    pub fn other(self) -> Side
        ensures { result ≡ opposite self }
    {
        match self {
            Side::Left => Side::Right,
            Side::Right => Side::Left,
        }
    }
}

impl<K, V> Model for Tree<K, V> {
    ghost use Rattle.std.specs.Prelude.{ℕ, List, length};

    ghost Value = { List (K × V) × ℕ };

    ghost use Rattle.shared_map.specs.Trees.{seen, top, IsBalanced, IsLow};

    ghost view = { λ t. seen (top t.root) };

    ghost invariant = { λ t. IsBalanced (top t.root) × IsLow (length (seen (top t.root)).0) (seen (top t.root)).1 };

    ghost size = { λ t. length t.0 };

    ghost use Rattle.std.proofs.Common.{arith, length-append};

    ghost size_decreases = { λ t h. Prim.grind (arith, length-append) };
}

impl<K: Drop, V: Drop> Tree<K, V> {
    /// None.
    pub fn new() -> Tree<K, V>
        ensures { result ≡ ([], 0) }
    {
        Tree { root: None }
    }

    /// The same tree; no memory is taken. The error is that there are too many copies.
    pub fn copy(&self) -> Result<Tree<K, V>, Memory>
        ensures { IfOk result (λ t. t ≡ self.now) }
    {
        match &self.root {
            None => Ok(Tree { root: None }),
            Some(fork) => Ok(Tree {
                root: Some(fork.clone()?),
            }),
        }
    }

    /// The node at the top.
    pub fn top(&self) -> Option<&Fork<K, V>>
        ensures top { seen (option_copied result) ≡ self.now }
        ensures balanced { IsBalanced (option_copied result) }
    {
        match &self.root {
            None => None,
            Some(fork) => Some(&**fork),
        }
    }

    /// Takes the node at the top out, so that nothing is left.
    pub fn take(&mut self) -> Option<Arc<Fork<K, V>>>
        ensures top { seen (top_of result) ≡ self.old }
        ensures balanced { IsBalanced (top_of result) }
        ensures low { IsLow (length self.old.0) self.old.1 }
        ensures rest { self.new ≡ ([], 0) }
    {
        self.root.take()
    }

    /// The node at the top, without the tree around it.
    pub fn into_top(self) -> Option<Arc<Fork<K, V>>>
        ensures top { seen (top_of result) ≡ self }
        ensures balanced { IsBalanced (top_of result) }
        ensures low { IsLow (length self.0) self.1 }
    {
        let Tree { root } = self;
        root
    }

    /// How high the tree is.
    pub fn height(&self) -> u8
        ensures height { result ≡ self.now.1 }
        ensures low { IsLow (length self.now.0) result }
    {
        match &self.root {
            None => 0,
            Some(fork) => fork.height,
        }
    }

    /// The tree of that node.
    pub fn over(fork: Arc<Fork<K, V>>) -> Tree<K, V>
        requires balanced { IsBalanced (Some fork.value) }
        requires low { IsLow (length (seen (Some fork.value)).0) fork.value.height }
        ensures { result ≡ seen (Some fork.value) }
    {
        Tree { root: Some(fork) }
    }
}

impl<K: Drop, V: Drop> Fork<K, V> {
    /// This side.
    pub fn on(&self, side: Side) -> &Tree<K, V>
        ensures { result.now ≡ side_on side self.now }
    {
        match side {
            Side::Left => &self.left,
            Side::Right => &self.right,
        }
    }

    /// Takes this side out, so that nothing is left there.
    pub fn take(&mut self, side: Side) -> Tree<K, V>
        ensures side { result ≡ side_on side self.old }
        ensures rest { self.new ≡ with_side side ([], 0) self.old }
    {
        match side {
            Side::Left => mem::replace(&mut self.left, Tree::new()),
            Side::Right => mem::replace(&mut self.right, Tree::new()),
        }
    }

    /// Puts the tree on this side.
    pub fn set(&mut self, side: Side, tree: Tree<K, V>)
        ensures { self.new ≡ with_side side tree self.old }
    {
        match side {
            Side::Left => self.left = tree,
            Side::Right => self.right = tree,
        }
    }
}

impl<K: MapKey + Drop, V: Drop> Clone for Fork<K, V> {
    ghost use Rattle.shared_map.specs.Trees.{IsCopy};

    ghost is_clone = { IsCopy };

    fn clone(&self) -> Result<Fork<K, V>, AllocError> {
        match self.shared() {
            Ok(fork) => Ok(fork),
            Err(_) => Err(AllocError),
        }
    }
}

impl<K: MapKey + Drop, V: Drop> Fork<K, V> {
    ghost use Rattle.shared_map.specs.Trees.{IsCopy};

    // The same node, which shares its sides and its value.
    fn shared(&self) -> Result<Fork<K, V>, Memory>
        ensures { IfOk result (IsCopy self.now) }
    {
        Ok(Fork {
            left: self.left.copy()?,
            key: self.key.share()?,
            value: self.value.clone()?,
            height: self.height,
            right: self.right.copy()?,
        })
    }
}
