//! The array of a tree's nodes: node r stands at index r, and index 0 isn't used.

ghost use Rattle.std.specs.Prelude.{◌≡◌, ◌+◌, ◌*◌, ◌%◌, ◌<◌, ◌≤◌, length, IfOk};
ghost use Rattle.hash_signature_model.specs.Parameters.{leaves};
ghost use Rattle.lms_core.specs.Kept.{AreLeaves, HoldsLeaves, AreInner, SameFrom, AreNodes};

use crate::hashing::{hash_inner, hash_leaf};
use crate::one_time::make_keys;
use hash_signature_model::PrivateKey;
use ivy_base::Memory;
use std::alloc::Global;
use std::thread;
use std::thread::Threads;

/// Writes the nodes of some leaves, from leaf number `first` on, four at a time.
fn fill_leaves(key: &PrivateKey, first: u32, out: &mut [[u8; 32]])
    requires whole { length out.old % 4 ≡ 0 }
    requires in_tree { first + length out.old ≤ leaves key.now.set.h }
    ensures { AreLeaves key.now first out.new (length out.old) }
{
    let count = key.set.h.leaf_count();
    'fours: for four in 0..out.len() / 4 {
        let leaf = first + 4 * four as u32;
        let [key0, key1, key2, key3] = make_keys(key, leaf);
        out[4 * four] = hash_leaf(&key.id, count + leaf, &key0);
        out[4 * four + 1] = hash_leaf(&key.id, count + leaf + 1, &key1);
        out[4 * four + 2] = hash_leaf(&key.id, count + leaf + 2, &key2);
        out[4 * four + 3] = hash_leaf(&key.id, count + leaf + 3, &key3);
    }
}

/// Writes the nodes above the leaves' nodes, which are the upper half.
fn fill_inner(id: &[u8; 16], count: usize, nodes: &mut [[u8; 32]])
    requires count_fits { count ≤ 1024 }
    requires size { length nodes.old ≡ 2 * count }
    ensures kept { length nodes.new ≡ 2 * count }
    ensures inner { AreInner id.now 1 count nodes.new }
    ensures same { SameFrom count nodes.old nodes.new }
{
    let mut r = count;
    'inner: while r > 1 {
        r -= 1;
        let node = hash_inner(id, r as u32, &nodes[2 * r], &nodes[2 * r + 1]);
        nodes[r] = node;
    }
}

/// Writes the nodes above the leaves' nodes of a tree.
fn fill_above(key: &PrivateKey, nodes: &mut [[u8; 32]])
    requires size { length nodes.old ≡ 2 * leaves key.now.set.h }
    requires leaves { HoldsLeaves key.now nodes.old }
    ensures { AreNodes key.now nodes.new }
{
    fill_inner(&key.id, key.set.h.leaf_count() as usize, nodes);
}

/// Writes all nodes of a tree.
fn fill(key: &PrivateKey, nodes: &mut [[u8; 32]])
    requires { length nodes.old ≡ 2 * leaves key.now.set.h }
    ensures { AreNodes key.now nodes.new }
{
    let count = key.set.h.leaf_count() as usize;
    fill_leaves(key, 0, &mut nodes[count..]);
    fill_inner(&key.id, count, nodes);
}

/// All nodes of a tree.
pub fn all_nodes(alloc: Global, key: &PrivateKey) -> Result<Vec<[u8; 32]>, Memory>
    ensures { IfOk result (λ v. AreNodes key.now v.items) }
{
    let mut nodes = vec![in alloc; [0u8; 32]; 2 * key.set.h.leaf_count() as usize]?;
    fill(key, nodes.as_mut_slice());
    Ok(nodes)
}

/// The nodes of some leaves, from leaf number `first` on.
fn some_leaves(
    alloc: Global,
    key: &PrivateKey,
    first: u32,
    count: u32,
) -> Result<Vec<[u8; 32]>, Memory>
    requires whole { count % 4 ≡ 0 }
    requires in_tree { first + count ≤ leaves key.now.set.h }
    ensures { IfOk result (λ v. (length v.items ≡ count) × AreLeaves key.now first v.items count) }
{
    let mut nodes = vec![in alloc; [0u8; 32]; count as usize]?;
    fill_leaves(key, first, nodes.as_mut_slice());
    Ok(nodes)
}

/// All nodes of a tree, from those of the left and of the right half of its leaves.
fn assemble(
    alloc: Global,
    key: &PrivateKey,
    left: &[[u8; 32]],
    right: &[[u8; 32]],
) -> Result<Vec<[u8; 32]>, Memory>
    requires left { (2 * length left.now ≡ leaves key.now.set.h) × AreLeaves key.now 0 left.now (length left.now) }
    requires right { (2 * length right.now ≡ leaves key.now.set.h) × AreLeaves key.now (length left.now) right.now (length right.now) }
    ensures { IfOk result (λ v. AreNodes key.now v.items) }
{
    let count = key.set.h.leaf_count() as usize;
    let mut nodes = Vec::with_capacity(alloc, 2 * count)?;
    nodes.resize(count, [0u8; 32])?;
    nodes.extend_from_slice(left)?;
    nodes.extend_from_slice(right)?;
    fill_above(key, nodes.as_mut_slice());
    Ok(nodes)
}

/// All nodes of a tree, the two halves of its leaves at once.
pub fn all_nodes_joined<R: Threads>(
    rt: &R,
    alloc: Global,
    key: &PrivateKey,
) -> Result<Vec<[u8; 32]>, Memory>
    ensures { IfOk result (λ v. AreNodes key.now v.items) }
{
    let half = key.set.h.leaf_count() / 2;
    let (left, right) = thread::join(
        rt,
        || some_leaves(alloc, key, 0, half),
        || some_leaves(alloc, key, half, half),
    );
    let left = left?;
    let right = right?;
    assemble(alloc, key, &left[..], &right[..])
}
