//! The bytes of a signature, piece by piece.

ghost use Rattle.std.specs.Prelude.{◌≡◌, ◌<◌, ◌+◌, ◌++◌, ◌*◌, length, IfOk, OnOk, ℕ};
ghost use Rattle.hash_signature_model.specs.Parameters.{leaves, levels, chains};
ghost use Rattle.hash_signature_model.specs.OneTime.{joined_values, signed_value};
ghost use Rattle.hash_signature_model.specs.Nodes.{sibling_of};
ghost use Rattle.hash_signature_model.specs.Signatures.{Signature, IsSignature, signature};
ghost use Rattle.lms_core.specs.Kept.{path_in};

use crate::leaf::Leaf;
use crate::walks::{PLACES, Walks, derive_all, digits};
use hash_signature_model::{Height, PrivateKey, Set};
use ivy_base::Memory;
use std::alloc::Global;

/// Appends bytes.
fn append(out: &mut Vec<u8>, bytes: &[u8]) -> Result<(), Memory>
    ensures { OnOk result (out.new.items ≡ out.old.items ++ bytes.now) }
{
    out.extend_from_slice(bytes)?;
    Ok(())
}

/// Appends the values of a one-time signature (RFC 8554, section 4.5).
fn push_values(
    out: &mut Vec<u8>,
    key: &PrivateKey,
    leaf: u32,
    code: &[u8; 34],
) -> Result<(), Memory>
    ensures { OnOk result (out.new.items ≡ out.old.items ++ joined_values (signed_value key.now.set.w key.now.id key.now.seed leaf code.now) (chains key.now.set.w)) }
{
    let w = key.set.w;
    let leaf = Leaf::of(&key.id, leaf);
    let walks = Walks {
        values: derive_all(&leaf, &key.seed, w),
        from: [0; PLACES],
        to: digits(w, code, 0),
    };
    let values = walks.walk_all(&leaf);
    'chains: for i in 0..w.chain_count() {
        append(out, &values[i as usize][..])?;
    }
    Ok(())
}

/// The number of the node beside a node.
fn number_beside(r: u32) -> u32
    requires { r < 4096 }
    ensures value { result ≡ sibling_of r }
    ensures inside { (n : ℕ) → r < 2 * n → result < 2 * n }
{
    if r % 2 == 1 { r - 1 } else { r + 1 }
}

/// Appends the nodes beside those on the way up from a leaf (RFC 8554, section 5.4.1).
fn push_path(out: &mut Vec<u8>, h: Height, leaf: u32, nodes: &[[u8; 32]]) -> Result<(), Memory>
    requires in_tree { leaf < leaves h }
    requires size { length nodes.now ≡ 2 * leaves h }
    ensures { OnOk result (out.new.items ≡ out.old.items ++ joined_values (path_in nodes.now h leaf) (levels h)) }
{
    let mut r = h.leaf_count() + leaf;
    'levels: for _n in 0..h.level_count() {
        append(out, &nodes[number_beside(r) as usize][..])?;
        r /= 2;
    }
    Ok(())
}

/// How many bytes a signature under that set has.
fn signature_size(set: Set) -> usize
    ensures { (s : Signature) → IsSignature set s → length (signature set s) ≡ result }
{
    12 + 32 * (1 + set.w.chain_count() as usize + set.h.level_count() as usize)
}

/// The bytes of a signature (RFC 8554, sections 4.5 and 5.4), from the leaf's randomizer, the code of the message and
/// the tree's nodes. It allocates once.
pub fn spell(
    alloc: Global,
    key: &PrivateKey,
    leaf: u32,
    randomizer: &[u8; 32],
    code: &[u8; 34],
    nodes: &[[u8; 32]],
) -> Result<Vec<u8>, Memory>
    requires in_tree { leaf < leaves key.now.set.h }
    requires size { length nodes.now ≡ 2 * leaves key.now.set.h }
    ensures { IfOk result (λ v. v.items ≡ signature key.now.set (record { leaf = leaf; randomizer = randomizer.now; values = joined_values (signed_value key.now.set.w key.now.id key.now.seed leaf code.now) (chains key.now.set.w); path = joined_values (path_in nodes.now key.now.set.h leaf) (levels key.now.set.h) })) }
{
    let mut out = Vec::with_capacity(alloc, signature_size(key.set))?;
    append(&mut out, &leaf.to_be_bytes())?;
    append(&mut out, &key.set.w.type_number().to_be_bytes())?;
    append(&mut out, &randomizer[..])?;
    push_values(&mut out, key, leaf, code)?;
    append(&mut out, &key.set.h.type_number().to_be_bytes())?;
    push_path(&mut out, key.set.h, leaf, nodes)?;
    Ok(out)
}
