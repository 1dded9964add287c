//! What the levels of a key sign.

ghost use Rattle.std.specs.Prelude.{◌≡◌, [], ◌<◌, ◌≤◌, ◌++◌, length, IfOk, OnOk};
ghost use Rattle.hash_signature_model.specs.Parameters.{leaves};
ghost use Rattle.hash_signature_model.specs.Signer.{signed_by, leaf_used, capacity};

use crate::trees::{Level, Lower};
use ivy_base::Memory;
use lms_core::Set;
use std::alloc::Global;

/// How many messages levels of these sets sign.
pub fn count_messages(sets: &[Set]) -> u64
    requires { length sets.now ≤ 3 }
    ensures { result ≡ capacity sets.now }
{
    match sets.split_first() {
        Some((set, lower)) => set.h.leaf_count() as u64 * count_messages(lower),
        None => 1,
    }
}

/// The leaf that signature n uses of a level above levels of these sets.
pub fn choose_leaf(set: Set, lower: &[Set], n: u64) -> u32
    requires { length lower.now ≤ 2 }
    ensures value { result ≡ leaf_used set lower.now n }
    ensures in_tree { result < leaves set.h }
{
    (n / count_messages(lower) % set.h.leaf_count() as u64) as u32
}

/// Appends bytes.
pub fn append(out: &mut Vec<u8>, bytes: &[u8]) -> Result<(), Memory>
    ensures { OnOk result (out.new.items ≡ out.old.items ++ bytes.now) }
{
    out.extend_from_slice(bytes)?;
    Ok(())
}

/// Appends the signature of a message by one leaf.
fn push_signature(
    alloc: Global,
    out: &mut Vec<u8>,
    level: &Level,
    n: u64,
    message: &[u8],
) -> Result<(), Memory>
    ensures { OnOk result (out.new.items ≡ out.old.items ++ signed_by level.now [] n message.now) }
{
    let leaf = choose_leaf(level.key().set, &[], n);
    let signature = level.sign_leaf(alloc, leaf, message)?;
    append(out, signature.as_slice())
}

/// Appends signature n of a message by a level and the levels below it, of which those that other leaves signed are
/// grown again.
pub fn push_signed(
    alloc: Global,
    out: &mut Vec<u8>,
    level: &Level,
    sets: &[Set],
    lower: &mut [Lower],
    n: u64,
    message: &[u8],
) -> Result<(), Memory>
    requires few { length sets.now ≤ 2 }
    requires same { length lower.old ≡ length sets.now }
    ensures { OnOk result (out.new.items ≡ out.old.items ++ signed_by level.now sets.now n message.now) }
{
    if let Some((set, others)) = sets.split_first() {
        if let Some((next, lower)) = lower.split_first_mut() {
            let leaf = choose_leaf(level.key().set, sets, n);
            next.renew(alloc, level, leaf, *set)?;
            append(out, next.signed())?;
            return push_signed(alloc, out, next.level(), others, lower, n, message);
        }
    }
    push_signature(alloc, out, level, n, message)
}
