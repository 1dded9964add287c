//! The search for two heads that blocks show as forked.

ghost use Rattle.std.specs.Prelude.{◌≡◌, ◌≤◌, ◌-◌, map, All, IsTrue, IfOk};
ghost use Rattle.std.specs.List.{slice_get};
ghost use Rattle.std.specs.Ordering.{eq_by_cmp};
ghost use Rattle.ivy_base.specs.Naming.{key_cmp, owner_cmp};
ghost use Rattle.fork_model.specs.Before.{Before, TellsRecords};
ghost use Rattle.fork_model.specs.Finding as model;
ghost use Rattle.fork_proof.specs.Found.{tip_seen, way_seen, walk_seen, HasNames, is_other};

use crate::named::NamedBlocks;
use crate::tips::{Tip, signed_heads};
use crate::trunk::{drop_trunk, trunk_of};
use crate::walked::{Walk, walks_down};
use crate::ways::{MOST_BLOCKS, Way, way_down};
use crate::writing::write_proof;
use ivy_base::{Bytes, Key, Memory, PubKey};
use std::alloc::Global;

/// The bytes of the proof of the first two heads that the blocks show as forked, where there are two such heads.
///
/// Two heads are shown as forked where both are signed, they are of one log, and their numbers differ by at most 1,024.
/// From the head of the greater number the names lead down to the other number, by records of the log with the numbers
/// between, whose blocks are among these. And the name to which they lead isn't the other head's. Of two pairs the first is
/// that with the earlier first head, and then with the earlier second one. In the proof the head of the smaller number
/// stands first, and of equal numbers the earlier one. Where blocks share a name, the first of them is the block of that name.
///
/// # Errors
///
/// Out of memory. No clause ties it to a cause.
pub fn find(alloc: Global, heads: &[Bytes], blocks: &[Bytes]) -> Result<Option<Bytes>, Memory>
    ensures { IfOk result (λ found. (before : Before) → TellsRecords before → found ≡ model.find_fork before heads.now blocks.now) }
{
    let mut tips = signed_heads(alloc, heads)?;
    let named = NamedBlocks::of(alloc, blocks)?;
    let trunk = trunk_of(alloc, &named, tips.as_slice())?;
    drop_trunk(&mut tips, &trunk);
    let walks = walks_down(alloc, &named, tips.as_slice())?;
    first_fork(alloc, &named, walks.as_slice())
}

/// The proof of the first two of these heads that the blocks show as forked. The error is: out of memory.
fn first_fork(
    alloc: Global,
    blocks: &NamedBlocks<'_>,
    walks: &[Walk<'_>],
) -> Result<Option<Bytes>, Memory>
    requires { All (HasNames blocks.now) walks.now }
    ensures { IfOk result (λ found. (before : Before) → TellsRecords before → found ≡ model.first_pair (model.fork_of before blocks.now) (map walk_seen walks.now)) }
{
    'firsts: for (place, one) in walks.iter().enumerate() {
        if let Some(found) = fork_with(alloc, blocks, one, &walks[place + 1..])? {
            return Ok(Some(found));
        }
    }
    Ok(None)
}

/// The proof of the head and of the first of the others with which it is shown as forked. The error is: out of memory.
fn fork_with(
    alloc: Global,
    blocks: &NamedBlocks<'_>,
    one: &Walk<'_>,
    others: &[Walk<'_>],
) -> Result<Option<Bytes>, Memory>
    requires one { HasNames blocks.now one.now }
    requires others { All (HasNames blocks.now) others.now }
    ensures { IfOk result (λ found. (before : Before) → TellsRecords before → found ≡ model.first_with (model.fork_of before blocks.now (walk_seen one.now)) (map walk_seen others.now)) }
{
    'others: for other in others {
        if let Some(found) = fork_of(alloc, blocks, one, other)? {
            return Ok(Some(found));
        }
    }
    Ok(None)
}

/// The proof of two heads in their order, where the blocks show them as forked. The error is: out of memory.
fn fork_of(
    alloc: Global,
    blocks: &NamedBlocks<'_>,
    one: &Walk<'_>,
    other: &Walk<'_>,
) -> Result<Option<Bytes>, Memory>
    requires one { HasNames blocks.now one.now }
    requires other { HasNames blocks.now other.now }
    ensures { IfOk result (λ found. (before : Before) → TellsRecords before → found ≡ model.fork_of before blocks.now (walk_seen one.now) (walk_seen other.now)) }
{
    if other.tip.seq < one.tip.seq {
        proof_of_fork(alloc, blocks, other, one)
    } else {
        proof_of_fork(alloc, blocks, one, other)
    }
}

/// The proof of a head and one whose number isn't smaller, where the blocks show them as forked. The way is gone down once more
/// only where they do. The error is: out of memory.
fn proof_of_fork(
    alloc: Global,
    blocks: &NamedBlocks<'_>,
    low: &Walk<'_>,
    high: &Walk<'_>,
) -> Result<Option<Bytes>, Memory>
    requires order { low.now.tip.seq ≤ high.now.tip.seq }
    requires names { HasNames blocks.now high.now }
    ensures { IfOk result (λ found. (before : Before) → TellsRecords before → found ≡ model.proof_of_fork before blocks.now (walk_seen low.now) (walk_seen high.now)) }
{
    if !are_near(&low.tip, &high.tip) || !leads_elsewhere(low, high) {
        return Ok(None);
    }
    proof_of_two(alloc, blocks, &low.tip, &high.tip)
}

/// The proof of two heads of one log that lie near each other, where the blocks show them as forked. The error is: out of memory.
fn proof_of_two(
    alloc: Global,
    blocks: &NamedBlocks<'_>,
    low: &Tip<'_>,
    high: &Tip<'_>,
) -> Result<Option<Bytes>, Memory>
    requires order { low.now.seq ≤ high.now.seq }
    requires near { IsTrue (model.are_near (tip_seen low.now) (tip_seen high.now)) }
    ensures { IfOk result (λ found. (before : Before) → TellsRecords before → found ≡ model.proof_of_fork before blocks.now (tip_seen low.now) (tip_seen high.now)) }
{
    match way_down(alloc, blocks, high, high.seq - low.seq)? {
        Some(way) => proof_by(alloc, low, high, &way),
        None => Ok(None),
    }
}

/// Whether the higher head leads to another name of the lower one's number than that one gives.
fn leads_elsewhere(low: &Walk<'_>, high: &Walk<'_>) -> bool
    requires { low.now.tip.seq ≤ high.now.tip.seq }
    ensures { result ≡ is_other low.now.tip.name (slice_get high.now.names.items (high.now.tip.seq - low.now.tip.seq)) }
{
    match high.names.get((high.tip.seq - low.tip.seq) as usize) {
        Some(name) => !is_same_name(name, &low.tip.name),
        None => false,
    }
}

/// Whether the heads are of one log, and their numbers differ by no more than a proof has blocks.
fn are_near(low: &Tip<'_>, high: &Tip<'_>) -> bool
    requires { low.now.seq ≤ high.now.seq }
    ensures { result ≡ model.are_near (tip_seen low.now) (tip_seen high.now) }
{
    is_same_owner(&low.owner, &high.owner) && high.seq - low.seq <= MOST_BLOCKS
}

/// Whether the public keys are one.
fn is_same_owner(a: &PubKey, b: &PubKey) -> bool
    ensures { result ≡ eq_by_cmp owner_cmp a.now b.now }
{
    a == b
}

/// The proof, where the way leads elsewhere than to the record that the lower head names. The error is: out of memory.
fn proof_by(
    alloc: Global,
    low: &Tip<'_>,
    high: &Tip<'_>,
    way: &Way<'_>,
) -> Result<Option<Bytes>, Memory>
    ensures { IfOk result (λ found. found ≡ model.proof_by (tip_seen low.now) (tip_seen high.now) (way_seen way.now)) }
{
    if is_same_name(&way.last, &low.name) {
        return Ok(None);
    }
    let bytes = write_proof(alloc, low.bytes, high.bytes, way.blocks.as_slice())?;
    Ok(Some(bytes))
}

/// Whether the names are one.
fn is_same_name(a: &Key, b: &Key) -> bool
    ensures { result ≡ eq_by_cmp key_cmp a.now b.now }
{
    a == b
}
