//! The names to which heads lead.

ghost use Rattle.std.specs.Prelude.{◌≡◌, List, ℕ, IfOk, IfSome, map, take, drop, All};
ghost use Rattle.fork_proof.specs.Found.{tip_seen, walk_seen, AreNames, HasNames, Begins};

use crate::named::NamedBlocks;
use crate::tips::{Tip, begins};
use crate::ways::{MOST_BLOCKS, step_down};
use ivy_base::{Key, Memory, PubKey};
use std::alloc::Global;
use std::collections::BTreeMap;

/// A head, and the names to which it leads.
#[derive(Drop)]
pub struct Walk<'a> {
    /// The head.
    pub tip: Tip<'a>,
    /// The name that the head gives, then that of the record before it, and so on as far as the records are among the
    /// blocks: at most 1,025.
    pub names: Vec<Key>,
}

/// The walks down from these heads. The error is: out of memory.
pub fn walks_down<'a>(
    alloc: Global,
    blocks: &NamedBlocks<'_>,
    tips: &[Tip<'a>],
) -> Result<Vec<Walk<'a>>, Memory>
    ensures tips { IfOk result (λ walks. map walk_seen walks.items ≡ map tip_seen tips.now) }
    ensures names { IfOk result (λ walks. All (HasNames blocks.now) walks.items) }
{
    let mut walks = Vec::new(alloc);
    let mut places = BTreeMap::new(alloc);
    'tips: for tip in tips {
        let walk = walk_down(alloc, blocks, walks.as_slice(), &places, tip)?;
        places.insert(tip.name, walks.len())?;
        walks.push(walk)?;
    }
    Ok(walks)
}

/// The walk down from that head, where some were gone already, of which `places` has the last one of each name. The error
/// is: out of memory.
fn walk_down<'a>(
    alloc: Global,
    blocks: &NamedBlocks<'_>,
    earlier: &[Walk<'_>],
    places: &BTreeMap<Key, usize>,
    tip: &Tip<'a>,
) -> Result<Walk<'a>, Memory>
    requires { All (HasNames blocks.now) earlier.now }
    ensures tip { IfOk result (λ walk. walk.tip ≡ tip.now) }
    ensures names { IfOk result (HasNames blocks.now) }
{
    let names = names_down(alloc, blocks, earlier, places, tip)?;
    Ok(Walk { tip: *tip, names })
}

/// The names to which the head leads. From the first record on at which an earlier walk began, that one is gone. The error
/// is: out of memory.
fn names_down(
    alloc: Global,
    blocks: &NamedBlocks<'_>,
    earlier: &[Walk<'_>],
    places: &BTreeMap<Key, usize>,
    tip: &Tip<'_>,
) -> Result<Vec<Key>, Memory>
    requires { All (HasNames blocks.now) earlier.now }
    ensures { IfOk result (λ names. AreNames blocks.now (tip_seen tip.now) names.items) }
{
    let mut names = Vec::new(alloc);
    names.push(tip.name)?;
    let mut last = tip.name;
    'records: for above in 0..MOST_BLOCKS {
        let seq = tip.seq.saturating_sub(above);
        if let Some(walk) = walk_from(earlier, places, &tip.owner, seq, &last) {
            let more = (MOST_BLOCKS - above) as usize;
            names.extend_from_slice(below_first(walk.names.as_slice(), more))?;
            return Ok(names);
        }
        match step_down(alloc, blocks, &tip.owner, seq, &last)? {
            Some(step) => {
                names.push(step.prev)?;
                last = step.prev;
            }
            None => return Ok(names),
        }
    }
    Ok(names)
}

/// A walk that began at that record of the owner's.
fn walk_from<'w, 'a>(
    walks: &'w [Walk<'a>],
    places: &BTreeMap<Key, usize>,
    owner: &PubKey,
    seq: u32,
    name: &Key,
) -> Option<&'w Walk<'a>>
    ensures begins { IfSome result (λ w. Begins owner.now seq name.now w.now.tip) }
    ensures names { IfSome result (λ w. (blocks : List (List ℕ)) → All (HasNames blocks) walks.now → HasNames blocks w.now) }
{
    let place = places.get(name).copied()?;
    let walk = walks.get(place)?;
    if begins(&walk.tip, owner, seq, name) {
        Some(walk)
    } else {
        None
    }
}

/// At most so many names after the first one.
fn below_first(names: &[Key], most: usize) -> &[Key]
    ensures { result.now ≡ take most (drop 1 names.now) }
{
    match names.split_first() {
        Some((_, below)) => &below[..below.len().min(most)],
        None => names,
    }
}
