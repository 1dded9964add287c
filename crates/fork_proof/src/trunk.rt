//! The trunk of a log: the numbers below which all heads lead to one name of each number.

ghost use Rattle.std.specs.Prelude.{◌≡◌, List, ℕ, IfOk, OnOk, IfSome, All, filter};
ghost use Rattle.fork_proof.specs.Found.{Begins};
ghost use Rattle.fork_proof.specs.Trunks.{HasName, Keeps, LeadsAlong, is_beyond};

use crate::named::NamedBlocks;
use crate::tips::{Tip, begins};
use crate::ways::{MOST_BLOCKS, step_down};
use ivy_base::{Key, Memory, PubKey};
use std::alloc::Global;
use std::collections::BTreeMap;

/// The names to which heads lead, as far as there is one of each number.
#[derive(Drop)]
pub struct Trunk {
    /// The first name of each number to which a head leads.
    names: BTreeMap<u32, Key>,
    /// No head leads to another name of a number below this one.
    ends: u32,
}

/// The trunk of these heads. The error is: out of memory.
///
/// From each head it goes down as far as a proof may go. Where it comes to the record of a head from which it went down
/// already, it goes no further. The heads may be of several logs, whose names of one number are two, then.
pub fn trunk_of(alloc: Global, blocks: &NamedBlocks<'_>, tips: &[Tip<'_>]) -> Result<Trunk, Memory>
    ensures { IfOk result (λ trunk. All (LeadsAlong blocks.now trunk) tips.now) }
{
    let mut trunk = Trunk {
        names: BTreeMap::new(alloc),
        ends: u32::MAX,
    };
    let mut places = BTreeMap::new(alloc);
    'walked: for (place, tip) in tips.iter().enumerate() {
        note_down(alloc, blocks, &tips[..place], &places, tip, &mut trunk)?;
        places.insert(tip.name, place)?;
    }
    Ok(trunk)
}

/// Notes the names to which the head leads, where those of earlier ones are noted, of which `places` has the last one of each
/// name. The error is: out of memory.
fn note_down(
    alloc: Global,
    blocks: &NamedBlocks<'_>,
    earlier: &[Tip<'_>],
    places: &BTreeMap<Key, usize>,
    tip: &Tip<'_>,
    trunk: &mut Trunk,
) -> Result<(), Memory>
    requires { All (LeadsAlong blocks.now trunk.old) earlier.now }
    ensures leads { OnOk result (LeadsAlong blocks.now trunk.new tip.now) }
    ensures keeps { OnOk result (Keeps trunk.old trunk.new) }
{
    let mut last = tip.name;
    'records: for above in 0..MOST_BLOCKS + 1 {
        let seq = tip.seq.saturating_sub(above);
        if tip_from(earlier, places, &tip.owner, seq, &last).is_some() {
            return Ok(());
        }
        note(trunk, seq, &last)?;
        match step_down(alloc, blocks, &tip.owner, seq, &last)? {
            Some(step) => last = step.prev,
            None => return Ok(()),
        }
    }
    Ok(())
}

/// One of the heads that is of that record of the owner's.
fn tip_from<'t, 'a>(
    tips: &'t [Tip<'a>],
    places: &BTreeMap<Key, usize>,
    owner: &PubKey,
    seq: u32,
    name: &Key,
) -> Option<&'t Tip<'a>>
    ensures begins { IfSome result (λ t. Begins owner.now seq name.now t.now) }
    ensures leads { IfSome result (λ t. (blocks : List (List ℕ)) (trunk : Trunk) → All (LeadsAlong blocks trunk) tips.now → LeadsAlong blocks trunk t.now) }
{
    let place = places.get(name).copied()?;
    let tip = tips.get(place)?;
    if begins(tip, owner, seq, name) {
        Some(tip)
    } else {
        None
    }
}

/// Notes that a head leads to that name of that number. The error is: out of memory.
fn note(trunk: &mut Trunk, seq: u32, name: &Key) -> Result<(), Memory>
    ensures has { OnOk result (HasName trunk.new seq name.now) }
    ensures keeps { OnOk result (Keeps trunk.old trunk.new) }
{
    match trunk.names.get(&seq).copied() {
        Some(noted) => {
            if noted != *name {
                trunk.ends = trunk.ends.min(seq);
            }
        }
        None => {
            trunk.names.insert(seq, *name)?;
        }
    }
    Ok(())
}

/// Drops the heads whose numbers are below the trunk's end.
pub fn drop_trunk(tips: &mut Vec<Tip<'_>>, trunk: &Trunk)
    ensures { tips.new.items ≡ filter (is_beyond trunk.now) tips.old.items }
{
    tips.retain(|tip| lies_beyond(tip, trunk));
}

/// Whether the head's number isn't below the trunk's end.
fn lies_beyond(tip: &Tip<'_>, trunk: &Trunk) -> bool
    ensures { result ≡ is_beyond trunk.now tip.now }
{
    tip.seq >= trunk.ends
}
