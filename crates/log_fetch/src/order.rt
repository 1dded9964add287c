//! The order in which the heads of a log are tried.

ghost use Rattle.std.specs.Prelude.{◌≡◌, ◌↔◌, ◌<◌, IsTrue, length, get_or, map, IfOk, OnOk};
ghost use Rattle.log_model.specs.Vector.{stamp_at};
ghost use Rattle.turn_model.specs.Candidates.{IsTriedBefore};
ghost use Rattle.session_model.specs.Brought.{stamp_of};
ghost use Rattle.session_model.specs.Walks.{InTryingOrder};
ghost use Rattle.log_fetch.specs.Order.{AreToTry, IsBehind, HasOneMore};

use dht_ids::Judged;
use ivy_base::{Key, Memory};
use std::alloc::Global;
use std::collections::VecDeque;
use version_vectors::Vector;

/// The heads of a log that go further than the floor, each once, by greatest number and then least name, and after them
/// the floor's entry, where that goes further than what is held. The error is: out of memory.
pub fn heads_to_try(
    alloc: Global,
    heads: &[Judged],
    log: &Key,
    held: u32,
    floor: &Vector,
) -> Result<VecDeque<Judged>, Memory>
    ensures { IfOk result (λ all. AreToTry (map stamp_of heads.now) (stamp_at floor.now log.now) held (map stamp_of all.items)) }
{
    let reached = floor.seq_of(log);
    let mut tried = Vec::new(alloc);
    'heads: for head in heads {
        if head.seq > reached {
            take_in(&mut tried, head)?;
        }
    }
    if let Some(entry) = floor.get(log) {
        if entry.seq > held {
            tried.push(Judged {
                seq: entry.seq,
                name: entry.name,
            })?;
        }
    }
    Ok(VecDeque::from(tried))
}

/// Takes a head in at its place among others, where it doesn't stand yet. The error is: out of memory.
fn take_in(tried: &mut Vec<Judged>, head: &Judged) -> Result<(), Memory>
    requires { InTryingOrder (map stamp_of tried.old.items) }
    ensures { OnOk result (HasOneMore (map stamp_of tried.old.items) (stamp_of head.now) (map stamp_of tried.new.items)) }
{
    let place = place_of(tried, head);
    if place < tried.len() && stands_at(tried, place, head) {
        return Ok(());
    }
    tried.insert(place, *head)?;
    Ok(())
}

/// How many of the first heads are tried before that one.
fn place_of(tried: &[Judged], head: &Judged) -> usize
    ensures { IsBehind (map stamp_of tried.now) (stamp_of head.now) result }
{
    let mut place = 0;
    'before: while place < tried.len() {
        if !goes_before(tried, place, head) {
            return place;
        }
        place += 1;
    }
    place
}

/// Whether the head at that place is tried before the other.
fn goes_before(tried: &[Judged], place: usize, head: &Judged) -> bool
    requires { place < length tried.now }
    ensures { IsTrue result ↔ IsTriedBefore (stamp_of (get_or tried.now place head.now)) (stamp_of head.now) }
{
    is_tried_before(&tried[place], head)
}

/// Whether the head stands at that place.
fn stands_at(tried: &[Judged], place: usize, head: &Judged) -> bool
    requires { place < length tried.now }
    ensures { IsTrue result ↔ (get_or tried.now place head.now ≡ head.now) }
{
    is_one(&tried[place], head)
}

/// Whether the heads are one.
fn is_one(head: &Judged, other: &Judged) -> bool
    ensures { IsTrue result ↔ (head.now ≡ other.now) }
{
    head == other
}

/// Whether the first head is tried before the other.
fn is_tried_before(first: &Judged, other: &Judged) -> bool
    ensures { IsTrue result ↔ IsTriedBefore (stamp_of first.now) (stamp_of other.now) }
{
    first.seq > other.seq || (first.seq == other.seq && first.name.cmp(&other.name).is_lt())
}
