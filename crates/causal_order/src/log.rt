//! What is kept of one member's log while records are taken.

ghost use Rattle.std.specs.Prelude.{◌≡◌, ◌+◌, ◌<◌, ◌≤◌, ◌^◌, ◌++◌, [], length, Some, IfOk, Contains, IfSome, IfNone, IsTrue, ◌↔◌};
ghost use Rattle.std.specs.List.{AllByRecursion};
ghost use Rattle.log_model.specs.Rank.{own_entry};
ghost use Rattle.log_model.specs.Record.{Record as Seen};
ghost use Rattle.log_model.specs.Closed.{log_of};
ghost use Rattle.version_vectors.specs.Entries.{stamped};
ghost use Rattle.log_records.specs.Records.{record_of};
ghost use Rattle.log_records.specs.Records.{records_of};
ghost use Rattle.causal_order.specs.Over.{IsChainOver};
ghost use Rattle.causal_order.specs.Kept.{IsAt, IsKept, IsAdvanced, IsCleared, IsInFront, known_of};

use crate::base::Base;
use ivy_base::{Key, Memory, PubKey};
use log_records::Record;
use std::collections::VecDeque;
use version_vectors::{Entry, Rank};

/// A member's log: which of its records are known, and which are still to be seen.
#[derive(Drop)]
pub struct Log {
    /// Whose log it is.
    pub owner: PubKey,
    /// Its head key.
    pub key: Key,
    /// The number of the front's record; 0 where the front has none.
    pub base: u32,
    /// The places of the log's records among all that are known, from the one after the front's on.
    pub places: Vec<usize>,
    /// The name of the newest record that is known, or else of the front's.
    pub tip: Option<Key>,
    /// The records that are still to be seen.
    pub queue: VecDeque<Record>,
    /// The name of the last of them.
    pub last: Key,
    /// The rank of the first of them.
    pub next: Option<Rank>,
}

impl Log {
    /// The name of the known record of that index: the next one has it as the name of the one before, and the newest
    /// one's is kept.
    fn name_at(&self, base: &Base<'_>, taken: &[Record], i: usize) -> Option<Key>
        requires kept { IsKept base.now.front.now (known_of base.now taken.now) self.now }
        requires chain { IsChainOver base.now.view.now base.now.front.now self.now.owner (log_of self.now.owner (known_of base.now taken.now)) }
        requires within { i < length self.now.places.items }
        ensures { (r : Seen) → IsAt (log_of self.now.owner (known_of base.now taken.now)) i r → result ≡ Some r.name }
    {
        if i + 1 < self.places.len() {
            Some(record_at(base.held, taken, self.places[i + 1]).prev)
        } else {
            self.tip
        }
    }

    /// The place of the known record of that entry, one of the log's after the front.
    pub fn place_of(&self, base: &Base<'_>, taken: &[Record], entry: &Entry) -> Option<usize>
        requires kept { IsKept base.now.front.now (known_of base.now taken.now) self.now }
        requires chain { IsChainOver base.now.view.now base.now.front.now self.now.owner (log_of self.now.owner (known_of base.now taken.now)) }
        requires behind { self.now.base < entry.now.seq }
        ensures some { IfSome result (λ place. (r : Seen) × IsAt (known_of base.now taken.now) place r × Contains (log_of self.now.owner (known_of base.now taken.now)) r × ((own_entry r).1 ≡ (stamped entry.now).1)) }
        ensures none { IfNone result ((r : Seen) → Contains (log_of self.now.owner (known_of base.now taken.now)) r → (own_entry r).1 ≡ (stamped entry.now).1 → ⊥) }
    {
        let i = (entry.seq - self.base - 1) as usize;
        if i >= self.places.len() {
            return None;
        }
        if self.has_name(base, taken, i, &entry.name) {
            Some(self.places[i])
        } else {
            None
        }
    }

    /// The next record.
    pub fn front(&self) -> Option<&Record>
        ensures some { IfSome result (λ r. IsInFront r.now self.now.queue.items) }
        ensures none { IfNone result (self.now.queue.items ≡ []) }
    {
        self.queue.front()
    }

    /// Takes the next record from the queue, which is to stand at that place.
    ///
    /// There is none where the queue is empty. The error is: out of memory; after either the log isn't used again.
    pub fn advance(&mut self, place: usize) -> Result<Option<Record>, Memory>
        requires { AllByRecursion (λ r. length r.vector ≤ 2 ^ 31) self.old.queue.items }
        ensures taken { IfOk result (λ next. IfSome next (IsAdvanced self.old self.new place)) }
        ensures none { IfOk result (λ next. IfNone next (self.old.queue.items ≡ [])) }
    {
        self.places.push(place)?;
        let Some(record) = self.queue.pop_front() else {
            return Ok(None);
        };
        self.tip = Some(self.queue.front().map_or(self.last, |next| next.prev));
        self.next = self.queue.front().map(|next| next.rank());
        Ok(Some(record))
    }

    /// Drops what is left in the queue.
    pub fn clear(&mut self)
        ensures { IsCleared self.old self.new }
    {
        self.queue.clear();
        self.next = None;
    }

    /// Whether the known record of that index has that name.
    fn has_name(&self, base: &Base<'_>, taken: &[Record], i: usize, name: &Key) -> bool
        requires kept { IsKept base.now.front.now (known_of base.now taken.now) self.now }
        requires chain { IsChainOver base.now.view.now base.now.front.now self.now.owner (log_of self.now.owner (known_of base.now taken.now)) }
        requires within { i < length self.now.places.items }
        ensures { (r : Seen) → IsAt (log_of self.now.owner (known_of base.now taken.now)) i r → IsTrue result ↔ (r.name ≡ name.now) }
    {
        match self.name_at(base, taken, i) {
            Some(own) => own == *name,
            None => false,
        }
    }
}

/// The record at that place: those that were held come first, and then those that were taken.
pub fn record_at<'a>(held: &'a [Record], taken: &'a [Record], place: usize) -> &'a Record
    requires { place < length held.now + length taken.now }
    ensures { IsAt (records_of held.now ++ records_of taken.now) place (record_of result.now) }
{
    if place < held.len() {
        &held[place]
    } else {
        &taken[place - held.len()]
    }
}
