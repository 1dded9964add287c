//! Where a pass begins: what is held of each member's log, and what of the fetched chains goes on from it.

ghost use Rattle.std.specs.Prelude.{List, ◌≡◌, ◌<◌, ◌++◌, ◌↔◌, [], ◌∷◌, length, map, Contains, IsTrue, IfOk, IfSome, IfNone, None, slice_index_or};
ghost use Rattle.std.specs.List.{All, AllByRecursion};
ghost use Rattle.log_model.specs.View.{IsView};
ghost use Rattle.log_model.specs.Vector.{stamp_at};
ghost use Rattle.log_model.specs.Record.{Record as Seen};
ghost use Rattle.log_model.specs.Spelling.{HasSpelling};
ghost use Rattle.log_model.specs.Closed.{log_of};
ghost use Rattle.log_model.specs.Fetched.{owner_of};
ghost use Rattle.log_records.specs.Records.{record_of};
ghost use Rattle.log_records.specs.Records.{records_of};
ghost use Rattle.causal_order.specs.Over.{IsClosed};
ghost use Rattle.causal_order.specs.Available.{IsAvailable, IsFetched, IsLinked, news};
ghost use Rattle.causal_order.specs.Passing.{IsTaken};
ghost use Rattle.causal_order.specs.Kept.{AreAt, AreKept, IsKept, known_of, newest_name, queue_of};
ghost use Rattle.causal_order.specs.Started.{HaveOwnOwners, HasQueued, IsHeldLog, Joins, KnowsNewest, TakesIn};

use crate::base::Base;
use crate::causes::knows;
use crate::log::Log;
use ivy_base::{Key, Memory, PubKey};
use log_records::{Chain, Record};
use std::alloc::Global;
use std::collections::VecDeque;

/// The members' logs as they are when a pass begins: of each the places of what is held, and the records of its chain
/// that go on from that. The error is: out of memory.
pub fn begin(alloc: Global, base: &Base<'_>, chains: Vec<Chain>) -> Result<Vec<Log>, Memory>
    requires view { IsView base.now.view.now }
    requires held { IsClosed base.now.view.now base.now.front.now (records_of base.now.held.now) }
    requires fetched { AllByRecursion (λ c. IsFetched base.now.view.now base.now.front.now (records_of base.now.held.now) (records_of c.records)) chains.items }
    requires named { AllByRecursion (λ c. IfSome (newest_name None (records_of c.records)) (λ n. n ≡ c.head.name)) chains.items }
    requires apart { HaveOwnOwners (map (λ c. records_of c.records) chains.items) }
    ensures kept { IfOk result (λ logs. AreKept base.now.view.now base.now.front.now (known_of base.now []) logs.items) }
    ensures taken { IfOk result (λ logs. IsTaken base.now.view.now base.now.front.now (IsAvailable base.now.view.now base.now.front.now (records_of base.now.held.now) (map (λ c. records_of c.records) chains.items)) (known_of base.now []) [] (map queue_of logs.items)) }
{
    let mut logs = held_logs(alloc, base)?;
    take_chains(base, logs.as_mut_slice(), chains);
    Ok(logs)
}

/// Of each member the log as it is held. The error is: out of memory.
fn held_logs(alloc: Global, base: &Base<'_>) -> Result<Vec<Log>, Memory>
    ensures owners { IfOk result (λ logs. map (λ l. l.owner) logs.items ≡ base.now.view.now.members) }
    ensures held { IfOk result (λ logs. All (λ l. IsHeldLog base.now.front.now (records_of base.now.held.now) l.owner l) logs.items) }
{
    let members = base.view.members();
    let mut logs = Vec::with_capacity(alloc, members.len())?;
    'members: for owner in members {
        logs.push(held_log(alloc, base, owner)?)?;
    }
    Ok(logs)
}

/// The owner's log as it is held. The error is: out of memory.
fn held_log(alloc: Global, base: &Base<'_>, owner: &PubKey) -> Result<Log, Memory>
    ensures { IfOk result (IsHeldLog base.now.front.now (records_of base.now.held.now) owner.now) }
{
    let key = base.view.head_key(owner);
    let places = places_of(alloc, base.held, owner)?;
    let tip = tip_of(alloc, base, &key, places.as_slice())?;
    Ok(Log {
        owner: *owner,
        key,
        base: base.front.seq_of(&key),
        places,
        tip,
        queue: VecDeque::new(alloc),
        last: key,
        next: None,
    })
}

/// Where the owner's records stand. The error is: out of memory.
fn places_of(alloc: Global, held: &[Record], owner: &PubKey) -> Result<Vec<usize>, Memory>
    ensures { IfOk result (λ places. AreAt (records_of held.now) places.items (log_of owner.now (records_of held.now))) }
{
    let mut places = Vec::new(alloc);
    'held: for (i, record) in held.iter().enumerate() {
        if is_owner(&record.owner, owner) {
            places.push(i)?;
        }
    }
    Ok(places)
}

/// The name of the record at the last of the places, and where there are none that of the front's. The error is: out
/// of memory.
fn tip_of(
    alloc: Global,
    base: &Base<'_>,
    key: &Key,
    places: &[usize],
) -> Result<Option<Key>, Memory>
    requires { All (λ place. place < length base.now.held.now) places.now }
    ensures { (rs : List Seen) → AreAt (records_of base.now.held.now) places.now rs → IfOk result (λ tip. tip ≡ newest_name (stamp_at base.now.front.now key.now) rs) }
{
    match places.last() {
        Some(place) => Ok(Some(base.held[*place].name(alloc)?)),
        None => Ok(base.front.get(key).map(|entry| entry.name)),
    }
}

/// Takes each chain in, in turn.
fn take_chains(base: &Base<'_>, logs: &mut [Log], chains: Vec<Chain>)
    requires view { IsView base.now.view.now }
    requires held { IsClosed base.now.view.now base.now.front.now (records_of base.now.held.now) }
    requires logs { All (λ l. IsHeldLog base.now.front.now (records_of base.now.held.now) l.owner l) logs.old }
    requires owners { map (λ l. l.owner) logs.old ≡ base.now.view.now.members }
    requires fetched { AllByRecursion (λ c. IsFetched base.now.view.now base.now.front.now (records_of base.now.held.now) (records_of c.records)) chains.items }
    requires named { AllByRecursion (λ c. IfSome (newest_name None (records_of c.records)) (λ n. n ≡ c.head.name)) chains.items }
    requires apart { HaveOwnOwners (map (λ c. records_of c.records) chains.items) }
    ensures owners { map (λ l. l.owner) logs.new ≡ map (λ l. l.owner) logs.old }
    ensures queued { All (HasQueued base.now.view.now base.now.front.now (records_of base.now.held.now) (map (λ c. records_of c.records) chains.items)) logs.new }
{
    'chains: for chain in chains {
        take_in(base, logs, chain);
    }
}

/// Takes in a chain of one of the logs.
fn take_in(base: &Base<'_>, logs: &mut [Log], chain: Chain)
    requires held { IsClosed base.now.view.now base.now.front.now (records_of base.now.held.now) }
    requires kept { All (IsKept base.now.front.now (records_of base.now.held.now)) logs.old }
    requires member { Contains (map (λ l. l.owner) logs.old) (owner_of (records_of chain.records)) }
    requires empty { All (λ l. l.owner ≡ owner_of (records_of chain.records) → l.queue.items ≡ []) logs.old }
    requires fetched { IsFetched base.now.view.now base.now.front.now (records_of base.now.held.now) (records_of chain.records) }
    requires named { IfSome (newest_name None (records_of chain.records)) (λ n. n ≡ chain.head.name) }
    ensures { TakesIn base.now.view.now base.now.front.now (records_of base.now.held.now) (records_of chain.records) logs.old logs.new }
{
    let Some(first) = chain.records.as_slice().first() else {
        return;
    };
    let Some(i) = log_of_owner(logs, &first.owner) else {
        return;
    };
    take_chain(base, &mut logs[i], chain);
}

/// Which log is the owner's.
fn log_of_owner(logs: &[Log], owner: &PubKey) -> Option<usize>
    ensures some { IfSome result (λ i. (i < length logs.now) × ((log : Log) → (slice_index_or logs.now i log).owner ≡ owner.now)) }
    ensures none { IfNone result (All (λ l. l.owner ≡ owner.now → ⊥) logs.now) }
{
    logs.iter().position(|log| is_owner(&log.owner, owner))
}

/// Whether the keys are one.
fn is_owner(a: &PubKey, b: &PubKey) -> bool
    ensures { IsTrue result ↔ (a.now ≡ b.now) }
{
    a == b
}

/// Takes in a chain of that log, which has none yet: the records that are news are still to be seen, if they go on from
/// what is held.
fn take_chain(base: &Base<'_>, log: &mut Log, chain: Chain)
    requires held { IsClosed base.now.view.now base.now.front.now (records_of base.now.held.now) }
    requires kept { IsKept base.now.front.now (records_of base.now.held.now) log.old }
    requires empty { log.old.queue.items ≡ [] }
    requires owned { log.old.owner ≡ owner_of (records_of chain.records) }
    requires fetched { IsFetched base.now.view.now base.now.front.now (records_of base.now.held.now) (records_of chain.records) }
    requires named { IfSome (newest_name None (records_of chain.records)) (λ n. n ≡ chain.head.name) }
    ensures owner { log.new.owner ≡ log.old.owner }
    ensures queued { HasQueued base.now.view.now base.now.front.now (records_of base.now.held.now) (records_of chain.records ∷ []) log.new }
{
    let queue = news(base, log, chain.records.into_vec());
    let Some(first) = queue.front() else {
        return;
    };
    if !joins(base, log, first) {
        return;
    }
    log.next = Some(first.rank());
    log.queue = queue;
    log.last = chain.head.name;
}

/// The chain's records after those that are held of the log.
fn news(base: &Base<'_>, log: &Log, records: Vec<Record>) -> VecDeque<Record>
    requires held { IsClosed base.now.view.now base.now.front.now (records_of base.now.held.now) }
    requires kept { IsKept base.now.front.now (records_of base.now.held.now) log.now }
    requires linked { IsLinked base.now.view.now (records_of records.items) }
    ensures { records_of result.items ≡ news base.now.front.now (records_of base.now.held.now) log.now.owner (records_of records.items) }
{
    let held_to = u64::from(log.base) + log.places.len() as u64;
    let mut queue = VecDeque::from(records);
    'old: while let Some(first) = queue.front() {
        if u64::from(first.seq) > held_to {
            break;
        }
        queue.pop_front();
    }
    queue
}

/// Whether the record goes on from what is held of its log.
fn joins(base: &Base<'_>, log: &Log, next: &Record) -> bool
    requires held { IsClosed base.now.view.now base.now.front.now (records_of base.now.held.now) }
    requires kept { IsKept base.now.front.now (records_of base.now.held.now) log.now }
    requires owned { next.now.owner ≡ log.now.owner }
    requires spelled { HasSpelling (record_of next.now) }
    ensures { IsTrue result ↔ Joins (stamp_at base.now.front.now log.now.key) (log_of log.now.owner (records_of base.now.held.now)) (record_of next.now) }
{
    match log.tip {
        Some(tip) => next.prev == tip && knows_newest(base, log, next),
        None => true,
    }
}

/// Whether the record knows all that the newest one does that is held of its log.
fn knows_newest(base: &Base<'_>, log: &Log, next: &Record) -> bool
    requires held { IsClosed base.now.view.now base.now.front.now (records_of base.now.held.now) }
    requires kept { IsKept base.now.front.now (records_of base.now.held.now) log.now }
    requires owned { next.now.owner ≡ log.now.owner }
    requires spelled { HasSpelling (record_of next.now) }
    ensures { IsTrue result ↔ KnowsNewest (log_of log.now.owner (records_of base.now.held.now)) (record_of next.now) }
{
    match log.places.last() {
        Some(place) => knows(next, &log.key, &base.held[*place], &log.key),
        None => true,
    }
}
