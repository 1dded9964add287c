//! The tests that a chain is put to before a batch takes it.

ghost use Rattle.std.specs.Prelude.{◌≡◌, ◌∷◌, ◌+◌, ◌↔◌, IsTrue, None, length, IfOk, OnOk, IfErr, IfSome};
ghost use Rattle.std.specs.List.{AllByRecursion, list_all};
ghost use Rattle.ivy_base.specs.Naming.{head_key_of};
ghost use Rattle.log_model.specs.View.{is_named};
ghost use Rattle.log_model.specs.Vector.{stamp_at, seq_of};
ghost use Rattle.log_model.specs.Spelling.{HasSpelling};
ghost use Rattle.log_model.specs.Rank.{own_entry};
ghost use Rattle.log_model.specs.Chain.{IsGood, Follows};
ghost use Rattle.log_model.specs.Heads.{stamp};
ghost use Rattle.log_model.specs.Fetched.{owner_of, stamp_in, MayBeNext, KnowsEdge, GoesOnFrom, EndsAtStamp, NamesPrevious, HasRecord, PassesFloor, IsSound, IsOnward, ChainFails};
ghost use Rattle.log_records.specs.Records.{record_of, records_of};
ghost use Rattle.log_records.specs.Kept.{names_of};
ghost use Rattle.log_records.specs.Walks.{GoesOnInside, BeginsSpelled};
ghost use Rattle.log_records.specs.Batches.{AreOfOneOwner};

use crate::edge::Edge;
use crate::record::{Record, has_made_number};
use crate::spelled::is_spelled;
use dht_ids::Judged;
use ivy_base::{Key, Memory, head_key};
use log_model::ChainFault;
use std::alloc::Global;
use version_vectors::{Entry, Vector};
use view_blocks::View;

/// Tests a chain: `Bad` before `Fork`. Each record is hashed once.
pub fn test_chain(
    alloc: Global,
    view: &View,
    held: &Vector,
    floor: &Vector,
    head: &Judged,
    chain: &[Record],
    edge: &Option<Edge>,
) -> Result<(), ChainFault>
    requires owner { AreOfOneOwner (records_of chain.now) }
    requires edge { IfSome edge.now (λ e. stamp_in e.vector (records_of chain.now) ≡ None) }
    ensures sound { OnOk result (IsSound view.now held.now edge.now (stamp head.now.seq head.now.name) (records_of chain.now)) }
    ensures onward { OnOk result (IsOnward held.now floor.now (records_of chain.now)) }
    ensures fault { IfErr result (ChainFails view.now held.now floor.now (stamp head.now.seq head.now.name) edge.now (records_of chain.now)) }
{
    let Ok(names) = all_names(alloc, chain) else {
        return Err(ChainFault::Memory);
    };
    let log = head_key(&chain[0].owner);
    if !is_sound(view, &log, held, edge, head, chain, &names) {
        return Err(ChainFault::Bad);
    }
    if !is_onward(&log, held, floor, chain, &names) {
        return Err(ChainFault::Fork);
    }
    Ok(())
}

/// The records' names. The error is: out of memory.
fn all_names(alloc: Global, chain: &[Record]) -> Result<Vec<Key>, Memory>
    ensures { IfOk result (λ names. names.items ≡ names_of chain.now) }
{
    let Ok(mut names) = Vec::with_capacity(alloc, chain.len()) else {
        return Err(Memory);
    };
    for record in chain {
        let Ok(name) = record.name(alloc) else {
            return Err(Memory);
        };
        names.push_reserved(name);
    }
    Ok(names)
}

/// Whether the records keep the rules of a chain, up to the head's.
fn is_sound(
    view: &View,
    log: &Key,
    held: &Vector,
    edge: &Option<Edge>,
    head: &Judged,
    chain: &[Record],
    names: &[Key],
) -> bool
    requires owner { AreOfOneOwner (records_of chain.now) }
    requires log { log.now ≡ head_key_of (owner_of (records_of chain.now)) }
    requires names { names.now ≡ names_of chain.now }
    requires edge { IfSome edge.now (λ e. stamp_in e.vector (records_of chain.now) ≡ None) }
    ensures { IsTrue result ↔ IsSound view.now held.now edge.now (stamp head.now.seq head.now.name) (records_of chain.now) }
{
    goes_on_from(view, log, held, edge, chain, names) && ends_at(head, chain, names)
}

/// Whether the records go on from what is held, but for naming it.
fn goes_on_from(
    view: &View,
    log: &Key,
    held: &Vector,
    edge: &Option<Edge>,
    chain: &[Record],
    names: &[Key],
) -> bool
    requires owner { AreOfOneOwner (records_of chain.now) }
    requires log { log.now ≡ head_key_of (owner_of (records_of chain.now)) }
    requires names { names.now ≡ names_of chain.now }
    requires edge { IfSome edge.now (λ e. stamp_at e.vector log.now ≡ None) }
    ensures { IsTrue result ↔ GoesOnFrom view.now (stamp_at held.now log.now) edge.now (records_of chain.now) }
{
    may_begin(view, log, held, edge, &chain[0]) && goes_on(view, log, chain, names)
}

/// Whether the record may be the oldest of a chain, but for naming the held record.
fn may_begin(view: &View, log: &Key, held: &Vector, edge: &Option<Edge>, first: &Record) -> bool
    requires log { log.now ≡ head_key_of first.now.owner }
    requires edge { IfSome edge.now (λ e. stamp_at e.vector log.now ≡ None) }
    ensures good { IsTrue result → IsGood view.now first.now.owner (record_of first.now) }
    ensures next { IsTrue result → MayBeNext (stamp_at held.now log.now) (record_of first.now) }
    ensures knows { IsTrue result → KnowsEdge (stamp_at held.now log.now) edge.now (record_of first.now) }
    ensures all { IsGood view.now first.now.owner (record_of first.now) → MayBeNext (stamp_at held.now log.now) (record_of first.now) → KnowsEdge (stamp_at held.now log.now) edge.now (record_of first.now) → IsTrue result }
{
    is_good(view, log, first) && is_next(log, held, first) && knows_edge(log, held, edge, first)
}

/// Whether the record is one of its owner's under the view.
fn is_good(view: &View, log: &Key, record: &Record) -> bool
    requires { log.now ≡ head_key_of «record».now.owner }
    ensures { IsTrue result ↔ IsGood view.now «record».now.owner (record_of «record».now) }
{
    is_spelled(record, log)
        && has_made_number(&record.owner, record.seq, &record.op)
        && names_only(view, &record.vector)
}

/// Whether the vector names only logs of the view.
fn names_only(view: &View, vector: &Vector) -> bool
    ensures { IsTrue result ↔ AllByRecursion (λ e. IsTrue (is_named view.now e.0)) vector.now }
{
    all_named(view, vector.entries())
}

/// Whether each entry is of a log of the view.
fn all_named(view: &View, entries: &[Entry]) -> bool
    ensures { result ≡ list_all (λ e. is_named view.now e.log) entries.now }
{
    for entry in entries {
        if !is_of_view(view, &entry.log) {
            return false;
        }
    }
    true
}

/// Whether the log is a member's of the view or a former one's.
fn is_of_view(view: &View, log: &Key) -> bool
    ensures { result ≡ is_named view.now log.now }
{
    view.is_member(log) || view.is_former(log)
}

/// Whether the record is numbered next after what is held of its log.
fn is_next(log: &Key, held: &Vector, first: &Record) -> bool
    requires { HasSpelling (record_of first.now) }
    ensures { IsTrue result ↔ MayBeNext (stamp_at held.now log.now) (record_of first.now) }
{
    first.seq - 1 == held.seq_of(log)
}

/// Whether the record, which is numbered next after the held one, knows what that one does, where its edge is
/// known.
fn knows_edge(log: &Key, held: &Vector, edge: &Option<Edge>, first: &Record) -> bool
    requires spelled { HasSpelling (record_of first.now) }
    requires log { log.now ≡ head_key_of first.now.owner }
    requires next { MayBeNext (stamp_at held.now log.now) (record_of first.now) }
    requires edge { IfSome edge.now (λ e. stamp_at e.vector log.now ≡ None) }
    ensures { IsTrue result ↔ KnowsEdge (stamp_at held.now log.now) edge.now (record_of first.now) }
{
    match (held.get(log), edge) {
        (Some(_), Some(edge)) => first.vector.dominates(edge.vector()),
        _ => true,
    }
}

/// Whether each record but the oldest is good and follows the one before it.
fn goes_on(view: &View, log: &Key, chain: &[Record], names: &[Key]) -> bool
    requires owner { AreOfOneOwner (records_of chain.now) }
    requires log { log.now ≡ head_key_of (owner_of (records_of chain.now)) }
    requires names { names.now ≡ names_of chain.now }
    requires spelled { BeginsSpelled (records_of chain.now) }
    ensures { IsTrue result ↔ GoesOnInside view.now (records_of chain.now) }
{
    for i in 1..chain.len() {
        if !continues(view, log, &chain[i - 1], &names[i - 1], &chain[i]) {
            return false;
        }
    }
    true
}

/// Whether the record is good and follows the other one.
fn continues(view: &View, log: &Key, before: &Record, name: &Key, record: &Record) -> bool
    requires log { log.now ≡ head_key_of «record».now.owner }
    requires owner { before.now.owner ≡ «record».now.owner }
    requires before { HasSpelling (record_of before.now) }
    requires name { name.now ≡ (record_of before.now).name }
    ensures { IsTrue result ↔ IsGood view.now «record».now.owner (record_of «record».now) × Follows (record_of before.now) (record_of «record».now) }
{
    is_good(view, log, record) && follows(before, name, record)
}

/// Whether the record is numbered next after the other one of its log, names it, and knows all that it does.
fn follows(before: &Record, name: &Key, record: &Record) -> bool
    requires owner { before.now.owner ≡ «record».now.owner }
    requires before { HasSpelling (record_of before.now) }
    requires spelled { HasSpelling (record_of «record».now) }
    requires name { name.now ≡ (record_of before.now).name }
    ensures { IsTrue result ↔ Follows (record_of before.now) (record_of «record».now) }
{
    is_linked(before, name, record) && record.vector.dominates(&before.vector)
}

/// Whether the record is numbered next after the other one, and names it.
fn is_linked(before: &Record, name: &Key, record: &Record) -> bool
    requires before { HasSpelling (record_of before.now) }
    requires name { name.now ≡ (record_of before.now).name }
    ensures { IsTrue result ↔ («record».now.seq ≡ before.now.seq + 1) × («record».now.prev ≡ (record_of before.now).name) }
{
    record.seq == before.seq + 1 && is_same(&record.prev, name)
}

/// Whether the newest record is the head's.
fn ends_at(head: &Judged, chain: &[Record], names: &[Key]) -> bool
    requires some { AreOfOneOwner (records_of chain.now) }
    requires names { names.now ≡ names_of chain.now }
    ensures { IsTrue result ↔ EndsAtStamp (stamp head.now.seq head.now.name) (records_of chain.now) }
{
    let last = chain.len() - 1;
    is_stamped(&chain[last], &names[last], head.seq, &head.name)
}

/// Whether the record, of which the name is given, has that number and name.
fn is_stamped(record: &Record, name: &Key, seq: u32, wanted: &Key) -> bool
    requires { name.now ≡ (record_of «record».now).name }
    ensures { IsTrue result ↔ (own_entry (record_of «record».now)).1 ≡ stamp seq wanted.now }
{
    record.seq == seq && is_same(name, wanted)
}

/// Whether two keys are the same.
pub(crate) fn is_same(a: &Key, b: &Key) -> bool
    ensures { IsTrue result ↔ a.now ≡ b.now }
{
    *a == *b
}

/// Whether the records go on from the held record itself, through the floor's.
fn is_onward(log: &Key, held: &Vector, floor: &Vector, chain: &[Record], names: &[Key]) -> bool
    requires log { log.now ≡ head_key_of (owner_of (records_of chain.now)) }
    requires some { AreOfOneOwner (records_of chain.now) }
    requires names { names.now ≡ names_of chain.now }
    ensures { IsTrue result ↔ IsOnward held.now floor.now (records_of chain.now) }
{
    names_held(log, held, &chain[0]) && passes_floor(log, floor, held.seq_of(log), chain, names)
}

/// Whether the record names the held one of its log, where there is one.
fn names_held(log: &Key, held: &Vector, first: &Record) -> bool
    ensures { IsTrue result ↔ NamesPrevious (stamp_at held.now log.now) (record_of first.now) }
{
    match held.get(log) {
        Some(entry) => is_same(&first.prev, &entry.name),
        None => true,
    }
}

/// Whether the floor's record is one of them, where the floor is above that number.
fn passes_floor(log: &Key, floor: &Vector, reached: u32, chain: &[Record], names: &[Key]) -> bool
    requires { names.now ≡ names_of chain.now }
    ensures { IsTrue result ↔ PassesFloor (stamp_at floor.now log.now) reached (records_of chain.now) }
{
    match floor.get(log) {
        Some(entry) => entry.seq <= reached || has_record(&entry, chain, names),
        None => true,
    }
}

/// Whether the entry's record is one of them.
fn has_record(entry: &Entry, chain: &[Record], names: &[Key]) -> bool
    requires { names.now ≡ names_of chain.now }
    ensures { IsTrue result ↔ HasRecord (stamp entry.now.seq entry.now.name) (records_of chain.now) }
{
    for (i, record) in chain.iter().enumerate() {
        if is_stamped(record, &names[i], entry.seq, &entry.name) {
            return true;
        }
    }
    false
}
