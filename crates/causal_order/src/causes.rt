//! Whether the causes of a record are known.

ghost use Rattle.std.specs.Prelude.{◌≡◌, ◌↔◌, ◌<◌, IsTrue, None, nat_le, IfSome, IfNone, Contains};
ghost use Rattle.std.specs.List.{list_all, All, AllByRecursion};
ghost use Rattle.ivy_base.specs.Naming.{head_key_of};
ghost use Rattle.log_model.specs.Vector.{Dominates, stamp_at, seq_of};
ghost use Rattle.log_model.specs.Rank.{full_vector, weight};
ghost use Rattle.log_model.specs.Spelling.{HasSpelling};
ghost use Rattle.log_model.specs.View.{IsView};
ghost use Rattle.log_records.specs.Records.{record_of};
ghost use Rattle.log_records.specs.Records.{records_of};
ghost use Rattle.version_vectors.specs.Entries.{stamped, vector_of};
ghost use Rattle.causal_order.specs.Over.{IsUnder, IsMet, HasCauses};
ghost use Rattle.causal_order.specs.Kept.{AreKept, known_of};

use crate::base::Base;
use crate::log::{Log, record_at};
use ivy_base::Key;
use log_records::Record;
use version_vectors::{Entry, Vector};

/// Whether the entry is at or under the front.
pub fn is_under(front: &Vector, entry: &Entry) -> bool
    ensures { IsTrue result ↔ IsUnder front.now (stamped entry.now) }
{
    match front.get(&entry.log) {
        Some(own) => entry.seq < own.seq || *entry == own,
        None => false,
    }
}

/// How far the record knows a log: its own up to itself. `key` is the head key of its own log.
pub fn reach_of(record: &Record, key: &Key, log: &Key) -> u32
    requires key { key.now ≡ head_key_of record.now.owner }
    requires of_others { stamp_at record.now.vector key.now ≡ None }
    ensures { result ≡ seq_of (full_vector (record_of record.now)) log.now }
{
    if log == key {
        record.seq
    } else {
        record.vector.seq_of(log)
    }
}

/// Whether the record knows all that the other one does. The keys are the head keys of their logs.
pub fn knows(record: &Record, key: &Key, other: &Record, other_key: &Key) -> bool
    requires key { key.now ≡ head_key_of record.now.owner }
    requires other_key { other_key.now ≡ head_key_of other.now.owner }
    requires of_others { stamp_at record.now.vector key.now ≡ None }
    requires other_of_others { stamp_at other.now.vector other_key.now ≡ None }
    ensures { IsTrue result ↔ Dominates (full_vector (record_of record.now)) (full_vector (record_of other.now)) }
{
    other.seq <= reach_of(record, key, other_key) && reaches(record, key, other.vector.entries())
}

/// Whether the record knows each of the entries' logs as far as the entry does.
fn reaches(record: &Record, key: &Key, entries: &[Entry]) -> bool
    requires key { key.now ≡ head_key_of record.now.owner }
    requires of_others { stamp_at record.now.vector key.now ≡ None }
    ensures { result ≡ list_all (λ e. nat_le e.seq (seq_of (full_vector (record_of record.now)) e.log)) entries.now }
{
    entries
        .iter()
        .all(|entry| entry.seq <= reach_of(record, key, &entry.log))
}

/// Whether the record weighs more than the other one and knows all that it does, as an effect its cause. The keys are
/// the head keys of their logs.
fn outweighs(record: &Record, key: &Key, cause: &Record, cause_key: &Key) -> bool
    requires key { key.now ≡ head_key_of record.now.owner }
    requires cause_key { cause_key.now ≡ head_key_of cause.now.owner }
    requires spelled { HasSpelling (record_of record.now) }
    requires cause_spelled { HasSpelling (record_of cause.now) }
    ensures { IsTrue result ↔ ((weight (record_of cause.now) < weight (record_of record.now)) × Dominates (full_vector (record_of record.now)) (full_vector (record_of cause.now))) }
{
    cause.rank().weight < record.rank().weight && knows(record, key, cause, cause_key)
}

/// The log of that head key, where a member has it.
fn log_with<'a>(logs: &'a [Log], key: &Key) -> Option<&'a Log>
    ensures some { IfSome result (λ log. Contains logs.now log.now × (log.now.key ≡ key.now)) }
    ensures none { IfNone result (All (λ log. log.key ≡ key.now → ⊥) logs.now) }
{
    logs.iter().find(|log| is_same(&log.key, key))
}

/// Whether the keys are one.
fn is_same(a: &Key, b: &Key) -> bool
    ensures { IsTrue result ↔ (a.now ≡ b.now) }
{
    a == b
}

/// Whether what the record cites by the entry is known, where a member's log is meant. `key` is the head key of the
/// record's log.
fn is_met(
    base: &Base<'_>,
    logs: &[Log],
    taken: &[Record],
    record: &Record,
    key: &Key,
    entry: &Entry,
) -> bool
    requires view { IsView base.now.view.now }
    requires kept { AreKept base.now.view.now base.now.front.now (known_of base.now taken.now) logs.now }
    requires key { key.now ≡ head_key_of record.now.owner }
    requires spelled { HasSpelling (record_of record.now) }
    ensures { IsTrue result ↔ IsMet base.now.view.now base.now.front.now (known_of base.now taken.now) (record_of record.now) (stamped entry.now) }
{
    let Some(log) = log_with(logs, &entry.log) else {
        return true;
    };
    if entry.seq <= log.base {
        return is_under(base.front, entry);
    }
    match log.place_of(base, taken, entry) {
        Some(place) => outweighs(record, key, record_at(base.held, taken, place), &log.key),
        None => false,
    }
}

/// Whether all that the record cites of the members' logs is known. `key` is the head key of its log.
pub fn has_causes(
    base: &Base<'_>,
    logs: &[Log],
    taken: &[Record],
    record: &Record,
    key: &Key,
) -> bool
    requires view { IsView base.now.view.now }
    requires kept { AreKept base.now.view.now base.now.front.now (known_of base.now taken.now) logs.now }
    requires key { key.now ≡ head_key_of record.now.owner }
    requires spelled { HasSpelling (record_of record.now) }
    ensures { IsTrue result ↔ HasCauses base.now.view.now base.now.front.now (known_of base.now taken.now) (record_of record.now) }
{
    'entries: for (i, entry) in record.vector.entries().iter().enumerate() {
        if !is_met(base, logs, taken, record, key, entry) {
            return false;
        }
    }
    true
}
