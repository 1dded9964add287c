//! What a record knows of others.

ghost use Rattle.std.specs.Prelude.{◌≡◌, IsTrue, None};
ghost use Rattle.ivy_base.specs.Naming.{head_key_of};
ghost use Rattle.log_model.specs.Rank.{full_vector};
ghost use Rattle.log_model.specs.Spelling.{HasSpelling};
ghost use Rattle.log_model.specs.Vector.{seq_of, stamp_at};
ghost use Rattle.log_records.specs.Records.{record_of};
ghost use Rattle.log_model.specs.Conflicts.{are_concurrent, knows};
ghost use Rattle.conflict_list.specs.Tables.{Grows};

use ivy_base::Key;
use log_records::Record;

/// Whether neither record knows the other. The keys are the head keys of their logs.
pub fn are_concurrent(one: &Record, key: &Key, other: &Record, other_key: &Key) -> bool
    requires key { key.now ≡ head_key_of one.now.owner }
    requires other_key { other_key.now ≡ head_key_of other.now.owner }
    requires one { HasSpelling (record_of one.now) }
    requires other { HasSpelling (record_of other.now) }
    ensures { result ≡ are_concurrent (record_of one.now) (record_of other.now) }
{
    !knows(one, key, other, other_key) && !knows(other, other_key, one, key)
}

/// Whether the record knows the other one. The keys are the head keys of their logs.
pub fn knows(one: &Record, key: &Key, other: &Record, other_key: &Key) -> bool
    requires key { key.now ≡ head_key_of one.now.owner }
    requires other_key { other_key.now ≡ head_key_of other.now.owner }
    requires one { HasSpelling (record_of one.now) }
    ensures { result ≡ knows (record_of one.now) (record_of other.now) }
{
    other.seq <= reach_of(one, key, other_key)
}

/// How far the record knows a log: its own up to itself. `key` is the head key of its own log.
pub fn reach_of(one: &Record, key: &Key, log: &Key) -> u32
    requires key { key.now ≡ head_key_of one.now.owner }
    requires of_others { stamp_at one.now.vector key.now ≡ None }
    ensures { result ≡ seq_of (full_vector (record_of one.now)) log.now }
{
    if log == key {
        one.seq
    } else {
        one.vector.seq_of(log)
    }
}

/// Whether the newer record is of the same log and is seen to know all that the older one knows.
pub fn goes_on(older: &Record, newer: &Record) -> bool
    requires older { HasSpelling (record_of older.now) }
    requires newer { HasSpelling (record_of newer.now) }
    ensures { IsTrue result → Grows older.now newer.now }
{
    older.owner == newer.owner && (older.seq <= newer.seq && newer.vector.dominates(&older.vector))
}
