//! The front of what is held and of new records.

ghost use Rattle.std.specs.Prelude.{◌≡◌, ◌<◌, length, map, fold, slice_index_or, IfOk, IfSome, IfNone};
ghost use Rattle.std.specs.List.{All, AllByRecursion};
ghost use Rattle.log_model.specs.Rank.{full_vector, own_entry};
ghost use Rattle.log_model.specs.Vector.{join};
ghost use Rattle.log_model.specs.Spelling.{HasSpelling};
ghost use Rattle.log_records.specs.Records.{record_of, records_of};
ghost use Rattle.version_vectors.specs.Entries.{stamped};
ghost use Rattle.turn_taking.specs.Naming.{HasNameOf};
ghost use Rattle.turn_taking.specs.declared.names.Names.{Names};

use crate::keys::is_owner;
use crate::names::Names;
use ivy_base::{Memory, PubKey};
use log_records::Record;
use std::alloc::Global;
use version_vectors::{Entry, Vector};

/// The front joined with what each of the records knows. The error is: out of memory.
pub fn front_with(
    alloc: Global,
    front: &Vector,
    names: &[Names],
    records: &[Record],
) -> Result<Vector, Memory>
    requires named { AllByRecursion (HasNameOf names.now) (records_of records.now) }
    requires spelled { AllByRecursion HasSpelling (records_of records.now) }
    ensures { IfOk result (λ v. v ≡ fold join front.now (map full_vector (records_of records.now))) }
{
    let mut joined = front.copy(alloc)?;
    'records: for record in records {
        joined = joined.join(alloc, &full_vector(alloc, names, record)?)?;
    }
    Ok(joined)
}

/// The record's vector with the record itself, of which the names have the name. The error is: out of memory.
fn full_vector(alloc: Global, names: &[Names], record: &Record) -> Result<Vector, Memory>
    requires named { HasNameOf names.now (record_of «record».now) }
    requires spelled { HasSpelling (record_of «record».now) }
    ensures { IfOk result (λ v. v ≡ full_vector (record_of «record».now)) }
{
    record.vector.with(alloc, own_entry(names, record))
}

/// The record itself as an entry of a vector; the names have its name.
fn own_entry(names: &[Names], record: &Record) -> Entry
    requires { HasNameOf names.now (record_of «record».now) }
    ensures { stamped result ≡ own_entry (record_of «record».now) }
{
    let Some(at) = place_of(names, &record.owner) else {
        unreachable!();
    };
    let of_log = &names[at];
    let Some(name) = of_log.name_of(record.seq) else {
        unreachable!();
    };
    Entry {
        log: of_log.log,
        seq: record.seq,
        name,
    }
}

/// Which of the names are those of the owner's log.
fn place_of(names: &[Names], owner: &PubKey) -> Option<usize>
    ensures some { IfSome result (λ at. (at < length names.now) × ((n : Names) → (slice_index_or names.now at n).owner ≡ owner.now)) }
    ensures none { IfNone result (All (λ n. n.owner ≡ owner.now → ⊥) names.now) }
{
    names.iter().position(|names| is_owner(&names.owner, owner))
}
