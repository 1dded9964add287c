//! The union of two rows of records, taken apart from its end.

ghost use Rattle.std.specs.Prelude.{◌≡◌, ◌+◌, ◌<◌, ◌≤◌, [], ◌∷◌, ◌++◌, vec_len, IfSome, IfNone};
ghost use Rattle.std.specs.Vec.{vec_capacity};
ghost use Rattle.log_records.specs.Records.{record_of, records_of};
ghost use Rattle.replay_engine.specs.Rows.{IsRow, last_order, TakesGreatest};

use log_records::Record;
use std::cmp::Ordering;

/// Puts the record after the others, where there is room for one more.
pub fn put(records: &mut Vec<Record>, record: Record)
    requires { vec_len records.old < vec_capacity records.old }
    ensures items { records.new.items ≡ records.old.items ++ «record» ∷ [] }
    ensures room { vec_capacity records.old ≤ vec_capacity records.new }
{
    if records.push(record).is_err() {
        unreachable!();
    }
}

/// Takes the greatest record out of two rows: of two of one rank the held one, and the new one goes with it.
pub fn take_greatest(held: &mut Vec<Record>, new: &mut Vec<Record>) -> Option<Record>
    requires held { IsRow (records_of held.old.items) }
    requires new { IsRow (records_of new.old.items) }
    ensures held { IsRow (records_of held.new.items) }
    ensures new { IsRow (records_of new.new.items) }
    ensures some { IfSome result (λ r. TakesGreatest (records_of held.old.items) (records_of new.old.items) (records_of held.new.items) (records_of new.new.items) (record_of r)) }
    ensures fewer { IfSome result (λ r. vec_len held.new + vec_len new.new < vec_len held.old + vec_len new.old) }
    ensures none { IfNone result ((held.old.items ≡ []) × (new.old.items ≡ [])) }
{
    match last_order(held.as_slice(), new.as_slice()) {
        Ordering::Less => new.pop(),
        Ordering::Equal => {
            let _ = new.pop();
            held.pop()
        }
        Ordering::Greater => held.pop(),
    }
}

/// How the greatest record of the one row is to that of the other; a row that has none is before one that has, and after
/// one that hasn't.
fn last_order(held: &[Record], new: &[Record]) -> Ordering
    requires held { IsRow (records_of held.now) }
    requires new { IsRow (records_of new.now) }
    ensures { result ≡ last_order (records_of held.now) (records_of new.now) }
{
    match (held.last(), new.last()) {
        (Some(held), Some(new)) => held.rank().cmp(&new.rank()),
        (None, Some(_)) => Ordering::Less,
        (_, None) => Ordering::Greater,
    }
}
