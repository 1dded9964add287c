//! Whether new records may be taken in, and the row that several make.

ghost use Rattle.std.specs.Prelude.{◌≡◌, ◌==◌, IsTrue, not, length};
ghost use Rattle.std.specs.List.{All};
ghost use Rattle.std.specs.Ordering.{is_eq};
ghost use Rattle.log_model.specs.Rank.{record_cmp};
ghost use Rattle.log_records.specs.Records.{record_of, records_of};
ghost use Rattle.replay_engine.specs.Rows.{IsRow};
ghost use Rattle.replay_engine.specs.Places.{AreNew, AreBehind};

use crate::lines::Line;
use log_records::{Record, merge_place};
use replay_engine::merge;

/// Whether the records are of other numbers, and so of other ranks.
fn differ(a: &Record, b: &Record) -> bool
    ensures { IsTrue result → IsTrue (not (is_eq (record_cmp (record_of a.now) (record_of b.now)))) }
{
    a.seq != b.seq
}

/// Whether no held record has the new one's rank.
fn is_new(held: &[Record], record: &Record) -> bool
    ensures { IsTrue result → All (λ q. IsTrue (not (is_eq (record_cmp (record_of «record».now) (record_of q))))) held.now }
{
    'held: for other in held {
        if !differ(record, other) {
            return false;
        }
    }
    true
}

/// Whether no held record has the rank of one of the new ones.
#[tactic(auto, using(crate::proofs::NewRecords::all_new))]
pub fn are_new(held: &[Record], more: &[Record]) -> bool
    ensures { IsTrue result → AreNew (records_of held.now) (records_of more.now) }
{
    each_is_new(held, more)
}

/// Whether each of the new records is new.
fn each_is_new(held: &[Record], more: &[Record]) -> bool
    ensures { IsTrue result → All (λ r. All (λ q. IsTrue (not (is_eq (record_cmp (record_of r) (record_of q))))) held.now) more.now }
{
    'more: for record in more {
        if !is_new(held, record) {
            return false;
        }
    }
    true
}

/// Whether the new records are after all held ones.
pub fn are_behind(held: &[Record], more: &[Record]) -> bool
    requires held { IsRow (records_of held.now) }
    requires more { IsRow (records_of more.now) }
    ensures { IsTrue result → AreBehind (records_of held.now) (records_of more.now) }
{
    let Some(record) = more.first() else {
        return true;
    };
    merge_place(held, &record.rank()) == held.len()
}

/// Puts the other row into the row; where memory is short, that is noted.
pub fn put_in(line: &mut Line<'_>, row: &mut Vec<Record>, more: Vec<Record>)
    requires row { IsRow (records_of row.old.items) }
    requires more { IsRow (records_of more.items) }
    ensures { IsRow (records_of row.new.items) }
{
    if merge(line.alloc, row, more).is_err() {
        line.fail();
    }
}
