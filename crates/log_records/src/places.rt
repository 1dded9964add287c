//! Where a record goes among others.

ghost use Rattle.std.specs.Prelude.{◌≡◌, ◌≤◌, length};
ghost use Rattle.std.specs.List.{AllByRecursion};
ghost use Rattle.log_model.specs.Closed.{IsAscending};
ghost use Rattle.log_model.specs.Spelling.{HasSpelling};
ghost use Rattle.version_vectors.specs.Ranks.{rank_of};
ghost use Rattle.log_records.specs.Places.{merge_place};
ghost use Rattle.log_records.specs.Records.{records_of};

use crate::record::Record;
use std::cmp::Ordering;
use version_vectors::Rank;

/// How many of the held records, which ascend by rank, are of a smaller rank than the first new one: the place that this
/// one takes among them, 0 being in front of all.
pub fn merge_place(held: &[Record], first: &Rank) -> usize
    requires ascending { IsAscending (records_of held.now) }
    requires spelled { AllByRecursion HasSpelling (records_of held.now) }
    ensures place { result ≡ merge_place (records_of held.now) (rank_of first.now) }
    ensures within { result ≤ length held.now }
{
    let mut low = 0;
    let mut high = held.len();
    'search: while low < high {
        let middle = low + (high - low) / 2;
        match held[middle].rank().cmp(first) {
            Ordering::Less => low = middle + 1,
            _ => high = middle,
        }
    }
    low
}
