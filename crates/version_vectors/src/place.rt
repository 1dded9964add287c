//! Where a log stands among entries that ascend by log.

ghost use Rattle.std.specs.Prelude.{◌≡◌, ◌<◌, ◌≤◌, ◌++◌, IsTrue, length, MatchResult, OnOk, OnErr};
ghost use Rattle.std.specs.FinMap.Entries.{is_sorted};
ghost use Rattle.ivy_base.specs.Naming.{key_cmp};
ghost use Rattle.log_model.specs.Vector.{with_entry, join};
ghost use Rattle.version_vectors.specs.Vectors.{IsVector};
ghost use Rattle.version_vectors.specs.Entries.{stamped, vector_of};
ghost use Rattle.version_vectors.specs.Places.{IsAt, IsBetween, IsAround};

use crate::entry::{Entry, is_later};
use ivy_base::{Key, Memory};

/// The index of the log's entry, or else the one at which it would stand. The entries ascend by log.
pub fn place_of(entries: &[Entry], log: &Key) -> Result<usize, usize>
    requires { IsTrue (is_sorted key_cmp (vector_of entries.now)) }
    ensures { MatchResult result (IsAt log.now (vector_of entries.now)) (IsBetween log.now (vector_of entries.now)) }
{
    entries.binary_search_by_key(log, |entry| entry.log)
}

/// The entries of the logs before that one, and those after it. The entries ascend by log.
pub fn around<'a>(entries: &'a [Entry], log: &Key) -> (&'a [Entry], &'a [Entry])
    requires { IsTrue (is_sorted key_cmp (vector_of entries.now)) }
    ensures { IsAround log.now (vector_of entries.now) (vector_of result.0.now) (vector_of result.1.now) }
{
    match place_of(entries, log) {
        Ok(i) => (&entries[..i], &entries[i + 1..]),
        Err(i) => entries.split_at(i),
    }
}

/// Takes an entry in: of two entries of one log the later stays. The error is: out of memory, and then nothing has
/// changed.
pub fn take_in(entries: &mut Vec<Entry>, entry: Entry) -> Result<(), Memory>
    requires { IsTrue (is_sorted key_cmp (vector_of entries.old.items)) }
    ensures ok { OnOk result (vector_of entries.new.items ≡ with_entry (vector_of entries.old.items) (stamped entry)) }
    ensures err { OnErr result (entries.new.items ≡ entries.old.items) }
{
    match place_of(entries.as_slice(), &entry.log) {
        Ok(i) => {
            if is_later(&entries[i], &entry) {
                entries[i] = entry;
            }
        }
        Err(i) => entries.insert(i, entry)?,
    }
    Ok(())
}

/// Takes each of these entries in. After the error, running out of memory, some of them may be in.
pub fn take_all_in(entries: &mut Vec<Entry>, others: &[Entry]) -> Result<(), Memory>
    requires whole { IsVector (vector_of entries.old.items) }
    requires others { IsVector (vector_of others.now) }
    ensures joined { OnOk result (vector_of entries.new.items ≡ join (vector_of entries.old.items) (vector_of others.now)) }
    ensures whole { OnOk result (IsVector (vector_of entries.new.items)) }
{
    'others: for &other in others {
        take_in(entries, other)?;
    }
    Ok(())
}
