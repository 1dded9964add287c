//! What is cut off a run of entries: those after a cookie, and those that fit.

ghost use Rattle.std.specs.Prelude.{◌≡◌, ◌≤◌, ◌==◌, length, take, drop};
ghost use Rattle.nfs_model.specs.Pages.{placed, fitting, at_least_one, too_small};
ghost use Rattle.nfs3_reads.specs.Measures.{length_by};
ghost use Rattle.nfs3_reads.specs.Places.{places};

use crate::entries::Entries;
use crate::measure::{FRAME, Measure, length_by, most_bytes};
use ivy_base::{Bytes, Key};

/// Those of all entries that come after a cookie.
pub fn behind(all: &[(Bytes, Key)], cookie: u64) -> Entries<'_>
    ensures { places result ≡ drop cookie (placed 0 all.now) }
{
    let before = cookie.min(all.len() as u64) as usize;
    Entries {
        before,
        pairs: &all[before..],
    }
}

/// The first of the entries, so many.
pub fn first<'a>(entries: &Entries<'a>, count: usize) -> Entries<'a>
    requires { count ≤ length entries.now.pairs.now }
    ensures { places result ≡ take count (places entries.now) }
{
    let pairs = entries.pairs;
    Entries {
        before: entries.before,
        pairs: &pairs[..count],
    }
}

/// How many of the entries, from the first on, take no more than the room.
fn how_many(measure: Measure, room: usize, entries: &Entries<'_>) -> usize
    ensures within { result ≤ length entries.now.pairs.now }
    ensures fitting { fitting (length_by measure) room (places entries.now) ≡ take result (places entries.now) }
{
    let mut left = room;
    let mut count = 0;
    for (name, _) in entries.pairs {
        let length = length_by(measure, name.as_slice());
        if left < length {
            return count;
        }
        left -= length;
        count += 1;
    }
    count
}

/// As many entries, from the first on, as the room has place for.
pub fn fitting<'a>(measure: Measure, room: usize, entries: &Entries<'a>) -> Entries<'a>
    ensures { places result ≡ fitting (length_by measure) room (places entries.now) }
{
    first(entries, how_many(measure, room, entries))
}

/// What fits, or the first entry alone where none does.
pub fn at_least_one<'a>(entries: &Entries<'a>, fit: &Entries<'a>) -> Entries<'a>
    ensures { places result ≡ at_least_one (places entries.now) (places fit.now) }
{
    if fit.pairs.is_empty() {
        first(entries, entries.pairs.len().min(1))
    } else {
        *fit
    }
}

/// Whether the page has all that was left.
pub fn is_last(page: &Entries<'_>, left: &Entries<'_>) -> bool
    ensures { result ≡ (length (places page.now) == length (places left.now)) }
{
    page.pairs.len() == left.pairs.len()
}

/// Whether a page of so many bytes has no place for the first of the entries.
pub fn is_too_small(measure: Measure, count: u32, entries: &Entries<'_>) -> bool
    ensures { result ≡ too_small (length_by measure) count (places entries.now) }
{
    match entries.pairs.first() {
        Some((name, _)) => most_bytes(count) < FRAME + length_by(measure, name.as_slice()),
        None => false,
    }
}
