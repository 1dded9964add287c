//! Ranges of places, in a map under their ends.

ghost use Rattle.std.specs.Prelude.{◌≡◌, ℕ, ◌≤◌, T, None, IfOk, IfNone, IfSome};
ghost use Rattle.std.specs.FinMap.Entries.{is_sorted};
ghost use Rattle.inode_replay.specs.Ends.{end_cmp};
ghost use Rattle.inode_replay.specs.Marks.{start_of, IsFirstFrom};

use ivy_base::Memory;
use shared_map::{MapKey, SharedMap};
use std::alloc::Global;
use std::cmp::Ordering;

/// The end of a range: the place after its last one.
#[derive(Clone, Copy, Drop)]
pub struct RangeEnd(pub u64);

impl MapKey for RangeEnd {
    ghost use Rattle.std.proofs.lemmas.Cmp.{on_total};
    ghost use Rattle.std.specs.Cmp.{nat_cmp_total};
    ghost use Rattle.inode_replay.specs.Ends.{end_cmp};

    ghost order = { end_cmp };

    ghost total = { on_total (λ e. e.0) nat_cmp_total };

    fn compare(&self, other: &RangeEnd) -> Ordering {
        self.0.cmp(&other.0)
    }

    fn share(&self) -> Result<RangeEnd, Memory> {
        Ok(*self)
    }
}

/// The places from the start on, before the end.
#[derive(Clone, Copy, Drop)]
pub struct Range {
    pub start: u64,
    pub end: u64,
}

/// The first range that ends at or after the place. The error is: out of memory.
pub fn first_from(
    ranges: &SharedMap<RangeEnd, u64>,
    alloc: Global,
    place: u64,
) -> Result<Option<Range>, Memory>
    requires { T (is_sorted end_cmp ranges.now) }
    ensures none { IfOk result (λ range. IfNone range ((e : ℕ) → place ≤ e → start_of ranges.now e ≡ None)) }
    ensures some { IfOk result (λ range. IfSome range (IsFirstFrom (start_of ranges.now) place)) }
{
    let entries = ranges.entries_from(alloc, &RangeEnd(place), 1)?;
    match entries.first() {
        None => Ok(None),
        Some((end, start)) => Ok(Some(Range {
            start: **start,
            end: end.0,
        })),
    }
}
