//! The marks.

ghost use Rattle.std.specs.Prelude.{◌≡◌, ℕ, ◌+◌, ◌-◌, ◌^◌, ◌<◌, ◌≤◌, [], ◌++◌, true, false, length, count_by, take, drop, replicate, max, IfOk, OnOk, OnErr, IfNone, IfSome};
ghost use Rattle.inode_replay.specs.Marks.{mark_at, count_marked, IsBare, AreSet, IsTakenOut, IsWidened};

use crate::ranges::{Range, RangeEnd, first_from};
use ivy_base::Memory;
use shared_map::SharedMap;
use std::alloc::Global;
use std::marker::Model;

/// A row of places, each of which is marked or not. A copy shares its ranges with this row, and what is changed in one of
/// the two later doesn't reach the other.
///
/// Contracts see the list of them, true where a place is marked.
pub struct SharedMarks {
    ranges: SharedMap<RangeEnd, u64>,
    size: u64,
    count: u64,
}

/// One function, so that whatever drops it calls this and isn't proved over all of its parts once more.
impl Drop for SharedMarks {
    fn drop(self) {
        let SharedMarks {
            ranges: _,
            size: _,
            count: _,
        } = self;
    }
}

impl Model for SharedMarks {
    ghost use Rattle.std.specs.Prelude.{◌≡◌, Bool, List, T};
    ghost use Rattle.std.specs.FinMap.Entries.{is_sorted};
    ghost use Rattle.inode_replay.specs.Ends.{end_cmp};
    ghost use Rattle.inode_replay.specs.Marks.{marks_of, start_of, count_marked, AreApart};

    ghost Value = { List Bool };

    ghost view = { λ m. marks_of m.ranges m.size };

    ghost invariant = { λ m. T (is_sorted end_cmp m.ranges) × AreApart (start_of m.ranges) m.size × (m.count ≡ count_marked (marks_of m.ranges m.size)) };
}

impl SharedMarks {
    /// No places.
    pub fn new() -> SharedMarks
        ensures { result ≡ [] }
    {
        SharedMarks {
            ranges: SharedMap::new(),
            size: 0,
            count: 0,
        }
    }

    /// How many places there are.
    pub fn len(&self) -> u64
        ensures { result ≡ length self.now }
    {
        self.size
    }

    /// How many of the places are marked.
    pub fn count(&self) -> u64
        ensures { result ≡ count_by (λ m. m) self.now }
    {
        self.count
    }

    /// Equal marks. It takes no memory: the only error is that a part of them already has as many owners as can be
    /// counted.
    pub fn copy(&self) -> Result<SharedMarks, Memory>
        ensures { IfOk result (λ copy. copy ≡ self.now) }
    {
        Ok(SharedMarks {
            ranges: self.ranges.copy()?,
            size: self.size,
            count: self.count,
        })
    }

    /// Marks so many places from the start on; where they begin after the end, places that aren't marked fill the gap.
    /// The error is: out of memory, and then nothing has changed.
    pub fn mark(&mut self, alloc: Global, start: u64, count: u64) -> Result<(), Memory>
        requires { start + count < 2 ^ 64 }
        ensures ok { OnOk result (self.new ≡ take start self.old ++ replicate (start - length self.old) false ++ replicate count true ++ drop (start + count) self.old) }
        ensures err { OnErr result (self.new ≡ self.old) }
    {
        let end = start + count;
        let mut changed = self.copy()?;
        changed.set_size(self.len().max(end));
        changed.fill(alloc, Range { start, end })?;
        *self = changed;
        Ok(())
    }

    /// Cuts the places off after that size, or puts places that aren't marked after them up to it. The error is: out of
    /// memory, and then nothing has changed.
    pub fn resize(&mut self, alloc: Global, size: u64) -> Result<(), Memory>
        ensures ok { OnOk result (self.new ≡ take size self.old ++ replicate (size - length self.old) false) }
        ensures err { OnErr result (self.new ≡ self.old) }
    {
        let mut changed = self.copy()?;
        if size < changed.len() {
            changed.clear_from(alloc, size)?;
        }
        changed.set_size(size);
        *self = changed;
        Ok(())
    }

    // Makes the row that long; no place from that size on may be marked.
    fn set_size(&mut self, size: u64)
        requires { (p : ℕ) → size ≤ p → mark_at self.old p ≡ false }
        ensures size { length self.new ≡ size }
        ensures same { (p : ℕ) → mark_at self.new p ≡ mark_at self.old p }
    {
        self.size = size;
    }

    // Marks the places of the range. The error is: out of memory.
    fn fill(&mut self, alloc: Global, range: Range) -> Result<(), Memory>
        requires order { range.start ≤ range.end }
        requires within { range.end ≤ length self.old }
        ensures size { OnOk result (length self.new ≡ length self.old) }
        ensures set { OnOk result (AreSet (mark_at self.old) (mark_at self.new) range.start range.end true) }
    {
        if range.start == range.end {
            return Ok(());
        }
        let wide = self.take_beside(alloc, range)?;
        self.put_in(alloc, wide)
    }

    // Takes out the ranges that share a place with this one or touch it; answers this one widened by them. The error
    // is: out of memory.
    fn take_beside(&mut self, alloc: Global, range: Range) -> Result<Range, Memory>
        requires some { range.start < range.end }
        requires within { range.end ≤ length self.old }
        ensures widened { IfOk result (IsWidened self.old self.new range) }
        ensures bare { IfOk result (λ wide. IsBare (mark_at self.new) wide.start wide.end) }
    {
        let mut wide = range;
        'taking: while let Some(taken) = self.take_out(alloc, wide.start, wide.end)? {
            wide = Range {
                start: wide.start.min(taken.start),
                end: wide.end.max(taken.end),
            };
        }
        Ok(wide)
    }

    // Clears the places from the size on. The error is: out of memory.
    fn clear_from(&mut self, alloc: Global, size: u64) -> Result<(), Memory>
        requires { size < length self.old }
        ensures before { OnOk result ((p : ℕ) → p < size → mark_at self.new p ≡ mark_at self.old p) }
        ensures cleared { OnOk result ((p : ℕ) → size ≤ p → mark_at self.new p ≡ false) }
    {
        'cutting: while self.cut_first(alloc, size)? {}
        Ok(())
    }

    // Clears the places from the size on of the first range that has some; answers whether there was one. The error
    // is: out of memory.
    fn cut_first(&mut self, alloc: Global, size: u64) -> Result<bool, Memory>
        requires { size < length self.old }
        ensures size { IfOk result (λ _. length self.new ≡ length self.old) }
        ensures before { IfOk result (λ _. (p : ℕ) → p < size → mark_at self.new p ≡ mark_at self.old p) }
        ensures cut { IfOk result (λ cut. cut ≡ true → count_marked self.new < count_marked self.old) }
        ensures done { IfOk result (λ cut. cut ≡ false → (p : ℕ) → size ≤ p → mark_at self.new p ≡ false) }
    {
        let end = self.len();
        let Some(taken) = self.take_out(alloc, size + 1, end)? else {
            return Ok(false);
        };
        if taken.start < size {
            self.put_in(
                alloc,
                Range {
                    start: taken.start,
                    end: size,
                },
            )?;
        }
        Ok(true)
    }

    // Takes out the first range that shares a place with those from the start to the end, or touches them; answers it,
    // if there is one. The error is: out of memory.
    fn take_out(&mut self, alloc: Global, start: u64, end: u64) -> Result<Option<Range>, Memory>
        ensures none { IfOk result (λ taken. IfNone taken ((self.new ≡ self.old) × IsBare (mark_at self.old) start end)) }
        ensures some { IfOk result (λ taken. IfSome taken (IsTakenOut self.old self.new start end)) }
    {
        let Some(range) = first_from(&self.ranges, alloc, start)? else {
            return Ok(None);
        };
        if end < range.start {
            return Ok(None);
        }
        self.ranges.remove(alloc, &RangeEnd(range.end))?;
        self.count -= range.end - range.start;
        Ok(Some(range))
    }

    // Marks the places of a range that shares no place with another, and touches none. The error is: out of memory.
    fn put_in(&mut self, alloc: Global, range: Range) -> Result<(), Memory>
        requires some { range.start < range.end }
        requires within { range.end ≤ length self.old }
        requires bare { IsBare (mark_at self.old) range.start range.end }
        ensures size { OnOk result (length self.new ≡ length self.old) }
        ensures set { OnOk result (AreSet (mark_at self.old) (mark_at self.new) range.start range.end true) }
        ensures more { OnOk result (count_marked self.new ≡ count_marked self.old + (range.end - range.start)) }
    {
        self.ranges.insert(alloc, RangeEnd(range.end), range.start)?;
        self.count += range.end - range.start;
        Ok(())
    }
}
