//! What a measurement gives, and the clock that it is taken by.

use ivy_base::Bytes;
use std::alloc::Global;
use std::io;
use std::rt::Clock;
use std::time::{Duration, Instant};

/// How long something took, and what came of it.
#[derive(Clone, Copy)]
pub struct Measured {
    /// The time.
    pub time: Duration,
    /// What was counted meanwhile.
    pub what: &'static str,
    /// How many of these there were.
    pub count: u64,
}

/// What is done again and again while it is measured.
pub trait Task {
    /// Does it once more, and says whether that went well.
    fn turn(&mut self, alloc: Global) -> bool;
}

/// Ends a measurement that began then. None where the clock can't be read.
pub fn since<R: Clock>(
    rt: &R,
    start: io::Result<Instant>,
    what: &'static str,
    count: u64,
) -> Option<Measured> {
    let time = start.ok()?.elapsed(rt).ok()?;
    Some(Measured { time, what, count })
}

/// Does something so often, and says how often it went well.
pub fn repeat<R: Clock, T: Task>(
    rt: &R,
    alloc: Global,
    what: &'static str,
    count: u32,
    task: &mut T,
) -> Option<Measured> {
    let start = Instant::now(rt);
    let mut done = 0u64;
    for _ in 0..count {
        done = done.saturating_add(task.turn(alloc) as u64);
    }
    since(rt, start, what, done)
}

/// Does something so often, and says whether it went well each time.
pub fn repeat_all<R: Clock, T: Task>(
    rt: &R,
    alloc: Global,
    what: &'static str,
    count: u32,
    task: &mut T,
) -> Option<Measured> {
    let mut measured = repeat(rt, alloc, what, count, task)?;
    measured.count = (measured.count == count as u64) as u64;
    Some(measured)
}

/// A copy of bytes, into memory of its own.
#[derive(Clone, Copy)]
pub struct Copies<'a>(pub &'a [u8]);

impl Task for Copies<'_> {
    fn turn(&mut self, alloc: Global) -> bool {
        Bytes::copy_of(alloc, self.0).is_ok()
    }
}
