//! Times of taking the largest causally closed part of logs that were fetched.

ghost use Rattle.std.specs.Prelude.{[], IfSome};
ghost use Rattle.std.specs.List.{AllByRecursion};
ghost use Rattle.causal_order.specs.Available.{IsFetched};

use crate::gather::{batch_of, part_of};
use crate::logs::{logs_of, view_of};
use crate::measured::{Measured, since};
use crate::words::Words;
use ivy_base::Memory;
use log_records::Batch;
use std::alloc::Global;
use std::rt::Clock;
use std::time::Instant;
use view_blocks::View;

/// Takes the largest closed part of the batch, and says how many records it has. None where memory is short.
fn time_part<R: Clock>(rt: &R, alloc: Global, view: &View, batch: Batch) -> Option<Measured>
    requires { AllByRecursion (λ c. IsFetched view.now [] [] c.1) batch.chains }
{
    let start = Instant::now(rt);
    match part_of(alloc, view, batch) {
        Ok(part) => since(rt, start, "records", part.len() as u64),
        Err(Memory) => None,
    }
}

/// A batch of that many logs with that many records each. None where memory is short.
fn fetched(alloc: Global, view: &View, count: u8, len: u32, cites: bool) -> Option<Batch>
    ensures { IfSome result (λ batch. AllByRecursion (λ c. IsFetched view.now [] [] c.1) batch.chains) }
{
    match logs_of(alloc, count, len, cites) {
        Ok(logs) => batch_of(alloc, view, logs),
        Err(Memory) => None,
    }
}

/// Takes the largest closed part of that many logs with that many records each. None where memory is short.
fn time_logs<R: Clock>(
    rt: &R,
    alloc: Global,
    count: u8,
    len: u32,
    cites: bool,
) -> Option<Measured> {
    let view = view_of(alloc, count)?;
    match fetched(alloc, &view, count, len, cites) {
        Some(batch) => time_part(rt, alloc, &view, batch),
        None => None,
    }
}

/// Measures what the words ask for. None where they ask for nothing of this family, or memory is short.
pub fn answer<R: Clock>(rt: &R, alloc: Global, words: &mut Words<'_>) -> Option<Measured> {
    let how = words.word();
    let count = words.number().min(255) as u8;
    let len = words.number();
    match how {
        "concurrent" => time_logs(rt, alloc, count, len, false),
        "chain" => time_logs(rt, alloc, count, len, true),
        _ => None,
    }
}
