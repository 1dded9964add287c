//! A ring behind locks, which two threads ask at once.

mod client;
mod trial;

use ivy_base::Memory;
use std::alloc::Global;
use std::io;
use std::sync::Wait;
use std::thread::Threads;
use trial::{Told, run_trial};

/// Puts the ring to trial.
pub fn put_to_trial<R: Print + Threads + Wait + Sync>(rt: &R, alloc: Global) -> io::Result<()> {
    match run_trial(rt, alloc) {
        Ok(told) => show(rt, &told),
        Err(Memory) => println!(rt; "out of memory"),
    }
}

/// Prints what the trial told.
fn show<R: Print>(rt: &R, told: &Told) -> io::Result<()> {
    println!(rt; "put {} and {}", told.put.0, told.put.1)?;
    println!(rt; "joins {}, and again {}", told.joins, told.joins_again)?;
    println!(rt; "stops {}, and again {}", told.stops, told.stops_again)?;
    println!(rt; "silent {}", told.is_silent)?;
    println!(rt; "found {} and {}", told.found.0, told.found.1)?;
    println!(rt; "put beside a round {}", told.put_beside)?;
    println!(rt; "live {} of {}", told.live, told.made)?;
    println!(rt; "found {} and {}", told.found_later.0, told.found_later.1)
}
