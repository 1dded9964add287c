//! A participant is served over links in memory, a service for each line of the standard input: `LINKS LISTENS KEEPERS SINKS`.
//!
//! - LINKS is how many links the ports give, at most 100. On each comes one call, NULL of NFS.
//! - The others are the numbers of the call of the ports, of the keepers and of the write to the sink that fails, from 1 on, and
//!   0 where none does. The ports' first call is to listen, and each later one accepts a link.
//!
//! The participant has the key of identifier 1, seed 170 and the trees `w4h5`. The answer is the status, what the sink was told
//! (`-` for nothing), how many links came back, and how many of these hold the reply to NULL and no more. Lines that begin with
//! `#` are written as they are. `no answer` stands for other lines, and when out of memory.
//!
//! The answers of the stored run are worked out by hand, from what the words of `serve` promise and from RFC 5531.
#![tactic(auto)]

mod service;

use service::{Served, serve_line};
use std::alloc::Global;
use std::io;
use std::sync::Wait;
use std::thread::Threads;

fn main(rt: HostRuntime) -> io::Result<()> {
    let alloc = rt.alloc();
    for line in rt.lines(alloc) {
        let line = line?;
        answer(&rt, alloc, line.as_str())?;
    }
    Ok(())
}

/// Prints the answer to a line.
fn answer<R: Print + Threads + Wait + Sync>(rt: &R, alloc: Global, line: &str) -> io::Result<()> {
    if line.starts_with('#') {
        return println!(rt; "{line}");
    }
    match serve_line(rt, alloc, line) {
        Some(served) => show(rt, &served),
        None => println!(rt; "no answer"),
    }
}

/// Prints what came of a service.
fn show<R: Print>(rt: &R, served: &Served) -> io::Result<()> {
    let told = served.told.as_str().trim();
    let told = if told.is_empty() { "-" } else { told };
    println!(rt;
        "status {}, told {told}, links {} of {}",
        served.status, served.replied, served.back
    )
}
