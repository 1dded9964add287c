//! Measures the crates below. Each line of the standard input asks for one measurement, and each answer is a time in
//! microseconds and what was counted meanwhile; the first word is the family.
//!
//! Signatures, by one tree of a set such as `w4h10`, beside hashes of one block:
//!
//! - `signatures hash N`: a chain of N hashes of 55 bytes, one block each
//! - `signatures grow SET`, `signatures joined SET`: a tree grown in one and in two halves at once
//! - `signatures sign SET N`, `signatures verify SET N`: N signatures by the leaves in turn, and N checks of one
//!
//! Signatures by several levels, by a key of sets such as `w4h10,w4h10`. Growing the key isn't in the time; the growing of
//! lower trees while it signs is:
//!
//! - `levels sign SETS N`, `levels verify SETS N`: N signatures in turn, and N checks of one
//!
//! Records, of which each is a Write of 8,192 bytes that cites 16 logs:
//!
//! - `records copy N`: N copies of the block of a record, each into memory of its own
//! - `records write N`, `records read N`: N times the block written of the record, and the record read of the block
//!
//! Replaying records on a tree:
//!
//! - `trees create N DIRS`: N directories are made and named, in turn in so many directories
//! - `trees rename N DEPTH`: a directory with an entry is moved N times between two directories at that depth
//! - `trees copy N TIMES`: a tree of N directories is copied so many times; its making isn't in the time
//! - `files ordered N`, `files shuffled N`: N pieces of 8,192 bytes are written into a file of 2,048, one after the other, and
//!   in an order without a pattern
//!
//! The largest causally closed part of logs that were fetched, where nothing is held. Neither the making of the records nor
//! that of the batch is in the time:
//!
//! - `order concurrent LOGS RECORDS`: of that many logs with that many records each, none of which cites another log
//! - `order chain LOGS RECORDS`: the same, but each record after a log's first cites the newest one of each other log
//!
//! The search for a fork, among the heads over each of N records of some 2,460 bytes. Making these isn't in the time:
//!
//! - `forks judge SETS N`: each head judged once, alone
//! - `forks honest SETS N`: the search, where all records are of one history
//! - `forks forked SETS N`: the same, where a quarter of the records are in both histories, the next quarter in the one, and the
//!   rest in the other
//!
//! Calls and replies. Each carries 8,192 bytes, and the call is by AUTH_SYS, with two groups:
//!
//! - `wire copy N`: N copies of 8,192 bytes, each into memory of its own
//! - `wire read N`: N times a call of WRITE read, with its caller, and its arguments read
//! - `wire write N`: N times a reply to READ written into a message of its own, with its head
//!
//! `nothing measured` stands for a line that asks for none of these, or for more than there is memory for, and where the clock
//! can't be read. The stored run has such lines alone, since times differ from run to run.
#![tactic(auto)]

mod files;
mod forks;
mod gather;
mod levels;
mod logs;
mod measured;
mod order;
mod records;
mod replay;
mod sets;
mod signatures;
mod trees;
mod wire;
mod words;

use measured::Measured;
use std::alloc::Global;
use std::io;
use std::rt::Clock;
use std::thread::Threads;
use words::Words;

/// Measures what the line asks for. None where nothing is measured.
fn answer<R: Clock + Threads>(rt: &R, alloc: Global, line: &str) -> Option<Measured> {
    let mut words = Words::of(line);
    match words.word() {
        "signatures" => signatures::answer(rt, alloc, &mut words),
        "levels" => levels::answer(rt, alloc, &mut words),
        "records" => records::answer(rt, alloc, &mut words),
        "trees" => trees::answer(rt, alloc, &mut words),
        "files" => files::answer(rt, alloc, &mut words),
        "order" => order::answer(rt, alloc, &mut words),
        "forks" => forks::answer(rt, alloc, &mut words),
        "wire" => wire::answer(rt, alloc, &mut words),
        _ => None,
    }
}

fn main(rt: HostRuntime) -> io::Result<()> {
    for line in rt.lines(rt.alloc()) {
        let line = line?;
        match answer(&rt, rt.alloc(), line.as_str()) {
            Some(Measured { time, what, count }) => {
                println!(rt; "{line}: {} us, {what} {count}", time.as_micros())?
            }
            None => println!(rt; "{line}: nothing measured")?,
        }
    }
    Ok(())
}
