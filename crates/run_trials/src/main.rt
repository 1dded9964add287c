//! The words `crowd`, `serve` and `fork`, and that sessions run beside each other.
//!
//! Each line is a call of `run`: its words, or what is tried; the status; and what the sink was told, with a comma for the end of
//! a line and only the length of the name of the newest record. `no answer` means out of memory.
//!
//! - By `serve` over two links of its own: the first one's last byte comes only once the second one has its reply, or where that
//!   was looked for a thousand million times. On threads both links get their reply, and one loop over the links would leave the
//!   first one without.
//! - By `fork` over each line of standard input: a name, and after a blank what `fork` reads, where `/` stands for the end of a
//!   line. The answers are those of the rules, or of a model of the program in another language, which made the proofs.
//! - By `crowd 2 1` over clocks of its own: each clock that a session is given gives its moment only once two of them were asked,
//!   or where that was looked for as often. On threads no clock looks in vain, and on one thread the first one would.
//!
//! The answers are worked out by hand from the rules: each call of a crowd creates a file of its own, so there are as many turns
//! and names as calls, and the log has its first record and two for each file. They are the same whatever the schedule.
#![tactic(auto)]

mod board;
mod clocks;
mod links;

use board::Board;
use clocks::MeetingClock;
use ivy_base::{Bytes, Memory};
use ivy_cli::run;
use ivy_io::{Clock, Failing, FixedClock, MemKeepers, MemPorts, MemSink, MemSource, Ports};
use links::TwoLinks;
use std::alloc::Global;
use std::sync::{Arc, Wait};
use std::thread::Threads;
use std::{io, str};

/// The second of every turn.
const SECOND: u32 = 5;

/// The words of a service.
const SERVE: &str = "serve 2049 a 1 aa w4h5";

/// What the line begins with that has the name of the newest record.
const LAST: &str = "last ";

fn main(rt: HostRuntime) -> io::Result<()> {
    plain(&rt, rt.alloc(), "crowd 2 5", 0)?;
    plain(&rt, rt.alloc(), "crowd 16 2", 0)?;
    plain(&rt, rt.alloc(), "crowd 17 1", 0)?;
    plain(&rt, rt.alloc(), "serve 0 a 1 aa w4h5", 0)?;
    plain(&rt, rt.alloc(), SERVE, 0)?;
    plain(&rt, rt.alloc(), SERVE, 1)?;
    plain(&rt, rt.alloc(), "fork", 0)?;
    plain(&rt, rt.alloc(), "fork a", 0)?;
    two_links(&rt, rt.alloc())?;
    two_clocks(&rt, rt.alloc())?;
    for line in rt.lines(rt.alloc()) {
        let line = line?;
        check_proof(&rt, rt.alloc(), line.as_str())?;
    }
    Ok(())
}

/// What came of a call of `run`: the status, and what the sink was told.
#[derive(Drop)]
struct Ran {
    status: u8,
    told: String,
}

/// Calls `run` with these words, over this input. The keepers' call of that number fails, from 1 on. The error is: out of
/// memory.
fn obey<R: Threads + Wait + Sync, C: Clock, P: Ports + Send>(
    rt: &R,
    alloc: Global,
    line: &str,
    input: Bytes,
    clock: &mut C,
    ports: &mut P,
    failing: u64,
) -> Result<Ran, Memory> {
    let mut words = Vec::new(alloc);
    for word in line.split(' ') {
        words.push(String::from_str(alloc, word)?)?;
    }
    let mut source = MemSource::new(input, Failing::of(Vec::new(alloc)));
    let mut sink = MemSink::new(alloc, Failing::of(Vec::new(alloc)));
    let mut fails = Vec::new(alloc);
    fails.push(failing)?;
    let mut keepers = MemKeepers::new(alloc, Failing::of(fails));
    let status = run(
        rt,
        alloc,
        words.as_slice(),
        &mut source,
        &mut sink,
        clock,
        ports,
        &mut keepers,
    );
    let told = match str::from_utf8(sink.written()) {
        Ok(told) => String::from_str(alloc, told)?,
        Err(_) => String::from_str(alloc, "no text")?,
    };
    Ok(Ran { status, told })
}

/// Prints what came of these words over nothing, over ports in memory without a link. The keepers' call of that number fails,
/// from 1 on.
fn plain<R: Print + Threads + Wait + Sync>(
    rt: &R,
    alloc: Global,
    line: &str,
    failing: u64,
) -> io::Result<()> {
    let mut clock = FixedClock::new(SECOND, 0);
    let links = MemPorts::new(alloc, Vec::new(alloc), Failing::of(Vec::new(alloc)));
    let Ok(mut ports) = links else {
        return println!(rt; "no answer");
    };
    let nothing = Bytes::of(Vec::new(alloc));
    let ran = obey(rt, alloc, line, nothing, &mut clock, &mut ports, failing);
    show_named(rt, line, ran)
}

/// Prints what came of the word `fork`, over the input that stands in the line after a name.
fn check_proof<R: Print + Threads + Wait + Sync>(
    rt: &R,
    alloc: Global,
    line: &str,
) -> io::Result<()> {
    let mut clock = FixedClock::new(SECOND, 0);
    let links = MemPorts::new(alloc, Vec::new(alloc), Failing::of(Vec::new(alloc)));
    let (Some((name, text)), Ok(mut ports)) = (line.split_once(' '), links) else {
        return println!(rt; "no answer");
    };
    match input_of(alloc, text) {
        Ok(input) => {
            let ran = obey(rt, alloc, "fork", input, &mut clock, &mut ports, 0);
            show_named(rt, name, ran)
        }
        Err(Memory) => println!(rt; "no answer"),
    }
}

/// The bytes of a text in which `/` stands for the end of a line. The error is: out of memory.
fn input_of(alloc: Global, text: &str) -> Result<Bytes, Memory> {
    let mut bytes = Vec::new(alloc);
    for byte in text.bytes() {
        bytes.push(if byte == b'/' { b'\n' } else { byte })?;
    }
    Ok(Bytes::of(bytes))
}

/// Prints what came of two links that wait for each other.
fn two_links<R: Print + Threads + Wait + Sync>(rt: &R, alloc: Global) -> io::Result<()> {
    let mut clock = FixedClock::new(SECOND, 0);
    let Ok(board) = Arc::new(alloc, Board::new()) else {
        return println!(rt; "no answer");
    };
    let Ok(mut ports) = TwoLinks::new(alloc, &board) else {
        return println!(rt; "no answer");
    };
    let nothing = Bytes::of(Vec::new(alloc));
    match obey(rt, alloc, SERVE, nothing, &mut clock, &mut ports, 0) {
        Ok(ran) => {
            let (back, replied) = ports.counts();
            let in_vain = board.in_vain();
            print!(rt; "two links: ")?;
            show(rt, &ran)?;
            println!(rt; ", {replied} of {back} links have their reply, {in_vain} looked in vain")
        }
        Err(Memory) => println!(rt; "no answer"),
    }
}

/// Prints what came of two clocks that wait for each other.
fn two_clocks<R: Print + Threads + Wait + Sync>(rt: &R, alloc: Global) -> io::Result<()> {
    let links = MemPorts::new(alloc, Vec::new(alloc), Failing::of(Vec::new(alloc)));
    let (Ok(board), Ok(mut ports)) = (Arc::new(alloc, Board::new()), links) else {
        return println!(rt; "no answer");
    };
    let Ok(shared) = Arc::try_clone(&board) else {
        return println!(rt; "no answer");
    };
    let mut clock = MeetingClock::first(shared);
    let nothing = Bytes::of(Vec::new(alloc));
    match obey(rt, alloc, "crowd 2 1", nothing, &mut clock, &mut ports, 0) {
        Ok(ran) => {
            let (given, in_vain) = (board.given(), board.in_vain());
            print!(rt; "two clocks: ")?;
            show(rt, &ran)?;
            println!(rt; ", {given} clocks, {in_vain} looked in vain")
        }
        Err(Memory) => println!(rt; "no answer"),
    }
}

/// Prints a line of what came, after its name.
fn show_named<R: Print>(rt: &R, name: &str, ran: Result<Ran, Memory>) -> io::Result<()> {
    match ran {
        Ok(ran) => {
            print!(rt; "{name}: ")?;
            show(rt, &ran)?;
            println!(rt; "")
        }
        Err(Memory) => println!(rt; "no answer"),
    }
}

/// Prints the status, and what the sink was told in one line: of the name of the newest record only how many digits it has.
fn show<R: Print>(rt: &R, ran: &Ran) -> io::Result<()> {
    print!(rt; "status {}", ran.status)?;
    for line in ran.told.as_str().lines() {
        match line.strip_prefix(LAST) {
            Some(name) if is_hex(name) => print!(rt; ", last of {} digits", name.len())?,
            _ => print!(rt; ", {line}")?,
        }
    }
    Ok(())
}

/// Whether it has hexadecimal digits alone.
fn is_hex(text: &str) -> bool {
    text.bytes().all(|byte| byte.is_ascii_hexdigit())
}
