//! A server serves links over bytes in memory. Each line of the standard input is a link, or it changes a world over which links
//! are served.
//!
//! A link is `R W STREAM`.
//! - R and W are the numbers of the read and of the write that fail, from 1 on, and 0 where none does.
//! - STREAM has the bytes of the link, as words of hexadecimal digits, `-` for none; `nulls:N` stands for N calls of NULL, with
//!   the numbers from 1 on. A read gives up to 65,536 of them.
//!
//! It is served by an agent that was just created and is alone in its view, over a settled ring of three nodes, of which one
//! owns a key. The answer is how the link ended, and then what was written, in hexadecimal digits (`-` for none); of more than
//! 8,192 bytes, how many there are and their SHA-1.
//! - `slow R W STREAM`: so is this, but a read gives one byte.
//! - `gate R W STREAM`: so is this, but the agent is behind a gate; in front is how many turns the gate's history has then.
//! - `live R W STREAM`: the agent is behind a gate, and the ring is that of `serve`: five nodes, of which three own a key. The answer
//!   is how the link ended, the number of the log's head that a get over the ring gives then, whether a get of the record that
//!   this head names finds it, and how many posts the agent has still to put.
//!
//! A world has nodes in memory and two agents, of which each has its own state from link to link:
//! - `world N R`: the settled ring of N nodes, of which R own a key, and two agents, each alone in its view;
//! - `team`: both enter the view of their two logs;
//! - `stop I`, `lose K`, `damage I KEY OFFSET BYTE`: a node stops, the K-th ask from now is lost, and a byte of a block is set, as in
//!   the script language;
//! - `ann R W STREAM`, `ben R W STREAM`: a link of that agent over these nodes.
//!
//! Two lines try what has no input:
//! - `ring`: five nodes are made, and three own a key. Two threads put 20 content blocks each, ask by ask. Node 5 joins, and can't
//!   again; node 0 stops, and can't again, and is silent from then on. Both threads get all that they put. One thread makes a round
//!   while the other puts 20 blocks more. After a round nodes 1 and 2 stop, so that two of three owners may be gone; after another
//!   one two threads get all 60 blocks. Each line of the answer is a part of this, the same whatever the schedule.
//! - `host`: what is outside the program, each once, where a line says what was met: the keepers of a folder, that names which are
//!   none are refused, what a new keeper keeps and what it keeps after two saves, that a name isn't given twice, and a save whose
//!   folder is gone; whether the clock is beyond the year 2020; and a link with both ends in threads. Of it, what the server read;
//!   that it came to its end, though the client was still there and nobody asked the ports for a further link, and then the ports
//!   to theirs; what the client read until the server hung up; the link's number; and ports that are to end before they listen.
//!
//! The answer to a line that changes a world is `changed`. Empty lines and those that begin with `#` are written as they are. `no
//! answer` stands for other lines, and when out of memory.
//!
//! The answers of the stored run are worked out by hand from RFC 5531 and RFC 1813, and those over a world are what the same calls
//! get in scripts. The replies to MKDIR and LOOKUP are also those of a model in another language.
#![tactic(auto)]

mod agents;
mod gated;
mod host;
mod link;
mod live;
mod served;
mod slow;
mod stored;
mod world;

use gated::serve_gated;
use ivy_host::HostClock;
use ivy_io::Clock;
use ivy_server::Ended;
use served::{Served, serve_line, serve_slowly};
use std::alloc::Global;
use std::io;
use std::sync::Wait;
use stored::{Stored, serve_stored};
use world::{Who, World};

/// The first second of the year 2020.
const YEAR_2020: u32 = 1_577_836_800;

// What is sent to a thread is known to be fit for it of the host's runtime, which is named nowhere but here.
fn main(rt: HostRuntime) -> io::Result<()> {
    let alloc = rt.alloc();
    let mut world = None;
    for line in rt.lines(alloc) {
        let line = line?;
        match line.as_str() {
            "ring" => live::put_to_trial(&rt, alloc)?,
            "host" => {
                host::files::put_to_trial(&rt, alloc)?;
                let (sec, _) = HostClock::new(rt).now();
                println!(rt; "clock: beyond 2020: {}", sec >= YEAR_2020)?;
                host::links::put_to_trial(&rt, alloc)?;
            }
            line => world = answer(&rt, alloc, world, line)?,
        }
    }
    Ok(())
}

/// Prints the answer to a line, and gives the world after it.
fn answer<R: Print + Wait>(
    rt: &R,
    alloc: Global,
    world: Option<World>,
    line: &str,
) -> io::Result<Option<World>> {
    if line.is_empty() || line.starts_with('#') {
        println!(rt; "{line}")?;
        return Ok(world);
    }
    let (word, rest) = line.split_once(' ').unwrap_or((line, ""));
    match word {
        "world" => {
            let world = World::make(alloc, rest);
            say(rt, world.is_some())?;
            Ok(world)
        }
        "ann" => serve_in(rt, alloc, world, Who::Ann, rest),
        "ben" => serve_in(rt, alloc, world, Who::Ben, rest),
        "team" | "stop" | "lose" | "damage" => change(rt, alloc, world, word, rest),
        _ => {
            serve_alone(rt, alloc, word, line, rest)?;
            Ok(world)
        }
    }
}

/// Prints what came of a line that serves no world.
fn serve_alone<R: Print + Wait>(
    rt: &R,
    alloc: Global,
    word: &str,
    line: &str,
    rest: &str,
) -> io::Result<()> {
    match word {
        "slow" => show(rt, serve_slowly(rt, alloc, rest)),
        "gate" => match serve_gated(rt, alloc, rest) {
            Some((served, turns)) => {
                print!(rt; "{turns} ")?;
                show(rt, Some(served))
            }
            None => show(rt, None),
        },
        "live" => match serve_stored(rt, alloc, rest) {
            Some(stored) => show_stored(rt, &stored),
            None => say(rt, false),
        },
        _ => show(rt, serve_line(rt, alloc, line)),
    }
}

/// Changes the world, and prints whether that was done.
fn change<R: Print>(
    rt: &R,
    alloc: Global,
    world: Option<World>,
    word: &str,
    rest: &str,
) -> io::Result<Option<World>> {
    let Some(mut world) = world else {
        say(rt, false)?;
        return Ok(None);
    };
    let is_done = match word {
        "team" => world.join_views(alloc),
        "stop" => world.stop(rest),
        "lose" => world.lose(rest),
        _ => world.damage(alloc, rest),
    };
    say(rt, is_done)?;
    Ok(Some(world))
}

/// Serves a link over the world, and prints what came of it.
fn serve_in<R: Print + Wait>(
    rt: &R,
    alloc: Global,
    world: Option<World>,
    who: Who,
    line: &str,
) -> io::Result<Option<World>> {
    let Some(world) = world else {
        say(rt, false)?;
        return Ok(None);
    };
    match world.serve(rt, alloc, who, line) {
        Some((served, world)) => {
            show(rt, served)?;
            Ok(Some(world))
        }
        None => {
            say(rt, false)?;
            Ok(None)
        }
    }
}

/// Prints whether a world was changed.
fn say<R: Print>(rt: &R, is_done: bool) -> io::Result<()> {
    if is_done {
        println!(rt; "changed")
    } else {
        println!(rt; "no answer")
    }
}

/// Prints how a link ended, and what was written.
fn show<R: Print>(rt: &R, served: Option<Served>) -> io::Result<()> {
    let Some(served) = served else {
        return say(rt, false);
    };
    let how = word_of(served.how);
    let written = served.written.as_str();
    if written.is_empty() {
        println!(rt; "{how} -")
    } else {
        println!(rt; "{how} {written}")
    }
}

/// Prints how a link ended, and what the ring and the agent hold then.
fn show_stored<R: Print>(rt: &R, stored: &Stored) -> io::Result<()> {
    let record = if stored.is_record_found {
        "found"
    } else {
        "missing"
    };
    println!(rt;
        "{}, head {}, record {record}, pending {}",
        word_of(stored.how),
        stored.head,
        stored.pending
    )
}

/// The word for how a link ended.
fn word_of(how: Ended) -> &'static str {
    match how {
        Ended::Done => "done",
        Ended::Cut => "cut",
        Ended::TooLong => "too-long",
        Ended::NotACall => "not-a-call",
        Ended::ReadFault => "read-fault",
        Ended::WriteFault => "write-fault",
        Ended::Memory => "memory",
    }
}
