//! A service in memory, and what came of it.

use hss_keys::Hss;
use ivy_base::Bytes;
use ivy_io::{Failing, FixedClock, MemKeepers, MemPorts, MemSink, MemSource};
use ivy_service::serve;
use lms_core::{Height, Set, Width};
use std::alloc::Global;
use std::str;
use std::sync::Wait;
use std::thread::Threads;

/// The port that is told.
const PORT: u16 = 2049;

/// The most links of a line.
const MOST_LINKS: usize = 100;

/// NULL of NFS with the number 1, as one fragment (RFC 5531, sections 9 and 11).
const CALL: [u8; 44] =
    *b"\x80\x00\x00\x28\x00\x00\x00\x01\x00\x00\x00\x00\x00\x00\x00\x02\x00\x01\x86\xa3\x00\x00\x00\x03\x00\x00\x00\x00\x00\x00\x00\x00\x00\x00\x00\x00\x00\x00\x00\x00\x00\x00\x00\x00";

/// The reply to it.
const REPLY: [u8; 28] =
    *b"\x80\x00\x00\x18\x00\x00\x00\x01\x00\x00\x00\x01\x00\x00\x00\x00\x00\x00\x00\x00\x00\x00\x00\x00\x00\x00\x00\x00";

/// The status, what the sink was told, how many links came back, and how many of these have the reply and no more.
#[derive(Drop)]
pub struct Served {
    pub status: u8,
    pub told: String,
    pub back: usize,
    pub replied: usize,
}

/// A line's numbers.
struct Planned {
    links: usize,
    listens: u64,
    keepers: u64,
    sinks: u64,
}

/// The numbers of a line. None is a line of another form.
fn plan_of(line: &str) -> Option<Planned> {
    let (links, rest) = line.split_once(' ')?;
    let (listens, rest) = rest.split_once(' ')?;
    let (keepers, sinks) = rest.split_once(' ')?;
    let links = links.parse().ok()?;
    if links > MOST_LINKS {
        return None;
    }
    Some(Planned {
        links,
        listens: listens.parse().ok()?,
        keepers: keepers.parse().ok()?,
        sinks: sinks.parse().ok()?,
    })
}

/// The call of that number is to fail; calls count from 1, so that 0 names none. None means out of memory.
fn failing(alloc: Global, number: u64) -> Option<Failing> {
    let mut calls = Vec::new(alloc);
    calls.push(number).ok()?;
    Some(Failing::of(calls))
}

/// A link on which one call comes. None means out of memory.
fn link(alloc: Global) -> Option<(MemSource, MemSink)> {
    let call = Bytes::copy_of(alloc, &CALL).ok()?;
    let source = MemSource::new(call, failing(alloc, 0)?);
    Some((source, MemSink::new(alloc, failing(alloc, 0)?)))
}

/// Ports that give so many links. None means out of memory.
fn ports(alloc: Global, links: usize, listens: u64) -> Option<MemPorts> {
    let mut all = Vec::new(alloc);
    for _ in 0..links {
        all.push(link(alloc)?).ok()?;
    }
    MemPorts::new(alloc, all, failing(alloc, listens)?).ok()
}

/// The participant's key. None means out of memory.
fn key(alloc: Global) -> Option<Hss> {
    let mut id = [0; 16];
    id[15] = 1;
    let mut seed = [0; 32];
    seed[31] = 0xaa;
    let set = Set {
        w: Width::W4,
        h: Height::H5,
    };
    Hss::grow(alloc, &id, &seed, &[set]).ok()
}

/// How many of these links have the reply and no more.
fn replied(links: &[(MemSource, MemSink)]) -> usize {
    links
        .iter()
        .filter(|(_, sink)| sink.written() == REPLY.as_slice())
        .count()
}

/// Serves the participant as a line plans it. None is a line of another form, or running out of memory.
pub fn serve_line<R: Threads + Wait + Sync>(rt: &R, alloc: Global, line: &str) -> Option<Served> {
    let Planned {
        links,
        listens,
        keepers,
        sinks,
    } = plan_of(line)?;
    let mut ports = ports(alloc, links, listens)?;
    let mut keepers = MemKeepers::new(alloc, failing(alloc, keepers)?);
    let mut sink = MemSink::new(alloc, failing(alloc, sinks)?);
    let mut clock = FixedClock::new(5, 0);
    let status = serve(
        rt,
        alloc,
        PORT,
        b"a".as_slice(),
        key(alloc)?,
        &mut sink,
        &mut clock,
        &mut ports,
        &mut keepers,
    );
    let told = str::from_utf8(sink.written()).ok()?;
    Some(Served {
        status,
        told: String::from_str(alloc, told).ok()?,
        back: ports.served().len(),
        replied: replied(ports.served()),
    })
}
