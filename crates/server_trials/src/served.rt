//! Links of an agent that is alone, over a ring behind locks.

ghost use Rattle.std.specs.Prelude.{IsSomeAnd};

use crate::agents::{MemAgent, agent};
use crate::link::{Link, link_of};
use crate::slow::Slow;
use ivy_agent::Single;
use ivy_io::{FixedClock, MemSink, Source};
use ivy_server::{Ended, serve_session};
use ring_run::{LiveMesh, LiveRing};
use sha1::Sha1;
use std::alloc::Global;
use std::sync::Wait;

/// The second of every turn.
pub const SECOND: u32 = 5;

/// How many bytes are shown at most.
const MOST_SHOWN: usize = 8_192;

/// How a link ended, and what was written, in hexadecimal digits; where that is longer than 8,192 bytes, how many there are
/// and their SHA-1.
#[derive(Drop)]
pub struct Served {
    pub how: Ended,
    pub written: String,
}

/// Serves a link of the agent over the ring. The result is how the link ended.
fn serve<R: Wait, Q: Source>(
    rt: &R,
    alloc: Global,
    ring: &LiveRing,
    agent: MemAgent,
    source: &mut Q,
    sink: &mut MemSink,
) -> Ended
    requires { IsSomeAnd agent.agent.view (λ view. Unit {0}) }
{
    let mut mesh = LiveMesh::over(rt, ring);
    let mut clock = FixedClock::new(SECOND, 0);
    let (how, _) = serve_session(
        rt, alloc, &Single, agent, &mut mesh, source, sink, &mut clock,
    );
    how
}

/// How the link ended, and what was written to the sink. None means out of memory.
pub fn told(alloc: Global, how: Ended, sink: &MemSink) -> Option<Served> {
    let written = sink.written();
    if written.len() <= MOST_SHOWN {
        let written = hex::encode(alloc, written).ok()?;
        return Some(Served { how, written });
    }
    let sum = hex::encode(alloc, Sha1::digest(written)).ok()?;
    let count = written.len();
    let written = format!(in alloc; "{count} bytes {sum}").ok()?;
    Some(Served { how, written })
}

/// The ring of those links: three nodes, of which one owns a key. None means out of memory.
pub fn small_ring<R>(rt: &R, alloc: Global) -> Option<LiveRing> {
    LiveRing::make(rt, alloc, 3, 1).ok()
}

/// Serves the link of a line. None means out of memory, or that the line is of another form.
pub fn serve_line<R: Wait>(rt: &R, alloc: Global, line: &str) -> Option<Served> {
    let Link {
        mut source,
        mut sink,
    } = link_of(alloc, line)?;
    let ring = small_ring(rt, alloc)?;
    let agent = agent(alloc, 1, 0xaa)?;
    let how = serve(rt, alloc, &ring, agent, &mut source, &mut sink);
    told(alloc, how, &sink)
}

/// Serves the link of a line, of which each read gives one byte; likewise.
pub fn serve_slowly<R: Wait>(rt: &R, alloc: Global, line: &str) -> Option<Served> {
    let Link { source, mut sink } = link_of(alloc, line)?;
    let ring = small_ring(rt, alloc)?;
    let agent = agent(alloc, 1, 0xaa)?;
    let how = serve(rt, alloc, &ring, agent, &mut Slow { source }, &mut sink);
    told(alloc, how, &sink)
}
