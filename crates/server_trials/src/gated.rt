//! Links of an agent behind a gate.

ghost use Rattle.std.specs.Prelude.{IsSomeAnd};
ghost use Rattle.dhash_model.specs.Signed.{hss_judged};
ghost use Rattle.value_gate.specs.Passes.{IsPassOf};
ghost use Rattle.agent_gate.specs.Taking.{kind_of};
ghost use Rattle.server_trials.specs.Gated.{HasServedBy};

use crate::agents::{MemAgent, agent};
use crate::link::{Link, link_of};
use crate::served::{SECOND, Served, small_ring, told};
use agent_gate::{Closed, Gate, Pass};
use hss_keys::Signs;
use ivy_io::{FixedClock, Keeper, MemSink, MemSource};
use ivy_server::{Ended, serve_session};
use ring_run::{LiveMesh, LiveRing};
use std::alloc::Global;
use std::sync::Wait;

/// Serves a link with a pass of the gate over the ring. The result is how the link ended, and the pass. Its own calls in the
/// gate's history are the link's turns, in order, after those that it had.
fn serve_pass<R: Wait, K: Keeper + Drop, S: Signs + Drop>(
    rt: &R,
    alloc: Global,
    ring: &LiveRing,
    gate: &Gate<K, S>,
    pass: Pass<K, S>,
    source: &mut MemSource,
    sink: &mut MemSink,
) -> (Ended, Pass<K, S>)
    requires pass { IsPassOf gate.now pass }
    requires view { IsSomeAnd gate.now.opening.agent.view (λ view. Unit {0}) }
    ensures pass { IsPassOf gate.now result.1 }
    ensures turns { HasServedBy (kind_of S.signing S.is_whole K.saves) gate.now
        (record { judged = hss_judged; replicas = ring.now.replicas; entries = ring.now.made }) pass result.0 result.1 }
{
    let mut mesh = LiveMesh::over(rt, ring);
    let mut clock = FixedClock::new(SECOND, 0);
    serve_session(rt, alloc, gate, pass, &mut mesh, source, sink, &mut clock)
}

/// What is left of a link that was served with a gate's only pass: how it ended, what was written, the agent behind the gate's
/// whole history, and how many turns that has.
#[derive(Drop)]
pub struct Behind {
    pub how: Ended,
    pub sink: MemSink,
    pub agent: MemAgent,
    pub turns: u64,
}

/// Serves the link of a line over the ring with a gate's only pass, and closes the gate. None means out of memory, or that the
/// line is of another form.
pub fn serve_behind<R: Wait>(rt: &R, alloc: Global, ring: &LiveRing, line: &str) -> Option<Behind> {
    let Link {
        mut source,
        mut sink,
    } = link_of(alloc, line)?;
    let agent = agent(alloc, 1, 0xaa)?;
    let Ok((gate, pass)) = Gate::make(alloc, agent) else {
        return None;
    };
    let (how, pass) = serve_pass(rt, alloc, ring, &gate, pass, &mut source, &mut sink);
    let mut passes = Vec::new(alloc);
    passes.push(pass).ok()?;
    let Ok(Closed { agent, turns }) = gate.close(passes) else {
        return None;
    };
    Some(Behind {
        how,
        sink,
        agent,
        turns,
    })
}

/// Serves the link of a line behind a gate, over a small ring: what came of it, and how many turns the gate's history has. None
/// means out of memory, or that the line is of another form.
pub fn serve_gated<R: Wait>(rt: &R, alloc: Global, line: &str) -> Option<(Served, u64)> {
    let ring = small_ring(rt, alloc)?;
    let behind = serve_behind(rt, alloc, &ring, line)?;
    let served = told(alloc, behind.how, &behind.sink)?;
    Some((served, behind.turns))
}
