//! A link that is to be served.

ghost use Rattle.std.specs.Prelude.{IsSomeAnd};
ghost use Rattle.value_gate.specs.Passes.{IsPassOf};
ghost use Rattle.agent_gate.specs.Taking.{kind_of};
ghost use Rattle.ivy_serving.specs.Jobs.{IsServedLink, ends_of, serving_of};

use crate::one_pass::OnePass;
use agent_gate::{Gate, Pass};
use hss_keys::Signs;
use ivy_io::{Clock, Keeper, Ports, Sink, Source};
use ivy_server::{Ended, serve_session};
use job_desk::Work;
use ring_run::{LiveMesh, LiveRing};
use std::alloc::Global;
use std::marker::Model;
use std::snapshot::Snapshot;
use std::sync::Wait;

/// Serves a link with a pass of the gate, over the ring, from its first byte to its end, and tells how it ended. The pass that
/// comes back came of the one that was given by calls alone, so it has its number and its parts.
pub fn serve_link<R: Wait, K: Keeper + Drop, S: Signs + Drop, Q: Source, W: Sink, C: Clock>(
    rt: &R,
    alloc: Global,
    gate: &Gate<K, S>,
    ring: &LiveRing,
    pass: Pass<K, S>,
    reads: &mut Q,
    writes: &mut W,
    clock: &mut C,
) -> (Ended, Pass<K, S>)
    requires of { IsPassOf gate.now pass }
    requires entered { IsSomeAnd gate.now.opening.agent.view (λ view. Unit {0}) }
    ensures served { IsServedLink (serving_of (kind_of S.signing S.is_whole K.saves) (ends_of Q.left W.contents Q.faults W.faults) C.gives)
        (record { gate = gate.now; ring = ring.now; link = record { reads = reads.old; writes = writes.old; pass = pass; clock = clock.old } })
        (record { how = result.0; link = record { reads = reads.new; writes = writes.new; pass = result.1; clock = clock.new } }) }
{
    let turns = OnePass {
        gate,
        first: Snapshot::of(&pass),
    };
    let mut mesh = LiveMesh::over(rt, ring);
    serve_session(rt, alloc, &turns, pass, &mut mesh, reads, writes, clock)
}

/// A link that is to be served, with a pass and a clock of its own. Contracts see it as the link, the gate and the ring.
#[derive(Drop)]
pub(crate) struct LinkJob<'a, K: Keeper + Drop, S: Signs + Drop, P: Ports, C: Clock> {
    pub(crate) alloc: Global,
    pub(crate) gate: &'a Gate<K, S>,
    pub(crate) ring: &'a LiveRing,
    pub(crate) reads: P::Reads,
    pub(crate) writes: P::Writes,
    pub(crate) pass: Pass<K, S>,
    pub(crate) clock: C,
}

impl<'a, K: Keeper + Drop, S: Signs + Drop, P: Ports, C: Clock> Model for LinkJob<'a, K, S, P, C> {
    ghost use Rattle.std.specs.Prelude.{IsSomeAnd};
    ghost use Rattle.value_gate.specs.Passes.{IsPassOf};
    ghost use Rattle.ivy_serving.specs.Jobs.{Job};

    ghost Value = { Job K S P.Reads P.Writes C };

    ghost view = { λ j. record {
      gate = j.gate.now;
      ring = j.ring.now;
      link = record { reads = j.reads; writes = j.writes; pass = j.pass; clock = j.clock };
    } };

    ghost invariant = { λ j. IsPassOf j.gate.now j.pass × IsSomeAnd j.gate.now.opening.agent.view (λ view. Unit {0}) };
}

/// A link that was served. Contracts see it as the link, and how its serving ended.
#[derive(Drop)]
pub(crate) struct LinkDone<K: Keeper + Drop, S: Signs + Drop, P: Ports, C: Clock> {
    pub(crate) how: Ended,
    pub(crate) reads: P::Reads,
    pub(crate) writes: P::Writes,
    pub(crate) pass: Pass<K, S>,
    pub(crate) clock: C,
}

impl<K: Keeper + Drop, S: Signs + Drop, P: Ports, C: Clock> Model for LinkDone<K, S, P, C> {
    ghost use Rattle.ivy_serving.specs.Jobs.{Done};

    ghost Value = { Done K S P.Reads P.Writes C };

    ghost view = { λ d. record {
      how = d.how;
      link = record { reads = d.reads; writes = d.writes; pass = d.pass; clock = d.clock };
    } };
}

impl<'a, K: Keeper + Drop, S: Signs + Drop, P: Ports, C: Clock> Work for LinkJob<'a, K, S, P, C> {
    ghost use Rattle.agent_gate.specs.Taking.{kind_of};
    ghost use Rattle.ivy_serving.specs.Jobs.{IsServedLink, ends_of, serving_of};

    type Done = LinkDone<K, S, P, C>;

    ghost serves = { IsServedLink (serving_of (kind_of S.signing S.is_whole K.saves) (ends_of P.Reads.left P.Writes.contents P.Reads.faults P.Writes.faults) C.gives) };
}

/// Serves a link that was given, and tells who is at its other end that this has ended.
pub(crate) fn serve_one<'a, R: Wait, K: Keeper + Drop, S: Signs + Drop, P: Ports, C: Clock>(
    rt: &R,
    job: LinkJob<'a, K, S, P, C>,
) -> LinkDone<K, S, P, C>
    ensures { IsServedLink (serving_of (kind_of S.signing S.is_whole K.saves) (ends_of P.Reads.left P.Writes.contents P.Reads.faults P.Writes.faults) C.gives) job.entry result }
{
    let LinkJob {
        alloc,
        gate,
        ring,
        mut reads,
        mut writes,
        pass,
        mut clock,
    } = job;
    let (how, pass) = serve_link(
        rt,
        alloc,
        gate,
        ring,
        pass,
        &mut reads,
        &mut writes,
        &mut clock,
    );
    P::hang_up(&reads, &writes);
    LinkDone {
        how,
        reads,
        writes,
        pass,
        clock,
    }
}
