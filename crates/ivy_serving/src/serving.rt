//! Each link that the ports give is served.

ghost use Rattle.std.specs.Prelude.{◌≡◌, ◌≢◌, [], All, IsSomeAnd};
ghost use Rattle.value_gate.specs.Passes.{IsPassOf, parts_of};
ghost use Rattle.agent_gate.specs.Taking.{kind_of};
ghost use Rattle.ivy_serving.specs.Jobs.{IsServedLink, ends_of, serving_of};
ghost use Rattle.ivy_serving.specs.Serving.{Counts, ServesLinks, at_ports, ports_of};

use crate::fault::ServeFault;
use crate::job::{LinkDone, LinkJob, serve_one};
use crate::link_desk::LinkDesk;
use agent_gate::{Gate, Pass};
use hss_keys::Signs;
use ivy_io::{Clock, Keeper, Ports};
use job_desk::serve_all;
use ring_run::LiveRing;
use std::alloc::Global;
use std::sync::Wait;
use std::thread::Threads;

/// What came of serving the links of some ports.
#[derive(Drop)]
pub struct LinksServed<K: Keeper + Drop, S: Signs + Drop> {
    /// The passes: those that were given, and one for each link.
    pub passes: Vec<Pass<K, S>>,
    /// Whether a link's session ended because memory ran out.
    pub lacked_memory: bool,
    /// Why it ended: there was no further link, or none could be accepted.
    pub why: Result<(), ServeFault>,
}

/// Serves each link that the ports give, each on a thread of its own with a pass and a clock of its own, at most 16 at once,
/// until there is no further link or none can be accepted. Each link that was given is given back once.
///
/// The gate's agent has entered a view, as that of each gate has. The passes are of the gate, and the last of them is split
/// for each link. All passes together have the parts that they had: the gate closes with those that come back exactly where
/// it would have closed with those that were given.
///
/// Why it ended: `Ok` where there was no further link, and the count of ends rose; else [`ServeFault`].
///
/// The ports stay with the caller's thread; their type is `Send`, since it types the links that go to other threads.
pub fn serve_links<
    R: Threads + Wait + Sync,
    K: Keeper + Drop + Send,
    S: Signs + Drop + Send,
    P: Ports + Send,
    C: Clock,
>(
    rt: &R,
    alloc: Global,
    gate: &Gate<K, S>,
    passes: Vec<Pass<K, S>>,
    ring: &LiveRing,
    clock: &C,
    ports: &mut P,
) -> LinksServed<K, S>
    requires entered { IsSomeAnd gate.now.opening.agent.view (λ view. Unit {0}) }
    requires some { passes.items ≢ [] }
    requires of { All (λ p. IsPassOf gate.now p) passes.items }
    ensures served { ServesLinks (at_ports (ports_of P.links P.faults P.ends P.gives P.takes)
        (serving_of (kind_of S.signing S.is_whole K.saves) (ends_of P.Reads.left P.Writes.contents P.Reads.faults P.Writes.faults) C.gives)
        C.moment (record { gate = gate.now; ring = ring.now; moment = C.moment clock.now }))
        (record { ports = ports.old; passes = passes.items }) (record { ports = ports.new; passes = result.passes.items })
        (record { why = result.why; lacked = result.lacked_memory }) }
    ensures counts { Counts (ports_of P.links P.faults P.ends P.gives P.takes) result.why ports.old ports.new }
    ensures of { All (λ p. IsPassOf gate.now p) result.passes.items }
    ensures parts { parts_of result.passes.items ≡ parts_of passes.items }
{
    let mut passes = passes;
    let Some(first) = passes.pop() else {
        unreachable!()
    };
    let desk = LinkDesk {
        alloc,
        gate,
        ring,
        clock,
        ports,
        first,
        passes,
        lacked: false,
        out: 0,
    };
    let serve = |job: LinkJob<K, S, P, C>| -> LinkDone<K, S, P, C>
        ensures { IsServedLink (serving_of (kind_of S.signing S.is_whole K.saves) (ends_of P.Reads.left P.Writes.contents P.Reads.faults P.Writes.faults) C.gives) job.entry result }
    { serve_one(rt, job) };
    let (desk, why) = serve_all(rt, alloc, desk, &serve);
    let LinkDesk {
        ports,
        first,
        mut passes,
        lacked,
        ..
    } = desk;
    take_back(ports);
    passes.push_reserved(first);
    LinksServed {
        passes,
        lacked_memory: lacked,
        why,
    }
}

/// Ends a loan.
fn take_back<P: Ports>(ports: &mut P)
    ensures { ports.new ≡ ports.old }
{
    let _ = &ports;
}
