//! A service, from its keeper to its end.

ghost use Rattle.std.specs.Prelude.{◌≡◌, ◌≤◌, ℕ, Some, IfOk, IfSome, IsNone, IsSomeAnd};
ghost use Rattle.hash_signature_model.specs.Saved.{IsSigner, hss};
ghost use Rattle.agent_gate.specs.Taking.{kind_of};
ghost use Rattle.ivy_server.specs.Served.{moment_of};
ghost use Rattle.ivy_serving.specs.Jobs.{ends_of, serving_of};
ghost use Rattle.ring_run.specs.Live.{new_ring};
ghost use Rattle.ivy_serving.specs.Serving.{Outcome, ports_of};
ghost use Rattle.ivy_service.specs.Service.{Goes, HasServed, Serves, keepers_of, service_of, serving_line, status_refused, status_served, status_untold};

use crate::opening::{Opened, open};
use agent_gate::{Closed, Gate};
use hss_keys::Hss;
use ivy_agent::Agent;
use ivy_base::{Bytes, Memory, Moment};
use ivy_io::{Clock, Keeper, Keepers, OpenFault, Ports, Sink, SinkFault, write_all};
use ivy_serving::{LinksServed, ServeFault, serve_links};
use ring_run::{LiveRing, RememberedKey, Verdicts};
use std::alloc::Global;
use std::sync::Wait;
use std::thread::Threads;

/// How many nodes the ring has, and how many of them own a key.
const NODES: u32 = 5;

const REPLICAS: u32 = 3;

/// The status of a service that ended as it should.
const STATUS_ENDED: u8 = 0;

/// That of one whose sink failed.
const STATUS_WRITE: u8 = 5;

/// That of one for which memory ran out.
const STATUS_MEMORY: u8 = 6;

/// That of one whose ports or keepers failed.
const STATUS_OUTSIDE: u8 = 8;

/// The status where something outside is refused.
fn status_refused(why: OpenFault) -> u8
    ensures { result ≡ status_refused why }
{
    match why {
        OpenFault::Failed => STATUS_OUTSIDE,
        OpenFault::Memory => STATUS_MEMORY,
    }
}

/// The status where the line can't be told.
fn status_untold(why: SinkFault) -> u8
    ensures { result ≡ status_untold why }
{
    match why {
        SinkFault::Failed => STATUS_WRITE,
        SinkFault::Memory => STATUS_MEMORY,
    }
}

/// The status of a service whose links were served.
fn status_served(why: Result<(), ServeFault>, lacked: bool) -> u8
    ensures { result ≡ status_served why lacked }
{
    match why {
        Ok(()) if lacked => STATUS_MEMORY,
        Ok(()) => STATUS_ENDED,
        Err(ServeFault::Failed) => STATUS_OUTSIDE,
        Err(_) => STATUS_MEMORY,
    }
}

/// The line that tells of the port. The error is: out of memory.
fn line_of(alloc: Global, port: u16) -> Result<Bytes, Memory>
    ensures { IfOk result (λ line. line ≡ serving_line port) }
{
    Ok(Bytes::of(format!(in alloc; "serving {port}\n")?.into_bytes()))
}

/// The moment that the clock gives.
fn moment<C: Clock>(clock: &mut C) -> Moment
    ensures { (given : ℕ × ℕ) × (result ≡ moment_of given) × C.gives clock.old given clock.new }
{
    let (sec, nsec) = clock.now();
    Moment { sec, nsec }
}

/// Serves the links of ports that listen, over a ring, with an agent behind a gate, and gives the agent after all turns, and the
/// status. None means out of memory for the gate.
fn serve_behind_gate<R: Threads + Wait + Sync, K: Keeper + Drop + Send, P: Ports + Send, C: Clock>(
    rt: &R,
    alloc: Global,
    agent: Agent<K, RememberedKey>,
    ring: &LiveRing,
    clock: &C,
    ports: &mut P,
) -> Option<(Agent<K, RememberedKey>, u8)>
    requires ring { ring.now ≡ new_ring 5 3 }
    requires view { IsSomeAnd agent.agent.view (λ view. Unit {0}) }
    ensures none { IsNone result → ports.new ≡ ports.old }
    ensures served { IfSome result (λ r. (outcome : Outcome) × (r.1 ≡ status_served outcome.why outcome.lacked)
        × HasServed (ports_of P.links P.faults P.ends P.gives P.takes)
        (serving_of (kind_of hss IsSigner K.saves) (ends_of P.Reads.left P.Writes.contents P.Reads.faults P.Writes.faults) C.gives) C.moment
        clock.now agent r.0 ports.old ports.new outcome) }
{
    let Ok(mut passes) = Vec::with_capacity(alloc, 1) else {
        return None;
    };
    let Ok((gate, pass)) = Gate::make(alloc, agent) else {
        return None;
    };
    passes.push_reserved(pass);
    let LinksServed {
        passes,
        lacked_memory,
        why,
    } = serve_links(rt, alloc, &gate, passes, ring, clock, ports);
    match gate.close(passes) {
        Ok(Closed { agent, turns: _ }) => Some((agent, status_served(why, lacked_memory))),
        Err(_) => unreachable!(),
    }
}

/// Asks the ports to listen, tells the sink of the port, and serves the links of the ports with the agent, over a ring with these
/// verdicts. The agent is none where memory ran out for its gate.
fn serve_agent<
    R: Threads + Wait + Sync,
    W: Sink,
    K: Keeper + Drop + Send,
    P: Ports + Send,
    C: Clock,
>(
    rt: &R,
    alloc: Global,
    agent: Agent<K, RememberedKey>,
    verdicts: Verdicts,
    port: u16,
    sink: &mut W,
    clock: &C,
    ports: &mut P,
) -> (Option<Agent<K, RememberedKey>>, u8)
    requires view { IsSomeAnd agent.agent.view (λ view. Unit {0}) }
    ensures { Serves (ports_of P.links P.faults P.ends P.gives P.takes)
        (serving_of (kind_of hss IsSigner K.saves) (ends_of P.Reads.left P.Writes.contents P.Reads.faults P.Writes.faults) C.gives) C.moment
        port clock.now agent (record { ports = ports.old; held = W.contents sink.old; writes = W.faults sink.old })
        result.0 result.1 (record { ports = ports.new; held = W.contents sink.new; writes = W.faults sink.new }) }
{
    let (Ok(ring), Ok(line)) = (
        LiveRing::make_with(rt, alloc, NODES, REPLICAS, verdicts),
        line_of(alloc, port),
    ) else {
        return (Some(agent), STATUS_MEMORY);
    };
    if let Err(why) = ports.listen(alloc, port) {
        return (Some(agent), status_refused(why));
    }
    if let Err(why) = write_all(sink, line.as_slice()) {
        return (Some(agent), status_untold(why));
    }
    match serve_behind_gate(rt, alloc, agent, &ring, clock, ports) {
        Some((agent, status)) => (Some(agent), status),
        None => (None, STATUS_MEMORY),
    }
}

/// Serves a participant on a port, until the ports end or fail: its agent, with this key, is created over the keeper of that name,
/// and enters the view of its log alone. Each link that the ports give is served on a thread of its own, over a live ring of five
/// nodes of which three own a key, and given back; and so is the keeper at the end.
///
/// The status is 0 where the line `serving PORT` was told, the ports came to their end and no session wanted memory; 5 where the
/// sink failed; 8 where the ports or the keepers failed; and else 6, which means out of memory.
pub fn serve<R: Threads + Wait + Sync, W: Sink, C: Clock, P: Ports + Send, N: Keepers>(
    rt: &R,
    alloc: Global,
    port: u16,
    name: &[u8],
    signer: Hss,
    sink: &mut W,
    clock: &mut C,
    ports: &mut P,
    keepers: &mut N,
) -> u8
    ensures { Goes (service_of (ports_of P.links P.faults P.ends P.gives P.takes)
        (serving_of (kind_of hss IsSigner N.One.saves) (ends_of P.Reads.left P.Writes.contents P.Reads.faults P.Writes.faults) C.gives)
        (keepers_of N.lends N.takes N.faults) C.moment)
        (record { port = port; name = name.now; signer = signer })
        (record { around = record { ports = ports.old; held = W.contents sink.old; writes = W.faults sink.old }; keepers = keepers.old; clock = clock.old })
        result
        (record { around = record { ports = ports.new; held = W.contents sink.new; writes = W.faults sink.new }; keepers = keepers.new; clock = clock.new }) }
{
    let keeper = match keepers.keeper(alloc, name) {
        Ok(keeper) => keeper,
        Err(why) => return status_refused(why),
    };
    let moment = moment(clock);
    match open(alloc, keeper, signer, moment) {
        Ok(Opened { agent, verdicts }) => {
            let (agent, status) = serve_agent(rt, alloc, agent, verdicts, port, sink, clock, ports);
            if let Some(agent) = agent {
                keepers.give_back(name, agent.into_keeper());
            }
            status
        }
        Err((keeper, why)) => {
            keepers.give_back(name, keeper);
            status_refused(why)
        }
    }
}
