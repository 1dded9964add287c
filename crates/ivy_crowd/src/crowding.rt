//! A crowd, from its opening to its counts.

ghost use Rattle.std.specs.Prelude.{◌≡◌, ℕ, ◌*◌, ◌≤◌, IfOk, IsSomeAnd};
ghost use Rattle.ivy_server.specs.Served.{moment_of};
ghost use Rattle.ivy_crowd.specs.Crowds.{HasCome};
ghost use Rattle.ivy_crowd.specs.Jobs.{HasRun, over_ring};
ghost use Rattle.ivy_crowd.specs.Sessions.{asking_in};
ghost use Rattle.agent_gate.specs.Taking.{kind_of};

use crate::counting::{files, newest};
use crate::jobs::jobs_of;
use crate::opening::{Opened, open};
use crate::running::run_all;
use crate::stored::stored;
use crate::tally::Tally;
use agent_gate::{Closed, Gate};
use hss_keys::Signs;
use ivy_agent::Agent;
use ivy_base::{Memory, Moment, head_key};
use ivy_io::{Clock, Keeper};
use ring_run::{LiveRing, Verdicts};
use std::alloc::Global;
use std::sync::Wait;
use std::thread::Threads;
use view_blocks::View;

/// How many nodes the ring has, and how many of them own a key.
const NODES: u32 = 5;

const REPLICAS: u32 = 3;

/// So many threads take their turns with the agent, each by a session of its own. The error is: out of memory.
fn run<R: Threads + Wait + Sync, K: Keeper + Drop + Send, S: Signs + Drop + Send, C: Clock>(
    rt: &R,
    alloc: Global,
    agent: Agent<K, S>,
    ring: &LiveRing,
    view: &View,
    threads: u32,
    calls: u32,
    clock: &C,
) -> Result<Closed<K, S>, Memory>
    requires entered { IsSomeAnd agent.agent.view (λ view. Unit {0}) }
    requires few { threads ≤ 16 }
    ensures { IfOk result (HasRun (over_ring (kind_of S.signing S.is_whole K.saves) ring.now C.gives)
        (asking_in view.now calls C.moment clock.now) threads agent) }
{
    let made = Gate::make(alloc, agent)?;
    let (gate, mut first) = made;
    let jobs = jobs_of(alloc, &gate, &mut first, view, threads, calls, clock)?;
    let closed = run_all(rt, alloc, gate, first, ring, jobs)?;
    Ok(closed)
}

/// The moment that the clock gives.
fn moment<C: Clock>(clock: &mut C) -> Moment
    ensures { (given : ℕ × ℕ) × (result ≡ moment_of given) × C.gives clock.old given clock.new }
{
    let (sec, nsec) = clock.now();
    Moment { sec, nsec }
}

/// So many threads of one participant, 1 to 16, over a live ring of five nodes, of which three own a key. The participant has
/// the key of the script's line `log a 1 1 w4h10`, a keeper in memory and the view of its log alone, which it opens at the
/// moment that the clock gives. Thread K serves one link, of the calls that create the files `tK-1` to `tK-CALLS` in the root,
/// with a clock that [`Clock::another`] gives. After them the gate is closed, and the ring is asked for the log's head.
/// Together the threads make 1,000 calls at most, since the key signs 1,023 records after the first.
///
/// The error is: out of memory, here or in a session. A program tells it by status 6.
pub fn crowd<R: Threads + Wait + Sync, C: Clock>(
    rt: &R,
    alloc: Global,
    threads: u32,
    calls: u32,
    clock: &mut C,
) -> Result<Tally, Memory>
    requires some { (1 ≤ threads) × (threads ≤ 16) }
    requires few { threads * calls ≤ 1000 }
    ensures { IfOk result (HasCome (record {
      threads = threads;
      calls = calls;
      gives = C.gives;
      moment = C.moment;
      before = clock.old;
      after = clock.new;
    })) }
{
    let at = moment(clock);
    let verdicts = Verdicts::new(alloc)?;
    let opened = open(alloc, at, verdicts.share()?)?;
    let log = head_key(&opened.agent.owner());
    let ring = LiveRing::make_with(rt, alloc, NODES, REPLICAS, verdicts)?;
    let Opened { agent, view } = opened;
    let closed = run(rt, alloc, agent, &ring, &view, threads, calls, clock)?;
    let last = newest(alloc, &closed.agent)?;
    let stored = stored(rt, alloc, &ring, log)?;
    Ok(Tally {
        turns: closed.turns,
        files: files(&closed.agent),
        last,
        stored,
    })
}
