//! All threads serve, and the gate is closed behind them.

ghost use Rattle.std.specs.Prelude.{◌≡◌, ◌+◌, ◌^◌, [], length, All, IfOk};
ghost use Rattle.std.specs.List.{AllZip};
ghost use Rattle.value_gate.specs.Passes.{IsPassOf};
ghost use Rattle.agent_gate.specs.Taking.{kind_of};
ghost use Rattle.ivy_crowd.specs.Jobs.{AreWith, EndsAs, HasTurns, IsNew};
ghost use Rattle.ivy_crowd.specs.Sessions.{HaveRun, serving_by};

use crate::job::{Job, serve};
use agent_gate::{Closed, Gate, Pass};
use hss_keys::Signs;
use ivy_base::Memory;
use ivy_io::{Clock, Keeper};
use ring_run::LiveRing;
use std::alloc::Global;
use std::sync::Wait;
use std::thread::{Threads, map_vec};

/// Serves each job in a thread of its own. What came of each stands in the jobs' order. The error is: out of memory.
fn serve_each<R: Threads + Wait + Sync, K: Keeper + Drop + Send, S: Signs + Drop + Send, C: Clock>(
    rt: &R,
    alloc: Global,
    gate: &Gate<K, S>,
    ring: &LiveRing,
    jobs: Vec<Job<K, S, C>>,
) -> Result<Vec<Result<Pass<K, S>, Memory>>, Memory>
    requires { All (IsNew gate.now) jobs.items }
    ensures { IfOk result (λ ended. AllZip (EndsAs (serving_by (kind_of S.signing S.is_whole K.saves) gate.now ring.now C.gives))
        jobs.items ended.items) }
{
    let ended = map_vec(
        rt,
        jobs,
        &|job: Job<K, S, C>| -> Result<Pass<K, S>, Memory>
            requires { IsNew gate.now job }
            ensures { EndsAs (serving_by (kind_of S.signing S.is_whole K.saves) gate.entry.now ring.entry.now C.gives) job result }
        { serve(rt, alloc, gate, ring, job) },
    )?;
    Ok(ended)
}

/// The first pass, and those that came back. The error is: out of memory, here or for one that didn't come back.
fn passes_of<K: Keeper + Drop, S: Signs + Drop>(
    alloc: Global,
    first: Pass<K, S>,
    ended: Vec<Result<Pass<K, S>, Memory>>,
) -> Result<Vec<Pass<K, S>>, Memory>
    ensures { IfOk result (λ passes. AreWith first ended.items passes.items) }
{
    let mut passes = Vec::new(alloc);
    passes.push(first)?;
    'ended: for pass in ended {
        passes.push(pass?)?;
    }
    Ok(passes)
}

/// All jobs are served, and the gate is closed with the first pass and theirs, which have all parts. The error is: out of memory.
pub(crate) fn run_all<
    R: Threads + Wait + Sync,
    K: Keeper + Drop + Send,
    S: Signs + Drop + Send,
    C: Clock,
>(
    rt: &R,
    alloc: Global,
    gate: Gate<K, S>,
    first: Pass<K, S>,
    ring: &LiveRing,
    jobs: Vec<Job<K, S, C>>,
) -> Result<Closed<K, S>, Memory>
    requires first { IsPassOf gate first × (first.calls ≡ []) }
    requires jobs { All (IsNew gate) jobs.items }
    requires parts { first.parts + length jobs.items ≡ 2 ^ 32 }
    ensures { IfOk result (λ closed. HaveRun (serving_by (kind_of S.signing S.is_whole K.saves) gate ring.now C.gives)
        (HasTurns (serving_by (kind_of S.signing S.is_whole K.saves) gate ring.now C.gives)) jobs.items closed.agent closed.turns) }
{
    let ended = serve_each(rt, alloc, &gate, ring, jobs)?;
    let passes = passes_of(alloc, first, ended)?;
    match gate.close(passes) {
        Ok(closed) => Ok(closed),
        Err(_) => unreachable!(),
    }
}
