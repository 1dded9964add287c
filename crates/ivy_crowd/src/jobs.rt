//! The jobs of all threads.

ghost use Rattle.std.specs.Prelude.{◌≡◌, ◌+◌, ◌<◌, ◌≤◌, length, IfOk, IsSomeAnd, OnOk};
ghost use Rattle.std.specs.List.{AllZip};
ghost use Rattle.value_gate.specs.Passes.{IsPassOf};
ghost use Rattle.ivy_crowd.specs.Jobs.{IsJob};
ghost use Rattle.ivy_crowd.specs.Sessions.{asking_in, threads_of};

use crate::ends::{SureSink, SureSource};
use crate::job::Job;
use crate::request::requests;
use agent_gate::{Gate, Pass};
use hss_keys::Signs;
use ivy_base::Memory;
use ivy_io::{Clock, Keeper};
use std::alloc::Global;
use view_blocks::View;

/// A job for a thread: a part of the pass, a link of the thread's calls, and a clock of its own. The error is: out of memory.
fn job_of<K: Keeper + Drop, S: Signs + Drop, C: Clock>(
    alloc: Global,
    gate: &Gate<K, S>,
    pass: &mut Pass<K, S>,
    view: &View,
    thread: u32,
    calls: u32,
    clock: &C,
) -> Result<Job<K, S, C>, Memory>
    requires pass { IsPassOf gate.now pass.old }
    requires entered { IsSomeAnd gate.now.opening.agent.view (λ view. Unit {0}) }
    requires parts { 2 ≤ pass.old.parts }
    ensures pass { IsPassOf gate.now pass.new }
    ensures parts { OnOk result (pass.new.parts + 1 ≡ pass.old.parts) }
    ensures calls { pass.new.calls ≡ pass.old.calls }
    ensures job { IfOk result (IsJob (asking_in view.now calls C.moment clock.now) gate.now thread) }
{
    let bytes = requests(alloc, view, thread, calls)?;
    let clock = clock.another(alloc)?;
    Ok(Job {
        pass: gate.split(pass),
        source: SureSource::new(alloc, bytes),
        sink: SureSink::new(alloc),
        clock,
    })
}

/// A job for each of so many threads, which are numbered from 1. The error is: out of memory.
pub(crate) fn jobs_of<K: Keeper + Drop, S: Signs + Drop, C: Clock>(
    alloc: Global,
    gate: &Gate<K, S>,
    pass: &mut Pass<K, S>,
    view: &View,
    threads: u32,
    calls: u32,
    clock: &C,
) -> Result<Vec<Job<K, S, C>>, Memory>
    requires pass { IsPassOf gate.now pass.old }
    requires entered { IsSomeAnd gate.now.opening.agent.view (λ view. Unit {0}) }
    requires parts { threads < pass.old.parts }
    ensures pass { IsPassOf gate.now pass.new }
    ensures calls { pass.new.calls ≡ pass.old.calls }
    ensures parts { IfOk result (λ jobs. pass.new.parts + length jobs.items ≡ pass.old.parts) }
    ensures jobs { IfOk result (λ jobs. AllZip (IsJob (asking_in view.now calls C.moment clock.now) gate.now) (threads_of threads) jobs.items) }
{
    let mut jobs = Vec::with_capacity(alloc, threads as usize)?;
    'threads: for before in 0..threads {
        jobs.push(job_of(alloc, gate, pass, view, before + 1, calls, clock)?)?;
    }
    Ok(jobs)
}
