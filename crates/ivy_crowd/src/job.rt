//! What a thread is given, and how it serves its link.

ghost use Rattle.std.specs.Prelude.{◌≡◌, ◌⊎◌, OnOk};
ghost use Rattle.agent_gate.specs.Taking.{kind_of};
ghost use Rattle.ivy_crowd.specs.Jobs.{EndsAs, IsNew};
ghost use Rattle.ivy_crowd.specs.Sessions.{serving_by};

use crate::ends::{SureSink, SureSource};
use agent_gate::{Gate, Pass};
use hss_keys::Signs;
use ivy_base::Memory;
use ivy_io::{Clock, Keeper};
use ivy_server::{Ended, whole_calls_are_done};
use ivy_serving::serve_link;
use ring_run::LiveRing;
use std::alloc::Global;
use std::sync::Wait;

/// What a thread is given: its pass, its link, and its clock.
#[derive(Drop)]
pub(crate) struct Job<K: Keeper + Drop, S: Signs + Drop, C: Clock> {
    pub(crate) pass: Pass<K, S>,
    pub(crate) source: SureSource,
    pub(crate) sink: SureSink,
    pub(crate) clock: C,
}

/// Whether the link was served to its end. The error is: out of memory: there is no other end of whole calls between two ends
/// that don't fail.
fn is_done(how: Ended) -> Result<(), Memory>
    requires { (how ≡ Ended.Done) ⊎ (how ≡ Ended.Memory) }
    ensures { OnOk result (how ≡ Ended.Done) }
{
    match how {
        Ended::Done => Ok(()),
        Ended::Memory => Err(Memory),
        _ => unreachable!(),
    }
}

/// Serves the link of a job to its end, and gives the pass back. The error is: out of memory.
pub(crate) fn serve<R: Wait, K: Keeper + Drop, S: Signs + Drop, C: Clock>(
    rt: &R,
    alloc: Global,
    gate: &Gate<K, S>,
    ring: &LiveRing,
    job: Job<K, S, C>,
) -> Result<Pass<K, S>, Memory>
    requires { IsNew gate.now job }
    ensures { EndsAs (serving_by (kind_of S.signing S.is_whole K.saves) gate.now ring.now C.gives) job result }
{
    let Job {
        pass,
        mut source,
        mut sink,
        mut clock,
    } = job;
    whole_calls_are_done::<K, S, Gate<K, S>, C>(gate);
    let (how, pass) = serve_link(
        rt,
        alloc,
        gate,
        ring,
        pass,
        &mut source,
        &mut sink,
        &mut clock,
    );
    is_done(how)?;
    Ok(pass)
}
