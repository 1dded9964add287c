//! The head of a log, as the live ring gives it.

ghost use Rattle.std.specs.Prelude.{◌≢◌, ◌<◌, None, IfOk};
ghost use Rattle.dhash_client.specs.Execution.{asks_left};
ghost use Rattle.dhash_client.specs.GetHead.{head_awaited};

use dhash_client::GetHead;
use dht_ids::{Ask, Heads, Peer, Want};
use ivy_base::{Key, Memory};
use log_heads::HssJudge;
use ring_run::LiveRing;
use std::alloc::Global;
use std::sync::Wait;

/// The greatest number of the heads.
fn greatest(heads: &Heads) -> u32 {
    let mut most = 0;
    for head in heads.as_slice() {
        most = most.max(head.seq);
    }
    most
}

/// One ask of a get, which hears its answer. The error is: out of memory.
fn step<R: Wait>(
    rt: &R,
    alloc: Global,
    ring: &LiveRing,
    get: &mut GetHead<HssJudge>,
    node: &Peer,
    question: &Ask,
) -> Result<(), Memory>
    requires { head_awaited get.old ≢ None }
    ensures { IfOk result (λ _. asks_left get.new.execution < asks_left get.old.execution) }
{
    let answer = ring.ask(rt, alloc, node, question)?;
    get.heard(answer)
}

/// The greatest number of the heads that a get over the live ring gives under a log's key, and 0 where it gives none. The error
/// is: out of memory.
pub(crate) fn stored<R: Wait>(
    rt: &R,
    alloc: Global,
    ring: &LiveRing,
    log: Key,
) -> Result<u32, Memory> {
    let mut get = GetHead::start(alloc, HssJudge, log, ring.replicas(), &ring.made(alloc)?)?;
    'asks: loop {
        match get.next()? {
            Want::Ask(node, question) => step(rt, alloc, ring, &mut get, &node, &question)?,
            Want::Done(Ok(heads)) => return Ok(greatest(&heads)),
            Want::Done(Err(_)) => return Ok(0),
        }
    }
}
