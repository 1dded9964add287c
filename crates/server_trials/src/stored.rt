//! What a live ring holds of a log after a link of its agent.

ghost use Rattle.std.specs.Prelude.{◌≢◌, ◌<◌, None, IfOk};
ghost use Rattle.dhash_client.specs.Execution.{asks_left};
ghost use Rattle.dhash_client.specs.GetBlock.{block_awaited};
ghost use Rattle.dhash_client.specs.GetHead.{head_awaited};

use crate::agents::MemAgent;
use crate::gated::serve_behind;
use dhash_client::{GetBlock, GetHead};
use dht_ids::{Ask, Heads, Judged, Peer, Want};
use ivy_base::{Key, Memory, head_key};
use ivy_server::Ended;
use log_heads::HssJudge;
use ring_run::LiveRing;
use std::alloc::Global;
use std::sync::Wait;

/// How the link ended, the number that the log's head has in the ring (0 where there is none), whether the ring gives the record
/// that this head names, and how many posts the agent has still to put.
#[derive(Drop)]
pub struct Stored {
    pub how: Ended,
    pub head: u32,
    pub is_record_found: bool,
    pub pending: usize,
}

/// The head of the greatest number.
fn greatest(heads: &Heads) -> Option<Judged> {
    heads.as_slice().iter().copied().max_by_key(|head| head.seq)
}

/// One ask for a head, which hears its answer. The error is: out of memory.
fn head_step<R: Wait>(
    rt: &R,
    alloc: Global,
    ring: &LiveRing,
    get: &mut GetHead<HssJudge>,
    node: &Peer,
    question: &Ask,
) -> Result<(), Memory>
    requires { head_awaited get.old ≢ None }
    ensures { IfOk result (λ _. asks_left get.new.execution < asks_left get.old.execution) }
{
    let answer = ring.ask(rt, alloc, node, question)?;
    get.heard(answer)
}

/// The head of the greatest number that a get over the ring gives under a log's key. The error is: out of memory.
fn head<R: Wait>(
    rt: &R,
    alloc: Global,
    ring: &LiveRing,
    log: Key,
) -> Result<Option<Judged>, Memory> {
    let mut get = GetHead::start(alloc, HssJudge, log, ring.replicas(), &ring.made(alloc)?)?;
    'asks: loop {
        match get.next()? {
            Want::Ask(node, question) => head_step(rt, alloc, ring, &mut get, &node, &question)?,
            Want::Done(Ok(heads)) => return Ok(greatest(&heads)),
            Want::Done(Err(_)) => return Ok(None),
        }
    }
}

/// One ask for a block, which hears its answer. The error is: out of memory.
fn block_step<R: Wait>(
    rt: &R,
    alloc: Global,
    ring: &LiveRing,
    get: &mut GetBlock,
    node: &Peer,
    question: &Ask,
) -> Result<(), Memory>
    requires { block_awaited get.old ≢ None }
    ensures { IfOk result (λ _. asks_left get.new.execution < asks_left get.old.execution) }
{
    let answer = ring.ask(rt, alloc, node, question)?;
    get.heard(answer)
}

/// Whether a get over the ring gives the block of that name. The error is: out of memory.
fn has_block<R: Wait>(rt: &R, alloc: Global, ring: &LiveRing, name: Key) -> Result<bool, Memory> {
    let mut get = GetBlock::start(alloc, name, ring.replicas(), &ring.made(alloc)?)?;
    'asks: loop {
        match get.next()? {
            Want::Ask(node, question) => block_step(rt, alloc, ring, &mut get, &node, &question)?,
            Want::Done(Ok(_)) => return Ok(true),
            Want::Done(Err(_)) => return Ok(false),
        }
    }
}

/// How many posts the agent has still to put. None means out of memory, or that it is in no view.
fn pending(alloc: Global, agent: &MemAgent) -> Option<usize> {
    match agent.view() {
        Some(_) => Some(agent.standing(alloc).ok()?.pending.as_slice().len()),
        None => None,
    }
}

/// Serves the link of a line behind a gate, over a ring of five nodes of which three own a key, and asks the ring then for what
/// the agent put. None means out of memory, or that the line is of another form.
pub fn serve_stored<R: Wait>(rt: &R, alloc: Global, line: &str) -> Option<Stored> {
    let ring = LiveRing::make(rt, alloc, 5, 3).ok()?;
    let behind = serve_behind(rt, alloc, &ring, line)?;
    let head = head(rt, alloc, &ring, head_key(&behind.agent.owner())).ok()?;
    let is_record_found = match head {
        Some(head) => has_block(rt, alloc, &ring, head.name).ok()?,
        None => false,
    };
    Some(Stored {
        how: behind.how,
        head: head.map_or(0, |head| head.seq),
        is_record_found,
        pending: pending(alloc, &behind.agent)?,
    })
}
