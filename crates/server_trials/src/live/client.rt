//! A client of a live ring, which puts and gets content blocks ask by ask.

ghost use Rattle.std.specs.Prelude.{◌≢◌, ◌+◌, ◌<◌, ◌≤◌, None, IfOk};
ghost use Rattle.dhash_client.specs.Execution.{asks_left};
ghost use Rattle.dhash_client.specs.GetBlock.{block_awaited};
ghost use Rattle.dhash_client.specs.Puts.{put_awaited};

use dhash_client::{GetBlock, PutPost};
use dht_ids::{Answer, Ask, Mesh, Peer, Post, PostKind, Want};
use ivy_base::{Bytes, Memory, name_of};
use ring_run::{LiveMesh, LiveRing};
use std::alloc::Global;
use std::sync::Wait;

/// The block of that number: 64 bytes of it. The error is: out of memory.
fn block(alloc: Global, number: u8) -> Result<Bytes, Memory> {
    Ok(Bytes::of(vec![in alloc; number; 64]?))
}

/// Puts the block of that number at its owners. The result is whether the put was acknowledged. The error is: out of memory.
fn put<R: Wait>(rt: &R, alloc: Global, ring: &LiveRing, number: u8) -> Result<bool, Memory> {
    let bytes = block(alloc, number)?;
    let key = name_of(bytes.as_slice());
    let post = Post {
        key,
        bytes,
        kind: PostKind::Block,
    };
    let mut put = PutPost::start(alloc, post, ring.replicas(), &ring.made(alloc)?)?;
    'asks: loop {
        match put.next()? {
            Want::Ask(node, question) => {
                put_step(rt, alloc, ring, &mut put, &node, &question)?;
            }
            Want::Done(Ok(is_acknowledged)) => return Ok(is_acknowledged),
            Want::Done(Err(_)) => return Ok(false),
        }
    }
}

/// One ask of a put, which hears its answer. The error is: out of memory.
fn put_step<R: Wait>(
    rt: &R,
    alloc: Global,
    ring: &LiveRing,
    put: &mut PutPost,
    node: &Peer,
    question: &Ask,
) -> Result<(), Memory>
    requires { put_awaited put.old ≢ None }
    ensures { IfOk result (λ _. asks_left put.new.execution < asks_left put.old.execution) }
{
    let answer = ring.ask(rt, alloc, node, question)?;
    put.heard(answer)
}

/// Whether the block of that number is found at its owners. The error is: out of memory.
fn get<R: Wait>(rt: &R, alloc: Global, ring: &LiveRing, number: u8) -> Result<bool, Memory> {
    let key = name_of(block(alloc, number)?.as_slice());
    let mut get = GetBlock::start(alloc, key, ring.replicas(), &ring.made(alloc)?)?;
    'asks: loop {
        match get.next()? {
            Want::Ask(node, question) => {
                get_step(rt, alloc, ring, &mut get, &node, &question)?;
            }
            Want::Done(Ok(_)) => return Ok(true),
            Want::Done(Err(_)) => return Ok(false),
        }
    }
}

/// One ask of a get, which hears its answer. The error is: out of memory.
fn get_step<R: Wait>(
    rt: &R,
    alloc: Global,
    ring: &LiveRing,
    get: &mut GetBlock,
    node: &Peer,
    question: &Ask,
) -> Result<(), Memory>
    requires { block_awaited get.old ≢ None }
    ensures { IfOk result (λ _. asks_left get.new.execution < asks_left get.old.execution) }
{
    let answer = ring.ask(rt, alloc, node, question)?;
    get.heard(answer)
}

/// Puts that many blocks, the first of that number, and gives how many puts were acknowledged. The error is: out of memory.
pub fn put_all<R: Wait>(
    rt: &R,
    alloc: Global,
    ring: &LiveRing,
    first: u8,
    count: u8,
) -> Result<u32, Memory>
    requires { first + count ≤ 255 }
{
    let mut acknowledged = 0u32;
    for number in first..first + count {
        if put(rt, alloc, ring, number)? {
            acknowledged = acknowledged.saturating_add(1);
        }
    }
    Ok(acknowledged)
}

/// Gets that many blocks, the first of that number, and gives how many were found. The error is: out of memory.
pub fn get_all<R: Wait>(
    rt: &R,
    alloc: Global,
    ring: &LiveRing,
    first: u8,
    count: u8,
) -> Result<u32, Memory>
    requires { first + count ≤ 255 }
{
    let mut found = 0u32;
    for number in first..first + count {
        if get(rt, alloc, ring, number)? {
            found = found.saturating_add(1);
        }
    }
    Ok(found)
}

/// Whether a node is silent, by a mesh over the ring. The error is: out of memory.
pub fn is_silent<R: Wait>(
    rt: &R,
    alloc: Global,
    ring: &LiveRing,
    node: &Peer,
) -> Result<bool, Memory> {
    let mut mesh = LiveMesh::over(rt, ring);
    let answer = mesh.ask(alloc, node, &Ask::Get(node.id))?;
    Ok(matches!(answer, Answer::Silent))
}
