//! The trial.

ghost use Rattle.std.specs.Prelude.{◌≤◌};

use super::client::{get_all, is_silent, put_all};
use dht_ids::{Peer, node_id};
use ivy_base::Memory;
use ring_run::LiveRing;
use std::alloc::Global;
use std::sync::Wait;
use std::thread::{Threads, join};

/// What the parts of the trial told: how many puts were acknowledged and how many blocks found by each thread, whether a node
/// joined, stopped and was silent, and how many nodes live of those that were made.
#[derive(Drop)]
pub struct Told {
    pub put: (u32, u32),
    pub joins: bool,
    pub joins_again: bool,
    pub stops: bool,
    pub stops_again: bool,
    pub is_silent: bool,
    pub found: (u32, u32),
    pub put_beside: u32,
    pub live: usize,
    pub made: usize,
    pub found_later: (u32, u32),
}

/// Two threads put 20 blocks each. The error is: out of memory.
fn put_by_two<R: Threads + Wait + Sync>(
    rt: &R,
    alloc: Global,
    ring: &LiveRing,
) -> Result<(u32, u32), Memory> {
    let (first, second) = join(
        rt,
        || put_all(rt, alloc, ring, 0, 20),
        || put_all(rt, alloc, ring, 20, 20),
    );
    Ok((first?, second?))
}

/// Two threads get so many blocks each, all that were put. The error is: out of memory.
fn found_by_two<R: Threads + Wait + Sync>(
    rt: &R,
    alloc: Global,
    ring: &LiveRing,
    each: u8,
) -> Result<(u32, u32), Memory>
    requires { each ≤ 100 }
{
    let (first, second) = join(
        rt,
        || -> Result<u32, Memory>
            requires { each ≤ 100 }
        { get_all(rt, alloc, ring, 0, each) },
        || -> Result<u32, Memory>
            requires { each ≤ 100 }
        { get_all(rt, alloc, ring, each, each) },
    );
    Ok((first?, second?))
}

/// One thread makes a round while the other puts 20 blocks. The error is: out of memory.
fn put_beside_round<R: Threads + Wait + Sync>(
    rt: &R,
    alloc: Global,
    ring: &LiveRing,
) -> Result<u32, Memory> {
    let (round, put) = join(
        rt,
        || ring.round(rt, alloc),
        || put_all(rt, alloc, ring, 40, 20),
    );
    round?;
    put
}

/// The whole trial. The error is: out of memory.
pub fn run_trial<R: Threads + Wait + Sync>(rt: &R, alloc: Global) -> Result<Told, Memory> {
    let mut ring = LiveRing::make(rt, alloc, 5, 3)?;
    let put = put_by_two(rt, alloc, &ring)?;
    let joins = ring.join(rt, alloc, 5).is_ok();
    let joins_again = ring.join(rt, alloc, 5).is_ok();
    let stops = ring.stop(0);
    let stops_again = ring.stop(0);
    let stopped = Peer {
        number: 0,
        id: node_id(0),
    };
    let is_silent = is_silent(rt, alloc, &ring, &stopped)?;
    let found = found_by_two(rt, alloc, &ring, 20)?;
    let put_beside = put_beside_round(rt, alloc, &ring)?;
    ring.round(rt, alloc)?;
    ring.stop(1);
    ring.stop(2);
    ring.round(rt, alloc)?;
    let found_later = found_by_two(rt, alloc, &ring, 30)?;
    Ok(Told {
        put,
        joins,
        joins_again,
        stops,
        stops_again,
        is_silent,
        found,
        put_beside,
        live: ring.live(alloc)?.as_slice().len(),
        made: ring.made(alloc)?.as_slice().len(),
        found_later,
    })
}
