//! A world: nodes of a ring in memory, and two agents.

ghost use Rattle.std.specs.Prelude.{◌≡◌, ◌≢◌, ◌≤◌, [], IsSomeAnd};
ghost use Rattle.ivy_server.specs.Passes.{by_passes, passes};
ghost use Rattle.server_trials.specs.Worlds.{HasServedOver};

use crate::agents::{MemAgent, agent, view_of_both};
use crate::link::{Link, link_of};
use crate::served::{SECOND, Served, told};
use dht_ids::node_id;
use hss_keys::{Hss, Signs};
use ivy_agent::{Single, Turns};
use ivy_base::Key;
use ivy_io::{FixedClock, Keeper, MemKeeper, MemSink, MemSource};
use ivy_server::{Ended, serve_session};
use ring_nodes::RingNodes;
use std::alloc::Global;
use std::marker::Brand;
use std::sync::Wait;
use world_mesh::{Begun, WorldMesh};

/// Nodes of a ring, how many of them own a key, 1 to 8, and two agents.
#[derive(Drop)]
pub struct World {
    nodes: RingNodes,
    replicas: u32,
    ann: MemAgent,
    ben: MemAgent,
    ghost few: { (1 ≤ replicas) × (replicas ≤ 8) },
}

/// Serves a link over the nodes. The result is how the link ended, the pass, and the nodes with what was put at them.
fn serve_over<R: Wait, K: Keeper, S: Signs + Drop, T: Turns<K, S>, B: Begun>(
    rt: &R,
    alloc: Global,
    turns: &T,
    pass: T::Pass,
    nodes: RingNodes,
    replicas: u32,
    source: &mut MemSource,
    sink: &mut MemSink,
) -> (Ended, T::Pass, RingNodes)
    requires fits { T.fits turns.now pass }
    requires view { IsSomeAnd (T.view turns.now pass) (λ view. Unit {0}) }
    requires begun { nodes ≡ B.nodes }
    requires some { nodes.nodes ≢ [] }
    requires few { (1 ≤ replicas) × (replicas ≤ 8) }
    ensures { HasServedOver (by_passes (passes S.signing S.is_whole K.saves (T.comes turns.now) (T.leaves turns.now))) replicas
        (record { pass = pass; nodes = nodes }) result.0 (record { pass = result.1; nodes = result.2 }) }
{
    let mut mesh = WorldMesh::<B>::over(alloc, nodes, replicas);
    let mut clock = FixedClock::new(SECOND, 0);
    let (how, pass) = serve_session(rt, alloc, turns, pass, &mut mesh, source, sink, &mut clock);
    (how, pass, mesh.into_nodes())
}

/// Which of a world's agents.
#[derive(Clone, Copy)]
pub enum Who {
    Ann,
    Ben,
}

/// What came of a link, the agent, and the nodes.
#[derive(Drop)]
struct Behind {
    served: Option<Served>,
    agent: MemAgent,
    nodes: RingNodes,
}

/// Serves a link over the nodes. None is that the agent is in no view, or that there are no nodes.
fn serve_link<R: Wait>(
    rt: &R,
    alloc: Global,
    agent: MemAgent,
    nodes: RingNodes,
    replicas: u32,
    link: Link,
) -> Option<Behind>
    requires { (1 ≤ replicas) × (replicas ≤ 8) }
{
    let Link {
        mut source,
        mut sink,
    } = link;
    if nodes.count() == 0 || agent.view().is_none() {
        return None;
    }
    let (how, agent, nodes) = serve_over::<R, MemKeeper, Hss, Single, Brand>(
        rt,
        alloc,
        &Single,
        agent,
        nodes,
        replicas,
        &mut source,
        &mut sink,
    );
    let served = told(alloc, how, &sink);
    Some(Behind {
        served,
        agent,
        nodes,
    })
}

impl World {
    /// The settled ring of so many nodes, of which so many own a key, by a line `N R`; and two agents, each in the view of its
    /// own log alone. None means out of memory, or that the line is of another form.
    pub fn make(alloc: Global, line: &str) -> Option<World> {
        let (count, replicas) = line.split_once(' ')?;
        let count: u32 = count.parse().ok()?;
        let replicas: u32 = replicas.parse().ok()?;
        if count < 1 || count > 256 || replicas < 1 || replicas > 8 {
            return None;
        }
        let mut nodes = RingNodes::new(alloc);
        nodes.settle(alloc, count, replicas).ok()?;
        let ann = agent(alloc, 1, 0xaa)?;
        let ben = agent(alloc, 2, 0xbb)?;
        Some(World {
            nodes,
            replicas,
            ann,
            ben,
        })
    }

    /// Both agents enter the view of their two logs. False means out of memory.
    pub fn join_views(&mut self, alloc: Global) -> bool {
        let Some(first) = view_of_both(alloc, &self.ann, &self.ben) else {
            return false;
        };
        let Some(second) = view_of_both(alloc, &self.ann, &self.ben) else {
            return false;
        };
        self.ann.enter(alloc, first).is_ok() && self.ben.enter(alloc, second).is_ok()
    }

    /// Stops the node of a line `I`. False is that none of that number lives.
    pub fn stop(&mut self, line: &str) -> bool {
        match line.parse() {
            Ok(number) => self.nodes.stop(&node_id(number)),
            Err(_) => false,
        }
    }

    /// Loses the ask of that number from now, of a line `K`. False means out of memory, or that it is no
    /// number.
    pub fn lose(&mut self, line: &str) -> bool {
        match line.parse() {
            Ok(count) => self.nodes.lose(count).is_ok(),
            Err(_) => false,
        }
    }

    /// Sets a byte of a block, by a line `I KEY OFFSET BYTE`. False is that the node holds no such byte, running out of memory,
    /// or that the line is of another form.
    pub fn damage(&mut self, alloc: Global, line: &str) -> bool {
        let Some(place) = place_of(line) else {
            return false;
        };
        let corrupted = self.nodes.damage(
            alloc,
            &node_id(place.node),
            &place.key,
            place.offset,
            place.byte,
        );
        match corrupted {
            Ok(block) => block.is_some(),
            Err(_) => false,
        }
    }

    /// Serves the link of a line for one of the agents over the nodes, and gives the world after it. What came of the link is
    /// None when out of memory. None alone means out of memory too, or that the line is of another form.
    pub fn serve<R: Wait>(
        self,
        rt: &R,
        alloc: Global,
        who: Who,
        line: &str,
    ) -> Option<(Option<Served>, World)> {
        let link = link_of(alloc, line)?;
        let World {
            nodes,
            replicas,
            ann,
            ben,
        } = self;
        match who {
            Who::Ann => {
                let behind = serve_link(rt, alloc, ann, nodes, replicas, link)?;
                let world = World {
                    nodes: behind.nodes,
                    replicas,
                    ann: behind.agent,
                    ben,
                };
                Some((behind.served, world))
            }
            Who::Ben => {
                let behind = serve_link(rt, alloc, ben, nodes, replicas, link)?;
                let world = World {
                    nodes: behind.nodes,
                    replicas,
                    ann,
                    ben: behind.agent,
                };
                Some((behind.served, world))
            }
        }
    }
}

/// A byte of a block that a node holds, and what it is to be.
#[derive(Clone, Copy)]
struct Place {
    node: u32,
    key: Key,
    offset: u64,
    byte: u8,
}

/// The place of a line `I KEY OFFSET BYTE`. None is that the line is of another form.
fn place_of(line: &str) -> Option<Place> {
    let (node, rest) = line.split_once(' ')?;
    let (key, rest) = rest.split_once(' ')?;
    let (offset, byte) = rest.split_once(' ')?;
    let mut bytes = [0; 20];
    hex::decode_to_slice(key, &mut bytes).ok()?;
    Some(Place {
        node: node.parse().ok()?,
        key: Key(bytes),
        offset: offset.parse().ok()?,
        byte: byte.parse().ok()?,
    })
}
