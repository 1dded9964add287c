//! Agents, each in the view of its own log alone or of two logs.

ghost use Rattle.std.specs.Prelude.{IfSome, IsSomeAnd};

use hss_keys::Hss;
use ivy_agent::Agent;
use ivy_base::Moment;
use ivy_io::MemKeeper;
use lms_core::{Height, Set, Width};
use std::alloc::Global;
use view_blocks::View;

/// An agent that is kept in memory.
pub type MemAgent = Agent<MemKeeper, Hss>;

/// The moment at which agents open their logs.
const OPENING: Moment = Moment { sec: 0, nsec: 0 };

/// A key with 32 signatures, of that identifier, from that seed. None means out of memory.
fn key(alloc: Global, identifier: u8, seed: u8) -> Option<Hss> {
    let mut id = [0; 16];
    id[15] = identifier;
    let mut seeds = [0; 32];
    seeds[31] = seed;
    let set = Set {
        w: Width::W4,
        h: Height::H5,
    };
    Hss::grow(alloc, &id, &seeds, &[set]).ok()
}

/// An agent with that key, in the view of its own log alone. None means out of memory.
pub fn agent(alloc: Global, identifier: u8, seed: u8) -> Option<MemAgent>
    ensures { IfSome result (λ a. IsSomeAnd a.agent.view (λ view. Unit {0})) }
{
    let signer = key(alloc, identifier, seed)?;
    let Ok(mut agent) = Agent::create(alloc, MemKeeper::new(alloc), signer, OPENING) else {
        return None;
    };
    let view = View::make(alloc, &[agent.owner()], &[]).ok()?;
    agent.enter(alloc, view).ok()?;
    match agent.view() {
        Some(_) => Some(agent),
        None => None,
    }
}

/// The view of the logs of these two agents, whose keys ascend. None means out of memory.
pub fn view_of_both(alloc: Global, first: &MemAgent, second: &MemAgent) -> Option<View> {
    View::make(alloc, &[first.owner(), second.owner()], &[]).ok()
}
