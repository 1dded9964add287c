//! Lines that set a world up.

ghost use Rattle.std.specs.Prelude.{◌≡◌, ◌==◌, ◌&&◌, ◌||◌, not, nat_le, codes, is_some, IfOk};
ghost use Rattle.script_driver.specs.Machine.{outcome_told};
ghost use Rattle.world_model.specs.Logs.{Played, failed_text};
ghost use Rattle.script_world.specs.Ends.{use_outcome};

use crate::parts::Parts;
use ivy_base::{Memory, Moment};
use script_driver::Taken;
use script_participants::EnterEnd;
use std::alloc::Global;

/// The most nodes that a ring has.
const MOST_NODES: u64 = ring_nodes::MOST_NODES as u64;
/// The most owners that a key has.
const MOST_REPLICAS: u64 = 8;
/// Nanoseconds of a second.
const SECOND: u64 = 1_000_000_000;

impl Parts {
    ghost use Rattle.world_model.specs.Logs.{at_line, use_line};
    ghost use Rattle.world_model.specs.Ring.{RingLine};
    ghost use Rattle.script_world.specs.PartsState.{DoesIn, EndsSessionsIn};

    /// The line `ring`: makes the settled ring of so many nodes, in which so many own a key. The error is: out of memory.
    pub fn ring(&mut self, alloc: Global, count: u64, replicas: u64) -> Result<Taken, Memory>
        ensures { IfOk result (λ taken. DoesIn (λ w outcome. RingLine w count replicas outcome) self.old taken self.new) }
    {
        if self.is_refused_ring(count, replicas) {
            return Ok(Taken::Refused);
        }
        if count > MOST_NODES {
            return Ok(Taken::Exceeded);
        }
        self.nodes.settle(alloc, count as u32, replicas as u32)?;
        self.replicas = Some(replicas as u32);
        Ok(Taken::Went(Vec::new(alloc)))
    }

    /// The line `use`: a participant enters a view, and its sessions are gone then, of which nothing is said here. Where its
    /// keeper fails that is shown. The error is: out of memory.
    pub fn use_view(&mut self, alloc: Global, log: &[u8], named: &[u8]) -> Result<Taken, Memory>
        ensures { IfOk result (λ taken. EndsSessionsIn (λ w outcome. outcome ≡ use_line w log.now named.now) self.old taken self.new) }
    {
        let Some(place) = self.participants.place_of(log) else {
            return Ok(Taken::Refused);
        };
        let Some(view) = self.view_named(named) else {
            return Ok(Taken::Refused);
        };
        let view = view.copy(alloc)?;
        let end = self.participants.at(place).enter(alloc, view)?;
        taken_of(alloc, log, end)
    }

    /// Whether a ring is refused: one was made, or no ring has such counts.
    fn is_refused_ring(&self, count: u64, replicas: u64) -> bool
        ensures { result ≡ (is_some self.now.replicas || not (nat_le 1 replicas && nat_le replicas 8) || count == 0) }
    {
        self.replicas.is_some() || !is_owner_count(replicas) || count == 0
    }

    /// The line `at`: sets the moment.
    pub fn at(&mut self, alloc: Global, sec: u64, nsec: u64) -> Taken
        ensures { DoesIn (λ w outcome. outcome ≡ at_line w sec nsec) self.old result self.new }
    {
        let Ok(sec) = u32::try_from(sec) else {
            return Taken::Refused;
        };
        if nsec >= SECOND {
            return Taken::Refused;
        }
        self.moment = Moment {
            sec,
            nsec: nsec as u32,
        };
        Taken::Went(Vec::new(alloc))
    }
}

/// Whether so many nodes may own a key.
fn is_owner_count(count: u64) -> bool
    ensures { result ≡ (nat_le 1 count && nat_le count 8) }
{
    count >= 1 && count <= MOST_REPLICAS
}

/// How the line `use` of that participant is taken by how entering ended. The error is: out of memory.
fn taken_of(alloc: Global, log: &[u8], end: EnterEnd) -> Result<Taken, Memory>
    ensures { IfOk result (λ taken. (w : Played) → outcome_told taken w ≡ use_outcome log.now end w) }
{
    match end {
        EnterEnd::Entered => Ok(Taken::Went(Vec::new(alloc))),
        EnterEnd::Refused => Ok(Taken::Refused),
        EnterEnd::Failed => Ok(Taken::Went(failed(alloc, log)?)),
    }
}

/// What is shown where the line `use` failed for the participant of that name. The error is: out of memory.
fn failed(alloc: Global, name: &[u8]) -> Result<Vec<u8>, Memory>
    ensures { IfOk result (λ text. text.items ≡ failed_text (codes "use") name.now) }
{
    let mut text = b"use ".as_slice().to_vec(alloc)?;
    text.extend_from_slice(name)?;
    text.extend_from_slice(b" failed\n".as_slice())?;
    Ok(text)
}
