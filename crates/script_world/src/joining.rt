//! Lines by which the ring changes ask by ask.

ghost use Rattle.std.specs.Prelude.{◌≡◌, ◌++◌, [], ◌∷◌, IfOk};
ghost use Rattle.script_driver.specs.Machine.{outcome_told};
ghost use Rattle.world_model.specs.Ring.{failed_join_text};
ghost use Rattle.world_model.specs.World.{World};
ghost use Rattle.ring_nodes.specs.Joining.{join_outcome};

use crate::parts::Parts;
use dht_ids::Judge;
use ivy_base::Memory;
use ring_nodes::Join;
use script_driver::Taken;
use std::alloc::Global;

impl Parts {
    ghost use Rattle.world_model.specs.Ring.{JoinLine};
    ghost use Rattle.world_model.specs.Rounds.{RoundLine};
    ghost use Rattle.script_world.specs.PartsState.{DoesIn};

    /// The line `join`: a node of that number joins by a look-up; where it finds nobody, that is shown. The error is: out of
    /// memory, or 2^64 asks.
    pub fn join<J: Judge>(&mut self, alloc: Global, judge: &J, number: u32) -> Result<Taken, Memory>
        ensures { IfOk result (λ taken. DoesIn (λ w outcome. JoinLine (J.judges judge.now) w number w.replicas outcome) self.old taken self.new) }
    {
        let Some(replicas) = self.replicas else {
            return Ok(Taken::Refused);
        };
        let join = self.nodes.join(alloc, judge, replicas, number)?;
        taken_of(alloc, number, join)
    }

    /// The line `round`: a round of maintenance over the live nodes. The error is: out of memory, or 2^64 asks.
    pub fn round<J: Judge>(&mut self, alloc: Global, judge: &J) -> Result<Taken, Memory>
        ensures { IfOk result (λ taken. DoesIn (λ w outcome. RoundLine (J.judges judge.now) w w.replicas outcome) self.old taken self.new) }
    {
        let Some(replicas) = self.replicas else {
            return Ok(Taken::Refused);
        };
        ring_nodes::round(&mut self.nodes, alloc, judge, replicas)?;
        Ok(Taken::Went(Vec::new(alloc)))
    }
}

/// How the line `join` of that number is taken by what became of it. The error is: out of memory.
fn taken_of(alloc: Global, number: u32, join: Join) -> Result<Taken, Memory>
    ensures { IfOk result (λ taken. (w : World) → outcome_told taken w ≡ join_outcome number join w) }
{
    match join {
        Join::Joined => Ok(Taken::Went(Vec::new(alloc))),
        Join::Refused => Ok(Taken::Refused),
        Join::Full => Ok(Taken::Exceeded),
        Join::Failed => Ok(Taken::Went(failed_join(alloc, number)?)),
    }
}

/// What is shown where the node of that number didn't join. The error is: out of memory.
fn failed_join(alloc: Global, number: u32) -> Result<Vec<u8>, Memory>
    ensures { IfOk result (λ text. text.items ≡ failed_join_text number) }
{
    Ok(format!(in alloc; "join {number} failed\n")?.into_bytes())
}
