//! Participants that start again.

ghost use Rattle.std.specs.Prelude.{◌≡◌, IfOk};

use crate::parts::Parts;
use ivy_base::Memory;
use script_driver::Taken;
use script_participants::RestartEnd;
use std::alloc::Global;

impl Parts {
    ghost use Rattle.world_model.specs.Logs.{RestartLine};
    ghost use Rattle.world_model.specs.World.{participant};
    ghost use Rattle.script_world.specs.Starting.{EndsSessionsWell};

    /// The line `restart`: a participant's agent starts again from what its keeper holds, and its sessions are gone then, of
    /// which nothing is said here. What it has to publish is met. The error is: out of memory.
    pub fn restart(&mut self, alloc: Global, log: &[u8]) -> Result<Taken, Memory>
        ensures { IfOk result (λ taken. EndsSessionsWell (λ w outcome. RestartLine w (participant w.0 log.now) outcome) self.old taken self.new) }
    {
        let Some(place) = self.participants.place_of(log) else {
            return Ok(Taken::Refused);
        };
        let one = self.participants.at(place);
        match one.restart(alloc)? {
            RestartEnd::Restarted => {
                self.met.meet_all(alloc, one.pending().as_slice())?;
                Ok(Taken::Went(Vec::new(alloc)))
            }
            // A world in which the invariant holds loses nobody.
            RestartEnd::Outside | RestartEnd::Lost => Ok(Taken::Refused),
        }
    }
}
