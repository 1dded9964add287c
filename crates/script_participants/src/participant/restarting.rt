//! A participant that starts again from what its keeper holds.

ghost use Rattle.std.specs.Prelude.{◌≡◌, IfOk, OnErr};

use super::Participant;
use crate::end::{RestartEnd, lost_for};
use block_cache::BlockCache;
use ivy_base::Memory;
use std::alloc::Global;

impl Participant {
    ghost use Rattle.script_participants.specs.Restarting.{HasReturned, HasStartedAgain};

    /// Its agent starts again from what its keeper holds, and its cache is empty then; what it has to publish counts as made.
    /// Or it is in no view, or its keeper holds no agent's bytes. The error is: out of memory; its agent may have started again
    /// then.
    pub fn restart(&mut self, alloc: Global) -> Result<RestartEnd, Memory>
        ensures restarted { IfOk result (λ end. HasStartedAgain self.old end self.new) }
        ensures named { self.new.name ≡ self.old.name }
    {
        if self.view().is_none() {
            return Ok(RestartEnd::Outside);
        }
        match self.come_back(alloc)? {
            RestartEnd::Restarted => {
                self.count_made()?;
                Ok(RestartEnd::Restarted)
            }
            end => Ok(end),
        }
    }

    /// Its agent starts again, and its cache is empty then. The error is: out of memory; nothing is changed then.
    fn come_back(&mut self, alloc: Global) -> Result<RestartEnd, Memory>
        ensures returned { IfOk result (λ end. HasReturned self.old end self.new) }
        ensures unchanged { OnErr result (self.new ≡ self.old) }
    {
        let nothing = BlockCache::new(alloc)?;
        match self.agent.start_again(alloc) {
            Ok(()) => {
                self.cache = nothing;
                Ok(RestartEnd::Restarted)
            }
            Err(fault) => lost_for(fault),
        }
    }
}
