//! Logs that begin.

ghost use Rattle.std.specs.Prelude.{◌≡◌, IfOk};
ghost use Rattle.hash_signature_model.specs.Saved.{AreLevels};

use crate::parts::Parts;
use hash_signature_model::Set;
use hss_keys::Hss;
use ivy_base::{Bytes, Memory};
use script_participants::Participant;
use std::alloc::Global;

impl Parts {
    ghost use Rattle.script_world.specs.NewParticipants.{BeginsIn};

    /// What the line `log` does before its agent publishes: a participant of that name comes, whose agent opens the log of the
    /// key that these give, and what it is to publish is met. The result is whether it came: false where there is no ring, or
    /// the name is taken, and the line is refused then. The error is: out of memory.
    pub fn begin_log(
        &mut self,
        alloc: Global,
        name: Bytes,
        id: &[u8; 16],
        seed: &[u8; 32],
        sets: &[Set],
    ) -> Result<bool, Memory>
        requires { AreLevels sets.now }
        ensures { IfOk result (λ came. BeginsIn name id.now seed.now sets.now self.old came self.new) }
    {
        if self.replicas.is_none() || self.participants.named(name.as_slice()).is_some() {
            return Ok(false);
        }
        let signer = Hss::grow(alloc, id, seed, sets)?;
        let one = Participant::open(alloc, name, signer, self.moment)?;
        self.met.meet_all(alloc, one.pending().as_slice())?;
        self.participants.push(one)?;
        Ok(true)
    }
}
