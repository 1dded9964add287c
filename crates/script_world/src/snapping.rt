//! Participants that make snapshots.

ghost use Rattle.std.specs.Prelude.{◌≡◌, IfOk};

use crate::parts::Parts;
use ivy_base::{Key, Memory};
use std::alloc::Global;

/// How making a snapshot ended.
#[derive(Clone, Copy)]
pub enum SnapEnd {
    /// It is made and saved; its root has that name, which counts as printed.
    Made(Key),
    /// The keeper failed, now or before, and there is no new snapshot.
    Failed,
    /// Nobody has that name, or whoever has it is in no view. Nothing has changed.
    Refused,
}

impl Parts {
    ghost use Rattle.script_world.specs.Snapping.{SnapsIn};

    /// What the line `snap` does before its agent publishes: a participant's agent makes a snapshot of all that it holds and saves
    /// it, and what it has to publish then is met. The error is: out of memory.
    pub fn begin_snap(&mut self, alloc: Global, log: &[u8]) -> Result<SnapEnd, Memory>
        ensures { IfOk result (λ end. SnapsIn log.now self.old end self.new) }
    {
        let Some(place) = self.participants.place_of(log) else {
            return Ok(SnapEnd::Refused);
        };
        let one = self.participants.at(place);
        if one.view().is_none() {
            return Ok(SnapEnd::Refused);
        }
        match one.snap(alloc)? {
            Some(root) => {
                self.met.meet_all(alloc, one.pending().as_slice())?;
                Ok(SnapEnd::Made(root))
            }
            None => Ok(SnapEnd::Failed),
        }
    }
}
