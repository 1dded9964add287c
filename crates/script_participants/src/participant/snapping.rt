//! A participant that makes a snapshot of what it holds.

ghost use Rattle.std.specs.Prelude.{◌≡◌, IfOk, IfSome, IsSomeAnd, OnErr};

use super::Participant;
use ivy_agent::SnapFault;
use ivy_base::{Key, Memory};
use std::alloc::Global;

impl Participant {
    ghost use Rattle.script_participants.specs.Snapping.{HasSnapped};

    /// Its agent, which is in a view, makes a snapshot of all that it holds and saves it; its root's name, which then counts as
    /// printed, or None where the keeper failed, now or before. The error is: out of memory; nothing is changed then.
    pub fn snap(&mut self, alloc: Global) -> Result<Option<Key>, Memory>
        requires view { IsSomeAnd self.old.agent.view (λ view. Unit {0}) }
        ensures snapped { IfOk result (λ root. IfSome self.old.agent.view (λ view. HasSnapped view self.old root self.new)) }
        ensures unchanged { OnErr result (self.new ≡ self.old) }
    {
        match self.agent.snap(alloc) {
            Ok(root) => {
                self.printed = Some(root);
                Ok(Some(root))
            }
            Err(SnapFault::Keeper) => Ok(None),
            Err(SnapFault::Memory) => Err(Memory),
        }
    }
}
