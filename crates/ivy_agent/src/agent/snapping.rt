//! Agents that make snapshots of what they hold.

ghost use Rattle.std.specs.Prelude.{IfSome, IsSomeAnd};
ghost use Rattle.ivy_agent.specs.Causes.{SnapHasCause};
ghost use Rattle.ivy_agent.specs.Snapping.{Snaps};

use super::Agent;
use crate::fault::SnapFault;
use crate::saving::SaveFault;
use crate::snapping::{save_snapshot, snapshot_of};
use hss_keys::Signs;
use ivy_base::Key;
use ivy_io::Keeper;
use std::alloc::Global;

impl<K: Keeper, S: Signs> Agent<K, S> {
    /// Makes a snapshot of all that the agent holds, which is in a view: it is saved with the root's name, which is given, and
    /// then its blocks that weren't pending already are to be published.
    ///
    /// # Errors
    ///
    /// `Keeper` where the save fails, after which the agent saves no more, or where one failed before, and then the keeper isn't
    /// asked; there is no new snapshot then. `Memory` where memory runs out, and then nothing has changed; it also comes where
    /// what is held has no snapshot: no word counts the posts or the bytes of one, a record cites more than 2^31 logs, or there
    /// are more inodes, or entries of one directory, than a list of a snapshot has room for.
    pub fn snap(&mut self, alloc: Global) -> Result<Key, SnapFault>
        requires view { IsSomeAnd self.old.agent.view (λ view. Unit {0}) }
        ensures snaps { IfSome self.old.agent.view (λ view. Snaps S.signing S.is_whole K.saves view self.old result self.new) }
        ensures cause { SnapHasCause K.faults self.old result self.new }
    {
        if self.has_failed {
            return Err(SnapFault::Keeper);
        }
        let Some(view) = &self.kept.view else {
            unreachable!();
        };
        let Ok(snapshot) = snapshot_of(alloc, view, &self.front, &self.engine, &self.kept.pending)
        else {
            return Err(SnapFault::Memory);
        };
        let root = snapshot.root;
        match save_snapshot(alloc, &mut self.keeper, &mut self.kept, snapshot) {
            Ok(()) => Ok(root),
            Err(SaveFault::Keeper) => {
                self.has_failed = true;
                Err(SnapFault::Keeper)
            }
            Err(SaveFault::Memory) => Err(SnapFault::Memory),
        }
    }
}
