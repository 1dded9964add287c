//! What an operation does to the names together with a change of contents: both are done, or neither.

use dir_replay::Names;
use inode_replay::Content;
use ivy_base::{Memory, Moment, Op};
use shared_map::{Attempt, Edit};
use std::alloc::Global;

/// What the operation does at that moment to the names. As an edit of the directory of the operation's name it also
/// sets the times of that directory, where its entries change.
#[derive(Drop)]
pub struct NamesChange<'a> {
    /// The names.
    pub names: &'a mut Names,
    /// The operation.
    pub op: &'a Op,
    /// When it is done.
    pub moment: Moment,
}

impl Attempt for NamesChange<'_> {
    ghost use Rattle.fs_tree.specs.Changing.{AreNamesChanged};

    ghost makes = { AreNamesChanged };

    fn attempt(&mut self, alloc: Global) -> Result<(), Memory> {
        self.names.apply_names(alloc, self.op)?;
        Ok(())
    }
}

impl Edit<Content> for NamesChange<'_> {
    ghost use Rattle.fs_tree.specs.Changing.{IsDirectoryChanged};

    ghost makes = { IsDirectoryChanged };

    fn edit(&mut self, alloc: Global, content: &mut Content) -> Result<(), Memory> {
        let touched = self.names.apply_names(alloc, self.op)?;
        if touched.first.is_some() {
            content.touch(self.moment);
        }
        Ok(())
    }
}
