//! A tree that operations of records make, and its snapshots.

ghost use Rattle.log_model.specs.Spelling.{HasSpelling};
ghost use Rattle.log_records.specs.Records.{record_of};

use crate::lines::Line;
use crate::records::record;
use fs_tree::{Basis, ROOT, Tree};
use ivy_base::{Key, Memory, Moment, Op};
use log_records::Record;
use snapshot_blocks::RootBlock;
use snapshot_store::{Made, make};
use std::alloc::Global;
use view_blocks::View;

/// A tree, and how many operations made it of the root alone.
#[derive(Drop)]
pub struct Grown {
    tree: Tree,
    count: u32,
}

impl Grown {
    /// The root alone. The error is: out of memory.
    pub fn new(alloc: Global) -> Result<Grown, Memory> {
        let tree = Tree::empty(alloc)?;
        Ok(Grown { tree, count: 0 })
    }

    /// Does the operation, where a record of that number may have it, and nothing of the line failed.
    pub fn grow(&mut self, line: &mut Line<'_>, seq: u32, op: Op) {
        let moment = Moment {
            sec: self.count,
            nsec: 7,
        };
        let Ok(done) = record(line.alloc, seq, moment, op) else {
            return line.fail();
        };
        if line.is_good() {
            self.take(line, &done);
        }
        drop(done);
    }

    // Does what that record does.
    fn take(&mut self, line: &mut Line<'_>, done: &Record)
        requires { HasSpelling (record_of done.now) }
    {
        if self.count == u32::MAX {
            return line.fail();
        }
        let Ok(()) = self.tree.apply(line.alloc, done.moment, &done.op) else {
            return line.fail();
        };
        self.count += 1;
    }

    /// The tree.
    pub fn tree(&self) -> &Tree {
        &self.tree
    }

    /// A snapshot of it in that view, which covers what the root says. There is none where the root says nothing, and when out of
    /// memory.
    pub fn snapshot(&self, alloc: Global, view: &View, covers: &[u8]) -> Option<Made> {
        match RootBlock::read(alloc, covers) {
            Ok(root) => make(alloc, view, &root.front, root.tide, &self.tree).ok(),
            Err(_) => None,
        }
    }
}

/// The name of the root of the basis's snapshot in that view.
pub fn root_of(line: &mut Line<'_>, view: &View, basis: &Basis) -> Key {
    match make(line.alloc, view, &basis.front, basis.tide, &basis.tree) {
        Ok(made) => made.root,
        Err(_) => {
            line.fail();
            ROOT
        }
    }
}
