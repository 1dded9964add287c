//! Replaying records on a tree.

ghost use Rattle.fs_tree.specs.Applicable.{IsApplicable};

use crate::measured::Measured;
use fs_tree::Tree;
use ivy_base::{Bytes, Key, Kind, Memory, Moment, Op};
use std::alloc::Global;

const NOW: Moment = Moment { sec: 1, nsec: 0 };

/// A tree as records are replayed on it, and whether all were taken: running out of memory is asked for once.
pub struct Replay {
    pub alloc: Global,
    pub tree: Tree,
    pub is_whole: bool,
}

impl Drop for Replay {
    fn drop(self) {
        let Replay {
            alloc: _,
            tree: _,
            is_whole: _,
        } = self;
    }
}

impl Replay {
    /// An empty tree. None where memory is short for it.
    pub fn new(alloc: Global) -> Option<Replay> {
        match Tree::empty(alloc) {
            Ok(tree) => Some(Replay {
                alloc,
                tree,
                is_whole: true,
            }),
            Err(Memory) => None,
        }
    }

    /// Replays a record, and says whether it was taken.
    pub fn apply(&mut self, op: Op) -> bool
        requires { IsApplicable op }
    {
        let taken = self.tree.apply(self.alloc, NOW, &op).is_ok();
        self.is_whole &= taken;
        taken
    }

    /// What was measured on the tree. None where not all records before were taken.
    pub fn whole(&self, measured: Option<Measured>) -> Option<Measured> {
        if self.is_whole { measured } else { None }
    }

    /// Makes an inode.
    pub fn make(&mut self, ino: Key, kind: Kind) {
        self.apply(Op::Inode {
            ino,
            kind,
            mode: 0o755,
            uid: 0,
            gid: 0,
            target: Bytes::of(Vec::new(self.alloc)),
        });
    }
}
