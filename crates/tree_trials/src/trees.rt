//! A tree that is kept in three ways.

ghost use Rattle.fs_tree.specs.Applicable.{IsApplicable};

use crate::alike::effect;
use crate::lines::Line;
use crate::operations::operation;
use dir_replay::{Names, Touched};
use fs_tree::Tree;
use ivy_base::{Memory, Moment, Op};
use plain_tree::Plain;
use std::alloc::Global;

/// What the same operations made of a whole tree, of names alone, and of a tree kept plainly.
pub struct Trees {
    pub tree: Tree,
    pub names: Names,
    pub plain: Plain,
}

// Written out, so that what drops trees calls it and isn't made over all their parts.
impl Drop for Trees {
    fn drop(self) {
        let Trees {
            tree: _,
            names: _,
            plain: _,
        } = self;
    }
}

/// What an operation did.
#[derive(Clone, Copy)]
pub struct Effect {
    /// The directories whose entries it changed.
    pub touched: Touched,
    /// Whether the tree answers otherwise than before about some inode.
    pub has_changed: bool,
    /// Whether the three trees answer alike about all inodes afterwards.
    pub agree: bool,
}

/// Nothing was done.
const NO_EFFECT: Effect = Effect {
    touched: Touched {
        first: None,
        second: None,
    },
    has_changed: false,
    agree: true,
};

impl Trees {
    /// The root alone.
    pub fn empty(alloc: Global) -> Result<Trees, Memory> {
        Ok(Trees {
            tree: Tree::empty(alloc)?,
            names: Names::fresh(alloc)?,
            plain: Plain::empty(alloc)?,
        })
    }

    /// The same trees once more.
    pub fn copy(&self, alloc: Global) -> Result<Trees, Memory> {
        Ok(Trees {
            tree: self.tree.copy(alloc)?,
            names: self.names.copy(alloc)?,
            plain: self.plain.copy(alloc)?,
        })
    }

    /// Does the operation to each, and says which directories' entries changed.
    fn apply(&mut self, alloc: Global, moment: Moment, op: &Op) -> Result<Touched, Memory>
        requires { IsApplicable op.now }
    {
        self.tree.apply(alloc, moment, op)?;
        self.plain.apply(alloc, moment, op)?;
        self.names.apply_names(alloc, op)
    }

    /// Does the operation, and says what that did. The error is: out of memory.
    fn perform(&mut self, line: &mut Line<'_>, moment: Moment, op: &Op) -> Result<Effect, Memory>
        requires { IsApplicable op.now }
    {
        let before = self.tree.copy(line.alloc)?;
        let touched = self.apply(line.alloc, moment, op)?;
        Ok(effect(line, &before, self, touched))
    }

    /// Does the operation that is left of the line, at that moment.
    pub fn operate(&mut self, line: &mut Line<'_>, moment: Moment) -> Effect {
        let word = line.word();
        let op = operation(line, word);
        let effect = if line.is_good() {
            self.perform(line, moment, &op)
        } else {
            Err(Memory)
        };
        drop(op);
        match effect {
            Ok(effect) => effect,
            Err(_) => {
                line.fail();
                NO_EFFECT
            }
        }
    }
}
