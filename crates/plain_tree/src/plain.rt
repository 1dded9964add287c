//! The tree as two lists, and what an operation does to them.

ghost use Rattle.std.specs.Prelude.{◌≡◌, ◌&&◌, IfOk, OnOk, OnErr, not, option_map, if◌then◌else◌};
ghost use Rattle.std.specs.Option.{option_copied};
ghost use Rattle.tree_model.specs.Tree.{inode_at, entry, is_directory, is_file, has_name, is_empty_directory, is_inside, subdirectory_count};
ghost use Rattle.tree_model.specs.Apply.{empty_tree, apply, at_inode, with_inode, with_name, without_name, touched, link, unlink, move, may_link, may_lose_name, may_replace, may_rename};
ghost use Rattle.inode_replay.specs.Contents.{MakesInode, ChangesContent, changed};
ghost use Rattle.fs_tree.specs.Applicable.{IsApplicable};

use crate::inodes;
use crate::keys::{ROOT, is_root, same};
use crate::names::{self, Name};
use inode_replay::Content;
use ivy_base::{Bytes, Key, Kind, Memory, Moment, Op};
use std::alloc::Global;
use std::marker::Model;

/// A tree kept as the definition has it: the list of its names and the list of its inodes, both in ascending order.
#[derive(Drop)]
pub struct Plain {
    names: Vec<Name>,
    inodes: Vec<(Key, Content)>,
}

impl Model for Plain {
    ghost use Rattle.tree_model.specs.Tree.{Tree};

    ghost Value = { Tree };

    ghost use Rattle.fs_tree.specs.Contents.{inodes_of};
    ghost use Rattle.plain_tree.specs.View.{tree_of};

    ghost view = { λ t. tree_of t.names.items (inodes_of t.inodes.items) };
}

impl Plain {
    /// The root alone: a directory of mode 0777 that is owned by 0:0 and whose times are 0. The error is: out of memory.
    pub fn empty(alloc: Global) -> Result<Plain, Memory>
        ensures { IfOk result (λ t. t ≡ empty_tree) }
    {
        let root = Op::Inode {
            ino: ROOT,
            kind: Kind::Dir,
            mode: 0o777,
            uid: 0,
            gid: 0,
            target: Bytes::of(Vec::new(alloc)),
        };
        let content = Content::fresh(alloc, &root, Moment { sec: 0, nsec: 0 })?;
        let mut inodes = Vec::new(alloc);
        inodes.push((ROOT, content))?;
        Ok(Plain {
            names: Vec::new(alloc),
            inodes,
        })
    }

    /// Does what the operation does at that moment; one that may not be done changes nothing, and is no error.
    /// A file's bytes end at 16,777,216 at most. The error is: out of memory, and then the tree is as it was.
    pub fn apply(&mut self, alloc: Global, moment: Moment, op: &Op) -> Result<(), Memory>
        requires { IsApplicable op.now }
        ensures ok { OnOk result (self.new ≡ apply self.old moment op.now) }
        ensures err { OnErr result (self.new ≡ self.old) }
    {
        let mut after = self.copy(alloc)?;
        after.carry_out(alloc, moment, op)?;
        *self = after;
        Ok(())
    }

    /// An equal tree, which later changes of this one don't reach. The error is: out of memory.
    pub fn copy(&self, alloc: Global) -> Result<Plain, Memory>
        ensures { IfOk result (λ copy. copy ≡ self.now) }
    {
        Ok(Plain {
            names: names::copy(&self.names, alloc)?,
            inodes: inodes::copy(&self.inodes, alloc)?,
        })
    }

    // Does what the operation does. Where memory is short a part of it may have been done.
    fn carry_out(&mut self, alloc: Global, moment: Moment, op: &Op) -> Result<(), Memory>
        requires { IsApplicable op.now }
        ensures ok { OnOk result (self.new ≡ apply self.old moment op.now) }
    {
        match op {
            Op::Inode { .. } => self.add_inode(alloc, moment, op),
            Op::Write { ino, .. } => self.write_file(alloc, moment, ino, op),
            Op::Link { dir, name, ino } => self.link(alloc, moment, dir, name.as_slice(), ino),
            Op::Unlink { dir, name } => self.unlink(moment, dir, name.as_slice()),
            Op::Rename {
                dir,
                name,
                to_dir,
                to_name,
            } => self.rename(
                alloc,
                moment,
                dir,
                name.as_slice(),
                to_dir,
                to_name.as_slice(),
            ),
            Op::SetAttrs { ino, change } => {
                self.change_inode(alloc, moment, ino, change.size.is_some(), op)
            }
            Op::Prepare { .. } | Op::Cancel { .. } | Op::End => Ok(()),
        }
    }

    // ---- inodes and what they contain

    // Adds an inode; a number that is used keeps its inode.
    fn add_inode(&mut self, alloc: Global, moment: Moment, op: &Op) -> Result<(), Memory>
        requires { MakesInode op.now }
        ensures ok { OnOk result (self.new ≡ apply self.old moment op.now) }
    {
        let Op::Inode { ino, .. } = op else {
            unreachable!()
        };
        if self.inode(ino).is_some() {
            return Ok(());
        }
        let content = Content::fresh(alloc, op, moment)?;
        self.set_inode(ino, content)
    }

    // Writes bytes into a regular file; no other inode is written.
    fn write_file(
        &mut self,
        alloc: Global,
        moment: Moment,
        ino: &Key,
        op: &Op,
    ) -> Result<(), Memory>
        requires { ChangesContent op.now }
        ensures ok { OnOk result (self.new ≡ (if is_file (inode_at self.old ino.now) then at_inode self.old ino.now (changed moment op.now) else self.old)) }
    {
        if !self.is_file(ino) {
            return Ok(());
        }
        self.change_content(alloc, moment, ino, op)
    }

    // Sets attributes of an inode; only a regular file takes a size.
    fn change_inode(
        &mut self,
        alloc: Global,
        moment: Moment,
        ino: &Key,
        sized: bool,
        op: &Op,
    ) -> Result<(), Memory>
        requires { ChangesContent op.now }
        ensures ok { OnOk result (self.new ≡ (if sized && not (is_file (inode_at self.old ino.now)) then self.old else at_inode self.old ino.now (changed moment op.now))) }
    {
        if sized && !self.is_file(ino) {
            return Ok(());
        }
        self.change_content(alloc, moment, ino, op)
    }

    // Puts what the operation makes of an inode in its place, where there is one.
    fn change_content(
        &mut self,
        alloc: Global,
        moment: Moment,
        ino: &Key,
        op: &Op,
    ) -> Result<(), Memory>
        requires { ChangesContent op.now }
        ensures ok { OnOk result (self.new ≡ at_inode self.old ino.now (changed moment op.now)) }
    {
        let Some(content) = self.inode(ino) else {
            return Ok(());
        };
        let mut content = content.copy()?;
        content.apply_content(alloc, moment, op)?;
        self.set_inode(ino, content)
    }

    // ---- names

    // Sets the times of a directory whose entries changed at that moment.
    fn touch(&mut self, moment: Moment, dir: &Key) -> Result<(), Memory>
        ensures ok { OnOk result (self.new ≡ touched moment dir.now self.old) }
    {
        let Some(content) = self.inode(dir) else {
            return Ok(());
        };
        let mut content = content.copy()?;
        content.touch(moment);
        self.set_inode(dir, content)
    }

    // Gives an inode a name, where it may have it.
    fn link(
        &mut self,
        alloc: Global,
        moment: Moment,
        dir: &Key,
        name: &[u8],
        ino: &Key,
    ) -> Result<(), Memory>
        ensures ok { OnOk result (self.new ≡ link self.old moment dir.now name.now ino.now) }
    {
        if !self.may_link(dir, name, ino) {
            return Ok(());
        }
        self.set_name(alloc, dir, name, ino)?;
        self.touch(moment, dir)
    }

    // Removes a name, where it is there and may be lost.
    fn unlink(&mut self, moment: Moment, dir: &Key, name: &[u8]) -> Result<(), Memory>
        ensures ok { OnOk result (self.new ≡ unlink self.old moment dir.now name.now) }
    {
        let Some(ino) = self.entry(dir, name) else {
            return Ok(());
        };
        if !self.may_lose_name(&ino) {
            return Ok(());
        }
        self.remove_name(dir, name);
        self.touch(moment, dir)
    }

    // Moves a name to its new place, where it is there and may be moved, in place of the name that stands there.
    fn rename(
        &mut self,
        alloc: Global,
        moment: Moment,
        dir: &Key,
        name: &[u8],
        to_dir: &Key,
        to_name: &[u8],
    ) -> Result<(), Memory>
        ensures ok { OnOk result (self.new ≡ move self.old moment dir.now name.now to_dir.now to_name.now (entry self.old dir.now name.now)) }
    {
        let Some(moved) = self.entry(dir, name) else {
            return Ok(());
        };
        if !self.may_rename(&moved, to_dir, to_name) {
            return Ok(());
        }
        self.remove_name(dir, name);
        self.set_name(alloc, to_dir, to_name, &moved)?;
        self.touch(moment, dir)?;
        self.touch(moment, to_dir)
    }

    // Whether the inode may have that name.
    fn may_link(&self, dir: &Key, name: &[u8], ino: &Key) -> bool
        ensures { result ≡ may_link self.now dir.now name.now ino.now }
    {
        self.is_directory(dir)
            && self.inode(ino).is_some()
            && self.entry(dir, name).is_none()
            && !is_root(ino)
            && !(self.is_directory(ino) && (self.has_name(ino) || self.is_inside(dir, ino)))
    }

    // Whether the inode may lose its name: it isn't a directory with entries.
    fn may_lose_name(&self, ino: &Key) -> bool
        ensures { result ≡ may_lose_name self.now ino.now }
    {
        !self.is_directory(ino) || self.is_empty_directory(ino)
    }

    // Whether the inode may have that name in place of its own.
    fn may_rename(&self, moved: &Key, to_dir: &Key, to_name: &[u8]) -> bool
        ensures { result ≡ may_rename self.now moved.now to_dir.now to_name.now }
    {
        self.is_directory(to_dir)
            && self.may_replace(moved, self.entry(to_dir, to_name))
            && !self.is_inside(to_dir, moved)
    }

    // Whether the moved inode may take the name of the target, where there is one.
    fn may_replace(&self, moved: &Key, target: Option<Key>) -> bool
        ensures { result ≡ may_replace self.now moved.now target }
    {
        match target {
            Some(target) => {
                self.is_directory(moved) == self.is_directory(&target)
                    && self.may_lose_name(&target)
                    && !same(moved, &target)
            }
            None => true,
        }
    }

    // ---- the two lists

    // Lets the number stand for that inode.
    fn set_inode(&mut self, ino: &Key, content: Content) -> Result<(), Memory>
        ensures ok { OnOk result (self.new ≡ with_inode self.old ino.now content.inode) }
    {
        inodes::put(&mut self.inodes, ino, content)
    }

    // Lets the name in the directory lead to that inode.
    fn set_name(&mut self, alloc: Global, dir: &Key, name: &[u8], ino: &Key) -> Result<(), Memory>
        ensures ok { OnOk result (self.new ≡ with_name self.old dir.now name.now ino.now) }
    {
        names::put(&mut self.names, alloc, dir, name, ino)
    }

    // Takes the name in the directory out.
    fn remove_name(&mut self, dir: &Key, name: &[u8])
        ensures { self.new ≡ without_name self.old dir.now name.now }
    {
        names::remove(&mut self.names, dir, name);
    }

    /// The inode of that number, and all that can be asked of it.
    pub fn inode(&self, ino: &Key) -> Option<&Content>
        ensures { option_map (λ k. k.inode) (option_copied result) ≡ inode_at self.now ino.now }
    {
        inodes::find(&self.inodes, ino)
    }

    /// The number of the inode that the directory has under the name, where it has one.
    pub fn entry(&self, dir: &Key, name: &[u8]) -> Option<Key>
        ensures { result ≡ entry self.now dir.now name.now }
    {
        names::find(&self.names, dir, name)
    }

    /// Whether a name leads to the inode.
    pub fn has_name(&self, ino: &Key) -> bool
        ensures { result ≡ has_name self.now ino.now }
    {
        names::lead_to(&self.names, ino)
    }

    /// Whether no name stands in the directory.
    pub fn is_empty_directory(&self, dir: &Key) -> bool
        ensures { result ≡ is_empty_directory self.now dir.now }
    {
        !names::stand_in(&self.names, dir)
    }

    /// How many names in the directory lead to directories.
    pub fn subdirs(&self, dir: &Key) -> usize
        ensures { result ≡ subdirectory_count self.now dir.now }
    {
        self.names
            .iter()
            .filter(|entry| same(dir, &entry.0.0) && self.is_directory(&entry.1))
            .count()
    }

    /// Whether there is a directory of that number.
    pub fn is_directory(&self, ino: &Key) -> bool
        ensures { result ≡ is_directory (inode_at self.now ino.now) }
    {
        match self.inode(ino) {
            Some(content) => content.kind() == Kind::Dir,
            None => false,
        }
    }

    // Whether there is a regular file of that number.
    fn is_file(&self, ino: &Key) -> bool
        ensures { result ≡ is_file (inode_at self.now ino.now) }
    {
        match self.inode(ino) {
            Some(content) => content.kind() == Kind::Reg,
            None => false,
        }
    }

    /// Whether `ino` is the directory or lies inside it.
    pub fn is_inside(&self, ino: &Key, dir: &Key) -> bool
        ensures { result ≡ is_inside self.now ino.now dir.now }
    {
        !names::climb_ends(&self.names, self.names.len() + 1, ino, dir)
    }
}
