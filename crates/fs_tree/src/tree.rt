//! The tree: what one operation does to names and contents, and what is asked of it.

ghost use Rattle.std.specs.Prelude.{◌≡◌, Some, IfOk, OnOk, OnErr, map, option_map};
ghost use Rattle.std.specs.Option.{option_copied};
ghost use Rattle.ivy_base.specs.Naming.{root_number};
ghost use Rattle.tree_model.specs.Tree.{IsInOrder, inode_at, entry, is_live, subdirectory_count, same_key};
ghost use Rattle.tree_model.specs.Apply.{empty_tree, apply, at_inode, with_inode};
ghost use Rattle.tree_model.specs.Sound.{IsSound};
ghost use Rattle.dir_replay.specs.Bare.{bare};
ghost use Rattle.dir_replay.specs.Effect.{IsOfNames};
ghost use Rattle.inode_replay.specs.Attributes.{attributes_of};
ghost use Rattle.inode_replay.specs.Contents.{MakesInode, ChangesContent, changed};
ghost use Rattle.fs_tree.specs.Applicable.{IsApplicable, IsInOne};

use crate::changing::NamesChange;
use crate::contents::Contents;
use dir_replay::{Names, ROOT};
use inode_replay::{Attr, Content};
use ivy_base::{Bytes, Key, Kind, Memory, Moment, Op};
use std::alloc::Global;
use std::marker::Model;

/// A tree of directories, files and symbolic links, which contracts see as the tree of the definitions.
pub struct Tree {
    names: Names,
    contents: Contents,
}

/// One function, so that whatever drops a tree calls it and isn't proved over all of its parts once more.
impl Drop for Tree {
    fn drop(self) {
        let Tree {
            names: _,
            contents: _,
        } = self;
    }
}

impl Model for Tree {
    ghost use Rattle.tree_model.specs.Tree.{Tree as Seen};

    ghost Value = { Seen };

    ghost use Rattle.fs_tree.specs.View.{tree_of};
    ghost use Rattle.fs_tree.specs.Tied.{IsTied};

    ghost view = { λ t. tree_of t.names t.contents };

    ghost invariant = { λ t. IsTied t.names t.contents };
}

impl Tree {
    /// The root alone: a directory of mode 0777 that is owned by 0:0 and whose times are 0. The error is: out of memory.
    pub fn empty(alloc: Global) -> Result<Tree, Memory>
        ensures { IfOk result (λ t. t ≡ empty_tree) }
    {
        let root = Op::Inode {
            ino: ROOT,
            kind: Kind::Dir,
            mode: 0o777,
            uid: 0,
            gid: 0,
            target: Bytes::of(Vec::new(alloc)),
        };
        let mut contents = Contents::new();
        contents.insert(
            alloc,
            ROOT,
            Content::fresh(alloc, &root, Moment { sec: 0, nsec: 0 })?,
        )?;
        Ok(Tree {
            names: Names::fresh(alloc)?,
            contents,
        })
    }

    /// Does what the operation does at that moment; one that may not be done changes nothing, and is no error.
    /// A file's bytes end at 16,777,216 at most. The error is: out of memory, and then the tree is as it was.
    pub fn apply(&mut self, alloc: Global, moment: Moment, op: &Op) -> Result<(), Memory>
        requires { IsApplicable op.now }
        ensures ok { OnOk result (self.new ≡ apply self.old moment op.now) }
        ensures err { OnErr result (self.new ≡ self.old) }
    {
        match op {
            Op::Inode { .. } => self.add(alloc, moment, op),
            Op::Link { dir, .. } => self.change_directory(alloc, moment, dir, op),
            Op::Unlink { dir, .. } => self.change_directory(alloc, moment, dir, op),
            Op::Rename { .. } => self.change_names(alloc, moment, op),
            Op::Write { ino, .. } => self.change_content(alloc, moment, ino, op),
            Op::SetAttrs { ino, .. } => self.change_content(alloc, moment, ino, op),
            Op::Prepare { .. } | Op::Cancel { .. } | Op::End => Ok(()),
        }
    }

    /// An equal tree, which later changes of this one don't reach. The error is: out of memory.
    pub fn copy(&self, alloc: Global) -> Result<Tree, Memory>
        ensures { IfOk result (λ copy. copy ≡ self.now) }
    {
        Ok(Tree {
            names: self.names.copy(alloc)?,
            contents: self.contents.copy()?,
        })
    }

    // Adds an inode, where its number isn't used.
    fn add(&mut self, alloc: Global, moment: Moment, op: &Op) -> Result<(), Memory>
        requires { MakesInode op.now }
        ensures ok { OnOk result (self.new ≡ apply self.old moment op.now) }
        ensures err { OnErr result (self.new ≡ self.old) }
    {
        let Op::Inode { ino, .. } = op else {
            unreachable!()
        };
        if self.contents.get(ino).is_some() {
            return Ok(());
        }
        let content = Content::fresh(alloc, op, moment)?;
        let mut names = NamesChange {
            names: &mut self.names,
            op,
            moment,
        };
        self.contents.insert_with(alloc, *ino, content, &mut names)
    }

    // Does what a Link or an Unlink in the directory does to the names, and to the times of the directory.
    fn change_directory(
        &mut self,
        alloc: Global,
        moment: Moment,
        dir: &Key,
        op: &Op,
    ) -> Result<(), Memory>
        requires { IsInOne dir.now op.now }
        ensures ok { OnOk result (self.new ≡ apply self.old moment op.now) }
        ensures err { OnErr result (self.new ≡ self.old) }
    {
        let mut names = NamesChange {
            names: &mut self.names,
            op,
            moment,
        };
        self.contents.update(alloc, dir, &mut names)
    }

    // Does what a Link, an Unlink or a Rename does to the names, and to the times of the directories of these, on copies.
    fn change_names(&mut self, alloc: Global, moment: Moment, op: &Op) -> Result<(), Memory>
        requires { IsOfNames op.now }
        ensures ok { OnOk result (self.new ≡ apply self.old moment op.now) }
        ensures err { OnErr result (self.new ≡ self.old) }
    {
        let mut names = self.names.copy(alloc)?;
        let mut contents = self.contents.copy()?;
        let touched = names.apply_names(alloc, op)?;
        contents.touch_any(alloc, touched.first, moment)?;
        contents.touch_any(alloc, touched.second, moment)?;
        self.names = names;
        self.contents = contents;
        Ok(())
    }

    // Does what a Write or a SetAttrs does to the inode of that number, where there is one.
    fn change_content(
        &mut self,
        alloc: Global,
        moment: Moment,
        ino: &Key,
        op: &Op,
    ) -> Result<(), Memory>
        requires { ChangesContent op.now }
        ensures ok { OnOk result (self.new ≡ at_inode self.old ino.now (changed moment op.now)) }
        ensures order { IsInOrder self.old }
        ensures err { OnErr result (self.new ≡ self.old) }
    {
        self.contents.change(alloc, moment, ino, op)
    }

    /// The names of all directories, with each inode's kind, and all that can be asked of these.
    pub fn names(&self) -> &Names
        ensures { result.now ≡ bare self.now }
    {
        &self.names
    }

    /// The numbers of all inodes, ascending. The error is: out of memory.
    pub fn numbers(&self, alloc: Global) -> Result<Vec<Key>, Memory>
        ensures numbers { IfOk result (λ numbers. numbers.items ≡ map (λ e. e.0) self.now.inodes) }
        ensures order { IsInOrder self.now }
    {
        self.contents.numbers(alloc)
    }

    /// The inode of that number, and all that can be asked of it, which of its places are written included.
    pub fn content(&self, ino: &Key) -> Option<&Content>
        ensures { option_map (λ k. k.inode) (option_copied result) ≡ inode_at self.now ino.now }
    {
        self.contents.get(ino)
    }

    /// Lets the number stand for that content, which is of the kind of the inode that it stands for. Which of its places are
    /// written is kept with it. The error is: out of memory, and then the tree is as it was.
    pub fn put_content(&mut self, alloc: Global, ino: Key, content: Content) -> Result<(), Memory>
        requires { option_map (λ i. i.kind) (inode_at self.old ino) ≡ Some content.inode.kind }
        ensures ok { OnOk result (self.new ≡ with_inode self.old ino content.inode) }
        ensures sound { OnOk result (IsSound self.new) }
        ensures err { OnErr result (self.new ≡ self.old) }
    {
        self.contents.insert(alloc, ino, content)
    }

    /// The kind of the inode, where there is one of that number.
    pub fn kind(&self, ino: &Key) -> Option<Kind>
        ensures { result ≡ option_map (λ i. i.kind) (inode_at self.now ino.now) }
    {
        Some(self.content(ino)?.kind())
    }

    /// The attributes of the inode, where there is one of that number.
    pub fn attr(&self, ino: &Key) -> Option<Attr>
        ensures { option_map attributes_of result ≡ option_map (λ i. i.attributes) (inode_at self.now ino.now) }
    {
        Some(self.content(ino)?.attr())
    }

    /// The number of the inode that the directory has under the name, where it has one.
    pub fn entry(&self, dir: &Key, name: &[u8]) -> Option<Key>
        ensures { result ≡ entry self.now dir.now name.now }
    {
        self.names.entry(dir, name)
    }

    /// How many names in the directory lead to directories.
    pub fn subdirs(&self, dir: &Key) -> u64
        ensures { result ≡ subdirectory_count self.now dir.now }
    {
        self.names.subdirs(dir)
    }

    /// Whether the inode is live: it is the root or has a name, be it in a directory that isn't live.
    pub fn live(&self, ino: &Key) -> bool
        ensures { result ≡ is_live self.now ino.now }
    {
        is_root(ino) || self.names.names_of(ino) > 0
    }
}

// Whether it is the root's number.
fn is_root(ino: &Key) -> bool
    ensures { result ≡ same_key ino.now root_number }
{
    *ino == ROOT
}
