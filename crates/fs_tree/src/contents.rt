//! What all inodes contain, by their numbers. It knows of no names.

ghost use Rattle.std.specs.Prelude.{◌≡◌, OnOk, OnErr, IfOk, [], map, option_map};
ghost use Rattle.std.specs.Option.{option_copied};
ghost use Rattle.std.specs.FinMap.Entries.{find as value_at, put};
ghost use Rattle.ivy_base.specs.Naming.{key_cmp};
ghost use Rattle.inode_replay.specs.Contents.{ChangesContent, changed, touched_inode};
ghost use Rattle.fs_tree.specs.Contents.{IsContentEdited};

use inode_replay::Content;
use ivy_base::{Key, Memory, Moment, Op};
use shared_map::{Attempt, Edit, SharedMap};
use std::alloc::Global;
use std::marker::Model;

/// The contents of all inodes by their numbers.
///
/// Contracts see the inodes in the order of their numbers, without which of their places are written.
pub struct Contents {
    map: SharedMap<Key, Content>,
}

/// One function, so that whatever drops the contents calls it and isn't proved over the map's parts once more.
impl Drop for Contents {
    fn drop(self) {
        let Contents { map: _ } = self;
    }
}

impl Model for Contents {
    ghost use Rattle.std.specs.Prelude.{List};
    ghost use Rattle.ivy_base.specs.declared.key.Key.{Key};
    ghost use Rattle.tree_model.specs.Tree.{Inode};

    ghost Value = { List (Key × Inode) };

    ghost use Rattle.fs_tree.specs.Contents.{inodes_of};

    ghost view = { λ c. inodes_of c.map };
}

impl Contents {
    ghost use Rattle.fs_tree.specs.Contents.{at_content, touched_content};

    /// No inodes.
    pub fn new() -> Contents
        ensures { result ≡ [] }
    {
        Contents {
            map: SharedMap::new(),
        }
    }

    /// The inode of that number.
    pub fn get(&self, ino: &Key) -> Option<&Content>
        ensures { option_map (λ k. k.inode) (option_copied result) ≡ value_at key_cmp ino.now self.now }
    {
        self.map.get(ino)
    }

    /// Lets the number stand for that inode. The error is: out of memory, and then nothing has changed.
    pub fn insert(&mut self, alloc: Global, ino: Key, content: Content) -> Result<(), Memory>
        ensures ok { OnOk result (self.new ≡ put key_cmp ino content.inode self.old) }
        ensures err { OnErr result (self.new ≡ self.old) }
    {
        self.map.insert(alloc, ino, content)?;
        Ok(())
    }

    /// The same together with something else, which is done too, or not where memory is short.
    pub fn insert_with<P: Attempt>(
        &mut self,
        alloc: Global,
        ino: Key,
        content: Content,
        rest: &mut P,
    ) -> Result<(), Memory>
        ensures ok { OnOk result ((self.new ≡ put key_cmp ino content.inode self.old) × P.makes rest.old rest.new) }
        ensures err { OnErr result ((self.new ≡ self.old) × (rest.new ≡ rest.old)) }
    {
        self.map.insert_with(alloc, ino, content, rest)?;
        Ok(())
    }

    /// Changes the inode of that number where it stands, if there is one. The error is: out of memory, and then nothing
    /// has changed.
    pub fn update<E: Edit<Content>>(
        &mut self,
        alloc: Global,
        ino: &Key,
        edit: &mut E,
    ) -> Result<(), Memory>
        ensures ok { OnOk result (IsContentEdited E.makes ino.now edit.old edit.new self.old self.new) }
        ensures err { OnErr result ((edit.new ≡ edit.old) × (self.new ≡ self.old)) }
    {
        self.map.update(alloc, ino, edit)?;
        Ok(())
    }

    /// The same inodes, which both share. It takes no memory: the only error is that a part of them already has as many
    /// owners as can be counted.
    pub fn copy(&self) -> Result<Contents, Memory>
        ensures { IfOk result (λ copy. copy ≡ self.now) }
    {
        Ok(Contents {
            map: self.map.copy()?,
        })
    }

    /// The numbers of all inodes, ascending. The error is: out of memory.
    pub fn numbers(&self, alloc: Global) -> Result<Vec<Key>, Memory>
        ensures { IfOk result (λ numbers. numbers.items ≡ map (λ e. e.0) self.now) }
    {
        let inodes = self.map.entries(alloc)?;
        let mut numbers = Vec::with_capacity(alloc, inodes.len())?;
        'inodes: for (ino, _) in inodes {
            numbers.push(*ino)?;
        }
        Ok(numbers)
    }

    /// Does what a Write or a SetAttrs does to the inode of that number, where there is one. The error is: out of
    /// memory, and then nothing has changed.
    pub fn change(
        &mut self,
        alloc: Global,
        moment: Moment,
        ino: &Key,
        op: &Op,
    ) -> Result<(), Memory>
        requires { ChangesContent op.now }
        ensures ok { OnOk result (self.new ≡ at_content self.old ino.now (changed moment op.now)) }
        ensures err { OnErr result (self.new ≡ self.old) }
    {
        let Some(content) = self.get(ino) else {
            return Ok(());
        };
        let mut content = content.copy()?;
        content.apply_content(alloc, moment, op)?;
        self.insert(alloc, *ino, content)
    }

    /// Sets the times of the directory whose entries changed at that moment, where one is given. The error is: out of
    /// memory, and then nothing has changed.
    pub fn touch_any(
        &mut self,
        alloc: Global,
        dir: Option<Key>,
        moment: Moment,
    ) -> Result<(), Memory>
        ensures ok { OnOk result (self.new ≡ touched_content moment dir self.old) }
        ensures err { OnErr result (self.new ≡ self.old) }
    {
        match dir {
            None => Ok(()),
            Some(dir) => self.touch(alloc, &dir, moment),
        }
    }

    // Sets the times of the directory whose entries changed at that moment.
    fn touch(&mut self, alloc: Global, dir: &Key, moment: Moment) -> Result<(), Memory>
        ensures ok { OnOk result (self.new ≡ at_content self.old dir.now (touched_inode moment)) }
        ensures err { OnErr result (self.new ≡ self.old) }
    {
        self.update(alloc, dir, &mut Touch { moment })
    }
}

// The entries of a directory changed at that moment.
#[derive(Drop)]
struct Touch {
    moment: Moment,
}

impl Edit<Content> for Touch {
    ghost use Rattle.std.specs.Prelude.{◌≡◌};
    ghost use Rattle.inode_replay.specs.Kept.{touched_kept};

    ghost makes = { λ touch content _ touched. touched ≡ touched_kept touch.moment content };

    fn edit(&mut self, _: Global, content: &mut Content) -> Result<(), Memory> {
        content.touch(self.moment);
        Ok(())
    }
}
