//! All inodes by their numbers, each with the names that lead to it and from it.

ghost use Rattle.std.specs.Prelude.{◌≡◌, ℕ, List, Bool, T, IfOk, OnOk, OnErr, Some, None, []};
ghost use Rattle.std.specs.Option.{option_copied};
ghost use Rattle.std.specs.List.{list_any};
ghost use Rattle.std.specs.FinMap.Entries.{find as value_at, put, is_sorted};
ghost use Rattle.ivy_base.specs.Naming.{key_cmp};
ghost use Rattle.dir_replay.specs.Counts.{less_one_if};

use crate::entries::Entries;
use crate::keys::both_same;
use ivy_base::{Key, Kind, Memory};
use shared_map::{Amend, Edit, EntryTest, MapValue, SharedMap};
use std::alloc::{AllocError, Global};
use std::marker::Model;

/// An inode's kind, with what the rules of names ask of it.
#[derive(Drop)]
pub struct Node {
    /// What it is.
    pub kind: Kind,
    /// Of a directory that has a name, the directory in which that stands.
    pub parent: Option<Key>,
    /// How many names lead to it.
    pub names: u64,
    /// How many names in it lead to directories.
    pub subdirs: u64,
    /// The names in it.
    pub entries: Entries,
}

impl Clone for Node {
    ghost use Rattle.std.specs.Prelude.{◌≡◌};

    ghost is_clone = { λ n m. m ≡ n };

    // It shares the names.
    fn clone(&self) -> Result<Node, AllocError> {
        self.copy().map_err(|_| AllocError)
    }
}

impl MapValue for Node {
    ghost equal = { λ n m is. is };
}

impl Node {
    ghost use Rattle.tree_model.specs.Tree.{directory_kind};

    /// Whether it is a directory.
    pub fn is_directory(&self) -> bool
        ensures { result ≡ directory_kind self.now.kind }
    {
        self.kind == Kind::Dir
    }

    // An equal inode, which shares its names. The error is a count of owners that is full.
    fn copy(&self) -> Result<Node, Memory>
        ensures { IfOk result (λ copy. copy ≡ self.now) }
    {
        Ok(Node {
            kind: self.kind,
            parent: self.parent,
            names: self.names,
            subdirs: self.subdirs,
            entries: self.entries.copy()?,
        })
    }
}

/// All inodes by their numbers. A copy shares what it has in common with them.
#[derive(Drop)]
pub struct Nodes {
    map: SharedMap<Key, Node>,
}

impl Model for Nodes {
    ghost use Rattle.std.specs.Prelude.{List};
    ghost use Rattle.ivy_base.specs.declared.key.Key.{Key};
    ghost use Rattle.dir_replay.specs.declared.nodes.Node.{Node};

    ghost Value = { List (Key × Node) };

    ghost view = { λ n. n.map };
}

impl Nodes {
    ghost use Rattle.dir_replay.specs.Nodes.{at_node, changed, entered, left, named, unnamed, any_unnamed, moved_to};

    /// No inodes.
    pub fn new() -> Nodes
        ensures { result ≡ [] }
    {
        Nodes {
            map: SharedMap::new(),
        }
    }

    /// The inode of that number.
    pub fn get(&self, ino: &Key) -> Option<&Node>
        ensures { option_copied result ≡ value_at key_cmp ino.now self.now }
    {
        self.map.get(ino)
    }

    /// Whether an inode passes the test.
    pub fn any<P: EntryTest<Key, Node>>(&self, test: &P) -> bool
        ensures { result ≡ list_any (P.passes test.now) self.now }
    {
        self.map.any(test)
    }

    /// The same inodes. They take no memory: the only error is a count of owners that is full.
    pub fn copy(&self) -> Result<Nodes, Memory>
        ensures { IfOk result (λ copy. copy ≡ self.now) }
    {
        Ok(Nodes {
            map: self.map.copy()?,
        })
    }

    /// Lets the number stand for that inode. The error is: out of memory, and then nothing has changed.
    pub fn insert(&mut self, alloc: Global, ino: &Key, node: Node) -> Result<(), Memory>
        ensures ok { OnOk result (self.new ≡ put key_cmp ino.now node self.old) }
        ensures err { OnErr result (self.new ≡ self.old) }
    {
        self.map.insert(alloc, *ino, node)?;
        Ok(())
    }

    // Changes the inode of that number, where there is one. The error is: out of memory, and then nothing has changed.
    fn change(&mut self, alloc: Global, ino: &Key, mut change: Change<'_>) -> Result<(), Memory>
        ensures ok { OnOk result (self.new ≡ at_node self.old ino.now (changed change.entry)) }
        ensures err { OnErr result (self.new ≡ self.old) }
    {
        self.map.update(alloc, ino, &mut change)?;
        Ok(())
    }

    /// Puts a name for the inode into the directory, which then has so many subdirectories, and notes that so many names
    /// lead to the inode, and which directory has the name of a directory. The error is: out of memory, and then nothing
    /// has changed.
    pub fn link(
        &mut self,
        alloc: Global,
        dir: &Key,
        name: &[u8],
        ino: &Key,
        counts: Linked,
    ) -> Result<(), Memory>
        ensures ok { OnOk result (self.new ≡ at_node (at_node self.old dir.now (entered name.now ino.now counts.subdirs)) ino.now (named counts.parent counts.names)) }
        ensures err { OnErr result (self.new ≡ self.old) }
    {
        let mut enter = Change::Enter(name, *ino, counts.subdirs);
        let count = Count::Are(counts.parent, counts.names);
        self.map.update_two(alloc, dir, &mut enter, ino, &count)
    }

    /// Takes a name for the inode out of the directory, and a subdirectory where the name led to one, and notes that a
    /// name less leads to the inode. The error is: out of memory, and then nothing has changed.
    pub fn unlink(
        &mut self,
        alloc: Global,
        dir: &Key,
        name: &[u8],
        ino: &Key,
        directory: bool,
    ) -> Result<(), Memory>
        ensures ok { OnOk result (self.new ≡ at_node (at_node self.old dir.now (left name.now directory)) ino.now unnamed) }
        ensures err { OnErr result (self.new ≡ self.old) }
    {
        let mut leave = Change::Leave(name, directory);
        self.map
            .update_two(alloc, dir, &mut leave, ino, &Count::Less)
    }

    /// Puts a name for the inode into the directory, which then has so many subdirectories; without such a
    /// directory nothing changes. The error is: out of memory, and then nothing has changed.
    pub fn enter(
        &mut self,
        alloc: Global,
        dir: &Key,
        name: &[u8],
        ino: Key,
        subdirs: u64,
    ) -> Result<(), Memory>
        ensures ok { OnOk result (self.new ≡ at_node self.old dir.now (entered name.now ino subdirs)) }
        ensures err { OnErr result (self.new ≡ self.old) }
    {
        self.change(alloc, dir, Change::Enter(name, ino, subdirs))
    }

    /// Takes a name out of the directory, and a subdirectory where the name led to one. The error is: out of memory,
    /// and then nothing has changed.
    pub fn leave(
        &mut self,
        alloc: Global,
        dir: &Key,
        name: &[u8],
        directory: bool,
    ) -> Result<(), Memory>
        ensures ok { OnOk result (self.new ≡ at_node self.old dir.now (left name.now directory)) }
        ensures err { OnErr result (self.new ≡ self.old) }
    {
        self.change(alloc, dir, Change::Leave(name, directory))
    }

    /// Notes that a name less leads to the inode: to a directory none. The error is: out of memory, and then nothing
    /// has changed.
    pub fn unname(&mut self, alloc: Global, ino: &Key) -> Result<(), Memory>
        ensures ok { OnOk result (self.new ≡ at_node self.old ino.now unnamed) }
        ensures err { OnErr result (self.new ≡ self.old) }
    {
        self.change(alloc, ino, Change::Count(Count::Less))
    }

    /// Notes that a name less leads to the inode, where one is given. The error is: out of memory, and then nothing
    /// has changed.
    pub fn unname_any(&mut self, alloc: Global, ino: Option<Key>) -> Result<(), Memory>
        ensures ok { OnOk result (self.new ≡ any_unnamed self.old ino) }
        ensures err { OnErr result (self.new ≡ self.old) }
    {
        match ino {
            Some(ino) => self.unname(alloc, &ino),
            None => Ok(()),
        }
    }

    /// Notes which directory has the name of a directory, which takes no memory where that is noted already. The error
    /// is: out of memory, and then nothing has changed.
    pub fn set_parent(
        &mut self,
        alloc: Global,
        ino: &Key,
        parent: Option<Key>,
    ) -> Result<(), Memory>
        ensures ok { OnOk result (self.new ≡ at_node self.old ino.now (moved_to parent)) }
        ensures err { OnErr result (self.new ≡ self.old) }
    {
        let Some(node) = self.map.get(ino) else {
            return Ok(());
        };
        if both_same(node.parent, parent) {
            return Ok(());
        }
        self.change(alloc, ino, Change::Move(parent))
    }
}

/// What is noted with a new name.
#[derive(Drop)]
pub struct Linked {
    /// How many names in the directory lead to directories then.
    pub subdirs: u64,
    /// The directory that has the name of a directory.
    pub parent: Option<Key>,
    /// How many names lead to the inode then.
    pub names: u64,
}

// How many names lead to an inode.
#[derive(Drop)]
enum Count {
    // So many, the one of a directory from that directory.
    Are(Option<Key>, u64),
    // One less.
    Less,
}

impl Amend<Node> for Count {
    ghost use Rattle.std.specs.Prelude.{◌≡◌};
    ghost use Rattle.dir_replay.specs.Nodes.{counted};

    ghost makes = { λ count n m. m ≡ counted count n };

    fn amend(&self, node: &mut Node) {
        match self {
            Count::Are(parent, names) => {
                node.parent = *parent;
                node.names = *names;
            }
            Count::Less => {
                node.parent = None;
                node.names = less_one_if(node.names, true);
            }
        }
    }
}

// A change of one inode.
#[derive(Drop)]
enum Change<'a> {
    // A name in it leads to that inode, and so many of them to directories.
    Enter(&'a [u8], Key, u64),
    // A name goes from it, which led to a directory or not.
    Leave(&'a [u8], bool),
    // Other names lead to it.
    Count(Count),
    // Its name is in that directory.
    Move(Option<Key>),
}

impl Edit<Node> for Change<'_> {
    ghost use Rattle.std.specs.Prelude.{◌≡◌};
    ghost use Rattle.dir_replay.specs.Nodes.{changed};

    ghost makes = { λ change n _ m. m ≡ changed change n };

    fn edit(&mut self, alloc: Global, node: &mut Node) -> Result<(), Memory> {
        match self {
            Change::Enter(name, ino, subdirs) => {
                node.entries.insert(alloc, name, *ino)?;
                node.subdirs = *subdirs;
            }
            Change::Leave(name, directory) => {
                node.entries.remove(alloc, name)?;
                node.subdirs = less_one_if(node.subdirs, *directory);
            }
            Change::Count(count) => count.amend(node),
            Change::Move(parent) => node.parent = *parent,
        }
        Ok(())
    }
}

// One less, where that is so; never below 0.
fn less_one_if(count: u64, less: bool) -> u64
    ensures { result ≡ less_one_if count less }
{
    if less { count.saturating_sub(1) } else { count }
}
