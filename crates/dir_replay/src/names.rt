//! The rules of names: what one operation changes, and what is asked.

ghost use Rattle.std.specs.Prelude.{◌≡◌, ◌↔◌, IsTrue, ℕ, [], Bool, IfOk, IfSome, OnOk, OnErr, Option, Some, None, option_map, is_some, is_none, true, false, ◌&&◌, ◌||◌, length, if◌then◌else◌};
ghost use Rattle.std.specs.List.{list_any};
ghost use Rattle.std.specs.Option.{option_copied};
ghost use Rattle.ivy_base.specs.declared.operation.Moment.{Moment};
ghost use Rattle.ivy_base.specs.declared.operation.Op.TheVariants as op;
ghost use Rattle.ivy_base.specs.Naming.{root_number};
ghost use Rattle.tree_model.specs.Tree.{inode_at, entry, parent, has_name, is_directory, is_empty_directory, is_inside, IsInside, name_count, subdirectory_count, listing, same_key};
ghost use Rattle.tree_model.specs.Apply.{empty_tree, apply, with_inode, may_link, may_lose_name, may_replace, may_rename};
ghost use Rattle.tree_model.specs.Sound.{IsSound};
ghost use Rattle.dir_replay.specs.Bare.{bare, bare_inode, IsBare};
ghost use Rattle.dir_replay.specs.Counts.{one_more_if};
ghost use Rattle.dir_replay.specs.Found.{IsKept, IsLinked};
ghost use Rattle.dir_replay.specs.Inside.{stands_inside};
ghost use Rattle.dir_replay.specs.Effect.{names_after, touched_by, none_touched};

use crate::entries::Entries;
use crate::keys::{ROOT, is_root, same};
use crate::listing::Listing;
use crate::nodes::{Linked, Node, Nodes};
use crate::touched::Touched;
use ivy_base::{Key, Kind, Memory, Op};
use shared_map::EntryTest;
use std::alloc::Global;
use std::marker::Model;

/// The names of all directories and the kind of each inode, which contracts see as a tree of bare inodes.
pub struct Names {
    nodes: Nodes,
}

// By hand, so that the functions of crates above aren't proved over the parts of maps again.
impl Drop for Names {
    fn drop(self) {
        let Names { nodes: _ } = self;
    }
}

impl Model for Names {
    ghost use Rattle.tree_model.specs.Tree.{Tree};

    ghost Value = { Tree };

    ghost use Rattle.dir_replay.specs.View.{tree_of};
    ghost use Rattle.dir_replay.specs.Tied.{IsTied};

    ghost view = { λ t. tree_of t.nodes };

    ghost invariant = { λ t. IsTied t.nodes };
}

impl Names {
    /// The root alone, a directory without entries. The error is: out of memory.
    pub fn fresh(alloc: Global) -> Result<Names, Memory>
        ensures { IfOk result (λ t. t ≡ bare empty_tree) }
    {
        let mut nodes = Nodes::new();
        nodes.insert(alloc, &ROOT, new_node(Kind::Dir))?;
        Ok(Names { nodes })
    }

    /// Does to the names what the operation does, whenever that is, and says which directories' entries changed.
    /// An operation that may not be done changes nothing, and is no error. The error is: out of memory, and then
    /// the names are as they were.
    pub fn apply_names(&mut self, alloc: Global, op: &Op) -> Result<Touched, Memory>
        ensures ok { OnOk result ((now : Moment) → self.new ≡ bare (apply self.old now op.now)) }
        ensures touched { IfOk result (λ dirs. dirs ≡ touched_by self.old op.now) }
        ensures err { OnErr result (self.new ≡ self.old) }
    {
        self.laws();
        match op {
            Op::Inode { ino, kind, .. } => self.add(alloc, *ino, *kind),
            Op::Link { dir, name, ino } => self.link(alloc, dir, name.as_slice(), ino),
            Op::Unlink { dir, name } => self.unlink(alloc, dir, name.as_slice()),
            Op::Rename {
                dir,
                name,
                to_dir,
                to_name,
            } => self.rename(alloc, dir, name.as_slice(), to_dir, to_name.as_slice()),
            _ => Ok(Touched::nothing()),
        }
    }

    // What holds of the tree at all times; it does nothing.
    fn laws(&self)
        ensures bare { IsBare self.now }
        ensures sound { IsSound self.now }
    {
        let _nodes = &self.nodes;
    }

    // Adds an inode, where its number isn't used.
    fn add(&mut self, alloc: Global, ino: Key, kind: Kind) -> Result<Touched, Memory>
        ensures ok { OnOk result (self.new ≡ (if is_some (inode_at self.old ino) then self.old else with_inode self.old ino (bare_inode kind))) }
        ensures touched { IfOk result (λ dirs. dirs ≡ none_touched) }
        ensures err { OnErr result (self.new ≡ self.old) }
    {
        if self.nodes.get(&ino).is_some() {
            return Ok(Touched::nothing());
        }
        self.nodes.insert(alloc, &ino, new_node(kind))?;
        Ok(Touched::nothing())
    }

    // Gives an inode a name, where it may have it.
    fn link(&mut self, alloc: Global, dir: &Key, name: &[u8], ino: &Key) -> Result<Touched, Memory>
        ensures ok { OnOk result (self.new ≡ names_after self.old (op.Link dir.now name.now ino.now)) }
        ensures touched { IfOk result (λ dirs. dirs ≡ touched_by self.old (op.Link dir.now name.now ino.now)) }
        ensures err { OnErr result (self.new ≡ self.old) }
    {
        let Some(counts) = self.link_counts(dir, name, ino)? else {
            return Ok(Touched::nothing());
        };
        self.nodes.link(alloc, dir, name, ino, counts)?;
        Ok(Touched::only(*dir))
    }

    // Removes a name, where it is there and may be lost.
    fn unlink(&mut self, alloc: Global, dir: &Key, name: &[u8]) -> Result<Touched, Memory>
        ensures ok { OnOk result (self.new ≡ names_after self.old (op.Unlink dir.now name.now)) }
        ensures touched { IfOk result (λ dirs. dirs ≡ touched_by self.old (op.Unlink dir.now name.now)) }
        ensures err { OnErr result (self.new ≡ self.old) }
    {
        let Some(ino) = self.entry(dir, name) else {
            return Ok(Touched::nothing());
        };
        if !self.may_lose_name(&ino) {
            return Ok(Touched::nothing());
        }
        let directory = self.is_directory(&ino);
        self.nodes.unlink(alloc, dir, name, &ino, directory)?;
        Ok(Touched::only(*dir))
    }

    // Moves a name to its new place, where it is there and may be moved, in place of the name that stands there.
    fn rename(
        &mut self,
        alloc: Global,
        dir: &Key,
        name: &[u8],
        to_dir: &Key,
        to_name: &[u8],
    ) -> Result<Touched, Memory>
        ensures ok { OnOk result (self.new ≡ names_after self.old (op.Rename dir.now name.now to_dir.now to_name.now)) }
        ensures touched { IfOk result (λ dirs. dirs ≡ touched_by self.old (op.Rename dir.now name.now to_dir.now to_name.now)) }
        ensures err { OnErr result (self.new ≡ self.old) }
    {
        let Some(moved) = self.entry(dir, name) else {
            return Ok(Touched::nothing());
        };
        if !self.may_rename(&moved, to_dir, to_name) {
            return Ok(Touched::nothing());
        }
        let target = self.entry(to_dir, to_name);
        let directory = self.is_directory(&moved);
        let new = is_new(directory, target);
        let subdirs = one_more_if(self.subdirs(to_dir), new)?;
        let mut nodes = self.nodes.copy()?;
        nodes.enter(alloc, to_dir, to_name, moved, subdirs)?;
        nodes.unname_any(alloc, target)?;
        nodes.leave(alloc, dir, name, directory)?;
        nodes.set_parent(alloc, &moved, given_if(directory, to_dir))?;
        self.nodes = nodes;
        Ok(Touched::both(*dir, *to_dir))
    }

    // What is noted with a name of the inode in the directory, where it may have that. A count that a word can't hold
    // counts as out of memory.
    fn link_counts(&self, dir: &Key, name: &[u8], ino: &Key) -> Result<Option<Linked>, Memory>
        ensures may { IfOk result (λ counts. is_some counts ≡ may_link self.now dir.now name.now ino.now) }
        ensures counts { IfOk result (λ counts. IfSome counts (IsLinked self.now dir.now ino.now)) }
    {
        let (Some(directory), Some(node)) = (self.node(dir), self.node(ino)) else {
            return Ok(None);
        };
        if !self.may_link(dir, directory, name, ino, node) {
            return Ok(None);
        }
        Ok(Some(Linked {
            subdirs: one_more_if(directory.subdirs, node.is_directory())?,
            parent: given_if(node.is_directory(), dir),
            names: one_more_if(node.names, true)?,
        }))
    }

    // What is kept of an inode, where there is one of that number.
    fn node(&self, ino: &Key) -> Option<&Node>
        ensures there { is_some result ≡ is_some (inode_at self.now ino.now) }
        ensures kept { IfSome result (λ n. IsKept self.now ino.now n.now) }
    {
        self.nodes.get(ino)
    }

    // Whether the inode may have that name, by what is kept of the two.
    fn may_link(&self, dir: &Key, directory: &Node, name: &[u8], ino: &Key, node: &Node) -> bool
        requires directory { IsKept self.now dir.now directory.now }
        requires node { IsKept self.now ino.now node.now }
        requires there { IsTrue (is_some (inode_at self.now ino.now)) }
        ensures { result ≡ may_link self.now dir.now name.now ino.now }
    {
        directory.is_directory()
            && directory.entries.get(name).is_none()
            && !is_root(ino)
            && !self.is_placed(dir, ino, node)
    }

    // Whether the inode is a directory that has its name, or one that the other directory lies in.
    fn is_placed(&self, dir: &Key, ino: &Key, node: &Node) -> bool
        requires directory { is_directory (inode_at self.now dir.now) ≡ true }
        requires node { IsKept self.now ino.now node.now }
        ensures { result ≡ (is_directory (inode_at self.now ino.now) && (has_name self.now ino.now || is_inside self.now dir.now ino.now)) }
    {
        node.is_directory() && (node.names > 0 || self.is_inside(dir, ino))
    }

    // Whether the inode may lose its name: it isn't a directory with entries.
    fn may_lose_name(&self, ino: &Key) -> bool
        ensures { result ≡ may_lose_name self.now ino.now }
    {
        !self.is_directory(ino) || self.is_empty(ino)
    }

    // Whether the inode, which has a name, may have that one in its place.
    fn may_rename(&self, moved: &Key, to_dir: &Key, to_name: &[u8]) -> bool
        ensures { result ≡ may_rename self.now moved.now to_dir.now to_name.now }
    {
        self.is_directory(to_dir)
            && self.may_replace(moved, self.entry(to_dir, to_name))
            && !self.is_inside(to_dir, moved)
    }

    // Whether the moved inode may take the name of the target, where there is one.
    fn may_replace(&self, moved: &Key, target: Option<Key>) -> bool
        ensures { result ≡ may_replace self.now moved.now target }
    {
        match target {
            Some(target) => {
                self.is_directory(moved) == self.is_directory(&target)
                    && self.may_lose_name(&target)
                    && !same(moved, &target)
            }
            None => true,
        }
    }

    /// The kind of the inode, where there is one of that number.
    pub fn kind(&self, ino: &Key) -> Option<Kind>
        ensures kind { result ≡ option_map (λ i. i.kind) (inode_at self.now ino.now) }
        ensures bare { IsBare self.now }
        ensures sound { IsSound self.now }
    {
        Some(self.nodes.get(ino)?.kind)
    }

    /// The number of the inode that the directory has under the name, where it has one.
    pub fn entry(&self, dir: &Key, name: &[u8]) -> Option<Key>
        ensures { result ≡ entry self.now dir.now name.now }
    {
        self.nodes.get(dir)?.entries.get(name)
    }

    /// Of a directory that has a name, the directory in which that stands; of anything else nothing.
    pub fn parent(&self, dir: &Key) -> Option<Key>
        ensures parent { result ≡ (if is_directory (inode_at self.now dir.now) then parent self.now dir.now else None) }
        ensures sound { IsSound self.now }
    {
        self.nodes.get(dir)?.parent
    }

    /// How many names lead to the inode.
    pub fn names_of(&self, ino: &Key) -> u64
        ensures { result ≡ name_count self.now ino.now }
    {
        match self.nodes.get(ino) {
            Some(node) => node.names,
            None => 0,
        }
    }

    /// How many names stand in the directory.
    pub fn entries(&self, dir: &Key) -> u64
        ensures { result ≡ length (listing self.now dir.now) }
    {
        match self.nodes.get(dir) {
            Some(node) => node.entries.len() as u64,
            None => 0,
        }
    }

    /// How many names in the directory lead to directories.
    pub fn subdirs(&self, dir: &Key) -> u64
        ensures { result ≡ subdirectory_count self.now dir.now }
    {
        match self.nodes.get(dir) {
            Some(node) => node.subdirs,
            None => 0,
        }
    }

    /// The names in the directory with the inodes that they lead to, ascending by the names' bytes; of what is no
    /// directory, none. The error is: out of memory.
    pub fn listing(&self, alloc: Global, dir: &Key) -> Result<Listing, Memory>
        ensures { IfOk result (λ pairs. pairs ≡ listing self.now dir.now) }
    {
        let Some(node) = self.nodes.get(dir) else {
            return Ok(Listing::of(Vec::new(alloc)));
        };
        Ok(Listing::of(node.entries.list(alloc)?))
    }

    /// Equal names, which later changes of these don't reach. A copy takes constant time and no memory: the only error
    /// is a count of owners that is full.
    pub fn copy(&self, _alloc: Global) -> Result<Names, Memory>
        ensures { IfOk result (λ copy. copy ≡ self.now) }
    {
        Ok(Names {
            nodes: self.nodes.copy()?,
        })
    }

    /// Whether `x` is `dir` or lies inside it: a directory by its name, anything else by one of its names.
    pub fn inside(&self, x: &Key, dir: &Key) -> bool
        ensures inside { IsTrue result ↔ IsInside self.now.names dir.now x.now }
        ensures tested { is_directory (inode_at self.now x.now) ≡ true → result ≡ is_inside self.now x.now dir.now }
    {
        self.laws();
        if self.is_directory(x) {
            return self.is_inside(x, dir);
        }
        same(x, dir) || self.has_name_inside(x, dir)
    }

    // Whether a name of the inode stands in the directory or inside it.
    fn has_name_inside(&self, ino: &Key, dir: &Key) -> bool
        ensures { result ≡ list_any (stands_inside self.now ino.now dir.now) self.now.names }
    {
        self.laws();
        self.nodes.any(&HasNameInside {
            names: self,
            ino: *ino,
            dir: *dir,
        })
    }

    // Whether there is a directory of that number.
    fn is_directory(&self, ino: &Key) -> bool
        ensures { result ≡ is_directory (inode_at self.now ino.now) }
    {
        matches!(self.kind(ino), Some(Kind::Dir))
    }

    // Whether the directory has no entries.
    fn is_empty(&self, dir: &Key) -> bool
        ensures empty { result ≡ is_empty_directory self.now dir.now }
        ensures sound { IsSound self.now }
    {
        match self.nodes.get(dir) {
            Some(node) => node.entries.is_empty(),
            None => true,
        }
    }

    // Whether the directory `start` is `dir` or lies inside it.
    fn is_inside(&self, start: &Key, dir: &Key) -> bool
        requires { is_directory (inode_at self.now start.now) ≡ true }
        ensures { result ≡ is_inside self.now start.now dir.now }
    {
        // Nothing lies inside an empty directory, so a new one costs no climb.
        if self.is_empty(dir) {
            return same(start, dir);
        }
        let mut at = *start;
        'climb: while !same(&at, dir) {
            match self.parent(&at) {
                Some(above) => at = above,
                None => return false,
            }
        }
        true
    }
}

// Whether an inode is a directory inside one, and has a name that leads to another.
#[derive(Drop)]
struct HasNameInside<'a> {
    names: &'a Names,
    ino: Key,
    dir: Key,
}

impl EntryTest<Key, Node> for HasNameInside<'_> {
    ghost use Rattle.dir_replay.specs.Inside.{has_name_inside};

    ghost passes = { λ test e. has_name_inside test.names.now test.ino test.dir e };

    fn test(&self, above: &Key, node: &Node) -> bool {
        node.entries.lead_to(&self.ino)
            && self.names.is_directory(above)
            && self.names.is_inside(above, &self.dir)
    }
}

// An inode without names.
fn new_node(kind: Kind) -> Node
    ensures { result ≡ record { kind = kind; parent = None; names = 0; subdirs = 0; entries = [] } }
{
    Node {
        kind,
        parent: None,
        names: 0,
        subdirs: 0,
        entries: Entries::new(),
    }
}

// Whether a directory comes where no name stands.
fn is_new(directory: bool, target: Option<Key>) -> bool
    ensures { result ≡ (directory && is_none target) }
{
    directory && target.is_none()
}

// One more, where that is so. A count that a word can't hold counts as out of memory.
fn one_more_if(count: u64, more: bool) -> Result<u64, Memory>
    ensures { IfOk result (λ sum. sum ≡ one_more_if count more) }
{
    if more {
        return count.checked_add(1).ok_or(Memory);
    }
    Ok(count)
}

// The number, where that is so.
fn given_if(given: bool, ino: &Key) -> Option<Key>
    ensures { result ≡ (if given then Some ino.now else None) }
{
    if given { Some(*ino) } else { None }
}
