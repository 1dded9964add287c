//! One inode: its kind, its attributes and its bytes.

ghost use Rattle.std.specs.Prelude.{◌≡◌, ◌+◌, ◌^◌, ◌<◌, length, filter, take, drop, Some, IfOk, OnOk, OnErr, if◌then◌else◌};
ghost use Rattle.tree_model.specs.Tree.{file_kind};
ghost use Rattle.inode_replay.specs.Attributes.{attributes_of};
ghost use Rattle.inode_replay.specs.Contents.{MakesInode, ChangesContent, written, set_where_possible};
ghost use Rattle.inode_replay.specs.Kept.{made_kept, changed_kept, touched_kept, places_written, places_below};

use crate::attr::Attr;
use crate::body::Body;
use ivy_base::{Bytes, Change, Kind, Memory, Moment, Op};
use shared_map::MapValue;
use std::alloc::{AllocError, Global};
use std::marker::Model;

/// An inode: its kind, its attributes, and its bytes, which are a regular file's content or a symbolic link's text.
///
/// Contracts see it as the inode of `tree_model`, with the places of its bytes that a Write wrote (`specs/Kept.antt`).
pub struct Content {
    kind: Kind,
    attr: Attr,
    body: Body,
}

/// One function, so that whatever drops it calls this and isn't proved over all of its parts once more.
impl Drop for Content {
    fn drop(self) {
        let Content {
            kind: _,
            attr: _,
            body: _,
        } = self;
    }
}

impl Model for Content {
    ghost use Rattle.std.specs.Prelude.{◌≡◌};
    ghost use Rattle.tree_model.specs.Tree.{file_kind};
    ghost use Rattle.inode_replay.specs.Attributes.{attributes_of};
    ghost use Rattle.inode_replay.specs.Bodies.{bytes_of, is_file_body, places_of};
    ghost use Rattle.inode_replay.specs.Kept.{Kept};

    ghost Value = { Kept };

    ghost view = { λ c. record { inode = record { kind = c.kind; attributes = attributes_of c.attr; body = bytes_of c.body }; written = places_of c.body } };

    ghost invariant = { λ c. is_file_body c.body ≡ file_kind c.kind };
}

impl Clone for Content {
    ghost use Rattle.std.specs.Prelude.{◌≡◌};

    ghost is_clone = { λ content copy. copy ≡ content };

    fn clone(&self) -> Result<Content, AllocError> {
        self.copy().map_err(|_| AllocError)
    }
}

impl MapValue for Content {
    ghost equal = { λ content copy is. is };
}

impl Content {
    /// The inode that an Inode operation adds at that moment, no byte of which is written. The error is: out of memory.
    pub fn fresh(alloc: Global, op: &Op, moment: Moment) -> Result<Content, Memory>
        requires { MakesInode op.now }
        ensures { IfOk result (λ content. made_kept moment op.now ≡ Some content) }
    {
        let Op::Inode {
            kind,
            mode,
            uid,
            gid,
            target,
            ..
        } = op
        else {
            unreachable!()
        };
        Ok(Content {
            kind: *kind,
            attr: Attr::at(moment, *mode, *uid, *gid),
            body: Body::of(alloc, *kind == Kind::Reg, target.as_slice())?,
        })
    }

    /// Does what a Write or a SetAttrs does to this inode at that moment; one that may not be done changes nothing,
    /// and is no error. A file's bytes end at 16,777,216 at most. The error is: out of memory, and then the inode is
    /// as it was.
    pub fn apply_content(&mut self, alloc: Global, moment: Moment, op: &Op) -> Result<(), Memory>
        requires { ChangesContent op.now }
        ensures ok { OnOk result (self.new ≡ changed_kept moment op.now self.old) }
        ensures err { OnErr result (self.new ≡ self.old) }
    {
        match op {
            Op::Write { offset, bytes, .. } => self.write(alloc, moment, *offset, bytes.as_slice()),
            Op::SetAttrs { change, .. } => self.set_attributes(alloc, moment, change),
            _ => unreachable!(),
        }
    }

    // Replaces a regular file's bytes from the offset on.
    fn write(
        &mut self,
        alloc: Global,
        moment: Moment,
        offset: u64,
        bytes: &[u8],
    ) -> Result<(), Memory>
        requires { offset + length bytes.now < 2 ^ 64 }
        ensures ok { OnOk result (self.new ≡ record { inode = (if file_kind self.old.inode.kind then written moment offset bytes.now self.old.inode else self.old.inode); written = (if file_kind self.old.inode.kind then places_written offset (length bytes.now) self.old.written else self.old.written) }) }
        ensures err { OnErr result (self.new ≡ self.old) }
    {
        if !self.is_file() {
            return Ok(());
        }
        self.body.overwrite(alloc, offset, bytes)?;
        self.touch(moment);
        Ok(())
    }

    // Sets what is given; only a regular file takes a size.
    fn set_attributes(
        &mut self,
        alloc: Global,
        moment: Moment,
        change: &Change,
    ) -> Result<(), Memory>
        ensures ok { OnOk result (self.new ≡ record { inode = set_where_possible moment change.now self.old.inode; written = (if file_kind self.old.inode.kind then places_below change.now.size self.old.written else self.old.written) }) }
        ensures err { OnErr result (self.new ≡ self.old) }
    {
        if change.size.is_some() && !self.is_file() {
            return Ok(());
        }
        if let Some(size) = change.size {
            self.body.resize(alloc, size)?;
            self.attr.mtime = moment;
        }
        let attr = self.attr;
        self.attr = Attr {
            mode: change.mode.unwrap_or(attr.mode),
            uid: change.uid.unwrap_or(attr.uid),
            gid: change.gid.unwrap_or(attr.gid),
            atime: change.atime.unwrap_or(attr.atime),
            mtime: change.mtime.unwrap_or(attr.mtime),
            ctime: moment,
        };
        Ok(())
    }

    /// Sets the times that a change of the bytes or of the entries sets: mtime and ctime.
    pub fn touch(&mut self, moment: Moment)
        ensures { self.new ≡ touched_kept moment self.old }
    {
        self.attr.mtime = moment;
        self.attr.ctime = moment;
    }

    /// The inode's kind.
    pub fn kind(&self) -> Kind
        ensures { result ≡ self.now.inode.kind }
    {
        self.kind
    }

    /// How many bytes it has: a file's size or the length of a link's text, and 0 for a directory.
    pub fn size(&self) -> u64
        ensures { result ≡ length self.now.inode.body }
    {
        self.body.len()
    }

    /// How many of its bytes are stored: the places below the size that a Write wrote and that no later cut took away.
    /// It is 0 for a directory and for a link, and at most [`Content::size`].
    pub fn stored(&self) -> u64
        ensures count { result ≡ length (filter (λ m. m) self.now.written) }
        ensures as_many { length self.now.written ≡ length self.now.inode.body }
    {
        self.body.stored()
    }

    /// The inode's attributes.
    pub fn attr(&self) -> Attr
        ensures { attributes_of result ≡ self.now.inode.attributes }
    {
        self.attr
    }

    /// A symbolic link's text: the path that it leads to.
    pub fn target(&self) -> &[u8]
        requires { self.now.inode.kind ≡ Kind.Lnk }
        ensures { result.now ≡ self.now.inode.body }
    {
        self.body.text()
    }

    /// The bytes from the offset on, at most so many: fewer where the end comes first, and none at or past the end.
    /// The error is: out of memory.
    pub fn read_range(&self, alloc: Global, offset: u64, count: u32) -> Result<Bytes, Memory>
        ensures { IfOk result (λ bytes. bytes ≡ take count (drop offset self.now.inode.body)) }
    {
        self.body.read(alloc, offset, count)
    }

    /// An inode of its own with the same kind, attributes and bytes, of which the same are stored. It takes no memory: the
    /// only error is that a part of the bytes already has as many owners as can be counted.
    pub fn copy(&self) -> Result<Content, Memory>
        ensures { IfOk result (λ copy. copy ≡ self.now) }
    {
        Ok(Content {
            kind: self.kind,
            attr: self.attr,
            body: self.body.copy()?,
        })
    }

    // Whether it is a regular file.
    fn is_file(&self) -> bool
        ensures { result ≡ file_kind self.now.inode.kind }
    {
        self.kind == Kind::Reg
    }
}
