ghost use Rattle.std.specs.Prelude.{◌≡◌, IfOk};

use crate::bytes::Bytes;
use crate::key::Key;
use crate::memory::Memory;
use std::alloc::Global;

/// A moment: seconds since the epoch, and nanoseconds below 1,000,000,000 (RFC 1813, section 2.5, nfstime3).
#[derive(Clone, Copy, Debug, PartialEq, Eq)]
pub struct Moment {
    pub sec: u32,
    pub nsec: u32,
}

/// The kind of an inode: a regular file, a directory or a symbolic link.
#[derive(Clone, Copy, Debug, PartialEq, Eq)]
pub enum Kind {
    Reg,
    Dir,
    Lnk,
}

/// The attributes that a SetAttrs record gives; `None` leaves one as it is.
///
/// A mode has 12 bits, and a size is at most 16,777,216.
#[derive(Clone, Copy)]
pub struct Change {
    pub mode: Option<u32>,
    pub uid: Option<u32>,
    pub gid: Option<u32>,
    pub size: Option<u64>,
    pub atime: Option<Moment>,
    pub mtime: Option<Moment>,
}

/// What a record of a log does to the file system.
///
/// Names are those that [`crate::name_ok`] takes. A file's bytes end at 16,777,216 at most.
pub enum Op {
    /// Adds an inode, without a name. `target` is a symbolic link's text, and empty for other kinds.
    Inode {
        ino: Key,
        kind: Kind,
        mode: u32,
        uid: u32,
        gid: u32,
        target: Bytes,
    },
    /// Replaces a file's bytes from an offset on; a gap is filled with zeros. 1 to 8,192 bytes.
    Write {
        ino: Key,
        offset: u64,
        bytes: Bytes,
    },
    /// Gives an inode a name in a directory.
    Link {
        dir: Key,
        name: Bytes,
        ino: Key,
    },
    /// Removes a name.
    Unlink {
        dir: Key,
        name: Bytes,
    },
    /// Moves a name, in place of the one that has the target's name.
    Rename {
        dir: Key,
        name: Bytes,
        to_dir: Key,
        to_name: Bytes,
    },
    /// Announces an exclusive creation. It changes nothing by itself.
    Prepare {
        dir: Key,
        name: Bytes,
        verf: [u8; 8],
    },
    /// Takes an announcement back. It changes nothing by itself.
    Cancel {
        seq: u32,
    },
    /// Sets attributes of an inode.
    SetAttrs {
        ino: Key,
        change: Change,
    },
    /// Opens a log: its first record. It changes nothing.
    End,
}

// Written out, so that whatever drops one calls this and isn't proved over all of its parts once more.
impl Drop for Op {
    fn drop(self) {
        match self {
            Op::Inode {
                ino: _,
                kind: _,
                mode: _,
                uid: _,
                gid: _,
                target: _,
            } => {}
            Op::Write {
                ino: _,
                offset: _,
                bytes: _,
            } => {}
            Op::Link {
                dir: _,
                name: _,
                ino: _,
            } => {}
            Op::Unlink { dir: _, name: _ } => {}
            Op::Rename {
                dir: _,
                name: _,
                to_dir: _,
                to_name: _,
            } => {}
            Op::Prepare {
                dir: _,
                name: _,
                verf: _,
            } => {}
            Op::Cancel { seq: _ } => {}
            Op::SetAttrs { ino: _, change: _ } => {}
            Op::End => {}
        }
    }
}

impl Op {
    /// A copy of this operation and of its bytes. The error is: out of memory.
    pub fn copy(&self, alloc: Global) -> Result<Op, Memory>
        ensures { IfOk result (λ copy. copy ≡ self.now) }
    {
        Ok(match self {
            Op::Inode {
                ino,
                kind,
                mode,
                uid,
                gid,
                target,
            } => Op::Inode {
                ino: *ino,
                kind: *kind,
                mode: *mode,
                uid: *uid,
                gid: *gid,
                target: target.copy(alloc)?,
            },
            Op::Write { ino, offset, bytes } => Op::Write {
                ino: *ino,
                offset: *offset,
                bytes: bytes.copy(alloc)?,
            },
            Op::Link { dir, name, ino } => Op::Link {
                dir: *dir,
                name: name.copy(alloc)?,
                ino: *ino,
            },
            Op::Unlink { dir, name } => Op::Unlink {
                dir: *dir,
                name: name.copy(alloc)?,
            },
            Op::Rename {
                dir,
                name,
                to_dir,
                to_name,
            } => Op::Rename {
                dir: *dir,
                name: name.copy(alloc)?,
                to_dir: *to_dir,
                to_name: to_name.copy(alloc)?,
            },
            Op::Prepare { dir, name, verf } => Op::Prepare {
                dir: *dir,
                name: name.copy(alloc)?,
                verf: *verf,
            },
            Op::Cancel { seq } => Op::Cancel { seq: *seq },
            Op::SetAttrs { ino, change } => Op::SetAttrs {
                ino: *ino,
                change: *change,
            },
            Op::End => Op::End,
        })
    }
}
