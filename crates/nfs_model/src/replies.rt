ghost use Rattle.std.specs.Prelude.{◌≡◌};

use ivy_base::{Bytes, Kind, Moment};
use std::marker::Model;

/// The statuses of NFS version 3 other than OK (RFC 1813, section 2.6, nfsstat3) that are given here;
/// `status_number` has their numbers.
#[derive(Clone, Copy, Debug)]
pub enum NfsStatus {
    /// The caller is neither the superuser nor the owner (1).
    Perm,
    /// No such name (2).
    NoEnt,
    /// A block that the call needs was only given damaged (5).
    Io,
    /// The caller has no right to it (13).
    Acces,
    /// The name is there (17).
    Exist,
    /// Not a directory (20).
    NotDir,
    /// A directory (21).
    IsDir,
    /// An argument that the procedure doesn't take (22).
    Inval,
    /// A file would become too large (27).
    FBig,
    /// The participant can make no further record (30).
    RoFs,
    /// Too many names of one inode (31).
    MLink,
    /// A name or a text is too long (63).
    NameTooLong,
    /// The directory has entries (66).
    NotEmpty,
    /// The object isn't there any more, or is of another view (70).
    Stale,
    /// No file handle of this server (10001).
    BadHandle,
    /// The ctime isn't the one that the guard gives (10002).
    NotSync,
    /// The cookie is of another listing (10003).
    BadCookie,
    /// Not supported (10004).
    NotSupp,
    /// The room has no place for one entry (10005).
    TooSmall,
    /// The participant's own state couldn't be saved (10006).
    ServerFault,
    /// A block that the call needs isn't to be had, or no node is reached: to be tried again (10008).
    Jukebox,
}

/// The attributes of an object (RFC 1813, section 2.5, fattr3). The device numbers, which are 0, stand in the
/// spelling alone.
#[derive(Clone, Copy, Debug)]
pub struct Fattr {
    /// The type (ftype3).
    pub kind: Kind,
    /// The permission bits, 12 of them.
    pub mode: u32,
    /// How many links the object has.
    pub nlink: u32,
    /// The owner and the group.
    pub uid: u32,
    pub gid: u32,
    /// The size in bytes, and the bytes that are used for it.
    pub size: u64,
    pub used: u64,
    /// The numbers of the file system and of the object in it.
    pub fsid: u64,
    pub fileid: u64,
    /// The times of the last access, of the last change of the contents, and of the last change of the attributes.
    pub atime: Moment,
    pub mtime: Moment,
    pub ctime: Moment,
}

/// The attributes before an operation (RFC 1813, section 2.5, wcc_attr).
#[derive(Clone, Copy, Debug)]
pub struct WccBefore {
    /// The size in bytes.
    pub size: u64,
    /// The times of the last change of the contents and of the attributes.
    pub mtime: Moment,
    pub ctime: Moment,
}

/// Weak cache consistency data (RFC 1813, section 2.5, wcc_data): an object before and after an operation.
#[derive(Clone, Copy, Debug)]
pub struct Wcc {
    pub before: Option<WccBefore>,
    pub after: Option<Fattr>,
}

/// What stands after a status other than OK; each procedure has one form of it (RFC 1813, section 3.3, the
/// `resfail` parts).
#[derive(Clone, Copy, Debug)]
pub enum Tail {
    /// Nothing: GETATTR, and MOUNT.
    Empty,
    /// The attributes of the object or of the directory (post_op_attr): the reading procedures but for GETATTR,
    /// MKNOD and COMMIT.
    Attributes(Option<Fattr>),
    /// The object or the directory before and after: the changing procedures, MKNOD and COMMIT.
    Cache(Wcc),
    /// The directories of the source and of the target: RENAME.
    TwoCaches(Wcc, Wcc),
    /// The file and the directory: LINK.
    AttributesAndCache(Option<Fattr>, Wcc),
}

/// An entry of a page of a directory (RFC 1813, section 3.3.16, entry3, and section 3.3.17, entryplus3).
#[derive(Drop)]
pub struct Listed {
    /// The number of the object, its name, and the cookie that leads after the entry.
    pub fileid: u64,
    pub name: Bytes,
    pub cookie: u64,
    /// The attributes and the file handle: in pages of READDIRPLUS alone, where the handle is always given.
    pub attributes: Option<Fattr>,
    pub handle: Option<Bytes>,
}

/// The entries of a page, which contracts see as a list.
#[derive(Drop)]
pub struct Page {
    entries: Vec<Listed>,
}

impl Model for Page {
    ghost use Rattle.std.specs.Prelude.{List};
    ghost use Rattle.nfs_model.specs.declared.replies.Listed.{Listed};

    ghost Value = { List Listed };

    ghost view = { λ p. p.entries.items };
}

impl Page {
    /// The page of these entries, which are not copied.
    pub fn of(items: Vec<Listed>) -> Page
        ensures { result ≡ items.items }
    {
        Page { entries: items }
    }

    /// The entries as a slice.
    pub fn as_slice(&self) -> &[Listed]
        ensures { result.now ≡ self.now }
    {
        self.entries.as_slice()
    }

    /// The entries as a vector, which is not copied.
    pub fn into_vec(self) -> Vec<Listed>
        ensures { result.items ≡ self }
    {
        self.entries
    }
}

/// The result of a procedure (RFC 1813, sections 3.3 and 5.2), from its status on.
///
/// Attributes are `None` where they aren't given (post_op_attr). The file handles have 44 bytes.
pub enum Reply {
    /// No result: NULL (3.3.0), and NULL, UMNT and UMNTALL of MOUNT.
    Nothing,
    /// A status other than OK, and what stands after it.
    Refused {
        status: NfsStatus,
        tail: Tail,
    },
    /// GETATTR (3.3.1).
    Attributes {
        object: Fattr,
    },
    /// SETATTR (3.3.2), REMOVE (3.3.12) and RMDIR (3.3.13): the object or the directory before and after.
    Changed {
        cache: Wcc,
    },
    /// LOOKUP (3.3.3): the object that is found, and the directory's attributes.
    Found {
        handle: Bytes,
        object: Option<Fattr>,
        dir: Option<Fattr>,
    },
    /// ACCESS (3.3.4): those of the asked rights that the caller has.
    Allowed {
        object: Option<Fattr>,
        bits: u32,
    },
    /// READLINK (3.3.5).
    Text {
        link: Option<Fattr>,
        text: Bytes,
    },
    /// READ (3.3.6): `count` bytes, and whether they reach the end of the file.
    Bytes {
        file: Option<Fattr>,
        count: u32,
        eof: bool,
        bytes: Bytes,
    },
    /// WRITE (3.3.7): how many bytes were taken. The spelling adds that they are kept (FILE_SYNC), and the verifier.
    Written {
        cache: Wcc,
        count: u32,
    },
    /// CREATE (3.3.8), MKDIR (3.3.9) and SYMLINK (3.3.10): the new object, and the directory before and after.
    Made {
        handle: Bytes,
        object: Option<Fattr>,
        cache: Wcc,
    },
    /// RENAME (3.3.14): both directories before and after.
    Renamed {
        from: Wcc,
        to: Wcc,
    },
    /// LINK (3.3.15): the file, and the directory before and after.
    Linked {
        file: Option<Fattr>,
        cache: Wcc,
    },
    /// COMMIT (3.3.21). The spelling adds the verifier.
    Committed {
        cache: Wcc,
    },
    /// READDIR (3.3.16): a page of entries without attributes and handles, and whether it is the last.
    Directory {
        dir: Option<Fattr>,
        verifier: [u8; 8],
        page: Page,
        eof: bool,
    },
    /// READDIRPLUS (3.3.17): a page of entries with attributes and handles, and whether it is the last.
    DirectoryPlus {
        dir: Option<Fattr>,
        verifier: [u8; 8],
        page: Page,
        eof: bool,
    },
    /// FSSTAT (3.3.18); the numbers are always the same and stand in the spelling.
    Space {
        object: Option<Fattr>,
    },
    /// FSINFO (3.3.19); the numbers are always the same and stand in the spelling.
    Limits {
        object: Option<Fattr>,
    },
    /// PATHCONF (3.3.20); the numbers are always the same and stand in the spelling.
    Paths {
        object: Option<Fattr>,
    },
    /// MNT (5.2.1): the file handle of the path. The spelling adds the one flavour, AUTH_SYS.
    Mounted {
        handle: Bytes,
    },
    /// MNT of a path that isn't there: MNT3ERR_NOENT (5.1.5).
    NoSuchPath,
    /// DUMP (5.2.2): an empty list.
    NoMounts,
    /// EXPORT (5.2.5): the path `/` alone, for all.
    Exports,
}

// Written out, so that whatever drops one calls this and isn't proved over all of its parts once more.
impl Drop for Reply {
    fn drop(self) {
        match self {
            Reply::Refused { status: _, tail: _ } => {}
            Reply::Attributes { object: _ } => {}
            Reply::Changed { cache: _ } => {}
            Reply::Found {
                handle: _,
                object: _,
                dir: _,
            } => {}
            Reply::Allowed { object: _, bits: _ } => {}
            Reply::Text { link: _, text: _ } => {}
            Reply::Bytes {
                file: _,
                count: _,
                eof: _,
                bytes: _,
            } => {}
            Reply::Written { cache: _, count: _ } => {}
            Reply::Made {
                handle: _,
                object: _,
                cache: _,
            } => {}
            Reply::Renamed { from: _, to: _ } => {}
            Reply::Linked { file: _, cache: _ } => {}
            Reply::Committed { cache: _ } => {}
            Reply::Directory {
                dir: _,
                verifier: _,
                page: _,
                eof: _,
            } => {}
            Reply::DirectoryPlus {
                dir: _,
                verifier: _,
                page: _,
                eof: _,
            } => {}
            Reply::Space { object: _ } => {}
            Reply::Limits { object: _ } => {}
            Reply::Paths { object: _ } => {}
            Reply::Mounted { handle: _ } => {}
            Reply::Nothing | Reply::NoSuchPath | Reply::NoMounts | Reply::Exports => {}
        }
    }
}
