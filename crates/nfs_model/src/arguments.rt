use ivy_base::{Bytes, Moment};

/// What a client asks of a time (RFC 1813, section 2.5, set_atime and set_mtime).
#[derive(Clone, Copy, Debug)]
pub enum SetTime {
    /// The time stays (DONT_CHANGE).
    Keep,
    /// The time becomes the server's (SET_TO_SERVER_TIME).
    Server,
    /// The time becomes this one (SET_TO_CLIENT_TIME). Nanoseconds of 10^9 or more have a spelling, and are
    /// refused by the procedures.
    Client(Moment),
}

/// The attributes that a client asks for (RFC 1813, section 2.5, sattr3); `None` leaves one as it is.
#[derive(Clone, Copy, Debug)]
pub struct SetWhat {
    /// The permission bits; the procedures take the low 12.
    pub mode: Option<u32>,
    /// The owner.
    pub uid: Option<u32>,
    /// The group.
    pub gid: Option<u32>,
    /// The size of a file in bytes.
    pub size: Option<u64>,
    /// The time of the last access.
    pub atime: SetTime,
    /// The time of the last change of the contents.
    pub mtime: SetTime,
}

/// How a file is to be created (RFC 1813, section 3.3.8, createhow3).
#[derive(Clone, Copy, Debug)]
pub enum How {
    /// With these attributes; a file that is there stays, and takes the size.
    Unchecked(SetWhat),
    /// With these attributes, where no such name is there.
    Guarded(SetWhat),
    /// Under this verifier (createverf3).
    Exclusive([u8; 8]),
}

/// What kind of special node is to be made (RFC 1813, section 3.3.11, mknoddata3), by the number of its type
/// (section 2.5, ftype3).
#[derive(Clone, Copy, Debug)]
pub enum SpecialNode {
    /// A type with which nothing is given: 1, 2 or 5 (a file, a directory, a symbolic link).
    Plain(u32),
    /// A block device (3) or a character device (4), with attributes and the two numbers of the device.
    Device {
        kind: u32,
        what: SetWhat,
        major: u32,
        minor: u32,
    },
    /// A socket (6) or a named pipe (7), with attributes.
    Other {
        kind: u32,
        what: SetWhat,
    },
}

/// The arguments of a procedure of NFS version 3 (RFC 1813, section 3.3) or of MOUNT (section 5.2).
///
/// `object`, `dir`, `file` and `link` are file handles (section 2.5, nfs_fh3), of at most 64 bytes; names and the
/// texts of symbolic links are of at most 4,096 bytes. Nothing else is looked at here: whether a handle or a name
/// is good is for the procedures. `ArgumentsFit` has the bounds.
pub enum Args {
    /// NULL (3.3.0): nothing.
    Null,
    /// GETATTR (3.3.1): the attributes of an object.
    GetAttr {
        object: Bytes,
    },
    /// SETATTR (3.3.2): new attributes, and the ctime that the object has to have where one is given.
    SetAttr {
        object: Bytes,
        what: SetWhat,
        guard: Option<Moment>,
    },
    /// LOOKUP (3.3.3): what a name in a directory leads to.
    Lookup {
        dir: Bytes,
        name: Bytes,
    },
    /// ACCESS (3.3.4): which of these rights the caller has.
    Access {
        object: Bytes,
        bits: u32,
    },
    /// READLINK (3.3.5): the text of a symbolic link.
    ReadLink {
        link: Bytes,
    },
    /// READ (3.3.6): at most `count` bytes of a file from the offset on.
    Read {
        file: Bytes,
        offset: u64,
        count: u32,
    },
    /// WRITE (3.3.7): `count` bytes at the offset; `stable` is 0 to 2 (stable_how).
    Write {
        file: Bytes,
        offset: u64,
        count: u32,
        stable: u32,
        bytes: Bytes,
    },
    /// CREATE (3.3.8): a new file.
    Create {
        dir: Bytes,
        name: Bytes,
        how: How,
    },
    /// MKDIR (3.3.9): a new directory.
    MkDir {
        dir: Bytes,
        name: Bytes,
        what: SetWhat,
    },
    /// SYMLINK (3.3.10): a new symbolic link to a text.
    SymLink {
        dir: Bytes,
        name: Bytes,
        what: SetWhat,
        text: Bytes,
    },
    /// MKNOD (3.3.11): a new special node.
    MkNod {
        dir: Bytes,
        name: Bytes,
        node: SpecialNode,
    },
    /// REMOVE (3.3.12): a name that is no directory's goes.
    Remove {
        dir: Bytes,
        name: Bytes,
    },
    /// RMDIR (3.3.13): an empty directory's name goes.
    RmDir {
        dir: Bytes,
        name: Bytes,
    },
    /// RENAME (3.3.14): a name moves, in place of the one that has the target's name.
    Rename {
        dir: Bytes,
        name: Bytes,
        to_dir: Bytes,
        to_name: Bytes,
    },
    /// LINK (3.3.15): a file's further name.
    Link {
        file: Bytes,
        dir: Bytes,
        name: Bytes,
    },
    /// READDIR (3.3.16): the entries after the cookie, in at most `count` bytes.
    ReadDir {
        dir: Bytes,
        cookie: u64,
        verifier: [u8; 8],
        count: u32,
    },
    /// READDIRPLUS (3.3.17): the same with attributes and handles, in at most `maxcount` bytes, of which the
    /// entries' numbers, names and cookies take at most `dircount`.
    ReadDirPlus {
        dir: Bytes,
        cookie: u64,
        verifier: [u8; 8],
        dircount: u32,
        maxcount: u32,
    },
    /// FSSTAT (3.3.18): how much room there is.
    FsStat {
        object: Bytes,
    },
    /// FSINFO (3.3.19): the sizes that the server takes and gives.
    FsInfo {
        object: Bytes,
    },
    /// PATHCONF (3.3.20): the limits of names and links.
    PathConf {
        object: Bytes,
    },
    /// COMMIT (3.3.21): what was written of a file is to be kept.
    Commit {
        file: Bytes,
        offset: u64,
        count: u32,
    },
    /// NULL of MOUNT (5.2.0): nothing.
    MountNull,
    /// MNT (5.2.1): the file handle of a path, of at most 1,024 bytes.
    Mnt {
        path: Bytes,
    },
    /// DUMP (5.2.2): who has mounted what.
    Dump,
    /// UMNT (5.2.3): a path, of at most 1,024 bytes, is mounted no more.
    Umnt {
        path: Bytes,
    },
    /// UMNTALL (5.2.4): nothing is mounted any more.
    UmntAll,
    /// EXPORT (5.2.5): which paths there are.
    Export,
}

// Written out, so that whatever drops one calls this and isn't proved over all of its parts once more.
impl Drop for Args {
    fn drop(self) {
        match self {
            Args::GetAttr { object: _ } => {}
            Args::SetAttr {
                object: _,
                what: _,
                guard: _,
            } => {}
            Args::Lookup { dir: _, name: _ } => {}
            Args::Access { object: _, bits: _ } => {}
            Args::ReadLink { link: _ } => {}
            Args::Read {
                file: _,
                offset: _,
                count: _,
            } => {}
            Args::Write {
                file: _,
                offset: _,
                count: _,
                stable: _,
                bytes: _,
            } => {}
            Args::Create {
                dir: _,
                name: _,
                how: _,
            } => {}
            Args::MkDir {
                dir: _,
                name: _,
                what: _,
            } => {}
            Args::SymLink {
                dir: _,
                name: _,
                what: _,
                text: _,
            } => {}
            Args::MkNod {
                dir: _,
                name: _,
                node: _,
            } => {}
            Args::Remove { dir: _, name: _ } => {}
            Args::RmDir { dir: _, name: _ } => {}
            Args::Rename {
                dir: _,
                name: _,
                to_dir: _,
                to_name: _,
            } => {}
            Args::Link {
                file: _,
                dir: _,
                name: _,
            } => {}
            Args::ReadDir {
                dir: _,
                cookie: _,
                verifier: _,
                count: _,
            } => {}
            Args::ReadDirPlus {
                dir: _,
                cookie: _,
                verifier: _,
                dircount: _,
                maxcount: _,
            } => {}
            Args::FsStat { object: _ } => {}
            Args::FsInfo { object: _ } => {}
            Args::PathConf { object: _ } => {}
            Args::Commit {
                file: _,
                offset: _,
                count: _,
            } => {}
            Args::Mnt { path: _ } => {}
            Args::Umnt { path: _ } => {}
            Args::Null | Args::MountNull | Args::Dump | Args::UmntAll | Args::Export => {}
        }
    }
}
