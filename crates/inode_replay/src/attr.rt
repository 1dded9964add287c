ghost use Rattle.std.specs.Prelude.{◌≡◌};

use ivy_base::Moment;

/// What an inode shows of itself beside its kind and its size (RFC 1813, section 2.5, fattr3).
#[derive(Clone, Copy)]
pub struct Attr {
    /// The permission bits, 12 of them.
    pub mode: u32,
    /// The owner's user number.
    pub uid: u32,
    /// The owner's group number.
    pub gid: u32,
    /// When it was last read; reading sets no time here.
    pub atime: Moment,
    /// When its bytes, or its entries, last changed.
    pub mtime: Moment,
    /// When anything of it last changed.
    pub ctime: Moment,
}

impl Attr {
    // The attributes of an inode that is made at that moment.
    pub(crate) fn at(moment: Moment, mode: u32, uid: u32, gid: u32) -> Attr
        ensures { result ≡ record { mode = mode; uid = uid; gid = gid; atime = moment; mtime = moment; ctime = moment } }
    {
        Attr {
            mode,
            uid,
            gid,
            atime: moment,
            mtime: moment,
            ctime: moment,
        }
    }
}
