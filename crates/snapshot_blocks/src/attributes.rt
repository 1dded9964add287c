//! The attributes of an inode.

ghost use Rattle.std.specs.Prelude.{◌≡◌, ◌+◌, ◌≤◌, ◌++◌, IfOk, OnErr};
ghost use Rattle.wire_model.specs.OneReading.{IsFront, HasNoFront};
ghost use Rattle.inode_replay.specs.Attributes.{attributes_of};
ghost use Rattle.snapshot_model.specs.Blocks.{AreAttributes, attributes_bytes};

use block_parts::{Malformed, put_moment, read_at_most, read_moment};
use inode_replay::Attr;
use xdr_codec::{XdrRead, XdrWrite};

/// The attributes of an inode: a mode of 12 bits, the user, the group, and the three moments.
pub fn read_attributes(reader: &mut XdrRead) -> Result<Attr, Malformed>
    ensures ok { IfOk result (λ attr. IsFront AreAttributes attributes_bytes reader.old (attributes_of attr) reader.new) }
    ensures err { OnErr result (HasNoFront AreAttributes attributes_bytes reader.old) }
{
    let mode = read_at_most(reader, 0o7777)?;
    let uid = reader.u32()?;
    let gid = reader.u32()?;
    let atime = read_moment(reader)?;
    let mtime = read_moment(reader)?;
    let ctime = read_moment(reader)?;
    Ok(Attr {
        mode,
        uid,
        gid,
        atime,
        mtime,
        ctime,
    })
}

/// Appends the attributes of an inode.
pub fn put_attributes(out: &mut XdrWrite, attr: &Attr)
    requires { 36 ≤ out.old.spare }
    ensures written { out.new.written ≡ out.old.written ++ attributes_bytes (attributes_of attr.now) }
    ensures spare { out.new.spare + 36 ≡ out.old.spare }
{
    out.put_u32(attr.mode);
    out.put_u32(attr.uid);
    out.put_u32(attr.gid);
    put_moment(out, attr.atime);
    put_moment(out, attr.mtime);
    put_moment(out, attr.ctime);
}
