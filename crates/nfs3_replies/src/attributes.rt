//! Statuses, attributes and what stands after a refusal (RFC 1813, sections 2.5 and 2.6).

ghost use Rattle.std.specs.Prelude.{◌≡◌, ◌+◌, ◌≤◌, ◌++◌};
ghost use Rattle.log_model.specs.Spelling.{kind_number as number_of_kind};
ghost use Rattle.wire_model.specs.Xdr.{optional, moment};
ghost use Rattle.nfs_model.specs.Results.{status_number as number_of_status, fattr, before, wcc, tail};

use ivy_base::{Kind, Moment};
use nfs_model::{Fattr, NfsStatus, Tail, Wcc, WccBefore};
use xdr_codec::XdrWrite;

/// The bytes of nfstime3: seconds and nanoseconds.
pub const TIME: usize = 8;

/// The bytes of fattr3 (section 2.5).
pub const FATTR: usize = 84;

/// The bytes of wcc_attr (section 2.6): a size and two times.
pub const WCC_ATTR: usize = 24;

/// The bytes of a boolean, as it stands in front of optional data.
pub const BOOLEAN: usize = 4;

/// The most bytes of optional attributes (post_op_attr).
pub const OPTIONAL_FATTR: usize = BOOLEAN + FATTR;

/// The most bytes of the optional attributes before an operation (pre_op_attr).
pub const OPTIONAL_WCC_ATTR: usize = BOOLEAN + WCC_ATTR;

/// The most bytes of weak cache consistency data (wcc_data).
pub const WCC: usize = OPTIONAL_WCC_ATTR + OPTIONAL_FATTR;

/// The number of a status (nfsstat3, section 2.6).
pub fn status_number(status: NfsStatus) -> u32
    ensures { result ≡ number_of_status status }
{
    match status {
        NfsStatus::Perm => 1,
        NfsStatus::NoEnt => 2,
        NfsStatus::Io => 5,
        NfsStatus::Acces => 13,
        NfsStatus::Exist => 17,
        NfsStatus::NotDir => 20,
        NfsStatus::IsDir => 21,
        NfsStatus::Inval => 22,
        NfsStatus::FBig => 27,
        NfsStatus::RoFs => 30,
        NfsStatus::MLink => 31,
        NfsStatus::NameTooLong => 63,
        NfsStatus::NotEmpty => 66,
        NfsStatus::Stale => 70,
        NfsStatus::BadHandle => 10001,
        NfsStatus::NotSync => 10002,
        NfsStatus::BadCookie => 10003,
        NfsStatus::NotSupp => 10004,
        NfsStatus::TooSmall => 10005,
        NfsStatus::ServerFault => 10006,
        NfsStatus::Jukebox => 10008,
    }
}

/// The number of an object's type (ftype3, section 2.6).
pub fn kind_number(kind: Kind) -> u32
    ensures { result ≡ number_of_kind kind }
{
    match kind {
        Kind::Reg => 1,
        Kind::Dir => 2,
        Kind::Lnk => 5,
    }
}

/// Appends a time (nfstime3).
pub fn put_time(out: &mut XdrWrite, time: Moment)
    requires { TIME ≤ out.old.spare }
    ensures written { out.new.written ≡ out.old.written ++ moment time }
    ensures spare { out.new.spare + TIME ≡ out.old.spare }
{
    out.put_u32(time.sec);
    out.put_u32(time.nsec);
}

/// Appends the attributes of an object (fattr3).
pub fn put_fattr(out: &mut XdrWrite, attributes: &Fattr)
    requires { FATTR ≤ out.old.spare }
    ensures written { out.new.written ≡ out.old.written ++ fattr attributes.now }
    ensures spare { out.new.spare + FATTR ≡ out.old.spare }
{
    out.put_u32(kind_number(attributes.kind));
    out.put_u32(attributes.mode);
    out.put_u32(attributes.nlink);
    out.put_u32(attributes.uid);
    out.put_u32(attributes.gid);
    out.put_u64(attributes.size);
    out.put_u64(attributes.used);
    out.put_u32(0);
    out.put_u32(0);
    out.put_u64(attributes.fsid);
    out.put_u64(attributes.fileid);
    put_time(out, attributes.atime);
    put_time(out, attributes.mtime);
    put_time(out, attributes.ctime);
}

/// Appends the attributes of an object, where they are given (post_op_attr).
pub fn put_optional_fattr(out: &mut XdrWrite, attributes: &Option<Fattr>)
    requires { OPTIONAL_FATTR ≤ out.old.spare }
    ensures written { out.new.written ≡ out.old.written ++ optional fattr attributes.now }
    ensures spare { out.old.spare ≤ out.new.spare + OPTIONAL_FATTR }
{
    match attributes {
        None => out.put_bool(false),
        Some(attributes) => {
            out.put_bool(true);
            put_fattr(out, attributes);
        }
    }
}

/// Appends the attributes before an operation (wcc_attr).
pub fn put_before(out: &mut XdrWrite, attributes: &WccBefore)
    requires { WCC_ATTR ≤ out.old.spare }
    ensures written { out.new.written ≡ out.old.written ++ before attributes.now }
    ensures spare { out.new.spare + WCC_ATTR ≡ out.old.spare }
{
    out.put_u64(attributes.size);
    put_time(out, attributes.mtime);
    put_time(out, attributes.ctime);
}

/// Appends the attributes before an operation, where they are given (pre_op_attr).
pub fn put_optional_before(out: &mut XdrWrite, attributes: &Option<WccBefore>)
    requires { OPTIONAL_WCC_ATTR ≤ out.old.spare }
    ensures written { out.new.written ≡ out.old.written ++ optional before attributes.now }
    ensures spare { out.old.spare ≤ out.new.spare + OPTIONAL_WCC_ATTR }
{
    match attributes {
        None => out.put_bool(false),
        Some(attributes) => {
            out.put_bool(true);
            put_before(out, attributes);
        }
    }
}

/// Appends weak cache consistency data (wcc_data).
pub fn put_wcc(out: &mut XdrWrite, cache: &Wcc)
    requires { WCC ≤ out.old.spare }
    ensures written { out.new.written ≡ out.old.written ++ wcc cache.now }
    ensures spare { out.old.spare ≤ out.new.spare + WCC }
{
    put_optional_before(out, &cache.before);
    put_optional_fattr(out, &cache.after);
}

/// Appends what stands after a refusal's status (section 3.3: the resfail arms).
pub fn put_tail(out: &mut XdrWrite, after: &Tail)
    requires { WCC + WCC ≤ out.old.spare }
    ensures { out.new.written ≡ out.old.written ++ tail after.now }
{
    match after {
        Tail::Empty => {}
        Tail::Attributes(attributes) => put_optional_fattr(out, attributes),
        Tail::Cache(cache) => put_wcc(out, cache),
        Tail::TwoCaches(first, second) => {
            put_wcc(out, first);
            put_wcc(out, second);
        }
        Tail::AttributesAndCache(attributes, cache) => {
            put_optional_fattr(out, attributes);
            put_wcc(out, cache);
        }
    }
}
