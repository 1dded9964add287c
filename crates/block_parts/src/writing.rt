//! Writing parts.

ghost use Rattle.std.specs.Prelude.{◌≡◌, ◌+◌, ◌^◌, ◌<◌, ◌≤◌, ◌++◌, IfNone, IfSome};
ghost use Rattle.wire_model.specs.Xdr.{moment};
ghost use Rattle.log_model.specs.Spelling.{kind_number as number_of_kind};
ghost use Rattle.block_parts.specs.Parts.{key_bytes, opaque_size, IsShort};

use ivy_base::{Key, Kind, Moment, PubKey};
use xdr_codec::XdrWrite;

/// How many bytes a text takes; none where it has 2^32 bytes or more.
pub fn opaque_len(bytes: &[u8]) -> Option<usize>
    ensures size { IfSome result (λ n. n ≡ opaque_size bytes.now) }
    ensures short { IfSome result (λ _. IsShort bytes.now) }
    ensures long { IfNone result (IsShort bytes.now → ⊥) }
    ensures bound { IfSome result (λ n. n ≤ 2 ^ 33) }
{
    let len = bytes.len();
    if len > u32::MAX as usize {
        return None;
    }
    Some(4 + len + (4 - len % 4) % 4)
}

/// Appends what the blocks of a form begin with.
pub fn put_constant(out: &mut XdrWrite, constant: &[u8; 4])
    requires { 4 ≤ out.old.spare }
    ensures written { out.new.written ≡ out.old.written ++ constant.now }
    ensures spare { out.new.spare + 4 ≡ out.old.spare }
{
    out.put_fixed(constant);
}

/// Appends a public key: 60 bytes.
pub fn put_owner(out: &mut XdrWrite, owner: &PubKey)
    requires { 60 ≤ out.old.spare }
    ensures written { out.new.written ≡ out.old.written ++ owner.now.0 }
    ensures spare { out.new.spare + 60 ≡ out.old.spare }
{
    out.put_fixed(&owner.0);
}

/// Appends a key: 20 bytes.
pub fn put_key(out: &mut XdrWrite, key: &Key)
    requires { 20 ≤ out.old.spare }
    ensures written { out.new.written ≡ out.old.written ++ key_bytes key.now }
    ensures spare { out.new.spare + 20 ≡ out.old.spare }
{
    out.put_fixed(&key.0);
}

/// Appends a moment: the seconds and the nanoseconds.
pub fn put_moment(out: &mut XdrWrite, m: Moment)
    requires { 8 ≤ out.old.spare }
    ensures written { out.new.written ≡ out.old.written ++ moment m }
    ensures spare { out.new.spare + 8 ≡ out.old.spare }
{
    out.put_u32(m.sec);
    out.put_u32(m.nsec);
}

/// The number of a kind: 1 for a regular file, 2 for a directory, 5 for a symbolic link.
pub fn kind_number(kind: Kind) -> u32
    ensures { result ≡ number_of_kind kind }
{
    match kind {
        Kind::Reg => 1,
        Kind::Dir => 2,
        Kind::Lnk => 5,
    }
}
