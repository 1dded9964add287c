//! Reading parts.

ghost use Rattle.std.specs.Prelude.{◌≡◌, ◌<◌, ◌^◌, ◌%◌, length, IfOk, OnErr};
ghost use Rattle.std.specs.List.{flat_map};
ghost use Rattle.ivy_base.specs.Naming.{IsFileName};
ghost use Rattle.wire_model.specs.Xdr.{word, double_word, opaque, moment, AreSoMany, IsAny};
ghost use Rattle.wire_model.specs.OneReading.{IsFront, HasNoFront};
ghost use Rattle.log_model.specs.Spelling.{IsBlock, IsKey, IsMoment};
ghost use Rattle.block_parts.specs.Parts.{constant_bytes, as_it_stands, key_bytes, kind_word, IsAtMost};
ghost use Rattle.tree_model.specs.Tree.{longest_file};

use crate::bounds::{LONGEST_FILE, LONGEST_NAME};
use crate::fault::Malformed;
use ivy_base::{Key, Kind, Moment, name_ok};
use xdr_codec::XdrRead;

/// Bytes that are the same in each block, so many that no zeros fill them up.
#[tactic(auto, using(crate::proofs::Constants::no_constant))]
pub fn read_constant<const N: usize>(
    reader: &mut XdrRead,
    constant: &[u8; N],
) -> Result<(), Malformed>
    requires { N % 4 ≡ 0 }
    ensures ok { IfOk result (λ u. IsFront IsAny (constant_bytes constant.now) reader.old u reader.new) }
    ensures err { OnErr result (HasNoFront IsAny (constant_bytes constant.now) reader.old) }
{
    if reader.fixed(N)? != constant.as_slice() {
        return Err(Malformed);
    }
    Ok(())
}

/// So many bytes, where no zeros fill them up.
#[tactic(auto, using(crate::proofs::Bytes::block_front, crate::proofs::Bytes::no_block))]
pub fn read_block<const N: usize>(reader: &mut XdrRead) -> Result<[u8; N], Malformed>
    requires { N % 4 ≡ 0 }
    ensures ok { IfOk result (λ bytes. IsFront (IsBlock N) as_it_stands reader.old bytes reader.new) }
    ensures err { OnErr result (HasNoFront (IsBlock N) as_it_stands reader.old) }
{
    let item = reader.fixed(N)?;
    Ok(block_of(item))
}

/// The bytes as an array.
fn block_of<const N: usize>(item: &[u8]) -> [u8; N]
    requires { length item.now ≡ N }
    ensures same { result ≡ item.now }
    ensures fits { IsBlock N result }
{
    let mut bytes = [0; N];
    bytes.copy_from_slice(item);
    bytes
}

/// What the type says of an array: it has so many bytes.
pub fn check_block<const N: usize>(bytes: &[u8; N])
    ensures { IsBlock N bytes.now }
{
    check_bytes(bytes.as_slice());
}

/// What the type says of bytes: each is below 256.
pub fn check_bytes(bytes: &[u8])
    ensures { IsBlock (length bytes.now) bytes.now }
{
    let _ = bytes;
}

/// So many arrays of so many bytes, one after the other, where no zeros fill them up.
pub fn read_blocks<'a, const N: usize>(
    reader: &mut XdrRead<'a>,
    count: u32,
) -> Result<&'a [[u8; N]], Malformed>
    requires some { 0 < N }
    requires few { N < 2 ^ 32 }
    requires words { N % 4 ≡ 0 }
    ensures ok { IfOk result (λ blocks. IsFront (AreSoMany (IsBlock N) count) (flat_map as_it_stands) reader.old blocks.now reader.new) }
    ensures err { OnErr result (HasNoFront (AreSoMany (IsBlock N) count) (flat_map as_it_stands) reader.old) }
{
    let item = reader.fixed(count as usize * N)?;
    check_bytes(item);
    let (blocks, _) = item.as_chunks::<N>();
    Ok(blocks)
}

/// A key: 20 bytes.
pub fn read_key(reader: &mut XdrRead) -> Result<Key, Malformed>
    ensures ok { IfOk result (λ key. IsFront IsKey key_bytes reader.old key reader.new) }
    ensures err { OnErr result (HasNoFront IsKey key_bytes reader.old) }
{
    Ok(Key(read_block::<20>(reader)?))
}

/// A number of at most `most`.
pub fn read_at_most(reader: &mut XdrRead, most: u32) -> Result<u32, Malformed>
    ensures ok { IfOk result (λ n. IsFront (IsAtMost most) word reader.old n reader.new) }
    ensures err { OnErr result (HasNoFront (IsAtMost most) word reader.old) }
{
    let n = reader.u32()?;
    if n > most {
        return Err(Malformed);
    }
    Ok(n)
}

/// The size of a file, at most [`LONGEST_FILE`].
#[tactic(auto, using(crate::proofs::Misfits::no_such_size))]
pub fn read_size(reader: &mut XdrRead) -> Result<u64, Malformed>
    ensures ok { IfOk result (λ n. IsFront (IsAtMost longest_file) double_word reader.old n reader.new) }
    ensures err { OnErr result (HasNoFront (IsAtMost longest_file) double_word reader.old) }
{
    let size = reader.u64()?;
    if size > LONGEST_FILE {
        return Err(Malformed);
    }
    Ok(size)
}

/// A moment, of less than 1,000,000,000 nanoseconds.
pub fn read_moment(reader: &mut XdrRead) -> Result<Moment, Malformed>
    ensures ok { IfOk result (λ m. IsFront IsMoment moment reader.old m reader.new) }
    ensures err { OnErr result (HasNoFront IsMoment moment reader.old) }
{
    let sec = reader.u32()?;
    let nsec = read_at_most(reader, 999_999_999)?;
    Ok(Moment { sec, nsec })
}

/// The kind of an inode: 1 for a regular file, 2 for a directory, 5 for a symbolic link.
pub fn read_kind(reader: &mut XdrRead) -> Result<Kind, Malformed>
    ensures ok { IfOk result (λ kind. IsFront IsAny kind_word reader.old kind reader.new) }
    ensures err { OnErr result (HasNoFront IsAny kind_word reader.old) }
{
    match reader.u32()? {
        1 => Ok(Kind::Reg),
        2 => Ok(Kind::Dir),
        5 => Ok(Kind::Lnk),
        _ => Err(Malformed),
    }
}

/// A name that a directory may hold.
pub fn read_name<'a>(reader: &mut XdrRead<'a>) -> Result<&'a [u8], Malformed>
    ensures ok { IfOk result (λ name. IsFront IsFileName opaque reader.old name.now reader.new) }
    ensures err { OnErr result (HasNoFront IsFileName opaque reader.old) }
{
    let name = reader.opaque(LONGEST_NAME)?;
    if !name_ok(name) {
        return Err(Malformed);
    }
    Ok(name)
}
