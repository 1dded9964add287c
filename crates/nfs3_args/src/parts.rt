//! Reading the parts that the arguments of several procedures share.

ghost use Rattle.std.specs.Prelude.{◌≡◌, IfOk};
ghost use Rattle.wire_model.specs.Xdr.{word, double_word, optional, moment, IsWordMoment, IsWord, IsDoubleWord};
ghost use Rattle.wire_model.specs.Parts.{Reads, IsOptional};
ghost use Rattle.nfs3_args.specs.Parts.{IsStable, IsPlace, place};

use ivy_base::{Bytes, Memory, Moment};
use std::alloc::Global;
use xdr_codec::Parts;

/// The most bytes of a file handle (RFC 1813, section 2.4, NFS3_FHSIZE).
pub const LONGEST_HANDLE: u32 = 64;

/// The most bytes of a name or of the text of a symbolic link.
pub const LONGEST_TEXT: u32 = 4096;

/// The last way to write bytes (section 3.3.7, FILE_SYNC).
const FILE_SYNC: u32 = 2;

/// A name in a directory: the directory's handle, and the name.
pub fn read_place(alloc: Global, parts: &mut Parts) -> Result<(Bytes, Bytes), Memory>
    ensures { IfOk result (λ p. Reads IsPlace place parts.old p parts.new) }
{
    let dir = parts.opaque(LONGEST_HANDLE);
    let name = parts.opaque(LONGEST_TEXT);
    copy_two(alloc, dir, name)
}

/// Copies of two slices' bytes.
pub fn copy_two(alloc: Global, first: &[u8], second: &[u8]) -> Result<(Bytes, Bytes), Memory>
    ensures { IfOk result (λ p. p ≡ (first.now, second.now)) }
{
    let first = Bytes::copy_of(alloc, first)?;
    let second = Bytes::copy_of(alloc, second)?;
    Ok((first, second))
}

/// How safely bytes are to be written, 0 to 2.
pub fn read_stable(parts: &mut Parts) -> u32
    ensures { Reads IsStable word parts.old result parts.new }
{
    let stable = parts.u32();
    if stable > FILE_SYNC {
        parts.miss();
    }
    stable
}

/// A time: seconds and nanoseconds.
pub fn read_moment(parts: &mut Parts) -> Moment
    ensures { Reads IsWordMoment moment parts.old result parts.new }
{
    let sec = parts.u32();
    let nsec = parts.u32();
    Moment { sec, nsec }
}

/// A number of four bytes, where there is one.
pub fn read_optional_word(parts: &mut Parts) -> Option<u32>
    ensures { Reads (IsOptional IsWord) (optional word) parts.old result parts.new }
{
    if parts.boolean() {
        Some(parts.u32())
    } else {
        None
    }
}

/// A number of eight bytes, where there is one.
pub fn read_optional_double_word(parts: &mut Parts) -> Option<u64>
    ensures { Reads (IsOptional IsDoubleWord) (optional double_word) parts.old result parts.new }
{
    if parts.boolean() {
        Some(parts.u64())
    } else {
        None
    }
}

/// A time, where there is one.
pub fn read_optional_moment(parts: &mut Parts) -> Option<Moment>
    ensures { Reads (IsOptional IsWordMoment) (optional moment) parts.old result parts.new }
{
    if parts.boolean() {
        Some(read_moment(parts))
    } else {
        None
    }
}
