//! Reading the parts that records and heads share.

ghost use Rattle.std.specs.Prelude.{◌≡◌, ◌≢◌, ◌+◌, ◌≤◌, ◌++◌, ◌↔◌, IsTrue, length, MatchOption};
ghost use Rattle.ivy_base.specs.declared.format.Format.{Format as AnyFormat};
ghost use Rattle.ivy_base.specs.declared.operation.Kind.{Kind as AnyKind};
ghost use Rattle.log_model.specs.Spelling.{kind_number, record_tag};
ghost use Rattle.wire_model.specs.Xdr.{word, moment, IsWordMoment, IsAny};
ghost use Rattle.wire_model.specs.Parts.{Reads};
ghost use Rattle.block_parts.specs.Parts.{constant_bytes, key_bytes, kind_word};
ghost use Rattle.log_records.specs.Heads.{IsNumber};
ghost use Rattle.log_records.specs.Parts.{IsPiece, tag_number};
ghost use Rattle.log_records.specs.Shapes.{IsKeyLong};

use crate::chain::is_same;
use crate::spelled::check_word;
use block_parts::{LONGEST_FILE, check_block};
use ivy_base::{Format, Key, Kind, Moment};
use xdr_codec::{Parts, XdrWrite};

/// The greatest number of a record.
pub const MOST_RECORDS: u32 = 1_048_576;

/// What the block of a record of format 1 begins with, as a number: "IVR1".
const TAG_ONE: u32 = 0x4956_5231;

/// What the block of a record of format 2 begins with, as a number: "IVR2".
const TAG_TWO: u32 = 0x4956_5232;

/// The format of a record, by the tag that its block begins with.
pub fn read_format(parts: &mut Parts) -> Format
    ensures { Reads IsAny record_tag parts.old result parts.new }
{
    match format_of(parts.u32()) {
        Some(format) => format,
        None => {
            parts.miss();
            Format::One
        }
    }
}

/// The format of that tag, if it is one of a record's.
fn format_of(tag: u32) -> Option<Format>
    ensures { MatchOption result ((f : AnyFormat) → tag_number f ≢ tag) (λ f. tag_number f ≡ tag) }
{
    match tag {
        TAG_ONE => Some(Format::One),
        TAG_TWO => Some(Format::Two),
        _ => None,
    }
}

/// Appends the tag of a record of that format.
pub fn put_format(out: &mut XdrWrite, format: Format)
    requires { 4 ≤ out.old.spare }
    ensures written { out.new.written ≡ out.old.written ++ record_tag format }
    ensures spare { out.new.spare + 4 ≡ out.old.spare }
{
    match format {
        Format::One => out.put_u32(TAG_ONE),
        Format::Two => out.put_u32(TAG_TWO),
    }
}

/// What the blocks of a form begin with.
pub fn read_tag(parts: &mut Parts, tag: u32)
    ensures { Reads IsAny (constant_bytes (word tag)) parts.old tt parts.new }
{
    check_word(tag);
    if parts.u32() != tag {
        parts.miss();
    }
}

/// That key, and no other.
pub fn read_same(parts: &mut Parts, key: &Key)
    ensures { Reads IsAny (constant_bytes key.now.0) parts.old tt parts.new }
{
    check_block(&key.0);
    if !is_same(&read_key(parts), key) {
        parts.miss();
    }
}

/// A key.
pub fn read_key(parts: &mut Parts) -> Key
    ensures { Reads IsKeyLong key_bytes parts.old result parts.new }
{
    Key(parts.bytes::<20>())
}

/// The number of a record in its log, 1 to 1,048,576.
pub fn read_number(parts: &mut Parts) -> u32
    ensures { Reads IsNumber word parts.old result parts.new }
{
    let seq = parts.u32();
    if !is_number(seq) {
        parts.miss();
    }
    seq
}

/// Whether a record may have that number.
pub fn is_number(seq: u32) -> bool
    ensures { IsTrue result ↔ IsNumber seq }
{
    1 <= seq && seq <= MOST_RECORDS
}

/// The kind of an inode: 1 for a regular file, 2 for a directory, 5 for a symbolic link.
pub fn read_kind(parts: &mut Parts) -> Kind
    ensures { Reads IsAny kind_word parts.old result parts.new }
{
    match kind_of(parts.u32()) {
        Some(kind) => kind,
        None => {
            parts.miss();
            Kind::Reg
        }
    }
}

/// The kind of that number, if it is one.
fn kind_of(number: u32) -> Option<Kind>
    ensures { MatchOption result ((k : AnyKind) → kind_number k ≢ number) (λ k. kind_number k ≡ number) }
{
    match number {
        1 => Some(Kind::Reg),
        2 => Some(Kind::Dir),
        5 => Some(Kind::Lnk),
        _ => None,
    }
}

/// A moment, whatever its nanoseconds.
pub fn read_moment(parts: &mut Parts) -> Moment
    ensures { Reads IsWordMoment moment parts.old result parts.new }
{
    let sec = parts.u32();
    let nsec = parts.u32();
    Moment { sec, nsec }
}

/// Whether there are bytes, and all are within the most that a file may have.
pub fn is_piece(offset: u64, bytes: &[u8]) -> bool
    requires { length bytes.now ≤ 8192 }
    ensures { IsTrue result ↔ IsPiece (offset, bytes.now) }
{
    !bytes.is_empty() && offset <= LONGEST_FILE - bytes.len() as u64
}
