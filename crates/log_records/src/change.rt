//! What a record changes of an inode's attributes.

ghost use Rattle.std.specs.Prelude.{◌≡◌};
ghost use Rattle.wire_model.specs.Xdr.{word, double_word, optional, moment, IsWord, IsDoubleWord, IsWordMoment};
ghost use Rattle.wire_model.specs.Parts.{Reads, IsOptional};
ghost use Rattle.log_records.specs.Parts.{change_block};
ghost use Rattle.log_records.specs.Shapes.{IsChangeShape};

use crate::parts::read_moment;
use ivy_base::{Change, Moment};
use xdr_codec::Parts;

/// The attributes that are set, each after a boolean and only where that is true.
pub fn read_change(parts: &mut Parts) -> Change
    ensures { Reads IsChangeShape change_block parts.old result parts.new }
{
    let mode = read_optional_word(parts);
    let uid = read_optional_word(parts);
    let gid = read_optional_word(parts);
    let size = read_optional_size(parts);
    let atime = read_optional_moment(parts);
    let mtime = read_optional_moment(parts);
    Change {
        mode,
        uid,
        gid,
        size,
        atime,
        mtime,
    }
}

/// A number of four bytes, where there is one.
fn read_optional_word(parts: &mut Parts) -> Option<u32>
    ensures { Reads (IsOptional IsWord) (optional word) parts.old result parts.new }
{
    if parts.boolean() {
        Some(parts.u32())
    } else {
        None
    }
}

/// The size of a file, where there is one.
fn read_optional_size(parts: &mut Parts) -> Option<u64>
    ensures { Reads (IsOptional IsDoubleWord) (optional double_word) parts.old result parts.new }
{
    if parts.boolean() {
        Some(parts.u64())
    } else {
        None
    }
}

/// A moment, where there is one.
fn read_optional_moment(parts: &mut Parts) -> Option<Moment>
    ensures { Reads (IsOptional IsWordMoment) (optional moment) parts.old result parts.new }
{
    if parts.boolean() {
        Some(read_moment(parts))
    } else {
        None
    }
}
