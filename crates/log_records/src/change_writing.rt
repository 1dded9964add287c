//! Writing what a record changes of an inode's attributes.

ghost use Rattle.std.specs.Prelude.{◌≡◌, ◌+◌, ◌≤◌, ◌++◌};
ghost use Rattle.wire_model.specs.Xdr.{word, double_word, optional, moment};
ghost use Rattle.log_records.specs.Parts.{change_block};
ghost use Rattle.block_parts.specs.Parts.{optional_size};
ghost use Rattle.log_records.specs.Sizes.{change_size};

use block_parts::put_moment;
use ivy_base::{Change, Moment};
use xdr_codec::XdrWrite;

/// How many bytes the attributes take.
pub fn change_len(change: &Change) -> usize
    ensures size { result ≡ change_size change.now }
    ensures bound { result ≤ 60 }
{
    optional_len(&change.mode, 4)
        + optional_len(&change.uid, 4)
        + optional_len(&change.gid, 4)
        + optional_len(&change.size, 8)
        + optional_len(&change.atime, 8)
        + optional_len(&change.mtime, 8)
}

/// How many bytes an item of that size takes, where it may be left out.
fn optional_len<T>(item: &Option<T>, size: usize) -> usize
    requires { size ≤ 8 }
    ensures size { result ≡ optional_size size item.now }
    ensures bound { result ≤ 4 + size }
{
    match item {
        None => 4,
        Some(_) => 4 + size,
    }
}

/// Appends the attributes, each after a boolean and only where it is set.
pub fn put_change(out: &mut XdrWrite, change: &Change)
    requires { change_size change.now ≤ out.old.spare }
    ensures written { out.new.written ≡ out.old.written ++ change_block change.now }
    ensures spare { out.new.spare + change_size change.now ≡ out.old.spare }
{
    put_optional_word(out, change.mode);
    put_optional_word(out, change.uid);
    put_optional_word(out, change.gid);
    put_optional_size(out, change.size);
    put_optional_moment(out, change.atime);
    put_optional_moment(out, change.mtime);
}

/// Appends a number, where there is one.
fn put_optional_word(out: &mut XdrWrite, item: Option<u32>)
    requires { optional_size 4 item ≤ out.old.spare }
    ensures written { out.new.written ≡ out.old.written ++ optional word item }
    ensures spare { out.new.spare + optional_size 4 item ≡ out.old.spare }
{
    match item {
        None => out.put_bool(false),
        Some(n) => {
            out.put_bool(true);
            out.put_u32(n);
        }
    }
}

/// Appends the size of a file, where there is one.
fn put_optional_size(out: &mut XdrWrite, item: Option<u64>)
    requires { optional_size 8 item ≤ out.old.spare }
    ensures written { out.new.written ≡ out.old.written ++ optional double_word item }
    ensures spare { out.new.spare + optional_size 8 item ≡ out.old.spare }
{
    match item {
        None => out.put_bool(false),
        Some(n) => {
            out.put_bool(true);
            out.put_u64(n);
        }
    }
}

/// Appends a moment, where there is one.
fn put_optional_moment(out: &mut XdrWrite, item: Option<Moment>)
    requires { optional_size 8 item ≤ out.old.spare }
    ensures written { out.new.written ≡ out.old.written ++ optional moment item }
    ensures spare { out.new.spare + optional_size 8 item ≡ out.old.spare }
{
    match item {
        None => out.put_bool(false),
        Some(m) => {
            out.put_bool(true);
            put_moment(out, m);
        }
    }
}
