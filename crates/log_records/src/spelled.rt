//! Whether a record has a block.

ghost use Rattle.std.specs.Prelude.{◌≡◌, ◌<◌, ◌≤◌, ◌^◌, ◌+◌, ◌↔◌, [], length, IsTrue, IfSome};
ghost use Rattle.ivy_base.specs.Naming.{head_key_of};
ghost use Rattle.ivy_base.specs.declared.format.Format.TheVariants.{One};
ghost use Rattle.log_model.specs.Spelling.{no_name, HasSpelling, IsMode, IsMoment, IsTarget, IsChange, OperationFits};
ghost use Rattle.log_records.specs.Frames.{IsCited};
ghost use Rattle.log_records.specs.Parts.{IsPlace};
ghost use Rattle.log_records.specs.Records.{record_of};
ghost use Rattle.log_records.specs.Spelled.{IsInPlace};
ghost use Rattle.tree_model.specs.Tree.{longest_file};

use crate::chain::is_same;
use crate::frame::MOST_CITED;
use crate::parts::{is_number, is_piece};
use crate::record::{Record, is_end};
use block_parts::{LONGEST_FILE, LONGEST_PIECE, LONGEST_TARGET, NO_NAME, check_block};
use ivy_base::{Bytes, Change, Format, Key, Kind, Moment, Op, name_ok};
use version_vectors::Vector;

/// Whether the record has a block. `log` is its owner's head key.
pub fn is_spelled(record: &Record, log: &Key) -> bool
    requires { log.now ≡ head_key_of «record».now.owner }
    ensures { IsTrue result ↔ HasSpelling (record_of «record».now) }
{
    check_block(&record.prev.0);
    is_number(record.seq)
        && is_moment(record.moment)
        && may_cite(log, &record.vector)
        && operation_fits(&record.op)
        && is_in_place(record)
}

/// Whether the moment has less than 1,000,000,000 nanoseconds.
fn is_moment(moment: Moment) -> bool
    ensures { IsTrue result ↔ IsMoment moment }
{
    moment.nsec < 1_000_000_000
}

/// Whether a record of that log may have the vector: at most 32 entries, none of them of the log.
fn may_cite(log: &Key, vector: &Vector) -> bool
    ensures { IsTrue result ↔ IsCited log.now vector.now }
{
    vector.len() <= MOST_CITED as usize && vector.get(log).is_none()
}

/// Whether the operation is End in the first record of a log and nowhere else, and whether the first one cites
/// nothing and has format 1.
fn is_in_place(record: &Record) -> bool
    ensures { IsTrue result ↔ IsInPlace (record_of «record».now) }
{
    if record.seq == 1 {
        is_end(&record.op) && opens(record)
    } else {
        !is_end(&record.op)
    }
}

/// Whether a record names neither one before it nor one of another log, and has format 1.
fn opens(record: &Record) -> bool
    ensures { IsTrue result ↔ ((«record».now.prev ≡ no_name) × («record».now.vector ≡ [])) × («record».now.format ≡ One) }
{
    is_unlinked(&record.prev, &record.vector) && is_format_one(record.format)
}

/// Whether it is format 1.
fn is_format_one(format: Format) -> bool
    ensures { IsTrue result ↔ (format ≡ One) }
{
    matches!(format, Format::One)
}

/// Whether a record with these names neither one before it nor one of another log.
fn is_unlinked(prev: &Key, vector: &Vector) -> bool
    ensures { IsTrue result ↔ (prev.now ≡ no_name) × (vector.now ≡ []) }
{
    is_same(prev, &NO_NAME) && vector.len() == 0
}

/// Whether each part of the operation has its bounds.
fn operation_fits(op: &Op) -> bool
    ensures { IsTrue result ↔ OperationFits op.now }
{
    match op {
        Op::Inode {
            ino,
            kind,
            mode,
            uid,
            gid,
            target,
        } => {
            check_block(&ino.0);
            check_word(*uid);
            check_word(*gid);
            is_mode(*mode) && is_target(*kind, target.as_slice())
        }
        Op::Write { ino, offset, bytes } => {
            check_block(&ino.0);
            is_written(*offset, bytes.as_slice())
        }
        Op::Link { dir, name, ino } => {
            check_block(&ino.0);
            is_place(dir, name)
        }
        Op::Unlink { dir, name } => is_place(dir, name),
        Op::Rename {
            dir,
            name,
            to_dir,
            to_name,
        } => is_place(dir, name) && is_place(to_dir, to_name),
        Op::Prepare { dir, name, verf } => {
            check_block(verf);
            is_place(dir, name)
        }
        Op::Cancel { seq } => {
            check_word(*seq);
            true
        }
        Op::SetAttrs { ino, change } => {
            check_block(&ino.0);
            is_change(change)
        }
        Op::End => true,
    }
}

/// Whether the name is one that a file may have; the directory's number may be any.
fn is_place(dir: &Key, name: &Bytes) -> bool
    ensures { IsTrue result ↔ IsPlace (dir.now, name.now) }
{
    check_block(&dir.0);
    name_ok(name.as_slice())
}

/// What the type says of a number.
pub(crate) fn check_word(number: u32)
    ensures { number < 2 ^ 32 }
{
    let _ = number;
}

/// Whether the mode has 12 bits.
fn is_mode(mode: u32) -> bool
    ensures { IsTrue result ↔ IsMode mode }
{
    mode <= 0o7777
}

/// Whether it is the text of an inode of that kind: 1 to 1,024 bytes for a symbolic link, and none for others.
fn is_target(kind: Kind, target: &[u8]) -> bool
    ensures { IsTrue result ↔ IsTarget kind target.now }
{
    match kind {
        Kind::Reg | Kind::Dir => target.is_empty(),
        Kind::Lnk => !target.is_empty() && target.len() <= LONGEST_TARGET as usize,
    }
}

/// Whether there are bytes, at most 8,192, and all are within the most that a file may have.
fn is_written(offset: u64, bytes: &[u8]) -> bool
    ensures { IsTrue result ↔ (1 ≤ length bytes.now) × (length bytes.now ≤ 8192) × (offset + length bytes.now ≤ longest_file) }
{
    bytes.len() <= LONGEST_PIECE as usize && is_piece(offset, bytes)
}

/// Whether each attribute that is set has its bounds.
fn is_change(change: &Change) -> bool
    ensures { IsTrue result ↔ IsChange change.now }
{
    check_optional_word(change.uid);
    check_optional_word(change.gid);
    is_optional_mode(change.mode)
        && is_optional_size(change.size)
        && is_optional_moment(change.atime)
        && is_optional_moment(change.mtime)
}

/// What the type says of a number, where there is one.
fn check_optional_word(number: Option<u32>)
    ensures { IfSome number (λ n. n < 2 ^ 32) }
{
    if let Some(n) = number {
        check_word(n);
    }
}

/// Whether the mode has 12 bits, where there is one.
fn is_optional_mode(mode: Option<u32>) -> bool
    ensures { IsTrue result ↔ IfSome mode IsMode }
{
    match mode {
        Some(mode) => is_mode(mode),
        None => true,
    }
}

/// Whether the size is one that a file may have, where there is one.
fn is_optional_size(size: Option<u64>) -> bool
    ensures { IsTrue result ↔ IfSome size (λ n. n ≤ longest_file) }
{
    match size {
        Some(size) => size <= LONGEST_FILE,
        None => true,
    }
}

/// Whether the moment has less than 1,000,000,000 nanoseconds, where there is one.
fn is_optional_moment(moment: Option<Moment>) -> bool
    ensures { IsTrue result ↔ IfSome moment IsMoment }
{
    match moment {
        Some(moment) => is_moment(moment),
        None => true,
    }
}
