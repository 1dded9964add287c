//! Numbers of an operation's marks.

ghost use Rattle.std.specs.Prelude.{◌≡◌, ◌+◌, ◌<◌, ◌≤◌, ◌^◌, ◌++◌, map, length, OnOk};
ghost use Rattle.tree_model.specs.Tree.{longest_file};
ghost use Rattle.log_model.specs.Spelling.{OperationFits};
ghost use Rattle.conflict_list.specs.Marks.{Entry, all_bytes, cut, pages};
ghost use Rattle.conflict_list.specs.Numbers.{file_number, looked_up, number, numbers_of, stirred, stirred_all};
ghost use Rattle.log_model.specs.Touching.{places};

use ivy_base::{Key, Memory, Op};

/// How many bytes of a file are one piece.
const PAGE: u64 = 8192;

/// What the numbers of a file's marks are stirred with: that bytes are written, its size, and from here on its pieces.
const WRITTEN: u64 = 256;

const CUT: u64 = 257;

const FIRST_PAGE: u64 = 258;

/// Puts the numbers there under which the operation's record is found. The error is: out of memory.
pub fn set_numbers(numbers: &mut Vec<u64>, op: &Op) -> Result<(), Memory>
    requires { OperationFits op.now }
    ensures { OnOk result (numbers.new.items ≡ numbers_of op.now) }
{
    numbers.clear();
    match op {
        Op::Write { ino, offset, bytes } => {
            numbers.push(file_number(ino, WRITTEN))?;
            push_pages(numbers, ino, *offset, bytes.as_slice())
        }
        Op::SetAttrs { ino, change } => push_cut(numbers, ino, change.size),
        _ => push_entries(numbers, op),
    }
}

/// Puts the numbers there under which the operation's record looks. The error is: out of memory.
pub fn set_looks(numbers: &mut Vec<u64>, op: &Op) -> Result<(), Memory>
    requires { OperationFits op.now }
    ensures { OnOk result (numbers.new.items ≡ looked_up op.now) }
{
    numbers.clear();
    match op {
        Op::Write { ino, offset, bytes } => {
            numbers.push(file_number(ino, CUT))?;
            push_pages(numbers, ino, *offset, bytes.as_slice())
        }
        Op::SetAttrs { ino, change } => push_all_bytes(numbers, ino, change.size),
        _ => push_entries(numbers, op),
    }
}

/// Adds those of the pieces that a Write begins and ends in. The error is: out of memory.
fn push_pages(numbers: &mut Vec<u64>, file: &Key, offset: u64, bytes: &[u8]) -> Result<(), Memory>
    requires some { 1 ≤ length bytes.now }
    requires within { offset + length bytes.now ≤ longest_file }
    ensures { OnOk result (numbers.new.items ≡ numbers.old.items ++ map number (pages file.now offset bytes.now)) }
{
    let first = offset / PAGE;
    let last = (offset + bytes.len() as u64 - 1) / PAGE;
    numbers.push(file_number(file, FIRST_PAGE + first))?;
    if first != last {
        numbers.push(file_number(file, FIRST_PAGE + last))?;
    }
    Ok(())
}

/// Adds that of the size, if one is given. The error is: out of memory.
fn push_cut(numbers: &mut Vec<u64>, file: &Key, size: Option<u64>) -> Result<(), Memory>
    ensures { OnOk result (numbers.new.items ≡ numbers.old.items ++ map number (cut file.now size)) }
{
    if size.is_some() {
        numbers.push(file_number(file, CUT))?;
    }
    Ok(())
}

/// Adds those of the size and of all bytes that are written, if a size is given. The error is: out of memory.
fn push_all_bytes(numbers: &mut Vec<u64>, file: &Key, size: Option<u64>) -> Result<(), Memory>
    ensures { OnOk result (numbers.new.items ≡ numbers.old.items ++ map number (all_bytes file.now size)) }
{
    if size.is_some() {
        numbers.push(file_number(file, CUT))?;
        numbers.push(file_number(file, WRITTEN))?;
    }
    Ok(())
}

/// Adds those of the operation's names. The error is: out of memory.
fn push_entries(numbers: &mut Vec<u64>, op: &Op) -> Result<(), Memory>
    ensures { OnOk result (numbers.new.items ≡ numbers.old.items ++ map number (map Entry (places op.now))) }
{
    match op {
        Op::Link { dir, name, ino: _ } => numbers.push(entry_number(dir, name.as_slice()))?,
        Op::Unlink { dir, name } => numbers.push(entry_number(dir, name.as_slice()))?,
        Op::Rename {
            dir,
            name,
            to_dir,
            to_name,
        } => {
            numbers.push(entry_number(dir, name.as_slice()))?;
            numbers.push(entry_number(to_dir, to_name.as_slice()))?;
        }
        _ => {}
    }
    Ok(())
}

/// The number of a name in a directory.
fn entry_number(dir: &Key, name: &[u8]) -> u64
    ensures { result ≡ number (Entry (dir.now, name.now)) }
{
    stirred_all(stirred_all(0, &dir.0), name)
}

/// The number of a file's mark of that kind.
fn file_number(file: &Key, kind: u64) -> u64
    ensures { result ≡ file_number file.now kind }
{
    stirred(stirred_all(0, &file.0), kind)
}

/// The state with all the bytes stirred in.
fn stirred_all(start: u64, bytes: &[u8]) -> u64
    ensures { result ≡ stirred_all start bytes.now }
{
    let mut state = start;
    'bytes: for byte in bytes {
        state = stirred(state, u64::from(*byte));
    }
    state
}

/// The state with one more number stirred in.
fn stirred(state: u64, more: u64) -> u64
    ensures { result ≡ stirred state more }
{
    state.wrapping_mul(1_099_511_628_211).wrapping_add(more)
}
