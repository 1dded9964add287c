//! The line of digits that a fork proof comes as.

ghost use Rattle.std.specs.Prelude.{◌≡◌, ◌<◌, ◌≤◌, ◌++◌, ◌-◌, length, vec_len, IfOk, IfErr, OnOk};
ghost use Rattle.std.specs.List.{list_all};
ghost use Rattle.script_driver.specs.Told.{FailsReading};
ghost use Rattle.script_model.specs.Words.{is_lower_hex};
ghost use Rattle.ivy_cli.specs.ProofLines.{are_digits, bytes_of, digits_of, most_read, Grows, IsInput, TakesUpTo};

use hex::FromHexError;
use ivy_base::{Bytes, Memory};
use ivy_io::Source;
use script_driver::Fault;
use std::alloc::Global;

/// The most digits of a line.
const MOST_DIGITS: usize = 33_554_432;

/// No more bytes are read than show that a line has too many: its digits, a newline and one more.
const MOST_READ: usize = MOST_DIGITS + 2;

/// How many bytes a read asks for at most.
const CHUNK: usize = 4_096;

/// All that the source has left, or more than a line has. `Read` comes only where a read failed, and `Memory` means out of
/// memory.
pub fn read_input<Q: Source>(alloc: Global, source: &mut Q) -> Result<Vec<u8>, Fault>
    ensures ok { IfOk result (λ input. IsInput input.items (Q.left source.old) (Q.left source.new)) }
    ensures takes { TakesUpTo most_read (Q.left source.old) (Q.left source.new) }
    ensures fails { IfErr result (λ fault. FailsReading fault (Q.faults source.old) (Q.faults source.new)) }
    ensures later { Q.faults source.old ≤ Q.faults source.new }
{
    let mut input = Vec::new(alloc);
    'input: loop {
        if !fill(&mut input, source)? {
            return Ok(input);
        }
    }
}

/// Reads some more of an input. `false` at its end, or where it has more than a line.
fn fill<Q: Source>(input: &mut Vec<u8>, source: &mut Q) -> Result<bool, Fault>
    requires { vec_len input.old ≤ most_read }
    ensures grows { IfOk result (λ more. Grows more input.old.items input.new.items (Q.left source.old) (Q.left source.new)) }
    ensures few { OnOk result (vec_len input.new ≤ most_read) }
    ensures takes { TakesUpTo (most_read - vec_len input.old) (Q.left source.old) (Q.left source.new) }
    ensures fails { IfErr result (λ fault. FailsReading fault (Q.faults source.old) (Q.faults source.new)) }
    ensures later { Q.faults source.old ≤ Q.faults source.new }
{
    let mut chunk = [0u8; CHUNK];
    let room = (MOST_READ - input.len()).min(CHUNK);
    if room == 0 {
        return Ok(false);
    }
    let Ok(count) = source.read(&mut chunk[..room]) else {
        return Err(Fault::Read);
    };
    if count == 0 {
        return Ok(false);
    }
    append(input, &chunk[..count])?;
    Ok(true)
}

/// Puts these bytes after an input. The error is: out of memory.
fn append(input: &mut Vec<u8>, bytes: &[u8]) -> Result<(), Memory>
    ensures { OnOk result (input.new.items ≡ input.old.items ++ bytes.now) }
{
    input.extend_from_slice(bytes)?;
    Ok(())
}

/// The bytes that an input is, if it is one line of digits and nothing else. The error is: out of memory.
pub fn bytes_of(alloc: Global, input: &[u8]) -> Result<Option<Bytes>, Memory>
    ensures { IfOk result (λ bytes. bytes ≡ bytes_of input.now) }
{
    let digits = digits_of(input);
    if !are_digits(digits) {
        return Ok(None);
    }
    match hex::decode(alloc, digits) {
        Ok(bytes) => Ok(Some(Bytes::of(bytes))),
        Err(FromHexError::OutOfMemory) => Err(Memory),
        Err(_) => Ok(None),
    }
}

/// The line without its newline, which may lack.
fn digits_of(input: &[u8]) -> &[u8]
    ensures { result.now ≡ digits_of input.now }
{
    input.strip_suffix(b"\n".as_slice()).unwrap_or(input)
}

/// Whether these are 2 to 33,554,432 lower-case hexadecimal digits, and their number is even.
fn are_digits(digits: &[u8]) -> bool
    ensures { result ≡ are_digits digits.now }
{
    digits.len() <= MOST_DIGITS
        && digits.len() >= 2
        && digits.len() % 2 == 0
        && are_lower_hex(digits)
}

/// Whether all bytes are hexadecimal digits with lower-case letters.
fn are_lower_hex(bytes: &[u8]) -> bool
    ensures { result ≡ list_all is_lower_hex bytes.now }
{
    bytes.iter().all(|byte| matches!(byte, b'a'..=b'f') || byte.is_ascii_digit())
}
