//! Hexadecimal digits: identifiers, seeds, bytes and keys.

ghost use Rattle.std.specs.Prelude.{◌≡◌, ◌==◌, ◌-◌, ◌%◌, ◌++◌, ◌&&◌, IfOk, nat_le, true, length, replicate, if◌then◌else◌};
ghost use Rattle.std.specs.List.{list_all};
ghost use Rattle.script_model.specs.Words.{hex_bytes, is_lower_hex, byte_of, raw_of};

use hex::{FromHex, FromHexError};
use ivy_base::{Bytes, Memory};
use std::alloc::Global;

/// Whether all bytes are hexadecimal digits with lower-case letters.
pub fn are_lower_hex(word: &[u8]) -> bool
    ensures { result ≡ list_all is_lower_hex word.now }
{
    for byte in word {
        if !matches!(byte, b'a'..=b'f') && !byte.is_ascii_digit() {
            return false;
        }
    }
    true
}

/// So many hexadecimal digits, if the word is one or more of them and not too many: zeros are filled in on the left.
fn filled<const DIGITS: usize>(word: &[u8]) -> Option<[u8; DIGITS]>
    ensures { result ≡ (if nat_le 1 (length word.now) && nat_le (length word.now) DIGITS && list_all is_lower_hex word.now then Some (replicate (DIGITS - length word.now) 48 ++ word.now) else None) }
{
    if word.is_empty() || word.len() > DIGITS || !are_lower_hex(word) {
        return None;
    }
    let mut digits = [b'0'; DIGITS];
    let all = &mut digits[..];
    all[DIGITS - word.len()..].copy_from_slice(word);
    Some(digits)
}

/// The identifier of a key (RFC 8554, section 5.3), if the word is one: 1 to 32 digits.
pub fn identifier(word: &[u8]) -> Option<[u8; 16]>
    ensures { result ≡ hex_bytes 16 word.now }
{
    <[u8; 16]>::from_hex(filled::<32>(word)?).ok()
}

/// The seed of a key, if the word is one: 1 to 64 digits.
pub fn seed(word: &[u8]) -> Option<[u8; 32]>
    ensures { result ≡ hex_bytes 32 word.now }
{
    <[u8; 32]>::from_hex(filled::<64>(word)?).ok()
}

/// The byte that a word is, if it is two digits.
pub fn byte(word: &[u8]) -> Option<u8>
    ensures { result ≡ byte_of word.now }
{
    if word.len() != 2 || !are_lower_hex(word) {
        return None;
    }
    let bytes = <[u8; 1]>::from_hex(word).ok()?;
    Some(bytes[0])
}

/// Whether the word is the digits of some bytes, of one at least.
fn is_raw(word: &[u8]) -> bool
    ensures { result ≡ (nat_le 2 (length word.now) && length word.now % 2 == 0 && list_all is_lower_hex word.now) }
{
    word.len() >= 2 && word.len() % 2 == 0 && are_lower_hex(word)
}

/// The bytes that a word is, if it is their digits. The error is: out of memory.
pub fn raw(alloc: Global, word: &[u8]) -> Result<Option<Bytes>, Memory>
    ensures { IfOk result (λ bytes. bytes ≡ raw_of word.now) }
{
    if !is_raw(word) {
        return Ok(None);
    }
    match hex::decode(alloc, word) {
        Ok(bytes) => Ok(Some(Bytes::of(bytes))),
        Err(FromHexError::OutOfMemory) => Err(Memory),
        Err(_) => Ok(None),
    }
}

/// Whether the word is the 40 digits of a key.
pub fn is_key_text(word: &[u8]) -> bool
    ensures { result ≡ (length word.now == 40 && list_all is_lower_hex word.now) }
{
    word.len() == 40 && are_lower_hex(word)
}

/// The bytes of a key that a word is.
pub fn key_bytes(word: &[u8]) -> Option<[u8; 20]>
    requires size { length word.now ≡ 40 }
    requires digits { list_all is_lower_hex word.now ≡ true }
    ensures { result ≡ raw_of word.now }
{
    <[u8; 20]>::from_hex(word).ok()
}
