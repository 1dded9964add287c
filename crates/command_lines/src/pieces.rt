//! The pieces of a call's message.

ghost use Rattle.std.specs.Prelude.{◌≡◌, ◌+◌, ◌^◌, nat_lt, IfOk, map};
ghost use Rattle.std.specs.List.{list_all};
ghost use Rattle.script_model.specs.Words.{is_printable, parts_at, of_number, call_of, text_of, opaque_of, of_raw, piece_of};
ghost use Rattle.command_lines.specs.Steps.{short_piece, long_piece, data_of, groups_of, pieces_of};

use crate::hex_digits::{byte, raw};
use crate::numbers::{number_u32, number_u64};
use crate::words::{behind, is, parts};
use ivy_base::{Bytes, Memory};
use script_model::{Piece, Pieces};
use std::alloc::Global;

/// Whether the last of so many groups after a group is a number of 32 bits.
fn is_last_group_small(gid: u32, groups: u64) -> bool
    ensures { result ≡ nat_lt (gid + groups) (2 ^ 32) }
{
    groups <= u64::from(u32::MAX - gid)
}

/// How many groups stand after the first, of the words for it: none where there is no word.
fn further_groups(words: &[&[u8]]) -> Option<u64>
    ensures { result ≡ groups_of (map (λ word. word.now) words.now) }
{
    match words {
        [] => Some(0),
        [groups] => number_u64(groups),
        _ => None,
    }
}

/// The head of a call, of its three or four numbers: the last of its groups is a number of 32 bits.
fn call_of_numbers(mount: bool, numbers: &[&[u8]]) -> Option<Piece>
    ensures { result ≡ call_of mount (map (λ number. number.now) numbers.now) }
{
    let [procedure, uid, gid, rest @ ..] = numbers else {
        return None;
    };
    let procedure = number_u32(procedure)?;
    let uid = number_u32(uid)?;
    let gid = number_u32(gid)?;
    let groups = further_groups(rest)?;
    if !is_last_group_small(gid, groups) {
        return None;
    }
    Some(Piece::Call {
        mount,
        procedure,
        uid,
        gid,
        groups,
    })
}

/// The head of a call, of the text after the program's name. The error is: out of memory.
fn call(alloc: Global, mount: bool, text: &[u8]) -> Result<Option<Piece>, Memory>
    ensures { IfOk result (λ piece. piece ≡ call_of mount (parts_at 58 text.now)) }
{
    let numbers = parts(alloc, text, b':')?;
    Ok(call_of_numbers(mount, &numbers))
}

/// A piece of a number of four bytes.
#[derive(Drop)]
enum Short {
    /// The number itself, of the digits after `u:`.
    Word,
    /// Attributes with that mode, of the digits after `sa:`.
    Mode,
}

/// A piece of a number of eight bytes.
#[derive(Drop)]
enum Long {
    /// The number itself, of the digits after `w:`.
    Word,
    /// The file handle of the reply of that number, of the digits after `h:`.
    Handle,
    /// The verifier of the reply of that number, of the digits after `v:`.
    Verifier,
}

/// That piece, of its digits.
fn short_piece(kind: Short, digits: &[u8]) -> Option<Piece>
    ensures { result ≡ of_number (2 ^ 32) (short_piece kind) digits.now }
{
    let number = number_u32(digits)?;
    Some(match kind {
        Short::Word => Piece::Word { number },
        Short::Mode => Piece::Mode { mode: number },
    })
}

/// That piece, of its digits.
fn long_piece(kind: Long, digits: &[u8]) -> Option<Piece>
    ensures { result ≡ of_number (2 ^ 64) (long_piece kind) digits.now }
{
    let number = number_u64(digits)?;
    Some(match kind {
        Long::Word => Piece::DoubleWord { number },
        Long::Handle => Piece::HandleOf { reply: number },
        Long::Verifier => Piece::VerifierOf { reply: number },
    })
}

/// Whether all bytes are printable ASCII without blanks.
fn are_printable(text: &[u8]) -> bool
    ensures { result ≡ list_all is_printable text.now }
{
    for byte in text {
        if !byte.is_ascii_graphic() {
            return false;
        }
    }
    true
}

/// A string, of the text after `s:`. The error is: out of memory.
fn text(alloc: Global, text: &[u8]) -> Result<Option<Piece>, Memory>
    ensures { IfOk result (λ piece. piece ≡ text_of text.now) }
{
    if !are_printable(text) {
        return Ok(None);
    }
    let text = Bytes::copy_of(alloc, text)?;
    Ok(Some(Piece::Text { text }))
}

/// Opaque data, of its count and its byte.
fn opaque_of_parts(parts: &[&[u8]]) -> Option<Piece>
    ensures { result ≡ opaque_of (map (λ part. part.now) parts.now) }
{
    let [count, digits] = parts else {
        return None;
    };
    Some(Piece::Opaque {
        count: number_u64(count)?,
        byte: byte(digits)?,
    })
}

/// Opaque data, of the text after `o:`. The error is: out of memory.
fn opaque(alloc: Global, text: &[u8]) -> Result<Option<Piece>, Memory>
    ensures { IfOk result (λ piece. piece ≡ opaque_of (parts_at 58 text.now)) }
{
    let parts = parts(alloc, text, b':')?;
    Ok(opaque_of_parts(&parts))
}

/// Bytes, of their digits. The error is: out of memory.
fn raw_piece(alloc: Global, digits: &[u8]) -> Result<Option<Piece>, Memory>
    ensures { IfOk result (λ piece. piece ≡ of_raw digits.now) }
{
    let Some(bytes) = raw(alloc, digits)? else {
        return Ok(None);
    };
    Ok(Some(Piece::Raw { bytes }))
}

/// The piece that a word is that is no call. The error is: out of memory.
fn data_piece(alloc: Global, word: &[u8]) -> Result<Option<Piece>, Memory>
    ensures { IfOk result (λ piece. piece ≡ data_of word.now) }
{
    if let Some(digits) = behind(word, b"u:".as_slice()) {
        Ok(short_piece(Short::Word, digits))
    } else if let Some(digits) = behind(word, b"w:".as_slice()) {
        Ok(long_piece(Long::Word, digits))
    } else if let Some(string) = behind(word, b"s:".as_slice()) {
        text(alloc, string)
    } else if let Some(parts) = behind(word, b"o:".as_slice()) {
        opaque(alloc, parts)
    } else if let Some(digits) = behind(word, b"sa:".as_slice()) {
        Ok(short_piece(Short::Mode, digits))
    } else if let Some(digits) = behind(word, b"h:".as_slice()) {
        Ok(long_piece(Long::Handle, digits))
    } else if let Some(digits) = behind(word, b"v:".as_slice()) {
        Ok(long_piece(Long::Verifier, digits))
    } else {
        raw_piece(alloc, word)
    }
}

/// The piece that a word is, if it is one. The error is: out of memory.
fn piece(alloc: Global, word: &[u8]) -> Result<Option<Piece>, Memory>
    ensures { IfOk result (λ piece. piece ≡ piece_of word.now) }
{
    if is(word, b"root") {
        Ok(Some(Piece::Root))
    } else if let Some(numbers) = behind(word, b"nfs:".as_slice()) {
        call(alloc, false, numbers)
    } else if let Some(numbers) = behind(word, b"mnt:".as_slice()) {
        call(alloc, true, numbers)
    } else {
        data_piece(alloc, word)
    }
}

/// The pieces that these words are, if there is one at least and each is one. The error is: out of memory.
pub fn pieces(alloc: Global, words: &[&[u8]]) -> Result<Option<Pieces>, Memory>
    ensures { IfOk result (λ pieces. pieces ≡ pieces_of (map (λ word. word.now) words.now)) }
{
    if words.is_empty() {
        return Ok(None);
    }
    let mut pieces = Vec::new(alloc);
    for word in words {
        let Some(piece) = piece(alloc, word)? else {
            return Ok(None);
        };
        pieces.push(piece)?;
    }
    Ok(Some(Pieces::of(pieces)))
}
