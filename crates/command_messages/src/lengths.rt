//! How many bytes pieces have, which is told before memory is taken for them.

ghost use Rattle.std.specs.Prelude.{◌≡◌, ◌+◌, ◌*◌, ◌≤◌, IfSome};
ghost use Rattle.log_model.specs.View.{View};
ghost use Rattle.command_messages.specs.Lengths.{padded, within, length_of_piece, length_of_pieces};
ghost use Rattle.rpc_wire.specs.Frames.{longest_message};

use crate::replies::{ReplyParts, handle_numbered, verifier_numbered};
use script_model::Piece;

/// The most bytes of a message.
const LONGEST_MESSAGE: u64 = rpc_wire::LONGEST_MESSAGE as u64;

/// The bytes of a call's head without further groups, and those of a group.
const HEAD: u64 = 60;

const GROUP: u64 = 4;

/// The bytes of a file handle with its count in front.
const HANDLE: u64 = 48;

/// The bytes of new attributes that give a mode alone.
const ATTRIBUTES: u64 = 28;

/// The bytes of a number of four bytes, and of one of eight.
const WORD: u64 = 4;

const DOUBLE_WORD: u64 = 8;

/// A length, where a message may have it.
fn within(length: u64) -> Option<u64>
    ensures length { result ≡ within length }
    ensures short { IfSome result (λ length. length ≤ longest_message) }
{
    if length <= LONGEST_MESSAGE {
        Some(length)
    } else {
        None
    }
}

/// The length of opaque data of so many bytes (RFC 4506, section 4.10), where a message may have it.
fn length_of_data(count: u64) -> Option<u64>
    ensures length { result ≡ within (4 + padded count) }
    ensures short { IfSome result (λ length. length ≤ longest_message) }
{
    if count > LONGEST_MESSAGE {
        return None;
    }
    within(4 + count + (4 - count % 4) % 4)
}

/// The length of a call's head with so many further groups, where a message may have it.
fn length_of_head(groups: u64) -> Option<u64>
    ensures length { result ≡ within (60 + 4 * groups) }
    ensures short { IfSome result (λ length. length ≤ longest_message) }
{
    if groups > LONGEST_MESSAGE {
        return None;
    }
    within(HEAD + GROUP * groups)
}

/// The length of a piece, where it has bytes and a message may have so many.
fn length_of(replies: &[ReplyParts], piece: &Piece) -> Option<u64>
    ensures length { (view : View) → result ≡ length_of_piece replies.now view piece.now }
    ensures short { IfSome result (λ length. length ≤ longest_message) }
{
    match piece {
        Piece::Call { groups, .. } => length_of_head(*groups),
        Piece::Root => Some(HANDLE),
        Piece::HandleOf { reply } => length_of_data(handle_numbered(replies, *reply)?.len() as u64),
        Piece::VerifierOf { reply } => {
            let verifier = verifier_numbered(replies, *reply)?.as_slice();
            within(verifier.len() as u64)
        }
        Piece::Text { text } => length_of_data(text.as_slice().len() as u64),
        Piece::Opaque { count, .. } => length_of_data(*count),
        Piece::Mode { .. } => Some(ATTRIBUTES),
        Piece::Word { .. } => Some(WORD),
        Piece::DoubleWord { .. } => Some(DOUBLE_WORD),
        Piece::Raw { bytes } => within(bytes.as_slice().len() as u64),
    }
}

/// The length of the pieces in a row, where each has bytes and a message may have so many.
pub fn length_of_all(replies: &[ReplyParts], pieces: &[Piece]) -> Option<u64>
    ensures { (view : View) → result ≡ length_of_pieces replies.now view pieces.now }
{
    let mut total = 0;
    for piece in pieces {
        total = within(total + length_of(replies, piece)?)?;
    }
    Some(total)
}
