//! Messages, piece by piece.

ghost use Rattle.std.specs.Prelude.{◌≡◌, ◌++◌, option_map, Some, None, if◌then◌else◌, IfOk, IsOk};
ghost use Rattle.script_model.specs.Messages.{bytes_of_pieces, message_of};

use crate::lengths::length_of_all;
use crate::replies::ReplyParts;
use crate::spelling::put_piece;
use ivy_base::{Bytes, Memory};
use script_model::Piece;
use std::alloc::Global;
use view_blocks::View;

/// The message of a call: the bytes of its pieces in a row, under a view, where `replies` has what each reply so far gave.
/// None where a piece has no bytes, or they have more than 65,536 together: this is told before any memory is taken for them.
/// The error is: out of memory for a message.
pub fn message(
    alloc: Global,
    replies: &[ReplyParts],
    view: &View,
    pieces: &[Piece],
) -> Result<Option<Bytes>, Memory>
    ensures message { IfOk result (λ message. message ≡ message_of replies.now view.now pieces.now) }
    ensures none { message_of replies.now view.now pieces.now ≡ None → IsOk result }
{
    if length_of_all(replies, pieces).is_none() {
        return Ok(None);
    }
    let mut out = Vec::new(alloc);
    let is_whole = put_pieces(alloc, &mut out, replies, view, pieces)?;
    Ok(if is_whole { Some(Bytes::of(out)) } else { None })
}

/// Appends the bytes of the pieces in their order. It is false where one has none.
fn put_pieces(
    alloc: Global,
    out: &mut Vec<u8>,
    replies: &[ReplyParts],
    view: &View,
    pieces: &[Piece],
) -> Result<bool, Memory>
    ensures { IfOk result (λ is_whole. option_map (λ bytes. out.old.items ++ bytes) (bytes_of_pieces replies.now view.now pieces.now)
        ≡ (if is_whole then Some out.new.items else None)) }
{
    for piece in pieces {
        if !put_piece(alloc, out, replies, view, piece)? {
            return Ok(false);
        }
    }
    Ok(true)
}
