//! The statuses of the replies in a text.

ghost use Rattle.std.specs.Prelude.{◌≡◌, IfOk};
ghost use Rattle.ivy_cli.specs.Summary.{front_of, status_in, status_of, statuses};

use hex::FromHex;
use std::alloc::{AllocError, Global};

/// What a line begins with that shows a reply; the digits of its bytes are behind.
const REPLY: &[u8; 6] = b"reply ";

/// What stands after the call's number in the reply to a call that was served (RFC 5531, section 9).
const SUCCESS: [u8; 20] = [0, 0, 0, 1, 0, 0, 0, 0, 0, 0, 0, 0, 0, 0, 0, 0, 0, 0, 0, 0];

/// The digits of the 28 bytes that a served call's reply begins with: its head, and the status.
const FRONT_DIGITS: usize = 56;

/// The statuses of all replies in a text, in the order of its lines. The error is: out of memory.
pub fn statuses_in(alloc: Global, text: &[u8]) -> Result<Vec<u32>, AllocError>
    ensures { IfOk result (λ found. found.items ≡ statuses text.now) }
{
    text.split(|byte| *byte == b'\n')
        .filter_map(status_in)
        .collect(alloc)
}

/// The status that a line shows, if it shows the reply to a call that was served.
#[tactic(auto, unfolding(crate::specs::Summary::status_in))]
fn status_in(line: &[u8]) -> Option<u32>
    ensures { result ≡ status_in line.now }
{
    status_of(&front_of(line)?)
}

/// The first bytes of the message that a line shows, up to a status, if the line shows a reply that is long enough.
fn front_of(line: &[u8]) -> Option<[u8; 28]>
    ensures { result ≡ front_of line.now }
{
    if !line.starts_with(REPLY.as_slice()) {
        return None;
    }
    let digits = &line[REPLY.len()..];
    <[u8; 28]>::from_hex(&digits[..digits.len().min(FRONT_DIGITS)]).ok()
}

/// The status after the head of the reply to a call that was served.
fn status_of(front: &[u8; 28]) -> Option<u32>
    ensures { result ≡ status_of front.now }
{
    if front[4..24] != SUCCESS[..] {
        return None;
    }
    Some(u32::from_be_bytes([front[24], front[25], front[26], front[27]]))
}
