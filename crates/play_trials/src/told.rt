//! What is told of a run.

use crate::text::Text;
use ivy_base::Key;
use ivy_play::Status;
use sha1::Sha1;

/// The most bytes that are told whole.
const LONGEST_TEXT: usize = 1_200;

/// How many bytes of a line are told in brief: `reply `, and the digits of a reply's head of 24 bytes and of its status.
const BRIEF: usize = 62;

/// Tells what was written.
pub fn put_written(told: &mut Text, written: &[u8]) {
    if written.len() <= LONGEST_TEXT {
        told.bytes(written);
        return;
    }
    told.count("", written.len() as u64);
    told.key(" bytes, SHA-1 ", &Key(Sha1::digest(written)));
    told.byte(b'\n');
}

/// Tells the front of each line that was written.
pub fn put_brief(told: &mut Text, written: &[u8]) {
    let mut room = BRIEF;
    for &byte in written {
        if byte == b'\n' {
            room = BRIEF;
            told.byte(byte);
        } else if room > 0 {
            room -= 1;
            told.byte(byte);
        }
    }
}

/// Tells the status that a run ended with, and doesn't end the line.
pub fn put_status(told: &mut Text, status: Status) {
    told.count("---- ", u64::from(status));
}
