//! Four messages that are hashed at once.

use crate::line::Line;
use crate::text::Text;
use sha256_lanes::{Heads, Values, hash_four};

/// Adds the digests of four heads, each with the three bytes and its value after it, where the values come out again as
/// they went in.
fn put_digests(out: &mut Text, heads: &[[u8; 20]; 4], middle: [u8; 3], values: &[[u8; 32]; 4]) {
    let lanes = Values::of(values);
    out.note(lanes.to_bytes() == *values);
    for digest in hash_four(&Heads::of(heads), middle, &lanes).to_bytes() {
        out.word(&digest);
    }
}

/// Tells the digests of four messages: the words are the heads, what stands in the middle, and the values.
pub fn hash(line: &mut Line<'_>) {
    let heads = [line.array(), line.array(), line.array(), line.array()];
    let middle = line.array();
    let values = [line.array(), line.array(), line.array(), line.array()];
    put_digests(&mut line.text, &heads, middle, &values);
}
