//! Copies of the small lists and of answers, and signatures: a line's words as the copies have them.

use crate::line::Line;
use crate::words::{Word, near};
use dht_ids::{Acks, Answer, Heads, Peers, Posts, Signature, StoreFault};
use ivy_base::Bytes;

/// Writes the bytes of a signature, as it has them and as it gives them.
fn put_signature(line: &mut Line<'_>) {
    let bytes: Bytes = line.read();
    let signature = Signature::of(bytes);
    line.put_bytes("", signature.as_slice());
    line.put_bytes(" ", signature.into_bytes().as_slice());
}

/// An answer of the form that the first word names, or the answer that it is.
fn answer_of(line: &mut Line<'_>) -> Answer {
    match line.word() {
        "nearer" => {
            let nearer = Peers::of(line.list());
            let owners = Peers::of(line.list());
            Answer::Route { nearer, owners }
        }
        "before" => near(line),
        "found" => {
            let bytes: Bytes = line.read();
            Answer::Found(bytes)
        }
        "older" => {
            let number: u32 = line.read();
            Answer::Refused(StoreFault::Older(number))
        }
        word => Answer::from_word(line, word),
    }
}

/// Writes the answer to a line.
pub fn answer(line: &mut Line<'_>) {
    match line.word() {
        "peers" => {
            let copy = Peers::of(line.list()).copy(line.alloc);
            line.put_made(&copy);
        }
        "acks" => {
            let copy = Acks::of(line.list()).copy(line.alloc);
            line.put_made(&copy);
        }
        "heads" => {
            let copy = Heads::of(line.list()).copy(line.alloc);
            line.put_made(&copy);
        }
        "posts" => {
            let copy = Posts::of(line.list()).copy(line.alloc);
            line.put_made(&copy);
        }
        "signature" => put_signature(line),
        "answer" => {
            let copy = answer_of(line).copy(line.alloc);
            line.put_made(&copy);
        }
        _ => line.fail(),
    }
}
