//! Questions about formats, and how each is answered.

use crate::calls::{call, front};
use crate::chains::chain;
use crate::frames::{frames, pieces};
use crate::items::{read, write};
use crate::line::Line;
use crate::names::{entry, key, name, number};
use crate::order::{order, random};
use crate::records::{head, record};
use crate::results::{args, reply};
use crate::text::Text;
use crate::vectors::{dominates, get, join, vector, vector_of, with, without};
use crate::views::{log, make, view};
use version_vectors::Vector;

/// Tells the answer to a question.
pub fn answer(line: &mut Line<'_>) {
    let kind = line.word();
    match kind {
        "front" => front(line),
        "write" => write(line),
        "chain" => chain(line),
        "order" => order(line),
        "random" => random(line),
        "frames" => frames(line),
        "cuts" => cuts(line),
        _ => answer_whole(line, kind),
    }
}

/// Tells the answer to a question of that kind whose last word is its bytes.
fn answer_whole(line: &mut Line<'_>, kind: &str) {
    let bytes = line.last_bytes();
    answer_of(line, kind, &bytes);
}

/// Tells the answer to a question about these bytes.
fn answer_about(line: &mut Line<'_>, bytes: &[u8]) {
    let kind = line.word();
    answer_of(line, kind, bytes);
}

/// Tells the answer to the question with its bytes, its last word, cut at each length, where it is the same at all.
fn cuts(line: &mut Line<'_>) {
    let bytes = line.last_bytes();
    let ask = line.rest;
    answer_about(line, &[]);
    put_cuts(&mut line.text, ask, &bytes);
}

/// Tells where the answer to the question with its bytes cut isn't what was reported.
fn put_cuts(told: &mut Text, ask: &str, bytes: &[u8]) {
    for len in 1..bytes.len() {
        if !is_told(told, ask, &bytes[..len]) {
            return told.differ_at(len);
        }
    }
}

/// Whether this is told to the question about the bytes.
fn is_told(told: &Text, ask: &str, bytes: &[u8]) -> bool {
    let mut again = Line::new(told.alloc, ask);
    answer_about(&mut again, bytes);
    again.text.is_as(told)
}

/// Tells the answer to a question about bytes.
fn answer_of(line: &mut Line<'_>, kind: &str, bytes: &[u8]) {
    match kind {
        "record" => record(line, bytes),
        "head" => head(line, bytes),
        "args" => args(line, bytes, false),
        "reply" => reply(line, bytes, false),
        "fields" => fields(line, bytes),
        "read" => read(line, bytes),
        "make" => make(line, bytes),
        "log" => log(line, bytes),
        "number" => number(line, bytes),
        "vector" => vector(line, bytes),
        _ => answer_bytes(line, kind, bytes),
    }
}

/// Tells the values that are read of bytes for a procedure.
fn fields(line: &mut Line<'_>, bytes: &[u8]) {
    match line.word() {
        "args" => args(line, bytes, true),
        "reply" => reply(line, bytes, true),
        _ => line.fail(),
    }
}

/// Tells the answer to a question about bytes alone, or about a vector.
fn answer_bytes(line: &mut Line<'_>, kind: &str, bytes: &[u8]) {
    let out = &mut line.text;
    match kind {
        "view" => view(out, bytes),
        "call" => call(out, bytes),
        "pieces" => pieces(out, bytes),
        "name" => name(out, bytes),
        "key" => key(out, bytes),
        "entry" => entry(out, bytes),
        _ => answer_read(line, kind, bytes),
    }
}

/// Tells the answer to a question about the vector that the bytes are.
fn answer_read(line: &mut Line<'_>, kind: &str, bytes: &[u8]) {
    let vector = vector_of(&mut line.text, bytes);
    answer_vector(line, kind, &vector);
}

/// Tells the answer to a question about a vector.
fn answer_vector(line: &mut Line<'_>, kind: &str, vector: &Vector) {
    match kind {
        "join" => join(line, vector),
        "dominates" => dominates(line, vector),
        "with" => with(line, vector),
        "without" => without(line, vector),
        "get" => get(line, vector),
        _ => line.fail(),
    }
}
