//! Streams of messages.

use crate::line::Line;
use crate::text::Text;
use rpc_wire::{FrameFault, FrameReader};

/// The most bytes of a message that is told in full.
const MOST: usize = 64;

/// Feeds a piece: whether a message is too long.
fn feed(out: &mut Text, reader: &mut FrameReader, piece: &[u8]) -> bool {
    match reader.feed(out.alloc, piece) {
        Ok(()) => false,
        Err(FrameFault::TooLong) => true,
        Err(FrameFault::Memory) => {
            out.lack();
            false
        }
    }
}

/// Feeds the piece that the next word is.
fn feed_word(line: &mut Line<'_>, reader: &mut FrameReader) -> bool {
    let piece = line.bytes();
    feed(&mut line.text, reader, &piece)
}

/// Feeds the pieces that the words are.
fn feed_words(line: &mut Line<'_>, reader: &mut FrameReader) -> bool {
    let mut is_too_long = false;
    for _n in 0..line.words_left() {
        is_too_long = feed_word(line, reader);
    }
    is_too_long
}

/// Feeds a stream byte by byte.
fn feed_bytes(out: &mut Text, reader: &mut FrameReader, stream: &[u8]) -> bool {
    let mut is_too_long = false;
    for byte in stream {
        is_too_long = feed(out, reader, &[*byte]);
    }
    is_too_long
}

/// Adds a message.
fn put_message(out: &mut Text, message: &[u8]) {
    if message.len() > MOST {
        out.count("(", message.len() as u64);
        out.add(" bytes) ");
    } else {
        out.word(message);
        out.add(" ");
    }
}

/// How a stream ends.
fn end_of(is_whole: bool, is_too_long: bool) -> &'static str {
    match (is_whole, is_too_long) {
        (true, false) => "whole",
        (false, false) => "cut",
        (false, true) => "too long",
        (true, true) => "too long and whole",
    }
}

/// Adds the messages that wait, and how the stream ends, where feeding it said whether a message is too long.
fn put_stream(out: &mut Text, reader: &mut FrameReader, is_too_long: bool) {
    for _n in 0..1000 {
        let Some(message) = reader.take() else {
            break;
        };
        put_message(out, message.as_slice());
    }
    out.add(end_of(reader.finish().is_ok(), is_too_long));
}

/// Tells a stream in these pieces.
pub fn frames(line: &mut Line<'_>) {
    let mut reader = FrameReader::new(line.text.alloc);
    let is_too_long = feed_words(line, &mut reader);
    put_stream(&mut line.text, &mut reader, is_too_long);
}

/// Tells a stream byte by byte.
fn put_bytes(out: &mut Text, stream: &[u8]) {
    let mut reader = FrameReader::new(out.alloc);
    let is_too_long = feed_bytes(out, &mut reader, stream);
    put_stream(out, &mut reader, is_too_long);
}

/// Tells a stream in two pieces.
fn put_two(out: &mut Text, first: &[u8], second: &[u8]) {
    let mut reader = FrameReader::new(out.alloc);
    feed(out, &mut reader, first);
    let is_too_long = feed(out, &mut reader, second);
    put_stream(out, &mut reader, is_too_long);
}

/// Whether this is told of the stream in two pieces.
fn is_told(told: &Text, first: &[u8], second: &[u8]) -> bool {
    let mut again = Text::new(told.alloc);
    put_two(&mut again, first, second);
    again.is_as(told)
}

/// Tells a stream, where it is the same byte by byte and in any two pieces.
pub fn pieces(out: &mut Text, stream: &[u8]) {
    put_bytes(out, stream);
    for at in 0..=stream.len() {
        if !is_told(out, &stream[..at], &stream[at..]) {
            return out.differ_unless(false);
        }
    }
}
