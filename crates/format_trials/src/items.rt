//! Items of XDR.

use crate::line::Line;
use crate::text::Text;
use std::fmt::Display;
use xdr_codec::{XdrFault, XdrRead, XdrWrite};

fn name_of(fault: XdrFault) -> &'static str {
    match fault {
        XdrFault::Short => "short",
        XdrFault::TooLong => "long",
        XdrFault::Padding => "padding",
        XdrFault::NotBool => "bool",
        XdrFault::Trailing => "trailing",
    }
}

/// Adds a value that was read, or the fault.
fn put<T: Display + Drop>(out: &mut Text, read: Result<T, XdrFault>) {
    match read {
        Ok(value) => out.show("", &value),
        Err(fault) => out.add(name_of(fault)),
    }
}

/// Adds bytes that were read, or the fault.
fn put_bytes(out: &mut Text, read: Result<&[u8], XdrFault>) {
    match read {
        Ok(bytes) => out.word(bytes),
        Err(fault) => out.add(name_of(fault)),
    }
}

/// Reads a boolean.
fn read_boolean(out: &mut Text, reader: &mut XdrRead<'_>) {
    match reader.boolean() {
        Ok(value) => out.add(if value { "1" } else { "0" }),
        Err(fault) => out.add(name_of(fault)),
    }
}

/// Reads the end.
fn read_end(out: &mut Text, reader: &XdrRead<'_>) {
    match reader.finish() {
        Ok(()) => out.add("-"),
        Err(fault) => out.add(name_of(fault)),
    }
}

/// Reads an item: `word`, `double`, `boolean`, `rest`, `end`, `fixed:N` or `opaque:MOST`.
fn read_item(line: &mut Line<'_>, reader: &mut XdrRead<'_>, item: &str) {
    let (kind, count) = item.split_once(':').unwrap_or((item, "0"));
    let count = line.number_of(count);
    let out = &mut line.text;
    match kind {
        "word" => put(out, reader.u32()),
        "double" => put(out, reader.u64()),
        "boolean" => read_boolean(out, reader),
        "fixed" => put_bytes(out, reader.fixed(count as usize)),
        "opaque" => put_bytes(out, reader.opaque(count)),
        "rest" => out.word(reader.rest()),
        "end" => read_end(out, reader),
        _ => out.lack(),
    }
}

/// Tells what reading the items one after the other gives.
pub fn read(line: &mut Line<'_>, bytes: &[u8]) {
    let mut reader = XdrRead::new(bytes);
    for item in line.word().split(',') {
        line.text.part();
        read_item(line, &mut reader, item);
    }
}

/// Writes the item that the next word is: `word:N`, `double:N`, `boolean:N`, `fixed:BYTES` or `opaque:BYTES`.
fn write_item(line: &mut Line<'_>, written: &mut XdrWrite) {
    let item = line.word();
    let (kind, value) = item.split_once(':').unwrap_or((item, ""));
    match kind {
        "fixed" => write_bytes(line, written, value, false),
        "opaque" => write_bytes(line, written, value, true),
        _ => write_number(line, written, kind, value),
    }
}

/// Writes `word:N`, `double:N` or `boolean:N`.
fn write_number(line: &mut Line<'_>, written: &mut XdrWrite, kind: &str, value: &str) {
    if written.reserve(8).is_err() {
        return line.fail();
    }
    match kind {
        "word" => written.put_u32(line.number_of(value)),
        "double" => written.put_u64(line.long_number_of(value)),
        "boolean" => written.put_bool(line.number_of(value) == 1),
        _ => line.fail(),
    }
}

/// Writes the bytes of a word.
fn write_bytes(line: &mut Line<'_>, written: &mut XdrWrite, word: &str, is_counted: bool) {
    let bytes = line.bytes_of(word);
    put_item(&mut line.text, written, &bytes, is_counted);
}

/// Writes bytes, at most 1,000, after their count or without it.
fn put_item(out: &mut Text, written: &mut XdrWrite, bytes: &[u8], is_counted: bool) {
    if bytes.len() > 1000 || written.reserve(1004).is_err() {
        out.lack();
    } else if is_counted {
        written.put_opaque(bytes);
    } else {
        written.put_fixed(bytes);
    }
}

/// Tells the bytes of the items one after the other.
pub fn write(line: &mut Line<'_>) {
    let mut written = XdrWrite::new(line.text.alloc);
    for _n in 0..line.words_left() {
        write_item(line, &mut written);
    }
    line.text.word(written.into_bytes().as_slice());
}
