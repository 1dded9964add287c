//! The forms of a script's lines.

use crate::text::Text;
use crate::words::Words;

/// Puts the line, or what its form stands for, after the script. A script with a word that its form can't have isn't whole.
pub fn put_line(script: &mut Text, line: &str) {
    let mut words = Words::new(script.alloc, line);
    match words.word() {
        "@bytes" => put_bytes(script, &mut words),
        "@long" => put_long(script, &mut words),
        "@lines" => put_lines(script, &mut words),
        _ => {
            script.add(line);
            script.byte(b'\n');
        }
    }
    script.note(words.are_fine());
}

/// Puts a line of those bytes.
fn put_bytes(script: &mut Text, words: &mut Words<'_>) {
    script.bytes(words.bytes().as_slice());
    script.byte(b'\n');
}

/// Puts a text, filled to that length.
fn put_long(script: &mut Text, words: &mut Words<'_>) {
    let length = words.number() as usize;
    let text = words.rest();
    script.add(text);
    for _ in text.len()..length {
        script.byte(b'x');
    }
    script.byte(b'\n');
}

/// Puts so many lines, each with its number.
fn put_lines(script: &mut Text, words: &mut Words<'_>) {
    let count = words.number();
    let text = words.rest();
    for number in 0..count {
        put_numbered(script, number, text);
    }
}

/// Puts the line of that number.
fn put_numbered(script: &mut Text, number: u32, text: &str) {
    let mut bits = number;
    let mut others = !number;
    for &byte in text.as_bytes() {
        match byte {
            b'#' => script.count("", u64::from(number)),
            b'?' => script.byte(next_bit(&mut bits)),
            b'!' => script.byte(next_bit(&mut others)),
            _ => script.byte(byte),
        }
    }
    script.byte(b'\n');
}

/// Takes the lowest bit of a number away, and gives its digit.
fn next_bit(bits: &mut u32) -> u8 {
    let digit = if *bits % 2 == 1 { b'1' } else { b'0' };
    *bits /= 2;
    digit
}
