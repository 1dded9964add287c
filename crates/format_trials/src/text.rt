//! The text of an answer.

use ivy_base::{Bytes, Memory};
use std::alloc::Global;
use std::fmt::{Debug, Display, Write};
use version_vectors::Vector;

/// A text that is put together piece by piece. That there is no answer is told once, where the text is read, so that no
/// piece has an error of its own.
pub struct Text {
    /// Where memory is from.
    pub alloc: Global,
    text: String,
    is_whole: bool,
}

impl Drop for Text {
    fn drop(self) {
        let Text {
            alloc: _,
            text: _,
            is_whole: _,
        } = self;
    }
}

impl Text {
    /// No text.
    pub fn new(alloc: Global) -> Text {
        Text {
            alloc,
            text: String::new(alloc),
            is_whole: true,
        }
    }

    /// What was put together, or that there is no answer.
    pub fn told(&self) -> &str {
        if self.is_whole {
            self.text.as_str()
        } else {
            "no answer"
        }
    }

    /// Whether both are answers, and the same.
    pub fn is_as(&self, other: &Text) -> bool {
        self.is_whole && other.is_whole && self.text.as_str() == other.text.as_str()
    }

    /// Notes that there is no answer.
    pub fn lack(&mut self) {
        self.is_whole = false;
    }

    /// Notes that there is no answer where something was not done.
    pub fn note(&mut self, done: bool) {
        if !done {
            self.lack();
        }
    }

    /// Appends to a vector.
    pub fn push<T: Drop>(&mut self, items: &mut Vec<T>, item: T) {
        let pushed = items.push(item);
        self.note(pushed.is_ok());
    }

    /// The bytes, where they are so many.
    pub fn array<const N: usize>(&mut self, bytes: &[u8]) -> [u8; N] {
        let mut array = [0; N];
        if bytes.len() == N {
            array.copy_from_slice(bytes);
        } else {
            self.lack();
        }
        array
    }

    /// The vector that was made, or an empty one when out of memory.
    pub fn vector(&mut self, made: Result<Vector, Memory>) -> Vector {
        match made {
            Ok(vector) => vector,
            Err(_) => {
                self.lack();
                Vector::empty(self.alloc)
            }
        }
    }

    /// Adds words.
    pub fn add(&mut self, words: &str) {
        let added = self.text.push_str(words);
        self.note(added.is_ok());
    }

    /// Adds a blank after what was put together, where it is something.
    pub fn part(&mut self) {
        if !self.text.is_empty() {
            self.add(" ");
        }
    }

    /// Adds words and a value.
    pub fn show<T: Display>(&mut self, words: &str, value: &T) {
        self.add(words);
        let added = write!(self.text, "{value}");
        self.note(added.is_ok());
    }

    /// Adds words and a number.
    pub fn count(&mut self, words: &str, number: u64) {
        self.show(words, &number);
    }

    /// Adds a number.
    pub fn number(&mut self, number: u64) {
        self.count("", number);
    }

    /// Adds a blank and a number.
    pub fn next_number(&mut self, number: u64) {
        self.count(" ", number);
    }

    /// Adds words and a value in its form for programmers.
    pub fn debug<T: Debug>(&mut self, words: &str, value: &T) {
        self.add(words);
        let added = write!(self.text, "{value:?}");
        self.note(added.is_ok());
    }

    /// Adds the digits of a byte.
    fn byte(&mut self, byte: u8) {
        let added = write!(self.text, "{byte:02x}");
        self.note(added.is_ok());
    }

    /// Adds words and bytes as a word.
    pub fn bytes(&mut self, words: &str, bytes: &[u8]) {
        self.add(words);
        if bytes.is_empty() {
            self.add("-");
        }
        for byte in bytes {
            self.byte(*byte);
        }
    }

    /// Adds bytes as a word.
    pub fn word(&mut self, bytes: &[u8]) {
        self.bytes("", bytes);
    }

    /// Adds a blank and bytes as a word.
    pub fn next_word(&mut self, bytes: &[u8]) {
        self.bytes(" ", bytes);
    }

    /// Adds words and what was written.
    pub fn written(&mut self, words: &str, written: Result<Bytes, Memory>) {
        match written {
            Ok(written) => self.bytes(words, written.as_slice()),
            Err(_) => self.lack(),
        }
    }

    /// Tells `differs` in place of what was put together, unless it is the same.
    pub fn differ_unless(&mut self, is_same: bool) {
        if !is_same {
            self.text.clear();
            self.add("differs");
        }
    }

    /// Tells `differs` in place of what was put together, unless what was written are these bytes.
    pub fn compare(&mut self, written: Result<Bytes, Memory>, bytes: &[u8]) {
        match written {
            Ok(written) => self.differ_unless(written.as_slice() == bytes),
            Err(_) => self.lack(),
        }
    }

    /// Tells that the answer is another one where it was cut to that length.
    pub fn differ_at(&mut self, len: usize) {
        self.text.clear();
        self.count("differs at ", len as u64);
    }
}
