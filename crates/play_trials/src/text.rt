//! Texts that are put together: answers, and scripts.

use itoa::Buffer;
use ivy_base::Key;
use std::alloc::Global;

/// A text that is put together piece by piece. Running out of memory is noted, and told once, where the text is read, so
/// that no piece has an error of its own.
#[derive(Drop)]
pub struct Text {
    pub alloc: Global,
    bytes: Vec<u8>,
    is_whole: bool,
}

impl Text {
    /// No text.
    pub fn new(alloc: Global) -> Text {
        Text {
            alloc,
            bytes: Vec::new(alloc),
            is_whole: true,
        }
    }

    /// What was put together; `None` where something is missing.
    pub fn whole(&self) -> Option<&[u8]> {
        if self.is_whole {
            Some(self.bytes.as_slice())
        } else {
            None
        }
    }

    /// Notes that something is missing.
    pub fn lack(&mut self) {
        self.is_whole = false;
    }

    /// Notes that something is missing, where it wasn't done.
    pub fn note(&mut self, done: bool) {
        if !done {
            self.is_whole = false;
        }
    }

    /// Adds bytes.
    pub fn bytes(&mut self, bytes: &[u8]) {
        if self.bytes.extend_from_slice(bytes).is_err() {
            self.is_whole = false;
        }
    }

    /// Adds a byte.
    pub fn byte(&mut self, byte: u8) {
        if self.bytes.push(byte).is_err() {
            self.is_whole = false;
        }
    }

    /// Adds another text.
    pub fn text(&mut self, other: &Text) {
        self.bytes(other.bytes.as_slice());
        self.note(other.is_whole);
    }

    /// Adds words.
    pub fn add(&mut self, words: &str) {
        self.bytes(words.as_bytes());
    }

    /// Adds words and a number.
    pub fn count(&mut self, words: &str, number: u64) {
        let mut digits = Buffer::new();
        self.add(words);
        self.add(digits.format(number));
    }

    /// Adds words and bytes as hexadecimal digits.
    pub fn digits(&mut self, words: &str, bytes: &[u8]) {
        self.add(words);
        match hex::encode(self.alloc, bytes) {
            Ok(digits) => self.add(digits.as_str()),
            Err(_) => self.lack(),
        }
    }

    /// Adds words and a key.
    pub fn key(&mut self, words: &str, key: &Key) {
        self.digits(words, &key.0[..]);
    }
}
