//! A line of the standard input: its words, and the text of its answer.

use crate::text::Text;
use ivy_base::{Key, PubKey};
use std::alloc::Global;

/// A line, whose words are taken from the front, or the last one first. A word that isn't of the kind that is asked for
/// fails the line, and so does running out of memory: it has no answer then, whatever was reported. So who takes words
/// need not look for that, and goes on with a word that is harmless.
pub struct Line<'a> {
    /// What was reported.
    pub text: Text,
    /// The words that were not taken.
    pub rest: &'a str,
}

impl<'a> Drop for Line<'a> {
    fn drop(self) {
        let Line { text: _, rest: _ } = self;
    }
}

impl<'a> Line<'a> {
    /// A line of which nothing was taken, and to which nothing was told.
    pub fn new(alloc: Global, rest: &'a str) -> Line<'a> {
        Line {
            text: Text::new(alloc),
            rest,
        }
    }

    /// Fails the line.
    pub fn fail(&mut self) {
        self.text.lack();
    }

    /// Fails the line where words are left.
    pub fn end(&mut self) {
        self.text.note(self.rest.is_empty());
    }

    /// The next word. The line fails where none is left.
    pub fn word(&mut self) -> &'a str {
        self.text.note(!self.rest.is_empty());
        let (word, rest) = self.rest.split_once(' ').unwrap_or((self.rest, ""));
        self.rest = rest;
        word
    }

    /// The last word. The line fails where none is left.
    fn last_word(&mut self) -> &'a str {
        self.text.note(!self.rest.is_empty());
        let (rest, word) = self.rest.rsplit_once(' ').unwrap_or(("", self.rest));
        self.rest = rest;
        word
    }

    /// How many words are left.
    pub fn words_left(&self) -> usize {
        self.rest.split_ascii_whitespace().count()
    }

    /// The number of a word.
    pub fn number_of(&mut self, word: &str) -> u32 {
        let number = word.parse();
        self.text.note(number.is_ok());
        number.unwrap_or(0)
    }

    /// The number that the next word is.
    pub fn number(&mut self) -> u32 {
        let word = self.word();
        self.number_of(word)
    }

    /// The number of a word, of up to 64 bits.
    pub fn long_number_of(&mut self, word: &str) -> u64 {
        let number = word.parse();
        self.text.note(number.is_ok());
        number.unwrap_or(0)
    }

    /// Appends the bytes so many times.
    fn put_times(&mut self, bytes: &mut Vec<u8>, piece: &[u8], count: u32) {
        for _n in 0..count {
            let put = bytes.extend_from_slice(piece);
            self.text.note(put.is_ok());
        }
    }

    /// Appends a part: bytes, or bytes so many times.
    fn put_part(&mut self, bytes: &mut Vec<u8>, part: &str) {
        let (digits, times) = part.split_once('*').unwrap_or((part, "1"));
        let count = self.number_of(times);
        match hex::decode(self.text.alloc, digits) {
            Ok(piece) => self.put_times(bytes, &piece, count),
            Err(_) => self.fail(),
        }
    }

    /// The bytes of a word.
    pub fn bytes_of(&mut self, word: &str) -> Vec<u8> {
        let mut bytes = Vec::new(self.text.alloc);
        if word != "-" {
            for part in word.split('.') {
                self.put_part(&mut bytes, part);
            }
        }
        bytes
    }

    /// The bytes that the next word is.
    pub fn bytes(&mut self) -> Vec<u8> {
        let word = self.word();
        self.bytes_of(word)
    }

    /// The bytes that the last word is.
    pub fn last_bytes(&mut self) -> Vec<u8> {
        let word = self.last_word();
        self.bytes_of(word)
    }

    /// The bytes that the next word is, where they are so many.
    pub fn array<const N: usize>(&mut self) -> [u8; N] {
        let bytes = self.bytes();
        self.text.array(&bytes)
    }

    /// The key that the next word is.
    pub fn key(&mut self) -> Key {
        Key(self.array())
    }

    /// The public key that the next word is.
    pub fn owner(&mut self) -> PubKey {
        PubKey(self.array())
    }
}
