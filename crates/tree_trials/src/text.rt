//! Texts that are put together.

use crate::inodes::number_of;
use ivy_base::{Bytes, Key, Moment};
use std::alloc::Global;
use std::fmt::Write;

/// A text that is put together piece by piece. Running out of memory, and that there is nothing to tell, are noted in it and
/// asked for where the text is read, so that no piece has an error of its own.
#[derive(Drop)]
pub struct Text {
    /// What memory is taken from.
    pub alloc: Global,
    text: String,
    /// Whether nothing lacks.
    pub is_whole: bool,
}

impl Text {
    /// No text.
    pub fn new(alloc: Global) -> Text {
        Text {
            alloc,
            text: String::new(alloc),
            is_whole: true,
        }
    }

    /// What was put together.
    pub fn as_str(&self) -> &str {
        self.text.as_str()
    }

    /// The same as bytes, which are not copied.
    pub fn into_bytes(self) -> Bytes {
        Bytes::of(self.text.into_bytes())
    }

    /// Notes that something lacks.
    pub fn fail(&mut self) {
        self.is_whole = false;
    }

    /// Adds words.
    pub fn add(&mut self, words: &str) {
        if self.text.push_str(words).is_err() {
            self.fail();
        }
    }

    /// Adds words and a number.
    pub fn count(&mut self, words: &str, number: u64) {
        self.add(words);
        if write!(self.text, "{number}").is_err() {
            self.fail();
        }
    }

    /// Adds words and a number in octal digits.
    pub fn octal(&mut self, words: &str, number: u32) {
        self.add(words);
        if write!(self.text, "{number:o}").is_err() {
            self.fail();
        }
    }

    /// Adds words and a key in hexadecimal digits.
    pub fn key(&mut self, words: &str, key: &Key) {
        self.add(words);
        match hex::encode(self.alloc, &key.0[..]) {
            Ok(digits) => self.add(digits.as_str()),
            Err(_) => self.fail(),
        }
    }

    /// Adds words and the number of an inode, or its digits where it has none.
    pub fn inode(&mut self, words: &str, ino: &Key) {
        match number_of(ino) {
            Some(number) => self.count(words, u64::from(number)),
            None => self.key(words, ino),
        }
    }

    /// Adds words and an inode, or that there is none.
    pub fn any_inode(&mut self, words: &str, ino: &Option<Key>) {
        match ino {
            Some(ino) => self.inode(words, ino),
            None => {
                self.add(words);
                self.add("none");
            }
        }
    }

    /// Adds words and a moment.
    pub fn moment(&mut self, words: &str, moment: Moment) {
        self.count(words, u64::from(moment.sec));
        self.count(":", u64::from(moment.nsec));
    }

    /// Adds a printed letter, a zero byte as `\0`, and any other byte as `\NUMBER;`.
    fn byte(&mut self, byte: u8) {
        match byte {
            0 => self.add("\\0"),
            b' ' | b'!' | b'#'..=b'[' | b']'..=b'~' => {
                if self.text.push(char::from(byte)).is_err() {
                    self.fail();
                }
            }
            _ => {
                self.count("\\", u64::from(byte));
                self.add(";");
            }
        }
    }

    /// Adds bytes between quotes, in no two ways the same.
    pub fn quote(&mut self, bytes: &[u8]) {
        self.add("\"");
        for byte in bytes {
            self.byte(*byte);
        }
        self.add("\"");
    }
}
