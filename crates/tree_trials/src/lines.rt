//! Lines, which are read word by word, and what is answered to them.

ghost use Rattle.std.specs.Prelude.{◌≤◌, length};
ghost use Rattle.tree_model.specs.Tree.{longest_file};

use crate::inodes::{HIGHEST, key, made_by};
use crate::text::Text;
use block_parts::LONGEST_FILE;
use fs_tree::ROOT;
use ivy_base::{Bytes, Key, Kind, Moment};
use std::alloc::Global;

/// A line, whose words are taken from the front, and its answer. A word that lacks or isn't what was asked for is noted as a
/// failure, and so is whatever else can't be answered; then something harmless is given in its place. So nothing that is read has
/// an error of its own.
pub struct Line<'a> {
    /// What memory is taken from.
    pub alloc: Global,
    line: &'a str,
    /// What wasn't read yet.
    pub rest: &'a str,
    /// Whether the line is written in front of its answer.
    pub is_repeated: bool,
    /// Whether numbers stand for the inodes that the records of one log make.
    pub is_of_log: bool,
    /// The number of the inode that was read last.
    pub last_inode: u32,
    /// What is answered.
    pub answer: Text,
}

// Written out, so that what drops a line calls it and isn't made over all its parts.
impl Drop for Line<'_> {
    fn drop(self) {
        let Line {
            alloc: _,
            line: _,
            rest: _,
            is_repeated: _,
            is_of_log: _,
            last_inode: _,
            answer: _,
        } = self;
    }
}

impl<'a> Line<'a> {
    /// The line, of which nothing was read.
    pub fn of(alloc: Global, line: &'a str) -> Line<'a> {
        Line {
            alloc,
            line,
            rest: line,
            is_repeated: false,
            is_of_log: false,
            last_inode: 0,
            answer: Text::new(alloc),
        }
    }

    /// Notes that there is no answer, be it that memory ran out.
    pub fn fail(&mut self) {
        self.answer.fail();
    }

    /// Whether all was read, and nothing failed.
    pub fn is_good(&self) -> bool {
        self.rest.is_empty() && self.answer.is_whole
    }

    /// What is written in front of the answer.
    pub fn front(&self) -> &str {
        if self.is_repeated { self.line } else { "" }
    }

    /// What is written for an answer.
    pub fn told(&self) -> &str {
        if self.is_good() {
            self.answer.as_str()
        } else if self.is_repeated {
            ": no answer"
        } else {
            "no answer"
        }
    }

    /// Whether the line only says what comes; then nothing of it is left.
    pub fn is_comment(&mut self) -> bool {
        let is_comment = self.rest.is_empty() || self.rest.starts_with('#');
        if is_comment {
            self.rest = "";
        }
        is_comment
    }

    /// Lets the line be read again.
    pub fn begin(&mut self) {
        self.rest = self.line;
    }

    /// Takes these letters, where they are the next ones.
    pub fn takes(&mut self, front: &str) -> bool {
        match self.rest.strip_prefix(front) {
            Some(rest) => {
                self.rest = rest;
                true
            }
            None => false,
        }
    }

    /// The text up to that letter, or all that is left.
    fn until(&mut self, end: char) -> &'a str {
        let (text, rest) = self.rest.split_once(end).unwrap_or((self.rest, ""));
        self.rest = rest;
        text
    }

    /// The next word; no letters where there is none.
    pub fn word(&mut self) -> &'a str {
        self.until(' ')
    }

    /// The number that the next word is.
    pub fn number(&mut self) -> u64 {
        match self.word().parse() {
            Ok(number) => number,
            Err(_) => {
                self.fail();
                0
            }
        }
    }

    /// The number below 2^32 that the text up to that letter is, in digits of that radix.
    pub fn digits_until(&mut self, end: char, radix: u32) -> u32
        requires low { 2 ≤ radix }
        requires high { radix ≤ 36 }
    {
        match u32::from_str_radix(self.until(end), radix) {
            Ok(number) => number,
            Err(_) => {
                self.fail();
                0
            }
        }
    }

    /// The number below 2^32 that the next word is.
    pub fn small_number(&mut self) -> u32 {
        self.digits_until(' ', 10)
    }

    /// The size of a file that the next word is.
    pub fn size(&mut self) -> u64
        ensures { result ≤ longest_file }
    {
        let size = self.number();
        if size > LONGEST_FILE {
            self.fail();
            return 0;
        }
        size
    }

    /// The moment that the next word is.
    pub fn moment(&mut self) -> Moment {
        Moment {
            sec: self.digits_until(':', 10),
            nsec: self.small_number(),
        }
    }

    /// The kind that the next word names.
    pub fn kind(&mut self) -> Kind {
        match self.word() {
            "reg" => Kind::Reg,
            "dir" => Kind::Dir,
            "lnk" => Kind::Lnk,
            _ => {
                self.fail();
                Kind::Reg
            }
        }
    }

    /// The inode whose number the next word is.
    pub fn inode(&mut self) -> Key {
        let number = self.small_number();
        self.last_inode = number;
        if self.is_of_log {
            return made_by(number);
        }
        if number > HIGHEST {
            self.fail();
            return ROOT;
        }
        key(number)
    }

    /// A copy of the bytes.
    pub fn copy_of(&mut self, bytes: &[u8]) -> Bytes
        ensures { length result ≤ length bytes.now }
    {
        match Bytes::copy_of(self.alloc, bytes) {
            Ok(bytes) => bytes,
            Err(_) => {
                self.fail();
                Bytes::of(Vec::new(self.alloc))
            }
        }
    }

    /// The bytes of the next word.
    pub fn name(&mut self) -> Bytes {
        let word = self.word();
        if word.is_empty() {
            self.fail();
        }
        self.copy_of(word.as_bytes())
    }

    /// The bytes of all that is left, where they are so many at most.
    pub fn bytes(&mut self, most: u64) -> Bytes
        ensures { length result ≤ most }
    {
        let bytes = self.rest.as_bytes();
        self.rest = "";
        if bytes.len() as u64 > most {
            self.fail();
            return Bytes::of(Vec::new(self.alloc));
        }
        self.copy_of(bytes)
    }

    /// The words and the number as bytes.
    pub fn counted(&mut self, words: &str, number: u32) -> Bytes {
        let mut text = Text::new(self.alloc);
        text.count(words, u64::from(number));
        if !text.is_whole {
            self.fail();
        }
        text.into_bytes()
    }

    /// Whether both texts are the same; where one isn't whole, that is noted.
    pub fn are_same(&mut self, text: &Text, other: &Text) -> bool {
        if !text.is_whole || !other.is_whole {
            self.fail();
        }
        text.as_str() == other.as_str()
    }
}
