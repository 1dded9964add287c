//! The words of a line.

ghost use Rattle.log_model.specs.Spelling.{IsMoment};

use ivy_base::{Bytes, Key, Moment};
use std::alloc::Global;

/// A moment's nanoseconds are less.
const SECOND: u32 = 1_000_000_000;

/// The first moment.
pub const NEVER: Moment = Moment { sec: 0, nsec: 0 };

/// The words of a line, taken from the front. A word that isn't of the kind that is asked for is noted, and so means out of
/// memory, and something harmless stands for it. Whoever takes words need not look for that; whoever answers the line does.
#[derive(Clone, Copy)]
pub struct Words<'a> {
    pub alloc: Global,
    /// What wasn't taken yet.
    rest: Option<&'a str>,
    is_fine: bool,
}

impl<'a> Words<'a> {
    /// The words of that line.
    pub fn new(alloc: Global, line: &'a str) -> Words<'a> {
        Words {
            alloc,
            rest: Some(line),
            is_fine: true,
        }
    }

    /// Whether each word so far was of its kind.
    pub fn are_fine(&self) -> bool {
        self.is_fine
    }

    /// Whether all words were taken, and each was of its kind.
    pub fn were_taken(&self) -> bool {
        self.is_fine && self.rest.is_none()
    }

    /// Notes that a word isn't of its kind, or that memory ran out.
    pub fn fail(&mut self) {
        self.is_fine = false;
    }

    /// Notes the same, where something wasn't done.
    pub fn note(&mut self, done: bool) {
        if !done {
            self.is_fine = false;
        }
    }

    /// What wasn't taken yet, which is taken.
    pub fn rest(&mut self) -> &'a str {
        let rest = self.rest.unwrap_or("");
        self.rest = None;
        rest
    }

    /// The next word, or no letters where none is left.
    pub fn any_word(&mut self) -> &'a str {
        let rest = self.rest();
        match rest.split_once(' ') {
            Some((word, rest)) => {
                self.rest = Some(rest);
                word
            }
            None => rest,
        }
    }

    /// The next word, of which there is to be one.
    pub fn word(&mut self) -> &'a str {
        let is_left = self.rest.is_some();
        self.note(is_left);
        self.any_word()
    }

    /// How many words are left.
    pub fn left(&self) -> usize {
        match self.rest {
            Some(rest) => rest.split(' ').count(),
            None => 0,
        }
    }

    /// The number of a word.
    pub fn number_of(&mut self, word: &str) -> u32 {
        match word.parse() {
            Ok(number) => number,
            Err(_) => {
                self.fail();
                0
            }
        }
    }

    /// The number that the next word is.
    pub fn number(&mut self) -> u32 {
        let word = self.word();
        self.number_of(word)
    }

    /// Fills the bytes with those of a word of twice as many hexadecimal digits.
    pub fn fill(&mut self, word: &str, bytes: &mut [u8]) {
        match hex::decode_to_slice(word, bytes) {
            Ok(()) => {}
            Err(_) => self.fail(),
        }
    }

    /// The key of a word of 40 hexadecimal digits.
    pub fn key_of(&mut self, word: &str) -> Key {
        let mut key = [0; 20];
        self.fill(word, &mut key);
        Key(key)
    }

    /// The key that the next word is.
    pub fn key(&mut self) -> Key {
        let word = self.word();
        self.key_of(word)
    }

    /// The bytes that the next word is, by their hexadecimal digits.
    pub fn bytes(&mut self) -> Bytes {
        let word = self.word();
        match hex::decode(self.alloc, word) {
            Ok(bytes) => Bytes::of(bytes),
            Err(_) => {
                self.fail();
                Bytes::of(Vec::new(self.alloc))
            }
        }
    }

    /// The moment that the next two words are, by its seconds and nanoseconds.
    pub fn moment(&mut self) -> Moment
        ensures { IsMoment result }
    {
        let sec = self.number();
        let nsec = self.number();
        if nsec < SECOND {
            return Moment { sec, nsec };
        }
        self.fail();
        NEVER
    }
}
