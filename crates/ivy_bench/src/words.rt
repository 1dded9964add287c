//! The words of a line.

/// The words of a line, taken from the front.
#[derive(Clone, Copy)]
pub struct Words<'a> {
    rest: &'a str,
}

impl<'a> Words<'a> {
    /// The words of that line.
    pub fn of(line: &'a str) -> Words<'a> {
        Words { rest: line }
    }

    /// The next word; no letters where none is left.
    pub fn word(&mut self) -> &'a str {
        let (word, rest) = self.rest.split_once(' ').unwrap_or((self.rest, ""));
        self.rest = rest;
        word
    }

    /// The number that the next word is; 0 where it is none.
    pub fn number(&mut self) -> u32 {
        self.word().parse().unwrap_or(0)
    }
}
