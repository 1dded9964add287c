//! A line of the standard input: its words, and the answer that is written to it.

use crate::told::Told;
use crate::words::Word;
use dht_ids::{Peer, node_id};
use ivy_base::{Key, Memory};
use std::alloc::Global;
use std::fmt::Write;

/// The place with this number.
pub fn place(number: u8) -> Key {
    let mut key = [0; 20];
    key[19] = number;
    Key(key)
}

/// The node of that number at its identifier.
pub fn peer(number: u32) -> Peer {
    Peer {
        number,
        id: node_id(number),
    }
}

/// A line, whose words are taken from the front, and its answer. A word that isn't of the kind that is asked for fails
/// the line, and so does running out of memory: it has no answer then, whatever was written. So who takes words and
/// writes need not look for that. What a line changes that fails, further lines see.
#[derive(Drop)]
pub struct Line<'a> {
    pub alloc: Global,
    /// What was written of the answer.
    pub text: String,
    rest: &'a str,
    failed: bool,
}

impl<'a> Line<'a> {
    /// A line with no answer yet.
    pub fn new(alloc: Global, rest: &'a str) -> Line<'a> {
        Line {
            alloc,
            text: String::new(alloc),
            rest,
            failed: false,
        }
    }

    /// The answer, where the line has one.
    pub fn answer(self) -> Option<String> {
        if self.failed { None } else { Some(self.text) }
    }

    /// Fails the line.
    pub fn fail(&mut self) {
        self.failed = true;
    }

    /// Fails the line where something doesn't hold.
    pub fn note(&mut self, holds: bool) {
        if !holds {
            self.failed = true;
        }
    }

    /// Fails the line where something was not done.
    pub fn done<T: Drop, E: Drop>(&mut self, done: Result<T, E>) {
        if let Err(_) = done {
            self.failed = true;
        }
    }

    /// What was written of another line's answer. The line fails where that one failed.
    pub fn follow(&mut self, other: Line<'_>) -> String {
        self.note(!other.failed);
        other.text
    }

    /// What was made; where it was not, the line fails, and this stands in its place.
    pub fn made_or<T: Drop, E: Drop>(&mut self, made: Result<T, E>, other: T) -> T {
        match made {
            Ok(made) => made,
            Err(_) => {
                self.failed = true;
                other
            }
        }
    }

    /// The next word. The line fails where none is left.
    pub fn word(&mut self) -> &'a str {
        let left = self.rest;
        self.note(!left.is_empty());
        match left.split_once(' ') {
            Some((word, rest)) => {
                self.rest = rest;
                word
            }
            None => {
                self.rest = "";
                left
            }
        }
    }

    /// Adds an item to a list.
    pub fn push<T: Drop>(&mut self, list: &mut Vec<T>, item: T) {
        if let Err(_) = list.push(item) {
            self.failed = true;
        }
    }

    /// What the next word stands for.
    pub fn read<T: Word>(&mut self) -> T {
        let word = self.word();
        T::from_word(self, word)
    }

    /// What the next word stands for that has commas between; `-` for none.
    pub fn list<T: Word>(&mut self) -> Vec<T> {
        let word = self.word();
        let mut list = Vec::new(self.alloc);
        if word != "-" {
            for word in word.split(',') {
                let item = T::from_word(self, word);
                self.push(&mut list, item);
            }
        }
        list
    }

    /// The nodes with the numbers below a count, at their identifiers.
    pub fn numbered(&mut self, count: u32) -> Vec<Peer> {
        let mut peers = Vec::new(self.alloc);
        for number in 0..count {
            self.push(&mut peers, peer(number));
        }
        peers
    }

    /// These nodes; none when out of memory.
    pub fn peers_of(&mut self, peers: &[Peer]) -> Vec<Peer> {
        self.made_or(peers.to_vec(self.alloc), Vec::new(self.alloc))
    }

    /// Writes a text.
    pub fn put(&mut self, text: &str) {
        let written = self.text.push_str(text);
        self.done(written);
    }

    /// Writes a text, and after it a number.
    pub fn put_number(&mut self, before: &str, number: u64) {
        let written = write!(self.text, "{before}{number}");
        self.done(written);
    }

    /// Writes a text, and after it the word of bytes.
    pub fn put_bytes(&mut self, before: &str, bytes: &[u8]) {
        self.put(before);
        if bytes.is_empty() {
            return self.put("-");
        }
        match hex::encode(self.alloc, bytes) {
            Ok(digits) => self.put(digits.as_str()),
            Err(_) => self.failed = true,
        }
    }

    /// Writes the word of the bytes that were found, where they were.
    pub fn put_found(&mut self, found: Option<&[u8]>) {
        match found {
            Some(bytes) => self.put_bytes("", bytes),
            None => self.put("nothing"),
        }
    }

    /// Writes a text, and after it the word of a key.
    pub fn put_key(&mut self, before: &str, key: &Key) {
        let last = key.0[19];
        if *key == place(last) {
            self.put_number(before, last as u64);
        } else {
            self.put_bytes(before, &key.0[..]);
        }
    }

    /// Writes words with commas between.
    pub fn put_list<T: Told>(&mut self, items: &[T]) {
        if items.is_empty() {
            return self.put("-");
        }
        for i in 0..items.len() {
            if i > 0 {
                self.put(",");
            }
            items[i].put(self);
        }
    }

    /// Writes a text, and after it the word of nodes.
    pub fn put_peers(&mut self, before: &str, peers: &[Peer]) {
        self.put(before);
        self.put_list(peers);
    }

    /// Writes the word of what was made, where it was.
    pub fn put_made<T: Told>(&mut self, made: &Result<T, Memory>) {
        match made {
            Ok(made) => made.put(self),
            Err(_) => self.failed = true,
        }
    }
}
