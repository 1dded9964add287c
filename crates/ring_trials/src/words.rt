//! What words stand for.

ghost use Rattle.chord_core.specs.State.{IsOfNear};

use crate::line::{Line, place};
use dht_ids::{Ack, Answer, Judged, Peer, Peers, Post, PostKind};
use hex::FromHex;
use ivy_base::{Bytes, Key};

/// What a word may stand for.
pub trait Word: Drop {
    /// What the word stands for. The line fails where it is none such.
    fn from_word(line: &mut Line<'_>, word: &str) -> Self;
}

impl Word for u32 {
    fn from_word(line: &mut Line<'_>, word: &str) -> u32 {
        line.made_or(word.parse(), 0)
    }
}

impl Word for u8 {
    fn from_word(line: &mut Line<'_>, word: &str) -> u8 {
        line.made_or(word.parse(), 0)
    }
}

/// The number of one of the first 256 places, or 40 hexadecimal digits.
impl Word for Key {
    fn from_word(line: &mut Line<'_>, word: &str) -> Key {
        match word.parse() {
            Ok(number) => place(number),
            Err(_) => Key(line.made_or(<[u8; 20] as FromHex>::from_hex(word), [0; 20])),
        }
    }
}

/// The number of a node, which is at the place of that number.
impl Word for Peer {
    fn from_word(line: &mut Line<'_>, word: &str) -> Peer {
        let number = u8::from_word(line, word);
        Peer {
            number: number as u32,
            id: place(number),
        }
    }
}

/// Hexadecimal digits, `-` for none.
impl Word for Bytes {
    fn from_word(line: &mut Line<'_>, word: &str) -> Bytes {
        let digits = if word == "-" { "" } else { word };
        let none = Vec::new(line.alloc);
        Bytes::of(line.made_or(hex::decode(line.alloc, digits), none))
    }
}

/// The two parts of a word, which stand before and after a colon.
pub fn parts<'a>(line: &mut Line<'_>, word: &'a str) -> (&'a str, &'a str) {
    match word.split_once(':') {
        Some(parts) => parts,
        None => {
            line.fail();
            ("", "")
        }
    }
}

/// A key and a name.
impl Word for Ack {
    fn from_word(line: &mut Line<'_>, word: &str) -> Ack {
        let (key, name) = parts(line, word);
        Ack {
            key: Key::from_word(line, key),
            name: Key::from_word(line, name),
        }
    }
}

/// A number and a name.
impl Word for Judged {
    fn from_word(line: &mut Line<'_>, word: &str) -> Judged {
        let (seq, name) = parts(line, word);
        Judged {
            seq: u32::from_word(line, seq),
            name: Key::from_word(line, name),
        }
    }
}

/// A key, a kind and bytes.
impl Word for Post {
    fn from_word(line: &mut Line<'_>, word: &str) -> Post {
        let (key, rest) = parts(line, word);
        let (kind, bytes) = parts(line, rest);
        let kind = match kind {
            "Block" => PostKind::Block,
            "Log" => PostKind::Log,
            "Head" => PostKind::Head,
            _ => {
                line.fail();
                PostKind::Block
            }
        };
        Post {
            key: Key::from_word(line, key),
            kind,
            bytes: Bytes::from_word(line, bytes),
        }
    }
}

/// The answer to Near of two words: the predecessor, where there is one, and the list.
pub fn near(line: &mut Line<'_>) -> Answer
    ensures { IsOfNear result }
{
    let before: Vec<Peer> = line.list();
    let list = Peers::of(line.list());
    Answer::Near {
        before: before.as_slice().first().copied(),
        list,
    }
}
