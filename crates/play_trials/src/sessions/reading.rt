//! What the words of a line are to a session.

use crate::words::Words;
use dht_ids::{Peer, Peers, node_id};
use ivy_base::{Key, Memory, PubKey};
use lms_core::{Height, Set, Width};
use version_vectors::{Entry, Vector};
use view_blocks::View;

/// Adds the node of that number.
fn add_peer(words: &mut Words<'_>, peers: &mut Vec<Peer>, number: u32) {
    let peer = Peer {
        number,
        id: node_id(number),
    };
    words.note(peers.push(peer).is_ok());
}

/// The first nodes, so many.
pub fn first_peers(words: &mut Words<'_>, count: u32) -> Peers {
    let mut peers = Vec::new(words.alloc);
    for number in 0..count {
        add_peer(words, &mut peers, number);
    }
    Peers::of(peers)
}

/// The nodes whose numbers the words left are.
pub fn peers_of(words: &mut Words<'_>) -> Peers {
    let mut peers = Vec::new(words.alloc);
    for _ in 0..words.left() {
        let number = words.number();
        add_peer(words, &mut peers, number);
    }
    Peers::of(peers)
}

/// The keys that the words left are.
pub fn keys_of(words: &mut Words<'_>) -> Vec<Key> {
    let mut keys = Vec::new(words.alloc);
    for _ in 0..words.left() {
        let key = words.key();
        words.note(keys.push(key).is_ok());
    }
    keys
}

/// The parameters that the next word names.
pub fn set_of(words: &mut Words<'_>) -> Set {
    let w = match words.word() {
        "w4h5" => Width::W4,
        "w8h5" => Width::W8,
        _ => {
            words.fail();
            Width::W4
        }
    };
    Set { w, h: Height::H5 }
}

/// The public key that repeats the byte of a word of two hexadecimal digits.
fn owner_in(words: &mut Words<'_>, word: &str) -> PubKey {
    let mut byte = [0; 1];
    words.fill(word, &mut byte);
    PubKey([byte[0]; 60])
}

/// The public key that repeats the byte of the next word.
pub fn owner_of(words: &mut Words<'_>) -> PubKey {
    let word = words.word();
    owner_in(words, word)
}

/// The public keys of a text's words.
fn owners_in(words: &mut Words<'_>, text: &str) -> Vec<PubKey> {
    let mut owners = Vec::new(words.alloc);
    for word in text.split_whitespace() {
        let owner = owner_in(words, word);
        words.note(owners.push(owner).is_ok());
    }
    owners
}

/// The view that the words left are. None means out of memory, or that there is no such view.
pub fn view_of(words: &mut Words<'_>) -> Option<View> {
    let logs = words.rest();
    let (members, former) = logs.split_once(" former ").unwrap_or((logs, ""));
    let members = owners_in(words, members);
    let former = owners_in(words, former);
    View::make(words.alloc, &members, &former).ok()
}

/// The entry that the next words are: a log's head key, a number and a name.
fn entry_of(words: &mut Words<'_>) -> Entry {
    Entry {
        log: words.key(),
        seq: words.number(),
        name: words.key(),
    }
}

/// Takes an entry of the words into the vector, where its number is one of a record.
fn take_entry(words: &mut Words<'_>, vector: &mut Vector) {
    let entry = entry_of(words);
    if entry.seq == 0 {
        words.fail();
        return;
    }
    match vector.with(words.alloc, entry) {
        Ok(with) => *vector = with,
        Err(Memory) => words.fail(),
    }
}

/// The vector of the words left, three for each entry.
pub fn vector_of(words: &mut Words<'_>) -> Vector {
    let mut vector = Vector::empty(words.alloc);
    for _ in 0..words.left() / 3 {
        take_entry(words, &mut vector);
    }
    vector
}
