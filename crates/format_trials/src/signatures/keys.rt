//! Keys of one to three levels that sign, and are saved and loaded.

use super::heads::{put_fault, put_sealed};
use super::sets::sets;
use crate::held::Held;
use crate::line::Line;
use crate::text::Text;
use dht_ids::LoadFault;
use hss_keys::{Hss, Signs};
use ivy_base::{Memory, PubKey};
use lms_core::Set;
use std::alloc::Global;

/// What the signatures are of that only bring a key further.
const ANY: &[u8; 3] = b"any";

/// Notes that there is no answer unless the key makes a signature that is accepted.
fn make_one(out: &mut Text, key: &mut Hss, owner: &PubKey) {
    match key.sign(out.alloc, ANY) {
        Ok(signature) => out.note(Hss::verify(owner, ANY, signature.as_slice()).is_ok()),
        Err(_) => out.lack(),
    }
}

/// Makes as many signatures as the next word says, each of which is accepted.
fn make(line: &mut Line<'_>, key: &mut Hss) {
    let owner = key.owner();
    for _n in 0..line.number() {
        make_one(&mut line.text, key, &owner);
    }
}

/// The key of an identifier, a seed and one to three sets.
fn grow(alloc: Global, id: &[u8; 16], seed: &[u8; 32], sets: &[Set]) -> Result<Hss, Memory> {
    if sets.is_empty() || sets.len() > 3 {
        return Err(Memory);
    }
    Hss::grow(alloc, id, seed, sets)
}

/// Tells the answer to a question about the key that four words say: its sets, its identifier, its seed, and how many
/// signatures it made.
pub fn grown(line: &mut Line<'_>, question: &str) {
    let sets = sets(line);
    let id = line.array();
    let seed = line.array();
    match grow(line.text.alloc, &id, &seed, &sets) {
        Ok(key) => answer(line, question, &mut Held { value: key }.value),
        Err(_) => line.fail(),
    }
}

/// Tells the answer to a question about the key, which makes as many signatures first as the next word says.
fn answer(line: &mut Line<'_>, question: &str, key: &mut Hss) {
    make(line, key);
    match question {
        "sign" => sign(line, key),
        "save" => put_saved_bytes(&mut line.text, key),
        _ => seal(line, key),
    }
}

/// Adds the saved bytes of the key.
fn put_saved_bytes(out: &mut Text, key: &Hss) {
    out.written("", key.save(out.alloc));
}

/// Tells the head of the number and the name that the next two words are, once it is sealed.
fn seal(line: &mut Line<'_>, key: &mut Hss) {
    let seq = line.number();
    let name = line.key();
    put_sealed(&mut line.text, key, seq, name);
}

/// Tells the signature of the message that the next word is.
fn sign(line: &mut Line<'_>, key: &mut Hss) {
    let message = line.bytes();
    put_alike(&mut line.text, key, &message);
}

/// Tells the next signature of the key that the next word saves, once it has made as many more as the word after says.
pub fn resume(line: &mut Line<'_>) {
    let saved = line.bytes();
    match Hss::load(line.text.alloc, &saved) {
        Ok(key) => answer(line, "sign", &mut Held { value: key }.value),
        Err(_) => line.fail(),
    }
}

/// Adds the public key, how many signatures are left after the next one, and that signature.
fn put_signed<S: Signs>(out: &mut Text, key: &mut S, message: &[u8]) {
    out.word(&key.owner().0);
    out.add(" ");
    match key.sign(out.alloc, message) {
        Ok(signature) => put_signature(out, key.left(), signature.as_slice()),
        Err(fault) => put_fault(out, key.left(), fault),
    }
}

/// Adds how many signatures are left, and a signature.
fn put_signature(out: &mut Text, left: u64, signature: &[u8]) {
    out.number(left);
    out.next_word(signature);
}

/// Adds what a copy of the key signs.
fn put_copied<S: Signs + Drop>(out: &mut Text, key: &S, message: &[u8]) {
    match key.copy(out.alloc) {
        Ok(mut copy) => put_signed(out, &mut copy, message),
        Err(_) => out.lack(),
    }
}

/// Adds what the key signs that is loaded of these bytes.
fn put_loaded<S: Signs + Drop>(out: &mut Text, saved: &[u8], message: &[u8]) {
    match S::load(out.alloc, saved) {
        Ok(mut key) => put_signed(out, &mut key, message),
        Err(_) => out.lack(),
    }
}

/// Adds what the key signs that is loaded of the key's saved bytes.
fn put_saved<S: Signs + Drop>(out: &mut Text, key: &S, message: &[u8]) {
    match key.save(out.alloc) {
        Ok(saved) => put_loaded::<S>(out, saved.as_slice(), message),
        Err(_) => out.lack(),
    }
}

/// Adds what the key signs, where a copy of it and what is loaded from its saved bytes sign the same.
fn put_alike<S: Signs + Drop>(out: &mut Text, key: &mut S, message: &[u8]) {
    let mut copied = Text::new(out.alloc);
    put_copied(&mut copied, key, message);
    let mut loaded = Text::new(out.alloc);
    put_saved(&mut loaded, key, message);
    put_signed(out, key, message);
    out.note(copied.is_as(&loaded));
    out.note(copied.is_as(out));
}

/// Tells how many signatures are left to the key that was saved so, where it is saved so again.
pub fn load(line: &mut Line<'_>) {
    let saved = line.bytes();
    let out = &mut line.text;
    match Hss::load(out.alloc, &saved) {
        Ok(key) => put_left(out, &Held { value: key }.value, &saved),
        Err(LoadFault::Malformed) => out.add("malformed"),
        Err(LoadFault::Memory) => out.lack(),
    }
}

/// Adds how many signatures are left to the key, where these are its saved bytes.
fn put_left(out: &mut Text, key: &Hss, saved: &[u8]) {
    out.number(key.left());
    out.compare(key.save(out.alloc), saved);
}
