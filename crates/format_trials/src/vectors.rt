//! Version vectors.

use crate::line::Line;
use crate::text::Text;
use block_parts::BlockFault;
use ivy_base::Bytes;
use version_vectors::{Entry, Vector};
use xdr_codec::{XdrRead, XdrWrite};

/// The most entries that a vector of a line has.
const MOST: u32 = 64;

/// The vector that the bytes are. It is an empty one where they are none.
pub fn vector_of(out: &mut Text, bytes: &[u8]) -> Vector {
    let mut reader = XdrRead::new(bytes);
    let read = Vector::read(out.alloc, &mut reader, MOST);
    out.note(reader.finish().is_ok());
    match read {
        Ok(vector) => vector,
        Err(_) => {
            out.lack();
            Vector::empty(out.alloc)
        }
    }
}

/// The vector of a word.
pub fn vector_of_word(line: &mut Line<'_>, word: &str) -> Vector {
    let bytes = line.bytes_of(word);
    vector_of(&mut line.text, &bytes)
}

/// The vector that the next word is.
pub fn next_vector(line: &mut Line<'_>) -> Vector {
    let word = line.word();
    vector_of_word(line, word)
}

/// The bytes of a vector of at most 1,000 entries.
fn bytes_of(out: &mut Text, vector: &Vector) -> Bytes {
    let mut written = XdrWrite::new(out.alloc);
    if vector.len() <= 1000 && written.reserve(vector.written_len()).is_ok() {
        vector.write(&mut written);
    } else {
        out.lack();
    }
    written.into_bytes()
}

/// Adds the vector.
fn put_vector(out: &mut Text, vector: &Vector) {
    let bytes = bytes_of(out, vector);
    out.word(bytes.as_slice());
}

/// Tells the vector of at most so many entries at the front of the bytes.
pub fn vector(line: &mut Line<'_>, bytes: &[u8]) {
    let most = line.number();
    let mut reader = XdrRead::new(bytes);
    match Vector::read(line.text.alloc, &mut reader, most) {
        Ok(vector) => put_front(&mut line.text, &vector, bytes, reader.rest()),
        Err(BlockFault::Malformed) => line.text.add("malformed"),
        Err(BlockFault::Memory) => line.text.add("out of memory"),
    }
}

/// Whether the bytes are these and the rest.
fn are_joined(bytes: &[u8], front: &[u8], rest: &[u8]) -> bool {
    match bytes.strip_prefix(front) {
        Some(behind) => behind == rest,
        None => false,
    }
}

/// Adds the vector that was read in front of these bytes, where its copy is what stands before the rest in them.
fn put_front(out: &mut Text, vector: &Vector, bytes: &[u8], rest: &[u8]) {
    if vector.len() > 1000 {
        return out.differ_unless(false);
    }
    out.count("ok ", vector.len() as u64);
    out.next_number(vector.weight());
    out.next_word(rest);
    let copy = out.vector(vector.copy(out.alloc));
    let front = bytes_of(out, &copy);
    out.differ_unless(are_joined(bytes, front.as_slice(), rest));
}

/// Tells the two vectors together, where it is the same in both orders.
pub fn join(line: &mut Line<'_>, b: &Vector) {
    let a = next_vector(line);
    put_joined(&mut line.text, &a, b);
}

/// Adds the two vectors together.
fn put_joined(out: &mut Text, a: &Vector, b: &Vector) {
    let joined = out.vector(a.join(out.alloc, b));
    let other = out.vector(b.join(out.alloc, a));
    put_vector(out, &joined);
    out.differ_unless(joined.entries() == other.entries());
}

/// Tells whether the vector that the next word is goes at least as far as the other.
pub fn dominates(line: &mut Line<'_>, other: &Vector) {
    let vector = next_vector(line);
    let holds = vector.dominates(other);
    line.text.add(if holds { "yes" } else { "no" });
}

/// The vector with that entry. There is none where the number is 0.
pub fn vector_with(out: &mut Text, vector: &Vector, entry: Entry) -> Vector {
    if entry.seq == 0 {
        out.lack();
        return Vector::empty(out.alloc);
    }
    out.vector(vector.with(out.alloc, entry))
}

/// Tells the vector with the entry that the next words are.
pub fn with(line: &mut Line<'_>, vector: &Vector) {
    let entry = Entry {
        log: line.key(),
        seq: line.number(),
        name: line.key(),
    };
    let out = &mut line.text;
    let vector = vector_with(out, vector, entry);
    put_vector(out, &vector);
}

/// Tells the vector without the log that the next word is.
pub fn without(line: &mut Line<'_>, vector: &Vector) {
    let log = line.key();
    let out = &mut line.text;
    let vector = out.vector(vector.without(out.alloc, &log));
    put_vector(out, &vector);
}

/// Tells the entry of the log that the next word is.
pub fn get(line: &mut Line<'_>, vector: &Vector) {
    let log = line.key();
    match vector.get(&log) {
        Some(entry) => put_entry(&mut line.text, &entry, vector.seq_of(&log)),
        None => line.text.add("none"),
    }
}

/// Adds the number and the name of an entry, where that is its number.
fn put_entry(out: &mut Text, entry: &Entry, seq: u32) {
    out.number(u64::from(entry.seq));
    out.next_word(&entry.name.0);
    out.differ_unless(entry.seq == seq);
}
