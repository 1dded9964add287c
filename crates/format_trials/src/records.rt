//! Records and heads.

use crate::held::Held;
use crate::line::Line;
use crate::text::Text;
use dht_ids::{Judge, Judged};
use ivy_base::{Key, PubKey};
use log_records::{Head, MOST_CITED, PlainJudge, Record, RecordFault, plain_head};

/// Tells the bytes as a record of the owner's.
pub fn record(line: &mut Line<'_>, bytes: &[u8]) {
    let owner = line.owner();
    match Record::read(line.text.alloc, bytes, &owner) {
        Ok(record) => put_record(&mut line.text, &Held { value: record }.value, bytes),
        Err(fault) => line.text.add(name_of(fault)),
    }
}

fn name_of(fault: RecordFault) -> &'static str {
    match fault {
        RecordFault::Malformed => "malformed",
        RecordFault::TooLong => "too long",
        RecordFault::BadNumber => "bad number",
        RecordFault::Memory => "out of memory",
    }
}

/// The record's name.
pub fn named(out: &mut Text, record: &Record) -> Key {
    match record.name(out.alloc) {
        Ok(name) => name,
        Err(_) => {
            out.lack();
            Key([0; 20])
        }
    }
}

/// Adds a record that was read.
fn put_record(out: &mut Text, record: &Record, bytes: &[u8]) {
    if record.vector.len() > MOST_CITED as usize {
        out.add("too many logs");
    } else {
        let name = named(out, record);
        out.bytes("ok ", &name.0);
        out.next_number(u64::from(record.seq));
        out.next_number(record.rank().weight);
    }
    out.compare(record.write(out.alloc), bytes);
}

/// Tells the bytes as a head under the key.
pub fn head(line: &mut Line<'_>, bytes: &[u8]) {
    let key = line.key();
    match Head::read(bytes) {
        Some(head) => put_head(&mut line.text, &key, &head, bytes),
        None => line.text.add("none"),
    }
}

/// Adds a head that was read.
fn put_head(out: &mut Text, key: &Key, head: &Head<'_>, bytes: &[u8]) {
    match PlainJudge.judge(key, bytes) {
        Some(judged) => put_plain(out, &head.owner, &judged, bytes),
        None => put_signed(out, "signed ", head),
    }
    out.compare(head.write(out.alloc), bytes);
}

/// Adds a head that the plain judge takes.
fn put_plain(out: &mut Text, owner: &PubKey, judged: &Judged, bytes: &[u8]) {
    put_judged(out, "plain ", judged);
    out.compare(
        plain_head(out.alloc, owner, judged.seq, &judged.name),
        bytes,
    );
}

/// Adds words and what a judge says of a head: its number and its name.
pub fn put_judged(out: &mut Text, words: &str, judged: &Judged) {
    out.count(words, u64::from(judged.seq));
    out.next_word(&judged.name.0);
}

/// Adds words and what a head has: its number, its name, and the length of its signature.
pub fn put_signed(out: &mut Text, words: &str, head: &Head<'_>) {
    out.count(words, u64::from(head.seq));
    out.next_word(&head.name.0);
    out.next_number(head.signature.len() as u64);
}
