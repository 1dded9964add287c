//! Heads that are sealed, read and judged.

use crate::line::Line;
use crate::records::{put_judged, put_signed};
use crate::text::Text;
use dht_ids::{Judge, SignFault};
use hss_keys::Signs;
use ivy_base::Key;
use log_heads::HssJudge;
use log_records::{Head, MOST_RECORDS};

/// Adds how many signatures are left once the head of that number and name is sealed, and its block.
pub fn put_sealed<S: Signs>(out: &mut Text, key: &mut S, seq: u32, name: Key) {
    if seq == 0 || seq > MOST_RECORDS {
        return out.lack();
    }
    match log_heads::seal(out.alloc, key, seq, name) {
        Ok(head) => put_block(out, key.left(), &head),
        Err(fault) => put_fault(out, key.left(), fault),
    }
}

/// Adds how many signatures are left, and the block of a head.
fn put_block(out: &mut Text, left: u64, head: &log_heads::Head) {
    out.number(left);
    out.written(" ", head.write(out.alloc));
}

/// Adds how many signatures are left, and that the key is spent.
pub fn put_fault(out: &mut Text, left: u64, fault: SignFault) {
    out.number(left);
    match fault {
        SignFault::Spent => out.add(" spent"),
        SignFault::Memory => out.lack(),
    }
}

/// Tells the number and the name of the head whose block it is, and the length of its signature.
pub fn read(line: &mut Line<'_>) {
    let block = line.bytes();
    match Head::read(&block) {
        Some(head) => put_signed(&mut line.text, "", &head),
        None => line.text.add("none"),
    }
}

/// Tells the answer to a question about what the judge takes under a key.
pub fn answer_judge(line: &mut Line<'_>, question: &str) {
    let key = line.key();
    let mut block = line.bytes();
    put_answer(&mut line.text, question, &key, &mut block);
}

/// Adds the answer to a question about what the judge takes under the key.
fn put_answer(out: &mut Text, question: &str, key: &Key, block: &mut Vec<u8>) {
    match question {
        "judge" => put_judgement(out, key, block),
        "turns" => put_turned(out, key, block),
        "cuts" => put_cut(out, key, block),
        _ => out.lack(),
    }
}

/// Adds the number and the name of the head that the judge takes under the key.
fn put_judgement(out: &mut Text, key: &Key, block: &[u8]) {
    match HssJudge.judge(key, block) {
        Some(judged) => put_judged(out, "", &judged),
        None => out.add("none"),
    }
}

/// How often the judge takes the block: once or not at all.
fn times_taken(key: &Key, block: &[u8]) -> u64 {
    u64::from(HssJudge.judge(key, block).is_some())
}

/// Adds how many blocks are taken that have the lowest bit of one byte turned.
fn put_turned(out: &mut Text, key: &Key, block: &mut [u8]) {
    let mut taken: u64 = 0;
    for place in 0..block.len() {
        block[place] ^= 1;
        taken = taken.saturating_add(times_taken(key, block));
        block[place] ^= 1;
    }
    out.number(taken);
    out.add(" taken");
}

/// Adds how many blocks are taken that are cut, or have a zero byte more.
fn put_cut(out: &mut Text, key: &Key, block: &mut Vec<u8>) {
    let mut taken: u64 = 0;
    for len in 0..block.len() {
        taken = taken.saturating_add(times_taken(key, &block[..len]));
    }
    out.push(block, 0);
    taken = taken.saturating_add(times_taken(key, block));
    out.number(taken);
    out.add(" taken");
}
