//! Times of the search for a fork among a log's heads, beside those of judging these heads.

use crate::levels::{key_of, sets_of};
use crate::measured::{Measured, since};
use crate::words::Words;
use dht_ids::{Judge, Judged};
use fork_proof::find;
use hss_keys::Hss;
use ivy_base::{Bytes, Format, Key, Memory, Moment, Op, PubKey, head_key, name_of};
use log_heads::{HssJudge, seal};
use log_records::Record;
use std::alloc::Global;
use std::rt::Clock;
use std::time::Instant;
use version_vectors::Vector;

/// What each record writes: 6,800 records have 16 MiB.
const DATA: [u8; 2_300] = [5; 2_300];

/// The greatest number of a record.
const MOST_RECORDS: u32 = 1_048_576;

/// Where a log begins.
const NOTHING: Judged = Judged {
    seq: 0,
    name: Key([0; 20]),
};

/// A key, and what it signed: records, and a head over each.
#[derive(Drop)]
struct Log {
    key: Hss,
    heads: Vec<Bytes>,
    blocks: Vec<Bytes>,
}

/// What the record of that number does: the first one ends a log, and each other one writes. The error is: out of memory.
fn operation(alloc: Global, seq: u32) -> Result<Op, Memory> {
    if seq <= 1 {
        return Ok(Op::End);
    }
    Ok(Op::Write {
        ino: Key([3; 20]),
        offset: 0,
        bytes: Bytes::copy_of(alloc, DATA.as_slice())?,
    })
}

/// The block of the record of that number after the one of that name, made at that second. None where memory is short.
fn block_of(alloc: Global, owner: PubKey, seq: u32, prev: Key, sec: u32) -> Option<Bytes> {
    let record = Record {
        owner,
        seq,
        prev,
        vector: Vector::empty(alloc),
        moment: Moment { sec, nsec: 0 },
        op: operation(alloc, seq).ok()?,
        format: Format::One,
    };
    record.write(alloc).ok()
}

/// The block of a head over the record of that number and name. None where the key signs no more, or memory is short.
fn head_of(alloc: Global, key: &mut Hss, newest: &Judged) -> Option<Bytes> {
    if newest.seq == 0 || newest.seq > MOST_RECORDS {
        return None;
    }
    let head = seal(alloc, key, newest.seq, newest.name).ok()?;
    head.write(alloc).ok()
}

/// Goes on by one record after that one, which is made at that second, and by a head over it.
fn grow(alloc: Global, log: &mut Log, from: &Judged, sec: u32) -> Option<Judged> {
    let seq = from.seq.saturating_add(1);
    let block = block_of(alloc, log.key.owner(), seq, from.name, sec)?;
    let newest = Judged {
        seq,
        name: name_of(block.as_slice()),
    };
    let head = head_of(alloc, &mut log.key, &newest)?;
    let (Ok(()), Ok(())) = (log.blocks.push(block), log.heads.push(head)) else {
        return None;
    };
    Some(newest)
}

/// Goes on by so many records after that one.
fn grow_by(alloc: Global, log: &mut Log, from: &Judged, count: u32, sec: u32) -> Option<Judged> {
    let mut newest = *from;
    for _ in 0..count {
        newest = grow(alloc, log, &newest, sec)?;
    }
    Some(newest)
}

/// A log with so many heads. If it is forked, its second quarter of records and the rest are of two histories.
fn log_of(alloc: Global, key: Hss, count: u32, is_forked: bool) -> Option<Log> {
    let mut log = Log {
        key,
        heads: Vec::new(alloc),
        blocks: Vec::new(alloc),
    };
    let parted = if is_forked { count / 4 } else { count };
    let newest = grow_by(alloc, &mut log, &NOTHING, parted, 1)?;
    grow_by(alloc, &mut log, &newest, parted.min(count - parted), 2)?;
    grow_by(alloc, &mut log, &newest, (count / 2).min(count - parted), 3)?;
    Some(log)
}

/// Judges each head once.
fn time_judge<R: Clock>(rt: &R, log: &Log) -> Option<Measured> {
    let key = head_key(&log.key.owner());
    let start = Instant::now(rt);
    let mut judged = 0u64;
    for head in &log.heads {
        judged = judged.saturating_add(HssJudge.judge(&key, head.as_slice()).is_some() as u64);
    }
    since(rt, start, "judged", judged)
}

/// Seeks a fork, and counts the bytes of its proof.
fn time_find<R: Clock>(rt: &R, alloc: Global, log: &Log) -> Option<Measured> {
    let start = Instant::now(rt);
    match find(alloc, log.heads.as_slice(), log.blocks.as_slice()) {
        Ok(Some(proof)) => since(rt, start, "bytes found", proof.as_slice().len() as u64),
        Ok(None) => since(rt, start, "bytes found", 0),
        Err(Memory) => None,
    }
}

/// Measures what is asked for, of a log. None where that is nothing of this family.
fn time_with<R: Clock>(rt: &R, alloc: Global, what: &str, log: &Log) -> Option<Measured> {
    match what {
        "judge" => time_judge(rt, log),
        "honest" | "forked" => time_find(rt, alloc, log),
        _ => None,
    }
}

/// Measures what the words ask for. None where they ask for nothing of this family, or memory is short.
pub fn answer<R: Clock>(rt: &R, alloc: Global, words: &mut Words<'_>) -> Option<Measured> {
    let what = words.word();
    let sets = sets_of(alloc, words.word()).ok()?;
    let key = key_of(alloc, sets.as_slice())?;
    let log = log_of(alloc, key, words.number(), what == "forked")?;
    time_with(rt, alloc, what, &log)
}
