//! The largest causally closed part of logs, beside that of a plain slow program.

use crate::gather::{batch_of, part_of};
use crate::held::Held;
use crate::line::Line;
use crate::logs::{Log, entry, owner, view_of};
use crate::plain::{Plain, agrees, plain_part};
use crate::random::Random;
use crate::text::Text;
use crate::vectors::vector_with;
use ivy_base::{PubKey, head_key};
use log_records::Record;
use version_vectors::{Entry, Vector};
use view_blocks::View;

/// Tells the part of the logs: its records, or only how many they are.
fn put_part(out: &mut Text, view: &View, logs: Vec<Log>, is_counted: bool) {
    let plain = plain_part(out, view, &logs);
    put_part_of(out, view, logs, &plain, is_counted);
}

/// Tells the part of the logs, and whether the slow program takes the same records.
fn put_part_of(out: &mut Text, view: &View, logs: Vec<Log>, plain: &[Plain], is_counted: bool) {
    let Some(batch) = batch_of(out.alloc, view, logs) else {
        return out.lack();
    };
    match part_of(out.alloc, view, batch) {
        Ok(part) => put_taken(out, &part, plain, is_counted),
        Err(_) => out.lack(),
    }
}

/// Tells the records, or only how many they are, and whether the slow program takes the same.
fn put_taken(out: &mut Text, part: &[Record], plain: &[Plain], is_counted: bool) {
    out.add(if agrees(plain, part) {
        "agree"
    } else {
        "differ"
    });
    if is_counted {
        out.next_number(part.len() as u64);
    } else {
        put_records(out, part);
    }
}

/// Adds the records in order: their owners' letters and their numbers.
fn put_records(out: &mut Text, part: &[Record]) {
    for record in part {
        out.show(" ", &char::from(record.owner.0[0]));
        out.number(u64::from(record.seq));
    }
}

/// The letter that a word begins with, and the rest.
fn lettered<'a>(line: &mut Line<'_>, word: &'a str) -> (u8, &'a str) {
    match word.as_bytes().first() {
        Some(letter) => (*letter, word.get(1..).unwrap_or("")),
        None => {
            line.fail();
            (0, "")
        }
    }
}

/// Adds what the word names: `b2` is b's second record, and `b2'` another of that number, as is one that isn't there.
fn cite(line: &mut Line<'_>, logs: &[Log], vector: &Vector, word: &str) -> Vector {
    let (letter, number) = lettered(line, word);
    let (number, is_known) = match number.strip_suffix('\'') {
        Some(number) => (number, false),
        None => (number, true),
    };
    let seq = line.number_of(number);
    let cited = entry(logs, head_key(&owner(letter)), seq, is_known);
    vector_with(&mut line.text, vector, cited)
}

/// The place of the letter's log, which is begun where there is none.
fn place_of(out: &mut Text, logs: &mut Vec<Log>, letter: u8) -> usize {
    let owner = owner(letter);
    let place = place_in(logs, &owner);
    if place == logs.len() {
        out.push(logs, Log::empty(out.alloc, owner));
    }
    place
}

/// The place of the owner's log, or after the last where there is none.
fn place_in(logs: &[Log], owner: &PubKey) -> usize {
    for place in 0..logs.len() {
        if logs[place].owner == *owner {
            return place;
        }
    }
    logs.len()
}

/// What the words after a colon cite.
fn cited(line: &mut Line<'_>, logs: &[Log], words: &str) -> Vector {
    let mut vector = Vector::empty(line.text.alloc);
    if let Some(words) = words.strip_prefix(':') {
        for word in words.split('.') {
            vector = cite(line, logs, &vector, word);
        }
    }
    vector
}

/// Writes the next record of the log at that place.
fn write_at(out: &mut Text, logs: &mut [Log], place: usize, vector: Vector) {
    match logs.get_mut(place) {
        Some(log) => log.write(out, vector),
        None => out.lack(),
    }
}

/// Takes the newest record of the log at that place back.
fn lose_at(logs: &mut [Log], place: usize) {
    if let Some(log) = logs.get_mut(place) {
        log.lose();
    }
}

/// Does what the next word says: `a` writes a's next record, `a:b2.c1` one that cites those, and `a-` takes the newest
/// back.
fn step(line: &mut Line<'_>, logs: &mut Vec<Log>) {
    let word = line.word();
    let (letter, rest) = lettered(line, word);
    let place = place_of(&mut line.text, logs, letter);
    if rest == "-" {
        lose_at(logs, place);
    } else {
        let vector = cited(line, logs, rest);
        write_at(&mut line.text, logs, place, vector);
    }
}

/// The logs that the words left write.
fn written(line: &mut Line<'_>) -> Vec<Log> {
    let mut logs = Vec::new(line.text.alloc);
    for _n in 0..line.words_left() {
        step(line, &mut logs);
    }
    logs
}

/// Tells the part of the logs that the words left write, in order, under the view.
fn put_written(line: &mut Line<'_>, view: &View) {
    let logs = written(line);
    put_part(&mut line.text, view, logs, false);
}

/// Tells the part of the logs that the words write, in order, under the view that the first word is.
pub fn order(line: &mut Line<'_>) {
    let letters = line.word();
    match view_of(&mut line.text, letters) {
        Ok(view) => put_written(line, &Held { value: view }.value),
        Err(_) => line.fail(),
    }
}

/// What the one log cites by chance of the other, never less than its newest record does. Its number is 0 for nothing.
fn cited_of(random: &mut Random, logs: &[Log], own: &Log, log: &Log) -> Entry {
    let before = own.cited(&log.key);
    let seq = match random.below(16) {
        0 => log.newest.seq.saturating_add(1),
        1..=4 => before,
        _ => log.newest.seq,
    };
    let is_known = random.below(32) > 0;
    entry(logs, log.key, seq.max(before), is_known)
}

/// Adds what the one log's next record cites by chance of the other.
fn cite_by_chance(
    out: &mut Text,
    random: &mut Random,
    logs: &[Log],
    vector: &mut Vector,
    own: &Log,
    log: &Log,
) {
    if log.key != own.key {
        let cited = cited_of(random, logs, own, log);
        if cited.seq > 0 {
            *vector = vector_with(out, vector, cited);
        }
    }
}

/// What the log's next record cites by chance of the others.
fn cited_by_chance(out: &mut Text, random: &mut Random, logs: &[Log], place: usize) -> Vector {
    let mut vector = Vector::empty(out.alloc);
    if let Some(own) = logs.get(place)
        && own.newest.seq > 0
    {
        for log in logs {
            cite_by_chance(out, random, logs, &mut vector, own, log);
        }
    }
    vector
}

/// Opens a log for each letter.
fn open(out: &mut Text, logs: &mut Vec<Log>, letters: &str) {
    for letter in letters.as_bytes() {
        let place = place_of(out, logs, *letter);
        write_at(out, logs, place, Vector::empty(out.alloc));
    }
}

/// Writes so many records by chance.
fn grow(out: &mut Text, random: &mut Random, logs: &mut [Log], count: u32) {
    for _n in 0..count {
        let place = random.below(logs.len() as u64) as usize;
        let vector = cited_by_chance(out, random, logs, place);
        write_at(out, logs, place, vector);
    }
}

/// Takes up to two records of each log back.
fn shrink(random: &mut Random, logs: &mut [Log]) {
    for log in logs {
        for _n in 0..random.below(3) {
            log.lose();
        }
    }
}

/// Logs with so many records by chance, of each of which up to two are taken back at the end.
fn by_chance(out: &mut Text, seed: u64, letters: &str, count: u32) -> Vec<Log> {
    let mut random = Random::new(seed);
    let mut logs = Vec::new(out.alloc);
    open(out, &mut logs, letters);
    grow(out, &mut random, &mut logs, count);
    shrink(&mut random, &mut logs);
    logs.retain(|log| !log.records.is_empty());
    logs
}

/// Tells how many records the part has of logs by chance: the words are a seed, the letters of the logs, and how many
/// records are written.
pub fn random(line: &mut Line<'_>) {
    let word = line.word();
    let seed = line.long_number_of(word);
    let letters = line.word();
    let count = line.number();
    match view_of(&mut line.text, letters) {
        Ok(view) => {
            let view = Held { value: view };
            let logs = by_chance(&mut line.text, seed, letters, count);
            put_part(&mut line.text, &view.value, logs, true);
        }
        Err(_) => line.fail(),
    }
}
