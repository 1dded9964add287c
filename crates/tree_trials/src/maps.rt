//! Trials of maps: the maps, and how each line is answered.

use crate::lines::Line;
use ivy_base::{Key, Memory};
use shared_map::SharedMap;
use std::alloc::Global;
use std::sync::Arc;

/// The maps by their numbers.
pub struct Trial {
    maps: Vec<SharedMap<Key, u32>>,
}

// Written out, so that what drops a trial calls it and isn't made over all its parts.
impl Drop for Trial {
    fn drop(self) {
        let Trial { maps: _ } = self;
    }
}

/// The key of a number: the keys' order is that of the numbers.
fn key(number: u32) -> Key {
    let [a, b, c, d] = number.to_be_bytes();
    Key([0, 0, a, b, c, d, 7, 7, 7, 7, 7, 7, 7, 7, 7, 7, 7, 7, 7, 7])
}

/// The number of a key.
fn number_of(key: &Key) -> u32 {
    u32::from_be_bytes([key.0[2], key.0[3], key.0[4], key.0[5]])
}

impl Trial {
    /// One empty map. The error is: out of memory.
    pub fn new(alloc: Global) -> Result<Trial, Memory> {
        Ok(Trial {
            maps: vec![in alloc; SharedMap::new()]?,
        })
    }

    /// Answers a line.
    pub fn answer(&mut self, line: &mut Line<'_>) {
        let word = line.word();
        let place = line.number() as usize;
        if place >= self.maps.len() {
            line.fail();
        } else if word == "copy" {
            let copy = self.maps[place].copy();
            self.add(copy, line);
        } else {
            answer_of(&mut self.maps[place], line, word);
        }
    }

    /// Adds a copy, and tells its number.
    fn add(&mut self, copy: Result<SharedMap<Key, u32>, Memory>, line: &mut Line<'_>) {
        line.answer.count("", self.maps.len() as u64);
        match copy {
            Ok(copy) => {
                if self.maps.push(copy).is_err() {
                    line.fail();
                }
            }
            Err(_) => line.fail(),
        }
    }
}

/// Answers what is asked of that map.
fn answer_of(map: &mut SharedMap<Key, u32>, line: &mut Line<'_>, word: &str) {
    match word {
        "insert" => insert(map, line),
        "remove" => remove(map, line),
        "get" => get(map, line),
        "list" => tell_entries(map.entries(line.alloc), line),
        "from" => list_from(map, line),
        _ => line.fail(),
    }
}

fn insert(map: &mut SharedMap<Key, u32>, line: &mut Line<'_>) {
    let number = line.small_number();
    let value = line.small_number();
    if line.is_good() {
        tell_old(map.insert(line.alloc, key(number), value), line);
    }
}

fn remove(map: &mut SharedMap<Key, u32>, line: &mut Line<'_>) {
    let number = line.small_number();
    if line.is_good() {
        tell_old(map.remove(line.alloc, &key(number)), line);
    }
}

/// Tells the value that a change put out of the map.
fn tell_old(old: Result<Option<Arc<u32>>, Memory>, line: &mut Line<'_>) {
    match old {
        Ok(Some(value)) => line.answer.count("", u64::from(*value)),
        Ok(None) => line.answer.add("none"),
        Err(_) => line.fail(),
    }
}

fn get(map: &SharedMap<Key, u32>, line: &mut Line<'_>) {
    match map.get(&key(line.small_number())) {
        Some(value) => line.answer.count("", u64::from(*value)),
        None => line.answer.add("none"),
    }
}

fn list_from(map: &SharedMap<Key, u32>, line: &mut Line<'_>) {
    let first = key(line.small_number());
    let count = line.number() as usize;
    tell_entries(map.entries_from(line.alloc, &first, count), line);
}

/// Tells how many entries there are, and each.
fn tell_entries(entries: Result<Vec<(&Key, &u32)>, Memory>, line: &mut Line<'_>) {
    let Ok(entries) = entries else {
        return line.fail();
    };
    line.answer.count("", entries.len() as u64);
    for (key, value) in &entries {
        line.answer.count(" ", u64::from(number_of(key)));
        line.answer.count("=", u64::from(**value));
    }
}
