//! What a store holds and refuses.

use crate::line::Line;
use dht_ids::{Judge, Judged};
use ivy_base::{Bytes, Key, name_of};
use node_store::{PutFault, Store};
use std::alloc::Global;
use std::fmt::Write;

/// A judge to whom the number of a head is its first byte, and a head of the number 0 is none.
#[derive(Clone, Copy)]
struct FirstByte;

impl Judge for FirstByte {
    ghost use Rattle.std.specs.Prelude.{None, Some, nat_eq, option_and_then, slice_get, if◌then◌else◌};

    ghost judges = { λ _ key bytes. option_and_then (λ seq. if nat_eq seq 0 then None else Some (record { seq = seq; name = key })) (slice_get bytes 0) };

    fn judge(&self, key: &Key, bytes: &[u8]) -> Option<Judged> {
        let seq = *bytes.first()?;
        if seq == 0 {
            return None;
        }
        Some(Judged {
            seq: seq as u32,
            name: *key,
        })
    }
}

/// Writes what a put came to.
fn put_end(line: &mut Line<'_>, end: Result<(), PutFault>) {
    match end {
        Ok(()) => line.put("stored"),
        Err(fault) => {
            let written = write!(line.text, "{fault}");
            line.done(written);
        }
    }
}

/// Puts a block, and writes what that came to.
fn put_block(line: &mut Line<'_>, store: &mut Store, key: Key, bytes: Bytes) {
    let end = store.put_block(line.alloc, &key, bytes.as_slice());
    put_end(line, end);
}

/// Puts a head, and writes what that came to.
fn put_head(line: &mut Line<'_>, store: &mut Store, key: Key, bytes: Bytes) {
    let end = store.put_head(line.alloc, &FirstByte, &key, bytes.as_slice());
    put_end(line, end);
}

/// So many bytes, each of the same number, as two words say.
fn row(line: &mut Line<'_>) -> Bytes {
    let byte: u8 = line.read();
    let count: u32 = line.read();
    let none = Vec::new(line.alloc);
    Bytes::of(line.made_or(vec![in line.alloc; byte; count as usize], none))
}

/// Writes what comes of a line that has a key.
fn put_at(line: &mut Line<'_>, store: &mut Store, what: &str) {
    let key: Key = line.read();
    match what {
        "put" => {
            let bytes: Bytes = line.read();
            put_block(line, store, key, bytes);
        }
        "head" => {
            let bytes: Bytes = line.read();
            put_head(line, store, key, bytes);
        }
        "head-row" => {
            let bytes = row(line);
            put_head(line, store, key, bytes);
        }
        "get" => line.put_found(store.get(&key)),
        "drop" => {
            store.drop_block(&key);
            line.put_found(store.get(&key));
        }
        "spoil" => {
            let offset: u32 = line.read();
            let byte: u8 = line.read();
            let is_held = store.spoil(&key, offset as u64, byte);
            line.put(if is_held { "true" } else { "false" });
        }
        _ => line.fail(),
    }
}

/// Writes all that is held, with how it was put.
fn put_all(line: &mut Line<'_>, store: &Store) {
    let held = store.held(line.alloc);
    line.put_made(&held);
}

/// Begins again, with no blocks.
fn empty(store: &mut Store, alloc: Global) {
    *store = Store::new(alloc);
}

/// Writes the answer to a line.
pub fn answer(line: &mut Line<'_>, store: &mut Store) {
    let what = line.word();
    match what {
        "new" => {
            empty(store, line.alloc);
            put_all(line, store);
        }
        "held" => put_all(line, store),
        "put-row" => {
            let bytes = row(line);
            put_block(line, store, name_of(bytes.as_slice()), bytes);
        }
        _ => put_at(line, store, what),
    }
}
