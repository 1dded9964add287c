//! Times of signing and verifying with signatures of several levels.

use crate::measured::{Measured, Task, repeat};
use crate::sets::set_of;
use crate::words::Words;
use hss_keys::Hss;
use ivy_base::{Memory, PubKey};
use lms_core::Set;
use std::alloc::Global;
use std::rt::Clock;

const ID: [u8; 16] = [1; 16];

const SEED: [u8; 32] = [2; 32];

const MESSAGE: [u8; 88] = [3; 88];

/// The sets of those names; words that name none are passed over.
pub fn sets_of(alloc: Global, word: &str) -> Result<Vec<Set>, Memory> {
    let mut sets = Vec::new(alloc);
    for name in word.split(',') {
        if let Some(set) = set_of(name) {
            sets.push(set)?;
        }
    }
    Ok(sets)
}

/// A key of those sets, of which there are one to three.
pub fn key_of(alloc: Global, sets: &[Set]) -> Option<Hss> {
    if sets.is_empty() || sets.len() > 3 {
        return None;
    }
    Hss::grow(alloc, &ID, &SEED, sets).ok()
}

/// A signature by a key.
#[derive(Drop)]
struct Signatures(Hss);

impl Task for Signatures {
    fn turn(&mut self, alloc: Global) -> bool {
        self.0.sign(alloc, &MESSAGE[..]).is_ok()
    }
}

/// A check of a signature by that owner.
#[derive(Clone, Copy)]
struct Checks<'a> {
    owner: PubKey,
    signature: &'a [u8],
}

impl Task for Checks<'_> {
    fn turn(&mut self, _alloc: Global) -> bool {
        Hss::verify(&self.owner, &MESSAGE[..], self.signature).is_ok()
    }
}

/// Checks one signature by a key that often. None where there is none.
fn time_verify<R: Clock>(rt: &R, alloc: Global, key: &mut Hss, count: u32) -> Option<Measured> {
    let owner = key.owner();
    match key.sign(alloc, &MESSAGE[..]) {
        Ok(signature) => {
            let mut checks = Checks {
                owner,
                signature: signature.as_slice(),
            };
            repeat(rt, alloc, "accepted", count, &mut checks)
        }
        Err(_) => None,
    }
}

/// Measures what is asked for by a key of those sets. None where that is nothing of this family, or there is no such key.
fn time_with<R: Clock>(
    rt: &R,
    alloc: Global,
    what: &str,
    sets: &[Set],
    count: u32,
) -> Option<Measured> {
    let mut key = Signatures(key_of(alloc, sets)?);
    match what {
        "sign" => repeat(rt, alloc, "signed", count, &mut key),
        "verify" => time_verify(rt, alloc, &mut key.0, count),
        _ => None,
    }
}

/// Measures what the words ask for. None where they ask for nothing of this family, or memory is short.
pub fn answer<R: Clock>(rt: &R, alloc: Global, words: &mut Words<'_>) -> Option<Measured> {
    let what = words.word();
    let sets = words.word();
    let count = words.number();
    match sets_of(alloc, sets) {
        Ok(sets) => time_with(rt, alloc, what, sets.as_slice(), count),
        Err(Memory) => None,
    }
}
