//! Times of growing, signing and verifying with one tree, beside the time of hashes of one block.

use crate::measured::{Measured, Task, repeat, since};
use crate::sets::set_of;
use crate::words::Words;
use lms_core::{Set, Tree, verify};
use sha2::{Digest, Sha256};
use std::alloc::Global;
use std::rt::Clock;
use std::thread::Threads;
use std::time::Instant;

const ID: [u8; 16] = [1; 16];

const SEED: [u8; 32] = [2; 32];

const MESSAGE: [u8; 32] = [3; 32];

/// A chain of hashes of one block; gives the last byte of its end.
fn time_hashes<R: Clock>(rt: &R, count: u32) -> Option<Measured> {
    let start = Instant::now(rt);
    let mut value = [0u8; 32];
    for _n in 0..count {
        let mut hasher = Sha256::new();
        hasher.update(&[4u8; 23]);
        hasher.update(&value[..]);
        value = hasher.finalize();
    }
    since(rt, start, "the chain ends in", value[31] as u64)
}

fn time_grow<R: Clock>(rt: &R, alloc: Global, set: Set) -> Option<Measured> {
    let start = Instant::now(rt);
    let grown = Tree::grow(alloc, set, &ID, &SEED).is_ok();
    since(rt, start, "grown", grown as u64)
}

fn time_joined<R: Clock + Threads>(rt: &R, alloc: Global, set: Set) -> Option<Measured> {
    let start = Instant::now(rt);
    let grown = Tree::grow_joined(rt, alloc, set, &ID, &SEED).is_ok();
    since(rt, start, "grown", grown as u64)
}

fn time_sign<R: Clock>(rt: &R, alloc: Global, set: Set, count: u32) -> Option<Measured> {
    let Ok(tree) = Tree::grow(alloc, set, &ID, &SEED) else {
        return None;
    };
    let start = Instant::now(rt);
    let mut signed = 0u64;
    for n in 0..count {
        let signature = tree.sign_leaf(alloc, n % set.h.leaf_count(), &MESSAGE[..]);
        signed = signed.saturating_add(signature.is_ok() as u64);
    }
    since(rt, start, "signed", signed)
}

/// A check of a signature.
#[derive(Clone, Copy)]
struct Checks<'a> {
    public: &'a [u8],
    signature: &'a [u8],
}

impl Task for Checks<'_> {
    fn turn(&mut self, _alloc: Global) -> bool {
        verify(self.public, &MESSAGE[..], self.signature).is_ok()
    }
}

fn time_verify<R: Clock>(rt: &R, alloc: Global, set: Set, count: u32) -> Option<Measured> {
    let Ok(tree) = Tree::grow(alloc, set, &ID, &SEED) else {
        return None;
    };
    let public = tree.public();
    match tree.sign_leaf(alloc, 7 % set.h.leaf_count(), &MESSAGE[..]) {
        Ok(signature) => {
            let mut checks = Checks {
                public: &public[..],
                signature: signature.as_slice(),
            };
            repeat(rt, alloc, "accepted", count, &mut checks)
        }
        Err(_) => None,
    }
}

/// Measures what the words ask for. None where they ask for nothing of this family, or memory is short.
pub fn answer<R: Clock + Threads>(
    rt: &R,
    alloc: Global,
    words: &mut Words<'_>,
) -> Option<Measured> {
    let what = words.word();
    if what == "hash" {
        return time_hashes(rt, words.number());
    }
    let set = set_of(words.word())?;
    let count = words.number();
    match what {
        "grow" => time_grow(rt, alloc, set),
        "joined" => time_joined(rt, alloc, set),
        "sign" => time_sign(rt, alloc, set, count),
        "verify" => time_verify(rt, alloc, set, count),
        _ => None,
    }
}
