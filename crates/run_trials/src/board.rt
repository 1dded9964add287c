//! What threads tell one another, by shared words that are looked at so many times and no more.

use std::sync::atomic::{AtomicU64, Ordering};

/// How many times a word is looked at.
const LOOKS: u32 = 1_000_000_000;

/// Words that threads share.
#[derive(Drop)]
pub struct Board {
    /// A bit for each that has come.
    come: AtomicU64,
    /// How many bits were given out.
    given: AtomicU64,
    /// How many have looked in vain.
    in_vain: AtomicU64,
}

impl Board {
    /// A board on which nobody has come.
    pub fn new() -> Board {
        Board {
            come: AtomicU64::new(0),
            given: AtomicU64::new(0),
            in_vain: AtomicU64::new(0),
        }
    }

    /// A bit that nobody else has, for the first 64 that ask.
    pub fn give(&self) -> u64 {
        1u64 << (self.given.fetch_add(1, Ordering::SeqCst) & 63)
    }

    /// Tells that the one with that bit has come.
    pub fn tell(&self, bit: u64) {
        self.come.fetch_or(bit, Ordering::SeqCst);
    }

    /// Looks until so many have come. It is false where they haven't after the last look.
    pub fn look(&self, count: u32) -> bool {
        for _ in 0..LOOKS {
            if self.come.load(Ordering::SeqCst).count_ones() >= count {
                return true;
            }
        }
        self.in_vain.fetch_add(1, Ordering::SeqCst);
        false
    }

    /// How many bits were given out.
    pub fn given(&self) -> u64 {
        self.given.load(Ordering::SeqCst)
    }

    /// How many have looked in vain.
    pub fn in_vain(&self) -> u64 {
        self.in_vain.load(Ordering::SeqCst)
    }
}
