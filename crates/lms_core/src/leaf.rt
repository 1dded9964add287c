//! Hashes of four chains of one leaf.

ghost use Rattle.std.specs.Prelude.{◌≡◌, ℕ, ◌+◌, ◌^◌, ◌<◌, ◌≤◌, slice_index};
ghost use Rattle.hash_signature_model.specs.OneTime.{chain_step, derived};
ghost use Rattle.lms_core.specs.Fours.{AreHeadsOf};
ghost use Rattle.lms_core.specs.Kept.{at};

use crate::hashing::{head_of, middle};
use sha256_lanes::{Heads, Values, hash_four_each};

/// A leaf, with what the hashes of its chains begin with.
#[derive(Drop)]
pub struct Leaf {
    pub id: [u8; 16],
    pub number: u32,
    heads: Heads,
    ghost same: { AreHeadsOf id number heads },
}

impl Leaf {
    /// The leaf of that number.
    pub fn of(id: &[u8; 16], number: u32) -> Leaf
        ensures id { result.id ≡ id.now }
        ensures number { result.number ≡ number }
    {
        let head = head_of(id, number);
        Leaf {
            id: *id,
            number,
            heads: Heads::of(&[head; 4]),
        }
    }

    /// A step of each of four chains (RFC 8554, sections 4.5 and 4.6).
    pub fn step_each(&self, chains: &[u16; 4], steps: &[u8; 4], values: &Values) -> Values
        ensures { (k : ℕ) → k < 4 → at result k ≡ chain_step self.now.id self.now.number (slice_index chains.now k) (slice_index steps.now k) (at values.now k) }
    {
        let middles = [
            middle(chains[0], steps[0]),
            middle(chains[1], steps[1]),
            middle(chains[2], steps[2]),
            middle(chains[3], steps[3]),
        ];
        hash_four_each(&self.heads, &middles, values)
    }

    /// Four secret values, from number i on (RFC 8554, appendix A).
    pub fn derive_each(&self, seeds: &Values, i: u16) -> Values
        requires { i + 4 ≤ 2 ^ 16 }
        ensures { (k : ℕ) → k < 4 → at result k ≡ derived self.now.id (at seeds.now k) self.now.number (i + k) }
    {
        self.step_each(&[i, i + 1, i + 2, i + 3], &[0xff; 4], seeds)
    }
}
