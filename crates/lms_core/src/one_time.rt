//! One-time public keys: the signer's own, and the verifier's candidate.

ghost use Rattle.std.specs.Prelude.{◌≡◌, ℕ, List, ◌+◌, ◌*◌, ◌<◌, ◌≤◌, length};
ghost use Rattle.hash_signature_model.specs.Parameters.{chains, leaves};
ghost use Rattle.hash_signature_model.specs.OneTime.{chain_end, one_time_key, candidate_key};
ghost use Rattle.lms_core.specs.Fours.{AreHeads};
ghost use Rattle.lms_core.specs.Kept.{at};

use crate::chains::walk_four;
use crate::hashing::{begin_key, derive_four, heads_of};
use crate::leaf::Leaf;
use crate::walks::{PLACES, Walks, digits, split_values};
use hash_signature_model::{PrivateKey, Width};
use sha2::Digest;
use sha256_lanes::{Heads, Values};

/// The ends of the chains i of four leaves (RFC 8554, section 4.3).
fn end_four(w: Width, heads: &Heads, seeds: &Values, i: u16) -> [[u8; 32]; 4]
    ensures { (id : List ℕ) (first k : ℕ) → AreHeads id first heads.now → k < 4 → at result k ≡ chain_end w id (at seeds.now k) (first + k) i }
{
    let start = derive_four(heads, seeds, i);
    walk_four(heads, i, w.step_count(), start).to_bytes()
}

/// The one-time public keys of four leaves, from leaf number `first` on (RFC 8554, section 4.3).
pub fn make_keys(key: &PrivateKey, first: u32) -> [[u8; 32]; 4]
    requires { first + 4 ≤ leaves key.now.set.h }
    ensures { (k : ℕ) → k < 4 → at result k ≡ one_time_key key.now.set.w key.now.id key.now.seed (first + k) }
{
    let heads = heads_of(&key.id, first);
    let seeds = Values::of(&[key.seed; 4]);
    let mut hasher0 = begin_key(&key.id, first);
    let mut hasher1 = begin_key(&key.id, first + 1);
    let mut hasher2 = begin_key(&key.id, first + 2);
    let mut hasher3 = begin_key(&key.id, first + 3);
    'chains: for i in 0..key.set.w.chain_count() {
        let [end0, end1, end2, end3] = end_four(key.set.w, &heads, &seeds, i);
        hasher0.update(&end0[..]);
        hasher1.update(&end1[..]);
        hasher2.update(&end2[..]);
        hasher3.update(&end3[..]);
    }
    [
        hasher0.finalize(),
        hasher1.finalize(),
        hasher2.finalize(),
        hasher3.finalize(),
    ]
}

/// The candidate for the one-time public key, from a signature's values and the code of the message (RFC 8554,
/// algorithm 4b).
pub fn make_candidate(
    w: Width,
    id: &[u8; 16],
    leaf: u32,
    code: &[u8; 34],
    values: &[u8],
) -> [u8; 32]
    requires { length values.now ≡ 32 * chains w }
    ensures { result ≡ candidate_key w id.now leaf code.now values.now }
{
    let steps = w.step_count();
    let walks = Walks {
        values: split_values(w, values),
        from: digits(w, code, steps),
        to: [steps; PLACES],
    };
    let ends = walks.walk_all(&Leaf::of(id, leaf));
    let mut hasher = begin_key(id, leaf);
    'chains: for i in 0..w.chain_count() {
        hasher.update(&ends[i as usize][..]);
    }
    hasher.finalize()
}
