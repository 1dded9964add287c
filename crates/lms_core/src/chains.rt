//! Chains of a one-time signature, and the coefficients that say how far each goes.

ghost use Rattle.std.specs.Prelude.{◌≡◌, ℕ, List, ◌<◌, ◌≤◌, ◌+◌, ◌-◌, ◌*◌, length};
ghost use Rattle.hash_signature_model.specs.Parameters.{top, digest_digits, digits_in_byte};
ghost use Rattle.hash_signature_model.specs.OneTime.{chain, coefficient, lacking, checked};
ghost use Rattle.lms_core.specs.Fours.{AreHeads};
ghost use Rattle.lms_core.specs.Kept.{at};

use crate::hashing::{step, step_four};
use crate::leaf::Leaf;
use hash_signature_model::Width;
use sha256_lanes::{Heads, Values};

/// The value after the steps of chain i from number `from` up to and without number `to`.
pub fn walk(leaf: &Leaf, i: u16, from: u8, to: u8, start: &[u8; 32]) -> [u8; 32]
    requires { from ≤ to }
    ensures { result ≡ chain leaf.now.id leaf.now.number i from (to - from) start.now }
{
    let mut value = *start;
    'steps: for j in from..to {
        value = step(&leaf.id, leaf.number, i, j, &value);
    }
    value
}

/// The values after the first steps of the chains i of four leaves.
pub fn walk_four(heads: &Heads, i: u16, steps: u8, start: Values) -> Values
    ensures { (id : List ℕ) (first k : ℕ) → AreHeads id first heads.now → k < 4 → at result k ≡ chain id (first + k) i 0 steps (at start k) }
{
    let mut values = start;
    'steps: for j in 0..steps {
        values = step_four(heads, i, j, &values);
    }
    values
}

/// Coefficient i of the bytes (RFC 8554, section 3.1.3).
#[tactic(auto, unfolding(hash_signature_model::specs::OneTime::coefficient))]
pub fn digit(w: Width, bytes: &[u8], i: u16) -> u8
    requires { i < digits_in_byte w * length bytes.now }
    ensures value { result ≡ coefficient w bytes.now i }
    ensures bound { result ≤ top w }
{
    match w {
        Width::W4 => {
            let byte = bytes[i as usize / 2];
            if i % 2 == 0 { byte / 16 } else { byte % 16 }
        }
        Width::W8 => bytes[i as usize],
    }
}

/// The sum of what the coefficients of a digest lack to the greatest.
fn sum_lacking(w: Width, digest: &[u8; 32]) -> u16
    ensures { result ≡ lacking w digest.now (digest_digits w) }
{
    let greatest = w.step_count();
    let mut sum = 0u16;
    'digits: for i in 0..w.digit_count() {
        sum += (greatest - digit(w, &digest[..], i)) as u16;
    }
    sum
}

/// A digest and its checksum (RFC 8554, section 4.4).
pub fn with_checksum(w: Width, digest: &[u8; 32]) -> [u8; 34]
    ensures { result ≡ checked w digest.now }
{
    let sum = sum_lacking(w, digest) * w.checksum_scale();
    let [high, low] = sum.to_be_bytes();
    let mut code = [0u8; 34];
    code[..32].copy_from_slice(&digest[..]);
    code[32] = high;
    code[33] = low;
    code
}
