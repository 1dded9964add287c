//! The chains of one leaf, walked four side by side.

ghost use Rattle.std.specs.Prelude.{◌≡◌, ℕ, ◌+◌, ◌*◌, ◌<◌, ◌≤◌, length, slice_index};
ghost use Rattle.hash_signature_model.specs.Parameters.{top, chains};
ghost use Rattle.hash_signature_model.specs.OneTime.{chain, coefficient, derived, value_at};
ghost use Rattle.lms_core.specs.Fours.{AreLanes};
ghost use Rattle.lms_core.specs.Kept.{at};

use crate::chains::{digit, walk};
use crate::hashing::value;
use crate::leaf::Leaf;
use hash_signature_model::Width;
use sha256_lanes::Values;

/// How many places for chains there are: 67, the most that a signature has, as whole fours.
pub const PLACES: usize = 68;

/// The secret values of a leaf (RFC 8554, appendix A), four at a time.
pub fn derive_all(leaf: &Leaf, seed: &[u8; 32], w: Width) -> [[u8; 32]; PLACES]
    ensures { (i : ℕ) → i < chains w → at result i ≡ derived leaf.now.id seed.now leaf.now.number i }
{
    let seeds = Values::of(&[*seed; 4]);
    let mut values = [[0u8; 32]; PLACES];
    'fours: for four in 0..(w.chain_count() + 3) / 4 {
        let [value0, value1, value2, value3] = leaf.derive_each(&seeds, 4 * four).to_bytes();
        let place = 4 * four as usize;
        values[place] = value0;
        values[place + 1] = value1;
        values[place + 2] = value2;
        values[place + 3] = value3;
    }
    values
}

/// The coefficients of a code, and another number where the width has no chain.
pub fn digits(w: Width, code: &[u8; 34], otherwise: u8) -> [u8; PLACES]
    requires { otherwise ≤ top w }
    ensures values { (i : ℕ) → i < chains w → slice_index result i ≡ coefficient w code.now i }
    ensures bound { (i : ℕ) → i < PLACES → slice_index result i ≤ top w }
{
    let mut digits = [otherwise; PLACES];
    'chains: for i in 0..w.chain_count() {
        digits[i as usize] = digit(w, &code[..], i);
    }
    digits
}

/// The values of a signature, each at the place of its chain.
pub fn split_values(w: Width, values: &[u8]) -> [[u8; 32]; PLACES]
    requires { length values.now ≡ 32 * chains w }
    ensures { (i : ℕ) → i < chains w → at result i ≡ value_at values.now i }
{
    let mut split = [[0u8; 32]; PLACES];
    'chains: for i in 0..w.chain_count() as usize {
        split[i] = value(values, i);
    }
    split
}

/// Each number and a step count.
fn later(numbers: &[u8; 4], steps: u8) -> [u8; 4]
    requires { (k : ℕ) → k < 4 → slice_index numbers.now k + steps ≤ 255 }
    ensures { (k : ℕ) → k < 4 → slice_index result k ≡ slice_index numbers.now k + steps }
{
    [
        numbers[0] + steps,
        numbers[1] + steps,
        numbers[2] + steps,
        numbers[3] + steps,
    ]
}

/// The values after some steps of four chains of one leaf, each from its own number on.
fn walk_each(leaf: &Leaf, chains: &[u16; 4], from: &[u8; 4], steps: u8, start: Values) -> Values
    requires { (k : ℕ) → k < 4 → slice_index from.now k + steps ≤ 255 }
    ensures { (k : ℕ) → k < 4 → at result k ≡ chain leaf.now.id leaf.now.number (slice_index chains.now k) (slice_index from.now k) steps (at start k) }
{
    let mut values = start;
    'steps: for step in 0..steps {
        values = leaf.step_each(chains, &later(from, step), &values);
    }
    values
}

/// The chains of a leaf on their way. Chain i has its value before step number `from[i]`, and ends before step number
/// `to[i]`. A chain that the width doesn't have ends where it stands.
#[derive(Drop)]
pub struct Walks {
    pub values: [[u8; 32]; PLACES],
    pub from: [u8; PLACES],
    pub to: [u8; PLACES],
}

impl Walks {
    ghost use Rattle.lms_core.specs.Walks.{HasGone, MayGo, end_in, left_to};

    /// How many steps the chain at a place has to go.
    fn steps_left(&self, place: u16) -> u8
        requires place { place < PLACES }
        requires way { MayGo self.now }
        ensures { result ≡ left_to self.now place }
    {
        self.to[place as usize] - self.from[place as usize]
    }

    /// The lane whose chain has the fewest steps to go.
    fn shortest(&self, lanes: &[u16; 4]) -> usize
        requires lanes { AreLanes lanes.now }
        requires way { MayGo self.now }
        ensures lane { result < 4 }
        ensures least { (k : ℕ) → k < 4 → left_to self.now (slice_index lanes.now result) ≤ left_to self.now (slice_index lanes.now k) }
    {
        let mut least = 0;
        'lanes: for lane in 1..4 {
            if self.steps_left(lanes[lane]) < self.steps_left(lanes[least]) {
                least = lane;
            }
        }
        least
    }

    /// The numbers of the steps before which the chains in the lanes stand.
    fn numbers_in(&self, lanes: &[u16; 4]) -> [u8; 4]
        requires { AreLanes lanes.now }
        ensures { (k : ℕ) → k < 4 → slice_index result k ≡ slice_index self.now.from (slice_index lanes.now k) }
    {
        [
            self.from[lanes[0] as usize],
            self.from[lanes[1] as usize],
            self.from[lanes[2] as usize],
            self.from[lanes[3] as usize],
        ]
    }

    /// The values of the chains in the lanes.
    fn values_in(&self, lanes: &[u16; 4]) -> Values
        requires { AreLanes lanes.now }
        ensures { (k : ℕ) → k < 4 → at result k ≡ at self.now.values (slice_index lanes.now k) }
    {
        Values::of(&[
            self.values[lanes[0] as usize],
            self.values[lanes[1] as usize],
            self.values[lanes[2] as usize],
            self.values[lanes[3] as usize],
        ])
    }

    /// Walks the chains in the lanes some steps. Two lanes may have the same chain.
    fn walk_lanes(&mut self, leaf: &Leaf, lanes: &[u16; 4], steps: u8)
        requires lanes { AreLanes lanes.now }
        requires way { MayGo self.old }
        requires room { (k : ℕ) → k < 4 → steps ≤ left_to self.old (slice_index lanes.now k) }
        ensures { HasGone leaf.now.id leaf.now.number self.old self.new }
    {
        let numbers = self.numbers_in(lanes);
        let start = self.values_in(lanes);
        let reached = later(&numbers, steps);
        let ends = walk_each(leaf, lanes, &numbers, steps, start).to_bytes();
        'lanes: for lane in 0..4 {
            let place = lanes[lane] as usize;
            self.values[place] = ends[lane];
            self.from[place] = reached[lane];
        }
    }

    /// Walks the chains in the lanes until the first of them is at its end, and gives that lane.
    fn walk_shortest(&mut self, leaf: &Leaf, lanes: &[u16; 4]) -> usize
        requires lanes { AreLanes lanes.now }
        requires way { MayGo self.old }
        ensures lane { result < 4 }
        ensures gone { HasGone leaf.now.id leaf.now.number self.old self.new }
    {
        let lane = self.shortest(lanes);
        let steps = self.steps_left(lanes[lane]);
        if steps > 0 {
            self.walk_lanes(leaf, lanes, steps);
        }
        lane
    }

    /// Walks the chains four side by side. One that is at its end leaves its lane to the next; the last few stay on their
    /// way.
    fn walk_fours(&mut self, leaf: &Leaf)
        requires { MayGo self.old }
        ensures { HasGone leaf.now.id leaf.now.number self.old self.new }
    {
        let mut lanes = [0u16, 1, 2, 3];
        'places: for place in 4..PLACES as u16 {
            let lane = self.walk_shortest(leaf, &lanes);
            lanes[lane] = place;
        }
    }

    /// The values at the ends of the chains (RFC 8554, sections 4.5 and 4.6).
    pub fn walk_all(mut self, leaf: &Leaf) -> [[u8; 32]; PLACES]
        requires { MayGo self }
        ensures { (i : ℕ) → i < PLACES → at result i ≡ end_in leaf.now.id leaf.now.number self i }
    {
        self.walk_fours(leaf);
        let mut ends = [[0u8; 32]; PLACES];
        'places: for i in 0..PLACES {
            ends[i] = walk(leaf, i as u16, self.from[i], self.to[i], &self.values[i]);
        }
        ends
    }
}
