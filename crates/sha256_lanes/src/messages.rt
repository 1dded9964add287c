//! Four messages of 55 bytes side by side, and their digests.

ghost use Rattle.std.specs.Prelude.{◌≡◌, ℕ, List, ◌++◌, ◌+◌, ◌*◌, ◌/◌, ◌%◌, ◌^◌, ◌<◌, ◌≤◌, length, take, drop, slice_index};
ghost use Rattle.sha2.specs.Sha256.{digest_bytes, sha256};
ghost use Rattle.std.specs.Int.{w32, to_be_bytes};
ghost use Rattle.sha256_lanes.specs.Lanes.{AreThree, bytes_at};

use crate::block::compress;
use crate::words::add;
use std::marker::Model;
use std::simd::u32x4;

/// The first 20 bytes of four messages. Contracts see the list of these four lists.
#[derive(Drop)]
pub struct Heads {
    a: u32x4,
    b: u32x4,
    c: u32x4,
    d: u32x4,
    e: u32x4,
}

/// Four values of 32 bytes. Contracts see the list of these four lists.
#[derive(Drop)]
pub struct Values {
    a: u32x4,
    b: u32x4,
    c: u32x4,
    d: u32x4,
    e: u32x4,
    f: u32x4,
    g: u32x4,
    h: u32x4,
}

/// Word k of some bytes, the high byte first.
fn word(bytes: &[u8], k: usize) -> u32
    requires { 4 * k + 4 ≤ length bytes.now }
    ensures { to_be_bytes w32 result ≡ take 4 (drop (4 * k) bytes.now) }
{
    u32::from_be_bytes([
        bytes[4 * k],
        bytes[4 * k + 1],
        bytes[4 * k + 2],
        bytes[4 * k + 3],
    ])
}

/// Word k of each head.
fn head_word(heads: &[[u8; 20]; 4], k: usize) -> u32x4
    requires { k < 5 }
    ensures long { (j : ℕ) → j < 4 → length (bytes_at heads.now j) ≡ 20 }
    ensures words { (j : ℕ) → j < 4 → to_be_bytes w32 (slice_index result j) ≡ take 4 (drop (4 * k) (bytes_at heads.now j)) }
    ensures fits { (j : ℕ) → j < 4 → slice_index result j < 2 ^ 32 }
{
    u32x4::from_array([
        word(&heads[0][..], k),
        word(&heads[1][..], k),
        word(&heads[2][..], k),
        word(&heads[3][..], k),
    ])
}

/// Word k of each value.
fn value_word(values: &[[u8; 32]; 4], k: usize) -> u32x4
    requires { k < 8 }
    ensures long { (j : ℕ) → j < 4 → length (bytes_at values.now j) ≡ 32 }
    ensures words { (j : ℕ) → j < 4 → to_be_bytes w32 (slice_index result j) ≡ take 4 (drop (4 * k) (bytes_at values.now j)) }
{
    u32x4::from_array([
        word(&values[0][..], k),
        word(&values[1][..], k),
        word(&values[2][..], k),
        word(&values[3][..], k),
    ])
}

/// One lane's words as bytes, the high bytes first.
fn spell(words: &[u32; 8]) -> [u8; 32]
    ensures { result ≡ digest_bytes words.now 8 }
{
    let mut out = [0u8; 32];
    'words: for k in 0..8 {
        out[4 * k..4 * k + 4].copy_from_slice(&words[k].to_be_bytes());
    }
    out
}

impl Model for Heads {
    ghost use Rattle.std.specs.Prelude.{List, ℕ, [], ◌∷◌};
    ghost use Rattle.sha256_lanes.specs.Lanes.{spelled_5, AreWords};

    ghost Value = { List (List ℕ) };

    ghost view = { λ v. spelled_5 v.a v.b v.c v.d v.e };

    ghost invariant = { λ v. AreWords v.a v.b v.c v.d v.e };
}

impl Heads {
    /// These four heads.
    pub fn of(heads: &[[u8; 20]; 4]) -> Heads
        ensures { result ≡ heads.now }
    {
        Heads {
            a: head_word(heads, 0),
            b: head_word(heads, 1),
            c: head_word(heads, 2),
            d: head_word(heads, 3),
            e: head_word(heads, 4),
        }
    }
}

impl Model for Values {
    ghost use Rattle.std.specs.Prelude.{List, ℕ, [], ◌∷◌};
    ghost use Rattle.sha256_lanes.specs.Lanes.{spelled_8};

    ghost Value = { List (List ℕ) };

    ghost view = { λ v. spelled_8 v.a v.b v.c v.d v.e v.f v.g v.h };
}

impl Values {
    /// These four values.
    pub fn of(values: &[[u8; 32]; 4]) -> Values
        ensures { result ≡ values.now }
    {
        Values {
            a: value_word(values, 0),
            b: value_word(values, 1),
            c: value_word(values, 2),
            d: value_word(values, 3),
            e: value_word(values, 4),
            f: value_word(values, 5),
            g: value_word(values, 6),
            h: value_word(values, 7),
        }
    }

    /// The words of one lane.
    #[inline(always)]
    fn lane(&self, j: usize) -> [u32; 8]
        requires { j < 4 }
        ensures four { length self.now ≡ 4 }
        ensures bytes { digest_bytes result 8 ≡ bytes_at self.now j }
    {
        [
            self.a.to_array()[j],
            self.b.to_array()[j],
            self.c.to_array()[j],
            self.d.to_array()[j],
            self.e.to_array()[j],
            self.f.to_array()[j],
            self.g.to_array()[j],
            self.h.to_array()[j],
        ]
    }

    /// The four values as bytes.
    pub fn to_bytes(&self) -> [[u8; 32]; 4]
        ensures { result ≡ self.now }
    {
        [
            spell(&self.lane(0)),
            spell(&self.lane(1)),
            spell(&self.lane(2)),
            spell(&self.lane(3)),
        ]
    }
}

/// The words that stand one byte after the border of two words: the last three bytes of the one and the first of the
/// other.
#[inline(always)]
fn across(left: u32x4, right: u32x4) -> u32x4
    ensures { (j : ℕ) → j < 4 → slice_index result j ≡ slice_index left j % 2 ^ 24 * 2 ^ 8 + slice_index right j / 2 ^ 24 % 2 ^ 8 }
{
    add(left << u32x4::splat(8), right >> u32x4::splat(24))
}

/// A word of three bytes, whose first byte is 0.
fn three(bytes: &[u8; 3]) -> u32
    ensures { AreThree bytes.now result }
{
    let [first, second, third] = *bytes;
    u32::from_be_bytes([0, first, second, third])
}

/// The digests of four messages: each is its head, the three bytes of its lane, and its value (FIPS 180-4, section 6.2).
fn hash_lanes(heads: &Heads, middle: u32x4, values: &Values) -> Values
    ensures { (j : ℕ) (bytes : List ℕ) → j < 4 → AreThree bytes (slice_index middle j) → bytes_at result j ≡ sha256 (bytes_at heads.now j ++ bytes ++ bytes_at values.now j) }
{
    let words = [
        heads.a,
        heads.b,
        heads.c,
        heads.d,
        heads.e,
        across(middle, values.a),
        across(values.a, values.b),
        across(values.b, values.c),
        across(values.c, values.d),
        across(values.d, values.e),
        across(values.e, values.f),
        across(values.f, values.g),
        across(values.g, values.h),
        across(values.h, u32x4::splat(0x8000_0000)),
        u32x4::splat(0),
        u32x4::splat(440),
    ];
    let [a, b, c, d, e, f, g, h] = compress(&words);
    Values {
        a,
        b,
        c,
        d,
        e,
        f,
        g,
        h,
    }
}

/// The digests of four messages: each is its head, the three bytes, and its value (FIPS 180-4, section 6.2).
pub fn hash_four(heads: &Heads, middle: [u8; 3], values: &Values) -> Values
    ensures { (j : ℕ) → j < 4 → bytes_at result j ≡ sha256 (bytes_at heads.now j ++ middle ++ bytes_at values.now j) }
{
    hash_lanes(heads, u32x4::splat(three(&middle)), values)
}

/// The digests of four messages: each is its head, three bytes of its own, and its value (FIPS 180-4, section 6.2).
pub fn hash_four_each(heads: &Heads, middles: &[[u8; 3]; 4], values: &Values) -> Values
    ensures { (j : ℕ) → j < 4 → bytes_at result j ≡ sha256 (bytes_at heads.now j ++ bytes_at middles.now j ++ bytes_at values.now j) }
{
    let words = u32x4::from_array([
        three(&middles[0]),
        three(&middles[1]),
        three(&middles[2]),
        three(&middles[3]),
    ]);
    hash_lanes(heads, words, values)
}
