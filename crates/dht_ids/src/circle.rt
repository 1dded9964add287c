//! Distances and arcs on the circle of 2^160 places. Identifiers are big-endian numbers of 160 bits.

ghost use Rattle.std.specs.Prelude.{◌≡◌, ◌+◌, ◌-◌, ◌*◌, ◌%◌, ◌^◌, ◌<◌, ◌≤◌, drop, nat_eq};
ghost use Rattle.std.specs.Ordering.{nat_cmp};
ghost use Rattle.ring_model.specs.Arc.{is_strictly_between};
ghost use Rattle.ring_model.specs.Circle.{be_number, number, identifier_bits, circle_size, clockwise, is_between};

use ivy_base::Key;
use std::cmp::Ordering;

/// How many bytes an identifier has.
const ID_BYTES: usize = 20;

/// How far `to` is after `from`, clockwise, modulo 2^160.
pub fn distance(from: &Key, to: &Key) -> Key
    ensures { number result ≡ clockwise (number from.now) (number to.now) }
{
    let mut gap = [0u8; ID_BYTES];
    let mut borrow: u16 = 0;
    let mut i: usize = ID_BYTES;
    while i > 0 {
        i -= 1;
        let rest: u16 = 256 + to.0[i] as u16 - from.0[i] as u16 - borrow;
        gap[i] = (rest % 256) as u8;
        borrow = 1 - rest / 256;
    }
    Key(gap)
}

/// The place that is `by` clockwise after `from`, modulo 2^160.
fn moved(from: &Key, by: &Key) -> Key
    ensures { number result ≡ (number from.now + number by.now) % circle_size }
{
    let mut place = [0u8; ID_BYTES];
    let mut carry: u16 = 0;
    let mut i: usize = ID_BYTES;
    while i > 0 {
        i -= 1;
        let sum: u16 = from.0[i] as u16 + by.0[i] as u16 + carry;
        place[i] = (sum % 256) as u8;
        carry = sum / 256;
    }
    Key(place)
}

/// The place at which the node's finger k begins: 2^(k-1) clockwise after the node, modulo 2^160. k is 1 to 160
/// (Chord, SIGCOMM 2001, section 4.3).
pub fn finger_start(n: &Key, k: u32) -> Key
    requires { (1 ≤ k) × (k ≤ identifier_bits) }
    ensures { number result ≡ (number n.now + 2 ^ (k - 1)) % circle_size }
{
    let bit = (k - 1) as usize;
    let mut power = [0u8; ID_BYTES];
    power[ID_BYTES - 1 - bit / 8] = 1 << (bit % 8);
    moved(n, &Key(power))
}

/// How the identifiers' numbers compare. Both are below 2^160.
pub fn order(a: &Key, b: &Key) -> Ordering
    ensures order { result ≡ nat_cmp (number a.now) (number b.now) }
    ensures left { number a.now < circle_size }
    ensures right { number b.now < circle_size }
{
    let high = double_word(a, 0).cmp(&double_word(b, 0));
    if high != Ordering::Equal {
        return high;
    }
    let middle = double_word(a, 8).cmp(&double_word(b, 8));
    if middle != Ordering::Equal {
        return middle;
    }
    last_word(a).cmp(&last_word(b))
}

/// The number that the eight bytes from that place on are.
fn double_word(key: &Key, at: usize) -> u64
    requires { at + 8 ≤ 20 }
    ensures value { be_number (drop at key.now.0) ≡ result * 256 ^ (12 - at) + be_number (drop (at + 8) key.now.0) }
    ensures rest { be_number (drop (at + 8) key.now.0) < 256 ^ (12 - at) }
{
    u64::from_be_bytes([
        key.0[at],
        key.0[at + 1],
        key.0[at + 2],
        key.0[at + 3],
        key.0[at + 4],
        key.0[at + 5],
        key.0[at + 6],
        key.0[at + 7],
    ])
}

/// The number that the last four bytes are.
fn last_word(key: &Key) -> u32
    ensures { be_number (drop 16 key.now.0) ≡ result }
{
    u32::from_be_bytes([key.0[16], key.0[17], key.0[18], key.0[19]])
}

/// Whether both identifiers are one number.
pub fn same(a: &Key, b: &Key) -> bool
    ensures { result ≡ nat_eq (number a.now) (number b.now) }
{
    order(a, b) == Ordering::Equal
}

/// Whether x lies on the arc from a clockwise to b, without a and with b. That is the whole circle where a is b.
pub fn between(a: &Key, x: &Key, b: &Key) -> bool
    ensures { result ≡ is_between (number a.now) (number x.now) (number b.now) }
{
    let behind = order(a, x) == Ordering::Less;
    let before = order(x, b) != Ordering::Greater;
    if order(a, b) == Ordering::Less {
        behind && before
    } else {
        behind || before
    }
}

/// Whether x lies strictly between a and b, clockwise. Where a is b, all but a does.
pub fn inside(a: &Key, x: &Key, b: &Key) -> bool
    ensures { result ≡ is_strictly_between (number a.now) (number x.now) (number b.now) }
{
    let behind = order(a, x) == Ordering::Less;
    let before = order(x, b) == Ordering::Less;
    if order(a, b) == Ordering::Less {
        behind && before
    } else {
        behind || before
    }
}
