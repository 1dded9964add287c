//! The hashes of RFC 8554, each of a few pieces one after the other.

ghost use Rattle.std.specs.Prelude.{◌≡◌, ℕ, List, [], ◌∷◌, ◌++◌, ◌*◌, ◌+◌, ◌^◌, ◌<◌, ◌≤◌, length};
ghost use Rattle.sha2.specs.Hashers.{Holds256};
ghost use Rattle.hash_signature_model.specs.OneTime.{u32_string, half, chain_step, derived, randomizer_of, lower_seed_of, lower_id_of, digest_of, value_at};
ghost use Rattle.hash_signature_model.specs.Nodes.{leaf_node, inner_node, joined_above};
ghost use Rattle.lms_core.specs.Fours.{AreHeads};
ghost use Rattle.lms_core.specs.Kept.{at};

use sha2::{Digest, Sha256};
use sha256_lanes::{Heads, Values, hash_four};

/// The domain of one-time public keys (RFC 8554, section 7.1).
const D_PBLC: [u8; 2] = [0x80, 0x80];

/// The domain of message digests.
const D_MESG: [u8; 2] = [0x81, 0x81];

/// The domain of the leaves' nodes.
const D_LEAF: [u8; 2] = [0x82, 0x82];

/// The domain of the inner nodes.
const D_INTR: [u8; 2] = [0x83, 0x83];

/// A hasher of the identifier and a number, with which each hash begins.
fn begin(id: &[u8; 16], number: u32) -> Sha256
    ensures { Holds256 result (id.now ++ u32_string number) }
{
    let mut hasher = Sha256::new();
    hasher.update(&id[..]);
    hasher.update(&number.to_be_bytes());
    hasher
}

/// A hasher of what the hash of a one-time public key begins with (RFC 8554, section 4.3).
pub fn begin_key(id: &[u8; 16], leaf: u32) -> Sha256
    ensures { Holds256 result (id.now ++ u32_string leaf ++ 0x80 ∷ 0x80 ∷ []) }
{
    let mut hasher = begin(id, leaf);
    hasher.update(&D_PBLC);
    hasher
}

/// The identifier and a number, with which each hash begins.
pub fn head_of(id: &[u8; 16], number: u32) -> [u8; 20]
    ensures { result ≡ id.now ++ u32_string number }
{
    let mut head = [0u8; 20];
    head[..16].copy_from_slice(&id[..]);
    head[16..].copy_from_slice(&number.to_be_bytes());
    head
}

/// The identifier and each of four numbers, from `first` on.
pub fn heads_of(id: &[u8; 16], first: u32) -> Heads
    requires { first + 4 ≤ 2 ^ 32 }
    ensures { AreHeads id.now first result }
{
    Heads::of(&[
        head_of(id, first),
        head_of(id, first + 1),
        head_of(id, first + 2),
        head_of(id, first + 3),
    ])
}

/// Step j of chain i (RFC 8554, sections 4.3, 4.5 and 4.6).
pub fn step(id: &[u8; 16], leaf: u32, i: u16, j: u8, value: &[u8; 32]) -> [u8; 32]
    ensures { result ≡ chain_step id.now leaf i j value.now }
{
    let mut hasher = begin(id, leaf);
    hasher.update(&i.to_be_bytes());
    hasher.update(&[j]);
    hasher.update(&value[..]);
    hasher.finalize()
}

/// Step j of the chains i of four leaves (RFC 8554, section 4.3).
pub fn step_four(heads: &Heads, i: u16, j: u8, values: &Values) -> Values
    ensures { (id : List ℕ) (first k : ℕ) → AreHeads id first heads.now → k < 4 → at result k ≡ chain_step id (first + k) i j (at values.now k) }
{
    let [high, low] = i.to_be_bytes();
    hash_four(heads, [high, low, j], values)
}

/// The numbers of a chain and a step, with which a step's hash goes on.
pub fn middle(i: u16, j: u8) -> [u8; 3]
    ensures { result ≡ half i ++ j ∷ [] }
{
    let [high, low] = i.to_be_bytes();
    [high, low, j]
}

/// The secret value i of each of four leaves (RFC 8554, appendix A).
pub fn derive_four(heads: &Heads, seeds: &Values, i: u16) -> Values
    ensures { (id : List ℕ) (first k : ℕ) → AreHeads id first heads.now → k < 4 → at result k ≡ derived id (at seeds.now k) (first + k) i }
{
    step_four(heads, i, 0xff, seeds)
}

/// A secret value of a leaf (RFC 8554, appendix A).
pub fn derive(id: &[u8; 16], seed: &[u8; 32], leaf: u32, i: u16) -> [u8; 32]
    ensures { result ≡ derived id.now seed.now leaf i }
{
    let mut hasher = begin(id, leaf);
    hasher.update(&i.to_be_bytes());
    hasher.update(&[0xff]);
    hasher.update(&seed[..]);
    hasher.finalize()
}

/// The value C of a leaf's signature. RFC 8554 sets it to a random string; this derivation is this project's own, so
/// that signatures are deterministic.
pub fn derive_randomizer(id: &[u8; 16], seed: &[u8; 32], leaf: u32) -> [u8; 32]
    ensures { result ≡ randomizer_of id.now seed.now leaf }
{
    derive(id, seed, leaf, 0xfffd)
}

/// The seed of the tree below a leaf, from the identifier and the seed of the leaf's own tree. This derivation is this
/// project's own.
pub fn lower_seed(id: &[u8; 16], seed: &[u8; 32], leaf: u32) -> [u8; 32]
    ensures { result ≡ lower_seed_of id.now seed.now leaf }
{
    derive(id, seed, leaf, 0xfffe)
}

/// The identifier of the tree below a leaf, from the identifier and the seed of the leaf's own tree. This derivation is
/// this project's own.
pub fn lower_id(id: &[u8; 16], seed: &[u8; 32], leaf: u32) -> [u8; 16]
    ensures { result ≡ lower_id_of id.now seed.now leaf }
{
    let whole = derive(id, seed, leaf, 0xffff);
    let mut lower = [0u8; 16];
    lower.copy_from_slice(&whole[..16]);
    lower
}

/// The digest Q of a message that a leaf signs (RFC 8554, section 4.5).
pub fn digest_message(id: &[u8; 16], leaf: u32, randomizer: &[u8], message: &[u8]) -> [u8; 32]
    ensures { result ≡ digest_of id.now leaf randomizer.now message.now }
{
    let mut hasher = begin(id, leaf);
    hasher.update(&D_MESG);
    hasher.update(randomizer);
    hasher.update(message);
    hasher.finalize()
}

/// The node of a leaf, from its one-time public key (RFC 8554, section 5.3).
pub fn hash_leaf(id: &[u8; 16], r: u32, key: &[u8; 32]) -> [u8; 32]
    ensures { result ≡ leaf_node id.now r key.now }
{
    let mut hasher = begin(id, r);
    hasher.update(&D_LEAF);
    hasher.update(&key[..]);
    hasher.finalize()
}

/// Node r, from the two nodes below it (RFC 8554, section 5.3).
pub fn hash_inner(id: &[u8; 16], r: u32, left: &[u8; 32], right: &[u8; 32]) -> [u8; 32]
    ensures { result ≡ inner_node id.now r left.now right.now }
{
    let mut hasher = begin(id, r);
    hasher.update(&D_INTR);
    hasher.update(&left[..]);
    hasher.update(&right[..]);
    hasher.finalize()
}

/// The node above node r and the one beside it (RFC 8554, algorithm 6a).
pub fn hash_above(id: &[u8; 16], r: u32, mine: &[u8; 32], other: &[u8; 32]) -> [u8; 32]
    ensures { result ≡ joined_above id.now r mine.now other.now }
{
    if r % 2 == 1 {
        hash_inner(id, r / 2, other, mine)
    } else {
        hash_inner(id, r / 2, mine, other)
    }
}

/// Value i of values of 32 bytes one after the other.
pub fn value(values: &[u8], i: usize) -> [u8; 32]
    requires { 32 * i + 32 ≤ length values.now }
    ensures { result ≡ value_at values.now i }
{
    let mut value = [0u8; 32];
    value.copy_from_slice(&values[32 * i..32 * i + 32]);
    value
}
