//! The form of a proof's bytes.

ghost use Rattle.std.specs.Prelude.{◌≡◌, ◌+◌, ◌≤◌, ◌↔◌, map, vec_len, IsTrue, IfOk, IfErr, IfSome, IfNone};
ghost use Rattle.std.specs.List.{flat_map};
ghost use Rattle.ivy_base.specs.declared.key.PubKey.{PubKey};
ghost use Rattle.wire_model.specs.Xdr.{word, opaque, array, AreSoMany, IsAny};
ghost use Rattle.wire_model.specs.Parts.{Reads};
ghost use Rattle.log_model.specs.Spelling.{most_records};
ghost use Rattle.block_parts.specs.Parts.{constant_bytes, IsAtMost};
ghost use Rattle.fork_model.specs.Bytes.{fork_bytes, proof_tag, most_blocks};
ghost use Rattle.fork_proof.specs.Forms.{Head as AnyHead, IsShort, IsProofOf};
ghost use Rattle.fork_proof.specs.Reading.{IsFrontOfProof, front_bytes, AreBlocks, head_of, AreHeads, AreKept, proof_of, IsNoProof};

use crate::claim::Claim;
use crate::fault::ProofFault;
use ivy_base::Memory;
use log_records::Head;
use std::alloc::Global;
use xdr_codec::Parts;

/// What a proof's bytes begin with, as a number: "IVF1".
const TAG: u32 = 0x4956_4631;

/// The most bytes of a head.
const LONGEST_HEAD: u32 = 16_092;

/// The most blocks of a proof.
const MOST_BLOCKS: u32 = 1_024;

/// A proof, whose parts lie in its bytes.
#[derive(Drop)]
pub struct Proof<'a> {
    /// The head of the smaller number.
    pub low: Claim<'a>,
    /// The head of the greater number, of the same log.
    pub high: Claim<'a>,
    /// As many blocks as the numbers differ by.
    pub blocks: Vec<&'a [u8]>,
}

/// The proof that the bytes are. `Malformed` comes exactly where they are none.
pub fn read_proof<'a>(alloc: Global, bytes: &'a [u8]) -> Result<Proof<'a>, ProofFault>
    ensures ok { IfOk result (λ p. IsProofOf bytes.now (proof_of p)) }
    ensures kept { IfOk result (λ p. AreKept p.low p.high) }
    ensures err { IfErr result (IsNoProof bytes.now) }
{
    let mut parts = Parts::of(bytes);
    let (low, high) = read_front(&mut parts);
    let blocks = read_blocks(alloc, &mut parts)?;
    if !parts.are_read() {
        return Err(ProofFault::Malformed);
    }
    match heads_of(low, high, blocks.len()) {
        Some((low, high)) => Ok(Proof { low, high, blocks }),
        None => Err(ProofFault::Malformed),
    }
}

/// The tag, and the bytes of two heads.
fn read_front<'a>(parts: &mut Parts<'a>) -> (&'a [u8], &'a [u8])
    ensures { Reads IsFrontOfProof front_bytes parts.old ((tt, result.0.now), result.1.now) parts.new }
{
    read_tag(parts);
    let low = parts.opaque(LONGEST_HEAD);
    let high = parts.opaque(LONGEST_HEAD);
    (low, high)
}

/// What the bytes of a proof begin with.
fn read_tag(parts: &mut Parts)
    ensures { Reads IsAny (constant_bytes proof_tag) parts.old tt parts.new }
{
    if parts.u32() != TAG {
        parts.miss();
    }
}

/// The blocks, after their count. The error is: out of memory.
fn read_blocks<'a>(alloc: Global, parts: &mut Parts<'a>) -> Result<Vec<&'a [u8]>, Memory>
    ensures ok { IfOk result (λ blocks. Reads AreBlocks (array opaque) parts.old (map (λ b. b.now) blocks.items) parts.new) }
    ensures few { IfOk result (λ blocks. vec_len blocks ≤ most_blocks) }
{
    let count = read_count(parts);
    read_so_many(alloc, parts, count)
}

/// How many blocks there are. Where there are too many, that is kept in mind, and 0 is said.
fn read_count(parts: &mut Parts) -> u32
    ensures reads { Reads (IsAtMost most_blocks) word parts.old result parts.new }
    ensures few { result ≤ most_blocks }
{
    let count = parts.u32();
    if count <= MOST_BLOCKS {
        count
    } else {
        parts.miss();
        0
    }
}

/// So many blocks. The error is: out of memory.
fn read_so_many<'a>(
    alloc: Global,
    parts: &mut Parts<'a>,
    count: u32,
) -> Result<Vec<&'a [u8]>, Memory>
    ensures reads { IfOk result (λ blocks. Reads (AreSoMany IsShort count) (flat_map opaque) parts.old (map (λ b. b.now) blocks.items) parts.new) }
    ensures size { IfOk result (λ blocks. vec_len blocks ≡ count) }
{
    let mut blocks = Vec::new(alloc);
    'blocks: for _place in 0..count {
        blocks.push(parts.opaque(u32::MAX))?;
    }
    Ok(blocks)
}

/// The heads that the bytes are, where they are of one log and their numbers differ by that count.
fn heads_of<'a>(low: &'a [u8], high: &'a [u8], count: usize) -> Option<(Claim<'a>, Claim<'a>)>
    requires { count ≤ most_blocks }
    ensures some { IfSome result (λ h. AreHeads low.now high.now count h.0.head.owner (head_of h.0.head) (head_of h.1.head)) }
    ensures kept { IfSome result (λ h. AreKept h.0 h.1) }
    ensures none { IfNone result ((owner : PubKey) (one other : AnyHead) → AreHeads low.now high.now count owner one other → ⊥) }
{
    let low = Claim::read(low)?;
    let high = Claim::read(high)?;
    if go_together(&low.head, &high.head, count) {
        Some((low, high))
    } else {
        None
    }
}

/// Whether the heads are of one log, and their numbers differ by that count.
fn go_together(low: &Head, high: &Head, count: usize) -> bool
    requires number { low.now.seq ≤ most_records }
    requires few { count ≤ most_blocks }
    ensures { IsTrue result ↔ (high.now.owner ≡ low.now.owner) × (low.now.seq + count ≡ high.now.seq) }
{
    high.owner == low.owner && low.seq as usize + count == high.seq as usize
}
