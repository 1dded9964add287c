//! The check of a proof.

ghost use Rattle.std.specs.Prelude.{◌≡◌, ◌≢◌, ◌↔◌, IsTrue, None, IfOk, IfErr, OnOk, MatchOption};
ghost use Rattle.log_model.specs.Record.{Record as AnyRecord};
ghost use Rattle.log_records.specs.Records.{IsRead};
ghost use Rattle.fork_proof.specs.Forms.{IsProof, IsLink};
ghost use Rattle.fork_proof.specs.Reading.{AreKept, proof_of, FailsSigning, BreaksIn};
ghost use Rattle.fork_proof.specs.Checks.{AreSigned, Leads, IsShown, Fails, forked_of, ShowsFork, ShowsNone};

use crate::fault::ProofFault;
use crate::form::{Proof, read_proof};
use ivy_base::{Key, Memory, PubKey, head_key, name_of};
use log_records::{Record, RecordFault};
use std::alloc::Global;

/// A log that was shown to have two histories, by heads over its records of these two numbers.
#[derive(Clone, Copy, PartialEq, Eq)]
pub struct Forked {
    /// The log's head key.
    pub log: Key,
    /// The smaller number.
    pub low: u32,
    /// The greater number.
    pub high: u32,
}

/// Which fork the bytes show.
///
/// # Errors
///
/// The first test that fails: `Malformed`, `HeadWrong`, `Unlinked`, `NoFork`, each exactly where its test fails. `Memory`
/// means out of memory.
#[tactic(auto, using(crate::proofs::Walks::shows_none, crate::proofs::Walks::no_proof_shows))]
pub fn check(alloc: Global, bytes: &[u8]) -> Result<Forked, ProofFault>
    ensures ok { IfOk result (ShowsFork bytes.now) }
    ensures err { IfErr result (ShowsNone bytes.now) }
{
    let proof = read_proof(alloc, bytes)?;
    judge(alloc, &proof)
}

/// Which fork the proof shows.
#[tactic(auto, using(crate::proofs::Walks::signing_fails, crate::proofs::Walks::leading_fails))]
fn judge(alloc: Global, proof: &Proof<'_>) -> Result<Forked, ProofFault>
    requires fits { IsProof (proof_of proof.now) }
    requires kept { AreKept proof.now.low proof.now.high }
    ensures shown { OnOk result (IsShown (proof_of proof.now)) }
    ensures fork { IfOk result (λ f. f ≡ forked_of (proof_of proof.now)) }
    ensures err { IfErr result (Fails (proof_of proof.now)) }
{
    check_signed(proof)?;
    let last = lead_down(alloc, proof)?;
    if is_same(&last, &proof.low.head.name) {
        return Err(ProofFault::NoFork);
    }
    Ok(Forked {
        log: head_key(&proof.low.head.owner),
        low: proof.low.head.seq,
        high: proof.high.head.seq,
    })
}

/// Whether two names are the same.
fn is_same(a: &Key, b: &Key) -> bool
    ensures { IsTrue result ↔ a.now ≡ b.now }
{
    *a == *b
}

/// Tests the signatures of both heads, the lower one's first.
fn check_signed(proof: &Proof<'_>) -> Result<(), ProofFault>
    requires { AreKept proof.now.low proof.now.high }
    ensures ok { OnOk result (AreSigned (proof_of proof.now)) }
    ensures err { IfErr result (FailsSigning (proof_of proof.now)) }
{
    if !proof.low.is_signed() {
        return Err(ProofFault::HeadWrong(1));
    }
    if !proof.high.is_signed() {
        return Err(ProofFault::HeadWrong(2));
    }
    Ok(())
}

/// To which name the blocks lead from the higher head.
fn lead_down(alloc: Global, proof: &Proof<'_>) -> Result<Key, ProofFault>
    requires { IsProof (proof_of proof.now) }
    ensures ok { IfOk result (Leads (proof_of proof.now)) }
    ensures err { IfErr result (BreaksIn (proof_of proof.now)) }
{
    let owner = &proof.low.head.owner;
    let mut seq = proof.high.head.seq;
    let mut name = proof.high.head.name;
    let mut place = 0;
    'blocks: for block in &proof.blocks {
        place += 1;
        match before(alloc, owner, seq, &name, block)? {
            Some(prev) => name = prev,
            None => return Err(ProofFault::Unlinked(place)),
        }
        seq -= 1;
    }
    Ok(name)
}

/// The name of the record before it, where the block is the owner's record of that number and that name. The error is: out
/// of memory.
fn before(
    alloc: Global,
    owner: &PubKey,
    seq: u32,
    name: &Key,
    block: &[u8],
) -> Result<Option<Key>, Memory>
    ensures { IfOk result (λ o. MatchOption o ((r : AnyRecord) → IsLink owner.now seq name.now block.now r → ⊥) (λ prev. (r : AnyRecord) × IsLink owner.now seq name.now block.now r × (prev ≡ r.prev))) }
{
    if !is_same(&name_of(block), name) {
        return Ok(None);
    }
    prev_of(alloc, owner, seq, block)
}

/// The name of the record before it, where the block is the owner's record of that number. The error is: out of memory.
pub(crate) fn prev_of(
    alloc: Global,
    owner: &PubKey,
    seq: u32,
    block: &[u8],
) -> Result<Option<Key>, Memory>
    ensures { IfOk result (λ o. MatchOption o ((r : AnyRecord) → IsRead owner.now block.now r → r.seq ≢ seq) (λ prev. (r : AnyRecord) × IsRead owner.now block.now r × (r.seq ≡ seq) × (prev ≡ r.prev))) }
{
    match Record::read(alloc, block, owner) {
        Ok(read) => Ok(prev_at(&read, seq)),
        Err(fault) => unread(fault),
    }
}

/// The name of the record before it, where it has that number.
fn prev_at(read: &Record, seq: u32) -> Option<Key>
    ensures { MatchOption result (read.now.seq ≢ seq) (λ prev. (read.now.seq ≡ seq) × (prev ≡ read.now.prev)) }
{
    if read.seq == seq {
        Some(read.prev)
    } else {
        None
    }
}

/// No name, where the bytes are no record. The error is: out of memory.
fn unread(fault: RecordFault) -> Result<Option<Key>, Memory>
    ensures none { IfOk result (λ found. found ≡ None) }
    ensures other { OnOk result (fault ≢ RecordFault.Memory) }
{
    match fault {
        RecordFault::Memory => Err(Memory),
        RecordFault::Malformed | RecordFault::TooLong | RecordFault::BadNumber => Ok(None),
    }
}
