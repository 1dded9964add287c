//! Sealing the heads of a log.

ghost use Rattle.std.specs.Prelude.{◌≡◌, ◌↔◌, ◌+◌, ◌≤◌, ◌∷◌, ◌++◌, Err, IfOk, OnOk, OnErr};
ghost use Rattle.dht_ids.specs.declared.signature.SignFault.TheVariants.{Spent};
ghost use Rattle.wire_model.specs.Xdr.{word};
ghost use Rattle.log_model.specs.Spelling.{most_records, head_message, head_block, head_tag};
ghost use Rattle.log_model.specs.Heads.{stamp};
ghost use Rattle.log_heads.specs.Sealed.{SealedHeadsAreJudged};

use dht_ids::{SignFault, Signature};
use hss_keys::Signs;
use ivy_base::{Bytes, Key, Memory, PubKey};
use std::alloc::Global;

/// What the block of a head begins with.
const MAGIC: [u8; 4] = *b"IVH1";

/// The head of a log that its owner signed.
#[derive(Drop)]
pub struct Head {
    /// The public key of the log's owner.
    pub owner: PubKey,
    /// The number of the log's newest record, 1 to 1,048,576.
    pub seq: u32,
    /// The name of that record.
    pub name: Key,
    /// The owner's signature of what stands before it in the block.
    pub signature: Signature,
}

impl Head {
    /// The head's block. The error is: out of memory.
    pub fn write(&self, alloc: Global) -> Result<Bytes, Memory>
        ensures { IfOk result (λ block. block ≡ head_block self.now.owner (stamp self.now.seq self.now.name) self.now.signature) }
    {
        let head = log_records::Head {
            owner: self.owner,
            seq: self.seq,
            name: self.name,
            signature: self.signature.as_slice(),
        };
        head.write(alloc)
    }
}

/// The head that says which record is a log's newest, which the log's owner signs.
///
/// # Errors
///
/// `Spent` exactly where the key signs nothing more, and `Memory` where memory runs out. The key is then what it was.
pub fn seal<S: Signs>(alloc: Global, signs: &mut S, seq: u32, name: Key) -> Result<Head, SignFault>
    requires some { 1 ≤ seq }
    requires few { seq ≤ most_records }
    ensures owner { IfOk result (λ h. h.owner.0 ≡ S.signing.key signs.old) }
    ensures record { IfOk result (λ h. (h.seq ≡ seq) × (h.name ≡ name)) }
    ensures signed { IfOk result (λ h. S.accepts h.owner.0 (head_message h.owner (stamp seq name)) h.signature) }
    ensures next { IfOk result (λ h. h.signature ≡ S.signing.signature signs.old (head_message h.owner (stamp seq name))) }
    ensures after { OnOk result (signs.new ≡ S.signing.next signs.old) }
    ensures counted { OnOk result (S.signing.remaining signs.new + 1 ≡ S.signing.remaining signs.old) }
    ensures same_key { S.signing.key signs.new ≡ S.signing.key signs.old }
    ensures kept { OnErr result (signs.new ≡ signs.old) }
    ensures spent { (result ≡ Err Spent) ↔ (S.signing.remaining signs.old ≡ 0) }
{
    let owner = signs.owner();
    let signature = signs.sign(alloc, &message_of(&owner, seq, &name)[..])?;
    Ok(Head {
        owner,
        seq,
        name,
        signature,
    })
}

/// What the signature of a head signs: the block's first 88 bytes.
#[tactic(auto, using(crate::proofs::SealedHeads::message_is))]
fn message_of(owner: &PubKey, seq: u32, name: &Key) -> [u8; 88]
    ensures { result ≡ head_message owner.now (stamp seq name.now) }
{
    joined(&front_of(owner), &record_of(seq, name))
}

/// The front with the back after it.
fn joined(front: &[u8; 64], back: &[u8; 24]) -> [u8; 88]
    ensures { result ≡ front.now ++ back.now }
{
    let mut out = [0u8; 88];
    out[..64].copy_from_slice(&front[..]);
    out[64..].copy_from_slice(&back[..]);
    out
}

/// The mark of a head, and the owner.
fn front_of(owner: &PubKey) -> [u8; 64]
    ensures { result ≡ head_tag ++ owner.now.0 }
{
    let mut out = [0u8; 64];
    out[..4].copy_from_slice(&MAGIC[..]);
    out[4..].copy_from_slice(&owner.0[..]);
    out
}

/// The number of a record, and its name.
fn record_of(seq: u32, name: &Key) -> [u8; 24]
    ensures { result ≡ word seq ++ name.now.0 }
{
    let mut out = [0u8; 24];
    out[..4].copy_from_slice(&seq.to_be_bytes());
    out[4..].copy_from_slice(&name.0[..]);
    out
}

/// A law and no code: [`crate::HssJudge`] takes the block of each head that a key of `hss_keys` sealed, under its owner's
/// key, with its number and its name.
pub fn sealed_heads_are_judged()
    ensures { SealedHeadsAreJudged }
{}
