//! Heads of logs.

ghost use Rattle.std.specs.Prelude.{◌≡◌, [], List, ℕ, IfOk, IfSome, IfNone};
ghost use Rattle.ivy_base.specs.declared.key.PubKey.{PubKey};
ghost use Rattle.wire_model.specs.Parts.{Reads};
ghost use Rattle.log_model.specs.Vector.{Stamp};
ghost use Rattle.log_model.specs.Spelling.{head_block, IsHeadOf};
ghost use Rattle.log_model.specs.Heads.{stamp};
ghost use Rattle.log_records.specs.Heads.{IsHead, head_bytes};

use crate::parts::{read_key, read_number, read_tag};
use block_parts::{check_block, opaque_len, put_key, put_owner};
use ivy_base::{Bytes, Key, Memory, PubKey};
use std::alloc::Global;
use xdr_codec::{Parts, XdrWrite};

/// What the block of a head begins with, as a number: "IVH1".
const TAG: u32 = 0x4956_4831;

/// The most bytes of a signature.
const LONGEST_SIGNATURE: u32 = 16_000;

/// The head of a log: its newest record, which the owner signs. Its block is at most 16,092 bytes.
#[derive(Clone, Copy)]
pub struct Head<'a> {
    /// The public key of the log's owner.
    pub owner: PubKey,
    /// The number of the log's newest record, 1 to 1,048,576.
    pub seq: u32,
    /// The name of that record.
    pub name: Key,
    /// The owner's signature of what stands before it, at most 16,000 bytes. It is not verified here.
    pub signature: &'a [u8],
}

impl<'a> Head<'a> {
    /// The head whose block these bytes are. There is none where they are the block of no head.
    pub fn read(bytes: &'a [u8]) -> Option<Head<'a>>
        ensures some { IfSome result (λ h. IsHeadOf h.owner bytes.now (stamp h.seq h.name) h.signature.now) }
        ensures none { IfNone result ((owner : PubKey) (newest : Stamp) (signature : List ℕ) → IsHeadOf owner bytes.now newest signature → ⊥) }
    {
        let mut parts = Parts::of(bytes);
        let head = read_head(&mut parts);
        if parts.are_read() { Some(head) } else { None }
    }

    /// The head's block. The error is: out of memory; it also comes where the signature has 2^32 bytes or more.
    pub fn write(&self, alloc: Global) -> Result<Bytes, Memory>
        ensures { IfOk result (λ block. block ≡ head_block self.now.owner (stamp self.now.seq self.now.name) self.now.signature.now) }
    {
        let Some(signature_len) = opaque_len(self.signature) else {
            return Err(Memory);
        };
        let mut out = XdrWrite::new(alloc);
        if out.reserve(88 + signature_len).is_err() {
            return Err(Memory);
        }
        out.put_u32(TAG);
        put_owner(&mut out, &self.owner);
        out.put_u32(self.seq);
        put_key(&mut out, &self.name);
        out.put_opaque(self.signature);
        Ok(out.into_bytes())
    }
}

/// The block of a head with an empty signature, 92 bytes. The error is: out of memory.
pub fn plain_head(alloc: Global, owner: &PubKey, seq: u32, name: &Key) -> Result<Bytes, Memory>
    ensures { IfOk result (λ block. block ≡ head_block owner.now (stamp seq name.now) []) }
{
    Head {
        owner: *owner,
        seq,
        name: *name,
        signature: &[],
    }
    .write(alloc)
}

/// A head.
fn read_head<'a>(parts: &mut Parts<'a>) -> Head<'a>
    ensures { Reads IsHead head_bytes parts.old ((result.owner, stamp result.seq result.name), result.signature.now) parts.new }
{
    read_tag(parts, TAG);
    let owner = PubKey(parts.bytes::<60>());
    let seq = read_number(parts);
    let name = read_key(parts);
    let signature = parts.opaque(LONGEST_SIGNATURE);
    check_block(&owner.0);
    check_block(&name.0);
    Head {
        owner,
        seq,
        name,
        signature,
    }
}
