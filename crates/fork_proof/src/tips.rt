//! Signed heads.

ghost use Rattle.std.specs.Prelude.{◌≡◌, IsTrue, ◌↔◌, IfOk, map, filter_map, option_map};
ghost use Rattle.fork_model.specs.Finding.{tip_of};
ghost use Rattle.fork_proof.specs.Found.{tip_seen, Begins};

use dht_ids::{Judge, Judged};
use ivy_base::{Bytes, Key, Memory, PubKey, head_key};
use log_heads::HssJudge;
use log_records::Head;
use std::alloc::Global;

/// A head whose signature is accepted under the public key that stands in it.
#[derive(Clone, Copy)]
pub struct Tip<'a> {
    /// The head's block.
    pub bytes: &'a [u8],
    /// The public key of the log's owner.
    pub owner: PubKey,
    /// The number of the log's newest record.
    pub seq: u32,
    /// The name of that record.
    pub name: Key,
}

impl<'a> Tip<'a> {
    /// The signed head whose block these bytes are. There is none where they are the block of no head, or its signature isn't
    /// accepted.
    pub fn read(bytes: &'a [u8]) -> Option<Tip<'a>>
        ensures { option_map tip_seen result ≡ tip_of bytes.now }
    {
        let head = Head::read(bytes)?;
        let Judged { seq, name } = HssJudge.judge(&head_key(&head.owner), bytes)?;
        Some(Tip {
            bytes,
            owner: head.owner,
            seq,
            name,
        })
    }
}

/// The signed heads among these, in their order. Each is verified once. The error is: out of memory.
pub fn signed_heads<'a>(alloc: Global, heads: &'a [Bytes]) -> Result<Vec<Tip<'a>>, Memory>
    ensures { IfOk result (λ tips. map tip_seen tips.items ≡ filter_map tip_of heads.now) }
{
    let mut tips = Vec::new(alloc);
    'heads: for head in heads {
        if let Some(tip) = Tip::read(head.as_slice()) {
            tips.push(tip)?;
        }
    }
    Ok(tips)
}

/// Whether the head is of that record of the owner's.
pub fn begins(tip: &Tip<'_>, owner: &PubKey, seq: u32, name: &Key) -> bool
    ensures { IsTrue result ↔ Begins owner.now seq name.now tip.now }
{
    tip.owner == *owner && tip.seq == seq && tip.name == *name
}
