//! One block that a store holds.

ghost use Rattle.std.specs.Prelude.{◌≡◌, ◌<◌, ◌≤◌, length, IfOk, Some, MatchBool};

use dhash_model::BlockKind;
use dht_ids::{Judge, Judged, Post, PostKind};
use ivy_base::{Bytes, Key, Memory};
use std::alloc::{AllocError, Global};
use std::marker::Model;

/// A block and how it was put.
#[derive(Drop)]
pub struct Kept {
    kind: BlockKind,
    bytes: Vec<u8>,
}

impl Model for Kept {
    ghost use Rattle.dhash_model.specs.Stores.{Block};

    ghost Value = { Block };

    ghost view = { λ b. record { kind = b.kind; bytes = b.bytes.items } };
}

impl Kept {
    ghost use Rattle.dhash_model.specs.Stores.{number_of, spoiled};
    ghost use Rattle.node_store.specs.Stores.{post_of};

    /// A copy of the bytes, put so. The error is: out of memory.
    pub fn copy_of(alloc: Global, kind: BlockKind, bytes: &[u8]) -> Result<Kept, AllocError>
        ensures { IfOk result (λ block. block ≡ record { kind = kind; bytes = bytes.now }) }
    {
        Ok(Kept {
            kind,
            bytes: bytes.to_vec(alloc)?,
        })
    }

    /// The bytes.
    pub fn as_slice(&self) -> &[u8]
        ensures { result.now ≡ self.now.bytes }
    {
        self.bytes.as_slice()
    }

    /// How many bytes there are.
    pub fn len(&self) -> u64
        ensures { result ≡ length self.now.bytes }
    {
        self.bytes.len() as u64
    }

    /// The number that the judge gives this block under the key, if it was put as a head. It isn't asked again about
    /// bytes of which it is known what it says.
    pub fn number<J: Judge>(&self, judge: &J, key: &Key, known: &[u8], says: Judged) -> Option<u32>
        requires { J.judges judge.now key.now known.now ≡ Some says }
        ensures { result ≡ number_of (J.judges judge.now key.now) self.now }
    {
        match self.kind {
            BlockKind::Content => None,
            BlockKind::Head if self.bytes.as_slice() == known => Some(says.seq),
            BlockKind::Head => Some(judge.judge(key, self.bytes.as_slice())?.seq),
        }
    }

    /// Changes a byte. False where there is none at that place.
    pub fn spoil(&mut self, offset: u64, byte: u8) -> bool
        ensures { MatchBool result ((offset < length self.old.bytes) × (self.new ≡ spoiled offset byte self.old)) ((length self.old.bytes ≤ offset) × (self.new ≡ self.old)) }
    {
        let place = offset as usize;
        if place >= self.bytes.len() {
            return false;
        }
        self.bytes[place] = byte;
        true
    }

    /// A copy as it is put at other nodes. The error is: out of memory.
    pub fn post(&self, alloc: Global, key: &Key) -> Result<Post, Memory>
        ensures { IfOk result (λ post. post ≡ post_of (key.now, self.now)) }
    {
        Ok(Post {
            key: *key,
            bytes: Bytes::copy_of(alloc, self.bytes.as_slice())?,
            kind: match self.kind {
                BlockKind::Content => PostKind::Block,
                BlockKind::Head => PostKind::Head,
            },
        })
    }
}
