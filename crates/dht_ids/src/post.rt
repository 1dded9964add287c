//! Blocks on their way to the ring.

ghost use Rattle.std.specs.Prelude.{◌≡◌, IfOk};

use ivy_base::{Bytes, Key, Memory};
use std::alloc::Global;

/// What a block that is put is.
#[derive(Clone, Copy, Debug, PartialEq, Eq)]
pub enum PostKind {
    /// A content block that isn't a record, as a view or a piece of a snapshot. Its key is its name.
    Block,
    /// A record of a log: a content block, whose key is its name.
    Log,
    /// The head of a log. Its key is the log's head key.
    Head,
}

/// A block that is to be put at its owners.
pub struct Post {
    /// The key whose owners are to hold it.
    pub key: Key,
    /// The block.
    pub bytes: Bytes,
    /// What it is.
    pub kind: PostKind,
}

// Written out, so that whatever drops one calls this and isn't proved over all of its parts once more.
impl Drop for Post {
    fn drop(self) {
        let Post {
            key: _,
            bytes: _,
            kind: _,
        } = self;
    }
}

impl Post {
    /// The block, which is not copied.
    pub fn into_bytes(self) -> Bytes
        ensures { result ≡ self.bytes }
    {
        let Post {
            key: _,
            bytes,
            kind: _,
        } = self;
        bytes
    }

    /// A copy of this post and of its bytes. The error is: out of memory.
    pub fn copy(&self, alloc: Global) -> Result<Post, Memory>
        ensures { IfOk result (λ copy. copy ≡ self.now) }
    {
        Ok(Post {
            key: self.key,
            bytes: self.bytes.copy(alloc)?,
            kind: self.kind,
        })
    }
}

/// The word that a put was acknowledged.
#[derive(Clone, Copy)]
pub struct Ack {
    /// The key under which the block was put.
    pub key: Key,
    /// The name of the bytes that were acknowledged.
    pub name: Key,
}
