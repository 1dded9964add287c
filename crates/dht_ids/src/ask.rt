//! What nodes are asked, and what they answer.

ghost use Rattle.std.specs.Prelude.{◌≡◌, IfOk};

use crate::lists::Peers;
use crate::peer::Peer;
use ivy_base::{Bytes, Key, Memory};
use std::alloc::Global;
use thiserror::Error;

/// What a node is asked.
#[derive(Drop)]
pub enum Ask {
    /// For the nodes that are nearer to the key, and for those that own it as far as the node knows.
    Route(Key),
    /// For its predecessor and its list.
    Near,
    /// To take note of a node that may stand before it.
    Notify(Peer),
    /// For the block under the key.
    Get(Key),
    /// To hold a content block under the key.
    PutBlock(Key, Bytes),
    /// To hold the head of a log under the key.
    PutHead(Key, Bytes),
}

impl Ask {
    /// A copy of this question and of what it has. The error is: out of memory.
    pub fn copy(&self, alloc: Global) -> Result<Ask, Memory>
        ensures { IfOk result (λ copy. copy ≡ self.now) }
    {
        Ok(match self {
            Ask::Route(key) => Ask::Route(*key),
            Ask::Near => Ask::Near,
            Ask::Notify(peer) => Ask::Notify(*peer),
            Ask::Get(key) => Ask::Get(*key),
            Ask::PutBlock(key, bytes) => Ask::PutBlock(*key, bytes.copy(alloc)?),
            Ask::PutHead(key, bytes) => Ask::PutHead(*key, bytes.copy(alloc)?),
        })
    }
}

/// What a node answers.
#[derive(Drop)]
pub enum Answer {
    /// To Route: the nearer nodes, nearest first, and the owners, in their order.
    Route { nearer: Peers, owners: Peers },
    /// To Near: the predecessor, where the node knows one, and the list of the next members.
    Near { before: Option<Peer>, list: Peers },
    /// To Get: the block.
    Found(Bytes),
    /// To Get: no block is held under the key.
    Nothing,
    /// To a put: the block is held now.
    Stored,
    /// To a put: the block isn't held, and what was held still is.
    Refused(StoreFault),
    /// To Notify.
    Noted,
    /// No answer came.
    Silent,
}

impl Answer {
    /// A copy of this answer and of what it has. The error is: out of memory.
    pub fn copy(&self, alloc: Global) -> Result<Answer, Memory>
        ensures { IfOk result (λ copy. copy ≡ self.now) }
    {
        Ok(match self {
            Answer::Route { nearer, owners } => Answer::Route {
                nearer: nearer.copy(alloc)?,
                owners: owners.copy(alloc)?,
            },
            Answer::Near { before, list } => Answer::Near {
                before: *before,
                list: list.copy(alloc)?,
            },
            Answer::Found(bytes) => Answer::Found(bytes.copy(alloc)?),
            Answer::Nothing => Answer::Nothing,
            Answer::Stored => Answer::Stored,
            Answer::Refused(fault) => Answer::Refused(*fault),
            Answer::Noted => Answer::Noted,
            Answer::Silent => Answer::Silent,
        })
    }
}

/// Why a node refuses a block.
#[derive(Clone, Copy, Debug, Error)]
pub enum StoreFault {
    /// The key of a content block isn't the name of its bytes.
    #[error("the key isn't the name of the bytes")]
    WrongName,
    /// The judge takes the bytes for no head of that key.
    #[error("the bytes are no head of the key")]
    NotJudged,
    /// A head of that number is held, and the number of the new one isn't greater.
    #[error("a head of number {0} is held")]
    Older(u32),
    /// The node would hold too many bytes.
    #[error("the node has no room for the bytes")]
    Full,
}

/// Which of the asks for data an ask is.
#[derive(Clone, Copy)]
pub enum AskKind {
    Route,
    Get,
    PutBlock,
    PutHead,
}

/// An ask for data and what was heard of it: an entry of a trail.
pub struct Heard {
    /// The node that was asked.
    pub node: Peer,
    /// What it was asked.
    pub kind: AskKind,
    /// The key that the ask named.
    pub key: Key,
    /// The name of the bytes put; None for Route and Get.
    pub put: Option<Key>,
    /// The answer.
    pub got: Answer,
}

// Written out, so that whatever drops one calls this and isn't proved over all of its parts once more.
impl Drop for Heard {
    fn drop(self) {
        let Heard {
            node: _,
            kind: _,
            key: _,
            put: _,
            got: _,
        } = self;
    }
}

/// What a machine wants next: that a node is asked, or nothing more, since it has its result.
#[derive(Drop)]
pub enum Want<T> {
    Ask(Peer, Ask),
    Done(T),
}
