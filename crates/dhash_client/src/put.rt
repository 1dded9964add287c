//! The put of a post: of a content block, or of a log's head.

ghost use Rattle.std.specs.Prelude.{◌≡◌, ◌≢◌, ◌<◌, ◌≤◌, IfOk};
ghost use Rattle.std.specs.declared.option.Option.{Option};
ghost use Rattle.dhash_client.specs.Execution.{asks_left};
ghost use Rattle.dhash_model.specs.Puts.{is_of_put, holds};
ghost use Rattle.dhash_client.specs.Puts.{put_kind, question_of, put_begun, put_awaited, one_more, PutIsWanted, PutHasHeard};

use crate::execution::{Execution, Step};
use dhash_model::Miss;
use dht_ids::{Answer, Ask, Peers, Post, PostKind, StoreFault, Want};
use ivy_base::{Bytes, Key, Memory};
use std::alloc::Global;
use std::marker::Model;

/// What is put.
#[derive(Clone, Copy)]
pub(crate) enum PutKind {
    /// A content block.
    Block,
    /// The head of a log.
    Head,
}

/// A put of a post at the owners of its key: of a head as a head (Ivy, OSDI 2002, section 3.2), of any other block as a content
/// block (DHash; CFS, SOSP 2001, section 5.1). It has its execution, and how many owners hold the block now, or a newer head.
pub struct PutPost {
    what: PutKind,
    execution: Execution,
    bytes: Bytes,
    holders: u32,
}

// Written out, so that whatever drops one calls this and isn't proved over all of its parts once more.
impl Drop for PutPost {
    fn drop(self) {
        let PutPost {
            what: _,
            execution: _,
            bytes: _,
            holders: _,
        } = self;
    }
}

impl Model for PutPost {
    ghost use Rattle.dhash_client.specs.Puts.{PutState};

    ghost Value = { PutState };

    ghost view = { λ p. record { what = p.what; execution = p.execution; bytes = p.bytes; holders = p.holders } };
}

/// How a post of this kind is put.
fn put_kind(kind: PostKind) -> PutKind
    ensures { result ≡ put_kind kind }
{
    match kind {
        PostKind::Block | PostKind::Log => PutKind::Block,
        PostKind::Head => PutKind::Head,
    }
}

/// Whether this is an answer to a put: the word that the block is held, or a refusal.
fn answers_put(answer: &Answer) -> bool
    ensures { result ≡ is_of_put answer.now }
{
    matches!(answer, Answer::Stored | Answer::Refused(_))
}

/// Whether the node holds the block now, or a newer head.
fn is_held(answer: &Answer) -> bool
    ensures { result ≡ holds answer.now }
{
    matches!(
        answer,
        Answer::Stored | Answer::Refused(StoreFault::Older(_))
    )
}

impl PutPost {
    /// A put of the post that begins its look-up at these nodes and is content with that many answers. The error
    /// is: out of memory.
    pub fn start(
        alloc: Global,
        post: Post,
        replicas: u32,
        entries: &Peers,
    ) -> Result<PutPost, Memory>
        ensures { IfOk result (λ put. put ≡ put_begun (put_kind post.kind) post.bytes post.key replicas entries.now) }
    {
        let (what, key) = (put_kind(post.kind), post.key);
        Ok(PutPost {
            what,
            execution: Execution::start(alloc, key, replicas, entries)?,
            bytes: post.into_bytes(),
            holders: 0,
        })
    }

    /// What an owner is asked. The error is: out of memory.
    fn question(&self, key: Key) -> Result<Ask, Memory>
        ensures { IfOk result (λ question. question ≡ question_of self.now.what self.now.bytes key) }
    {
        let bytes = self.bytes.copy(self.execution.allocator())?;
        Ok(match self.what {
            PutKind::Block => Ask::PutBlock(key, bytes),
            PutKind::Head => Ask::PutHead(key, bytes),
        })
    }

    /// What the put wants next: an ask, to which the bytes are copied, or nothing more, since it has its result:
    /// whether it was acknowledged, or NoRoute. An ask that was not yet heard is wanted again. The error is: out of
    /// memory; the machine isn't used after it.
    pub fn next(&mut self) -> Result<Want<Result<bool, Miss>>, Memory>
        ensures wanted { IfOk result (λ want. PutIsWanted self.old self.new want) }
        ensures left { IfOk result (λ _. asks_left self.new.execution ≤ asks_left self.old.execution) }
    {
        let step = self.execution.next()?;
        let key = self.execution.key();
        Ok(match step {
            Step::Route(node) => Want::Ask(node, Ask::Route(key)),
            Step::Owner(node) => Want::Ask(node, self.question(key)?),
            Step::NoRoute => Want::Done(Err(Miss::NoRoute(key))),
            Step::Over => Want::Done(Ok(self.execution.are_holders(self.holders))),
        })
    }

    /// Hears what the node answered that was asked last. An owner's answer that is none to a put is silence. It is
    /// called once after each ask. The error is: out of memory; the machine isn't used after it.
    pub fn heard(&mut self, answer: Answer) -> Result<(), Memory>
        requires { put_awaited self.old ≢ Option.None }
        ensures heard { IfOk result (λ _. PutHasHeard self.old self.new answer) }
        ensures left { IfOk result (λ _. asks_left self.new.execution < asks_left self.old.execution) }
    {
        let counts = answers_put(&answer);
        if let Some((_, answer)) = self.execution.heard(answer, counts)? {
            self.take(answer);
        }
        Ok(())
    }

    /// Takes what an owner answered.
    fn take(&mut self, answer: Answer)
        ensures execution { self.new.execution ≡ self.old.execution }
        ensures what { self.new.what ≡ self.old.what }
        ensures bytes { self.new.bytes ≡ self.old.bytes }
        ensures holders { self.new.holders ≡ one_more (holds answer) self.old.holders }
    {
        if is_held(&answer) {
            self.holders = self.holders.saturating_add(1);
        }
        drop(answer);
    }
}
