//! The put of one post.

ghost use Rattle.std.specs.Prelude.{◌≡◌, ◌≢◌, ◌<◌, ◌≤◌, None, IfOk};
ghost use Rattle.dhash_client.specs.Execution.{asks_left};
ghost use Rattle.dhash_client.specs.Puts.{put_awaited};
ghost use Rattle.ivy_session.specs.Putting.{putting, PuttingIsWanted, PuttingHasHeard};

use crate::named::NamedPost;
use dhash_client::{Miss, PutPost};
use dht_ids::{Ack, Answer, Peers, PostKind, Want};
use ivy_base::Memory;
use std::alloc::Global;
use std::marker::Model;

/// A put of a post, on its way.
#[derive(Drop)]
pub(crate) struct Put {
    kind: PostKind,
    ack: Ack,
    machine: PutPost,
}

impl Model for Put {
    ghost use Rattle.ivy_session.specs.Putting.{Putting};

    ghost Value = { Putting };

    ghost view = { λ p. record { kind = p.kind; ack = p.ack; put = p.machine } };
}

impl Put {
    /// A put of the post that begins its look-up at these nodes and is content with that many answers. The error is: out
    /// of memory.
    pub(crate) fn start(
        alloc: Global,
        post: NamedPost,
        replicas: u32,
        entries: &Peers,
    ) -> Result<Put, Memory>
        ensures { IfOk result (λ put. put ≡ putting post replicas entries.now) }
    {
        Ok(Put {
            kind: post.kind(),
            ack: post.ack(),
            machine: PutPost::start(alloc, post.into_post(), replicas, entries)?,
        })
    }

    /// What the post is.
    pub(crate) fn kind(&self) -> PostKind
        ensures { result ≡ self.now.kind }
    {
        self.kind
    }

    /// The acknowledgement of the post.
    pub(crate) fn ack(&self) -> Ack
        ensures { result ≡ self.now.ack }
    {
        self.ack
    }

    /// What the put wants next: an ask, or nothing more, since it has its result. The error is: out of memory; the put
    /// isn't used after it, nor after its result.
    pub(crate) fn next(&mut self) -> Result<Want<Result<bool, Miss>>, Memory>
        ensures kind { self.new.kind ≡ self.old.kind }
        ensures ack { self.new.ack ≡ self.old.ack }
        ensures wanted { IfOk result (λ want. PuttingIsWanted self.old self.new want) }
        ensures left { IfOk result (λ _. asks_left self.new.put.execution ≤ asks_left self.old.put.execution) }
    {
        self.machine.next()
    }

    /// Hears what the node answered that was asked last. It is called once after each ask. The error is: out of memory;
    /// the put isn't used after it.
    pub(crate) fn heard(&mut self, answer: Answer) -> Result<(), Memory>
        requires { put_awaited self.old.put ≢ None }
        ensures heard { IfOk result (λ _. PuttingHasHeard self.old self.new answer) }
        ensures left { IfOk result (λ _. asks_left self.new.put.execution < asks_left self.old.put.execution) }
    {
        self.machine.heard(answer)
    }
}
