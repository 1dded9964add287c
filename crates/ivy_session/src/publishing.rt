//! Posts that are put one after the other.

ghost use Rattle.std.specs.Prelude.{◌≡◌, ◌≢◌, ◌<◌, ◌≤◌, [], None, IfOk, OnOk};
ghost use Rattle.agent_model.specs.Agent.{is_head};
ghost use Rattle.session_model.specs.Sessions.{acknowledged};
ghost use Rattle.ivy_session.specs.Publishing.{publishing_begun, publishing_awaited, puts_left, next_post, held_behind, left_behind, concluded, PublishingIsWanted, PublishingHasHeard, PutGoesOn, HasBegun};

use crate::asking::Asking;
use crate::named::NamedPost;
use crate::order::in_order;
use crate::put::Put;
use dhash_client::Miss;
use dht_ids::{Ack, Acks, Answer, Peers, PostKind, Want};
use ivy_base::Memory;
use log_fetch::NamedPosts;
use std::alloc::Global;
use std::collections::VecDeque;
use std::marker::Model;
use std::mem;

/// Posts that are put one after the other: records, then blocks of snapshots, then heads, which are put only where every
/// record was acknowledged.
pub struct Publishing {
    alloc: Global,
    replicas: u32,
    entries: Peers,
    put: Option<Asking>,
    left: VecDeque<NamedPost>,
    acks: Vec<Ack>,
}

/// One function, so that whatever drops it calls this and isn't proved over all of its parts once more.
impl Drop for Publishing {
    fn drop(self) {
        let Publishing {
            alloc: _,
            replicas: _,
            entries: _,
            put: _,
            left: _,
            acks: _,
        } = self;
    }
}

impl Model for Publishing {
    ghost use Rattle.ivy_session.specs.Publishing.{PublishingState};

    ghost Value = { PublishingState };

    ghost view = { λ p. record { replicas = p.replicas; entries = p.entries; put = p.put; left = p.left.items; acks = p.acks.items } };
}

impl Publishing {
    /// Publishes copies of these posts. Each put begins its look-up at these nodes and is content with that many answers.
    /// The error is: out of memory.
    pub fn start(
        alloc: Global,
        replicas: u32,
        entries: Peers,
        posts: &NamedPosts,
    ) -> Result<Publishing, Memory>
        ensures { IfOk result (λ publishing. publishing ≡ publishing_begun replicas entries posts.now) }
    {
        Ok(Publishing {
            alloc,
            replicas,
            entries,
            put: None,
            left: in_order(alloc, posts.as_slice(), posts)?,
            acks: Vec::new(alloc),
        })
    }

    /// What is wanted next: an ask of the put on its way, or else of the first post that is left, or nothing more, since
    /// all posts were put: the acknowledgements, in the order of the puts. An ask that was not yet heard is wanted again.
    /// Where a node is known no put is over here: it is over with its last answer. The error is: out of memory; nothing is
    /// published after it, nor after the acknowledgements.
    pub fn next(&mut self) -> Result<Want<Acks>, Memory>
        ensures wanted { IfOk result (λ want. PublishingIsWanted self.old self.new want) }
        ensures left { IfOk result (λ _. puts_left self.new ≤ puts_left self.old) }
    {
        self.begin()?;
        match &self.put {
            Some(put) => {
                let (node, question) = put.wanted(self.alloc)?;
                Ok(Want::Ask(node, question))
            }
            None => Ok(Want::Done(self.take_acks())),
        }
    }

    /// Hears what the node answered that was asked last: the put on its way goes on, or is over. It is called once after
    /// each ask. The error is: out of memory; nothing is published after it.
    pub fn heard(&mut self, answer: Answer) -> Result<(), Memory>
        requires { publishing_awaited self.old ≢ None }
        ensures heard { IfOk result (λ _. PublishingHasHeard self.old self.new answer) }
        ensures left { IfOk result (λ _. puts_left self.new < puts_left self.old) }
    {
        match self.put.take() {
            Some(put) => {
                let put = put.heard(answer)?;
                self.go_on(put)
            }
            None => Ok(()),
        }
    }

    /// Begins puts of the first posts that are left until one asks a node, where none is on its way. The error is: out of
    /// memory.
    fn begin(&mut self) -> Result<(), Memory>
        ensures begun { OnOk result (HasBegun self.old self.new) }
        ensures none_else { OnOk result (next_post self.new.put self.new.left ≡ None) }
    {
        'posts: while let Some(post) = self.next_post() {
            let put = Put::start(self.alloc, post, self.replicas, &self.entries)?;
            self.go_on(put)?;
        }
        Ok(())
    }

    /// Takes the first post that is left, where no put is on its way.
    fn next_post(&mut self) -> Option<NamedPost>
        ensures post { result ≡ next_post self.old.put self.old.left }
        ensures left { self.new ≡ record self.old { left = left_behind self.old.put self.old.left } }
    {
        if self.put.is_some() {
            return None;
        }
        self.left.pop_front()
    }

    /// Takes the acknowledgements so far.
    fn take_acks(&mut self) -> Acks
        ensures acks { result ≡ self.old.acks }
        ensures others { self.new ≡ record self.old { acks = [] } }
    {
        Acks::of(mem::replace(&mut self.acks, Vec::new(self.alloc)))
    }

    /// Goes on with the put: it asks a node and is the one on its way, or it is over. The error is: out of memory.
    fn go_on(&mut self, mut put: Put) -> Result<(), Memory>
        ensures { OnOk result (PutGoesOn put self.old self.new) }
    {
        match put.next()? {
            Want::Ask(node, question) => {
                self.put = Some(Asking::new(put, node, question));
                Ok(())
            }
            Want::Done(came) => self.conclude(put.kind(), put.ack(), &came),
        }
    }

    /// Concludes a put of such a post, of which this came: its acknowledgement is kept, or else, after a record, no head is
    /// put. The error is: out of memory.
    fn conclude(
        &mut self,
        kind: PostKind,
        ack: Ack,
        came: &Result<bool, Miss>,
    ) -> Result<(), Memory>
        ensures { OnOk result (self.new ≡ concluded kind ack (acknowledged came.now) self.old) }
    {
        if is_acknowledged(came) {
            self.acks.push(ack)?;
        } else {
            hold_back(kind, &mut self.left);
        }
        Ok(())
    }
}

/// Whether the put was acknowledged, of which this came.
fn is_acknowledged(came: &Result<bool, Miss>) -> bool
    ensures { result ≡ acknowledged came.now }
{
    matches!(came, Ok(true))
}

/// Drops the heads of the posts that are left after a put of such a post that wasn't acknowledged, where it was a record.
fn hold_back(kind: PostKind, left: &mut VecDeque<NamedPost>)
    ensures { left.new.items ≡ held_behind kind left.old.items }
{
    if kind == PostKind::Log {
        left.retain(|post| !is_head(post));
    }
}

/// Whether the post is a head.
fn is_head(post: &NamedPost) -> bool
    ensures { result ≡ is_head post.now.kind }
{
    post.kind() == PostKind::Head
}
