//! The put of one block by a node that holds it.

ghost use Rattle.std.specs.Prelude.{◌≡◌, ◌≢◌, ◌<◌, ◌≤◌, ◌&&◌, ◌∷◌, [], not, Some, None, IfOk};
ghost use Rattle.dhash_client.specs.Puts.{put_awaited};
ghost use Rattle.dhash_repair.specs.Putting.{PuttingAsks, PuttingCounts, PuttingHasHeard, PuttingIsWanted, PuttingSteps, acknowledged, is_put, left_of, putting};
ghost use Rattle.dhash_repair.specs.Repairs.{ack_of, is_node};

use dhash_client::{Miss, PutPost};
use dht_ids::{Ack, Answer, Ask, Peer, Peers, Post, PostKind, Want};
use ivy_base::{Memory, name_of};
use std::alloc::Global;
use std::marker::Model;

/// A put of a block by a node that holds it, on its way.
pub(crate) struct Put {
    node: Peer,
    kind: PostKind,
    ack: Ack,
    machine: PutPost,
    counts: bool,
}

/// One function, so that whatever drops it calls this and isn't proved over all of its parts once more.
impl Drop for Put {
    fn drop(self) {
        let Put {
            node: _,
            kind: _,
            ack: _,
            machine: _,
            counts: _,
        } = self;
    }
}

impl Model for Put {
    ghost use Rattle.dhash_repair.specs.Putting.{Putting};

    ghost Value = { Putting };

    ghost view = { λ p. record { node = p.node; kind = p.kind; ack = p.ack; put = p.machine; counts = p.counts } };
}

/// What is said of the block, should it go.
fn ack_of(post: &Post) -> Ack
    ensures { result ≡ ack_of post.now }
{
    Ack {
        key: post.key,
        name: name_of(post.bytes.as_slice()),
    }
}

/// The node alone, as what a look-up begins with. The error is: out of memory.
fn alone(alloc: Global, node: Peer) -> Result<Peers, Memory>
    ensures { IfOk result (λ peers. peers ≡ node ∷ []) }
{
    Ok(Peers::of(vec![in alloc; node]?))
}

/// Whether the peer is that node, whatever number it is given.
fn is_node(node: &Peer, peer: &Peer) -> bool
    ensures { result ≡ is_node node.now peer.now }
{
    node.id == peer.id
}

/// Whether the ask is a put.
fn is_put(question: &Ask) -> bool
    ensures { result ≡ is_put question.now }
{
    matches!(question, Ask::PutBlock(_, _) | Ask::PutHead(_, _))
}

/// Whether the put was acknowledged, of which this came.
fn is_acknowledged(came: &Result<bool, Miss>) -> bool
    ensures { result ≡ acknowledged came.now }
{
    matches!(came, Ok(true))
}

impl Put {
    /// A put of the block by that node that is content with that many answers. The error is: out of memory.
    pub(crate) fn start(alloc: Global, node: Peer, post: Post, replicas: u32) -> Result<Put, Memory>
        ensures { IfOk result (λ put. put ≡ putting node post replicas) }
    {
        let entries = alone(alloc, node)?;
        Ok(Put {
            node,
            kind: post.kind,
            ack: ack_of(&post),
            machine: PutPost::start(alloc, post, replicas, &entries)?,
            counts: false,
        })
    }

    /// What is said of the block, should it go.
    pub(crate) fn ack(&self) -> Ack
        ensures { result ≡ self.now.ack }
    {
        self.ack
    }

    /// What the put wants next: an ask of another node, or of the node itself for the route; or nothing more, since it is
    /// over: whether the block may go. The error is: out of memory; the put isn't used after it, nor after its result.
    pub(crate) fn next(&mut self) -> Result<Want<bool>, Memory>
        ensures wanted { IfOk result (λ want. PuttingIsWanted self.old self.new want) }
        ensures left { IfOk result (λ _. left_of self.new ≤ left_of self.old) }
        ensures ack { self.new.ack ≡ self.old.ack }
    {
        'steps: loop {
            if let Some(want) = self.step()? {
                return Ok(want);
            }
        }
    }

    /// Hears what the node answered that was asked last. It is called once after each ask. The error is: out of memory;
    /// the put isn't used after it.
    pub(crate) fn heard(&mut self, answer: Answer) -> Result<(), Memory>
        requires { put_awaited self.old.put ≢ None }
        ensures heard { IfOk result (λ _. PuttingHasHeard self.old self.new answer) }
        ensures left { IfOk result (λ _. left_of self.new < left_of self.old) }
    {
        self.machine.heard(answer)
    }

    /// One step: what is wanted, or the node counts at its place. The error is: out of memory.
    fn step(&mut self) -> Result<Option<Want<bool>>, Memory>
        ensures steps { IfOk result (λ want. PuttingSteps self.old self.new want) }
        ensures ack { self.new.ack ≡ self.old.ack }
    {
        match self.machine.next()? {
            Want::Ask(node, question) => self.asks(node, question),
            Want::Done(came) => Ok(Some(Want::Done(self.may_go(&came)))),
        }
    }

    /// Whether the block may go, since this came of its put: the put was acknowledged, and the node doesn't count.
    fn may_go(&self, came: &Result<bool, Miss>) -> bool
        ensures { result ≡ (acknowledged came.now && not self.now.counts) }
    {
        is_acknowledged(came) && !self.counts
    }

    /// The ask, unless it is the node's own put, which counts as answered. The error is: out of memory.
    fn asks(&mut self, node: Peer, question: Ask) -> Result<Option<Want<bool>>, Memory>
        requires { put_awaited self.old.put ≡ Some (node, question) }
        ensures asks { IfOk result (λ want. PuttingAsks self.old self.new node question want) }
        ensures ack { self.new.ack ≡ self.old.ack }
    {
        if is_put(&question) && is_node(&self.node, &node) {
            self.count()?;
            return Ok(None);
        }
        Ok(Some(Want::Ask(node, question)))
    }

    /// The node counts as having answered that it holds the block. The error is: out of memory.
    fn count(&mut self) -> Result<(), Memory>
        requires { put_awaited self.old.put ≢ None }
        ensures counts { IfOk result (λ _. PuttingCounts self.old self.new) }
        ensures ack { self.new.ack ≡ self.old.ack }
    {
        self.machine.heard(Answer::Stored)?;
        self.counts = true;
        Ok(())
    }
}
