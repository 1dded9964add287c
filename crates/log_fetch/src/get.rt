//! One get of what a refresh wants: the heads of a log, or a content block.

ghost use Rattle.std.specs.Prelude.{◌≡◌, ◌≢◌, ◌<◌, ◌≤◌, None, IfOk};
ghost use Rattle.ivy_base.specs.Naming.{head_key_of};
ghost use Rattle.dhash_client.specs.GetBlock.{block_begun};
ghost use Rattle.dhash_client.specs.GetHead.{head_begun};
ghost use Rattle.log_fetch.specs.Gets.{get_awaited, gets_left, GetIsWanted, GetHasHeard, IsOfKind, IsOfGet, GoesTo, HearsTo};

use dhash_client::{GetBlock, GetHead, Miss};
use dht_ids::{Answer, Ask, Heads, Judge, Peer, Peers, Want};
use ivy_base::{Bytes, Key, Memory, PubKey, head_key};
use std::alloc::Global;

/// A get on its way.
#[derive(Drop)]
pub enum Get<J: Judge> {
    /// Of the heads of an owner's log.
    Heads(PubKey, GetHead<J>),
    /// Of a content block.
    Block(GetBlock),
}

/// What a get brought.
#[derive(Drop)]
pub enum Came {
    /// The heads, or why there are none.
    Heads(Result<Heads, Miss>),
    /// The block, or why there is none.
    Block(Result<Bytes, Miss>),
}

/// A get whose last ask is to be heard.
#[derive(Drop)]
pub struct Waiting<J: Judge> {
    /// The get.
    pub get: Get<J>,
    /// The node that was asked.
    pub node: Peer,
    /// What it was asked.
    pub question: Ask,
}

/// What becomes of a get.
pub enum Progress<J: Judge> {
    /// It waits for its next ask to be heard.
    Waits(Waiting<J>),
    /// It is over.
    Comes(Came),
}

impl<J: Judge> Get<J> {
    /// A get of the heads of the owner's log that begins its look-up at these nodes and is content with that many answers.
    /// The error is: out of memory.
    pub fn heads(
        alloc: Global,
        judge: J,
        owner: PubKey,
        replicas: u32,
        entries: &Peers,
    ) -> Result<Get<J>, Memory>
        ensures { IfOk result (λ get. get ≡ Get.Heads owner (head_begun judge (head_key_of owner) replicas entries.now)) }
    {
        let key = head_key(&owner);
        Ok(Get::Heads(owner, GetHead::start(alloc, judge, key, replicas, entries)?))
    }

    /// A get of the content block of that name, likewise. The error is: out of memory.
    pub fn block(alloc: Global, key: Key, replicas: u32, entries: &Peers) -> Result<Get<J>, Memory>
        ensures { IfOk result (λ get. get ≡ Get.Block (block_begun key replicas entries.now)) }
    {
        Ok(Get::Block(GetBlock::start(alloc, key, replicas, entries)?))
    }

    /// What the get wants next: an ask, or nothing more, since it has its result. The error is: out of memory; the get
    /// isn't used after it, nor after its result.
    pub fn next(&mut self) -> Result<Want<Came>, Memory>
        ensures wanted { IfOk result (λ want. GetIsWanted J.judges self.old self.new want) }
        ensures kind { IfOk result (IsOfKind self.old) }
        ensures left { IfOk result (λ _. gets_left self.new ≤ gets_left self.old) }
    {
        match self {
            Get::Heads(_, get) => match get.next()? {
                Want::Ask(node, question) => Ok(Want::Ask(node, question)),
                Want::Done(heads) => Ok(Want::Done(Came::Heads(heads))),
            },
            Get::Block(get) => match get.next()? {
                Want::Ask(node, question) => Ok(Want::Ask(node, question)),
                Want::Done(block) => Ok(Want::Done(Came::Block(block))),
            },
        }
    }

    /// Hears what the node answered that was asked last. It is called once after each ask. The error is: out of memory;
    /// the get isn't used after it.
    pub fn heard(&mut self, answer: Answer) -> Result<(), Memory>
        requires { get_awaited self.old ≢ None }
        ensures heard { IfOk result (λ _. GetHasHeard J.judges self.old self.new answer) }
        ensures left { IfOk result (λ _. gets_left self.new < gets_left self.old) }
    {
        match self {
            Get::Heads(_, get) => get.heard(answer),
            Get::Block(get) => get.heard(answer),
        }
    }

    /// Goes on to the next ask, where there is one. The error is: out of memory.
    pub fn go_on(mut self) -> Result<Progress<J>, Memory>
        ensures { IfOk result (GoesTo J.judges self) }
    {
        match self.next()? {
            Want::Ask(node, question) => Ok(Progress::Waits(Waiting {
                get: self,
                node,
                question,
            })),
            Want::Done(came) => Ok(Progress::Comes(came)),
        }
    }

    /// Hears what the node answered that was asked last, and goes on to the next ask, where there is one. The error is: out
    /// of memory.
    pub fn hear(mut self, answer: Answer) -> Result<Progress<J>, Memory>
        requires { get_awaited self ≢ None }
        ensures { IfOk result (HearsTo J.judges self answer) }
    {
        self.heard(answer)?;
        self.go_on()
    }
}

impl<J: Judge> Waiting<J> {
    /// Hears what the node answered, and goes on to the next ask, where there is one. The error is: out of memory.
    pub fn hear(self, answer: Answer) -> Result<Progress<J>, Memory>
        requires { get_awaited self.get ≢ None }
        ensures { IfOk result (HearsTo J.judges self.get answer) }
    {
        self.get.hear(answer)
    }

    /// The node that was asked and what it was asked, again.
    pub fn again(&self) -> (Peer, Ask)
        requires { IsOfGet self.now.question }
        ensures { result ≡ (self.now.node, self.now.question) }
    {
        let question = match &self.question {
            Ask::Route(key) => Ask::Route(*key),
            Ask::Get(key) => Ask::Get(*key),
            _ => unreachable!(),
        };
        (self.node, question)
    }
}
