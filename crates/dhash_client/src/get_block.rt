//! The get of a content block.

ghost use Rattle.std.specs.Prelude.{◌≡◌, ◌≢◌, ◌<◌, ◌≤◌, None, IfOk};
ghost use Rattle.dhash_client.specs.Execution.{asks_left};
ghost use Rattle.dhash_model.specs.GetBlock.{is_of_get, block_in};
ghost use Rattle.dhash_client.specs.GetBlock.{block_begun, block_awaited, BlockIsWanted, BlockHasHeard, BlockTakes};

use crate::execution::{Execution, Step};
use dhash_model::Miss;
use dht_ids::{Answer, Ask, Peer, Peers, Want};
use ivy_base::{Bytes, Key, Memory, name_of};
use std::alloc::Global;
use std::marker::Model;

/// A get of the content block whose name is the key (DHash; CFS, SOSP 2001, section 5.1): its execution, the block once
/// it was given, and the first node that gave another one.
pub struct GetBlock {
    execution: Execution,
    found: Option<Bytes>,
    wrong: Option<Peer>,
}

// Written out, so that whatever drops one calls this and isn't proved over all of its parts once more.
impl Drop for GetBlock {
    fn drop(self) {
        let GetBlock {
            execution: _,
            found: _,
            wrong: _,
        } = self;
    }
}

impl Model for GetBlock {
    ghost use Rattle.dhash_client.specs.GetBlock.{BlockState};

    ghost Value = { BlockState };

    ghost view = { λ g. record { execution = g.execution; found = g.found; wrong = g.wrong } };
}

/// Whether this is an answer to a get: a block, or the word that there is none.
pub(crate) fn answers_get(answer: &Answer) -> bool
    ensures { result ≡ is_of_get answer.now }
{
    matches!(answer, Answer::Found(_) | Answer::Nothing)
}

impl GetBlock {
    /// A get of the block that begins its look-up at these nodes and is content with that many answers. The error
    /// is: out of memory.
    pub fn start(
        alloc: Global,
        key: Key,
        replicas: u32,
        entries: &Peers,
    ) -> Result<GetBlock, Memory>
        ensures { IfOk result (λ get. get ≡ block_begun key replicas entries.now) }
    {
        Ok(GetBlock {
            execution: Execution::start(alloc, key, replicas, entries)?,
            found: None,
            wrong: None,
        })
    }

    /// What the get wants next: an ask, or nothing more, since it has its result. That is the block, whose bytes are
    /// moved out, and otherwise a miss. An ask that was not yet heard is wanted again. The machine isn't used after
    /// its result. The error is: out of memory; the machine isn't used after it.
    pub fn next(&mut self) -> Result<Want<Result<Bytes, Miss>>, Memory>
        ensures wanted { IfOk result (λ want. BlockIsWanted self.old self.new want) }
        ensures left { IfOk result (λ _. asks_left self.new.execution ≤ asks_left self.old.execution) }
    {
        if let Some(bytes) = self.found.take() {
            return Ok(Want::Done(Ok(bytes)));
        }
        let step = self.execution.next()?;
        let key = self.execution.key();
        Ok(match step {
            Step::Route(node) => Want::Ask(node, Ask::Route(key)),
            Step::Owner(node) => Want::Ask(node, Ask::Get(key)),
            Step::NoRoute => Want::Done(Err(Miss::NoRoute(key))),
            Step::Over => Want::Done(Err(self.execution.miss(self.wrong)?)),
        })
    }

    /// Hears what the node answered that was asked last. An owner's answer that is none to a get is silence. It is
    /// called once after each ask. The error is: out of memory; the machine isn't used after it.
    pub fn heard(&mut self, answer: Answer) -> Result<(), Memory>
        requires { block_awaited self.old ≢ None }
        ensures heard { IfOk result (λ _. BlockHasHeard self.old self.new answer) }
        ensures left { IfOk result (λ _. asks_left self.new.execution < asks_left self.old.execution) }
    {
        let counts = answers_get(&answer);
        if let Some((node, answer)) = self.execution.heard(answer, counts)? {
            self.take(node, answer);
        }
        Ok(())
    }

    /// Takes what the owner answered.
    fn take(&mut self, node: Peer, answer: Answer)
        ensures execution { self.new.execution ≡ self.old.execution }
        ensures takes { BlockTakes self.old.execution.look.key self.old self.new node (block_in answer) }
    {
        let Answer::Found(bytes) = answer else {
            drop(answer);
            return;
        };
        if name_of(bytes.as_slice()) == self.execution.key() {
            self.found = Some(bytes);
        } else if self.wrong.is_none() {
            self.wrong = Some(node);
        }
    }
}
