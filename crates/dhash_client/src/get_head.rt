//! The get of a log's head.

ghost use Rattle.std.specs.Prelude.{◌≡◌, ◌≢◌, ◌<◌, ◌≤◌, None, IfOk};
ghost use Rattle.dhash_client.specs.Execution.{asked_of, asks_left};
ghost use Rattle.dhash_model.specs.GetBlock.{block_in};
ghost use Rattle.dhash_client.specs.GetHead.{head_begun, head_awaited, heads_result, HeadIsWanted, HeadHasHeard, HeadTakes};

use crate::execution::{Execution, Step};
use crate::get_block::answers_get;
use crate::remembering::Remembering;
use dhash_model::Miss;
use dht_ids::{Answer, Ask, Heads, Judge, Judged, Peer, Peers, Want};
use ivy_base::{Key, Memory};
use std::alloc::Global;
use std::marker::Model;
use std::mem;

/// A get of the heads that the owners hold under a log's head key (Ivy, OSDI 2002, section 3.2: DHash returns the
/// log-head it holds): its execution, what the judge said of the heads so far, and the first node that gave
/// something else. A head that is the one before it once more isn't judged again.
pub struct GetHead<J: Judge> {
    judge: Remembering<J>,
    execution: Execution,
    heads: Vec<Judged>,
    wrong: Option<Peer>,
}

// Written out, so that whatever drops one calls this and isn't proved over all of its parts once more.
impl<J: Judge> Drop for GetHead<J> {
    fn drop(self) {
        let GetHead {
            judge: _,
            execution: _,
            heads: _,
            wrong: _,
        } = self;
    }
}

impl<J: Judge> Model for GetHead<J> {
    ghost use Rattle.dhash_client.specs.GetHead.{HeadState};

    ghost Value = { HeadState J };

    ghost view = { λ g. record { execution = g.execution; judge = g.judge; heads = g.heads.items; wrong = g.wrong } };
}

impl<J: Judge> GetHead<J> {
    /// A get of the heads under the key that begins its look-up at these nodes and is content with that many answers.
    /// The error is: out of memory.
    pub fn start(
        alloc: Global,
        judge: J,
        key: Key,
        replicas: u32,
        entries: &Peers,
    ) -> Result<GetHead<J>, Memory>
        ensures { IfOk result (λ get. get ≡ head_begun judge key replicas entries.now) }
    {
        Ok(GetHead {
            judge: Remembering::new(judge),
            execution: Execution::start(alloc, key, replicas, entries)?,
            heads: Vec::new(alloc),
            wrong: None,
        })
    }

    /// What the get wants next: an ask, or nothing more, since it has its result. That is all judged heads in the
    /// order in which they were given, which are moved out, and otherwise a miss. An ask that was not yet heard is
    /// wanted again. The machine isn't used after its result. The error is: out of memory; the machine isn't used
    /// after it.
    pub fn next(&mut self) -> Result<Want<Result<Heads, Miss>>, Memory>
        ensures wanted { IfOk result (λ want. HeadIsWanted J.judges self.old self.new want) }
        ensures left { IfOk result (λ _. asks_left self.new.execution ≤ asks_left self.old.execution) }
    {
        let step = self.execution.next()?;
        let key = self.execution.key();
        Ok(match step {
            Step::Route(node) => Want::Ask(node, Ask::Route(key)),
            Step::Owner(node) => Want::Ask(node, Ask::Get(key)),
            Step::NoRoute => Want::Done(Err(Miss::NoRoute(key))),
            Step::Over => Want::Done(self.result()?),
        })
    }

    /// The result, where nobody else is asked. The error is: out of memory.
    fn result(&mut self) -> Result<Result<Heads, Miss>, Memory>
        ensures execution { self.new.execution ≡ self.old.execution }
        ensures given { IfOk result (λ given. given ≡ heads_result self.old.execution.look.key (asked_of self.old.execution.asking) self.old.heads self.old.wrong) }
    {
        let alloc = self.execution.allocator();
        if self.heads.is_empty() {
            return Ok(Err(self.execution.miss(self.wrong)?));
        }
        Ok(Ok(Heads::of(mem::replace(&mut self.heads, Vec::new(alloc)))))
    }

    /// Hears what the node answered that was asked last. An owner's answer that is none to a get is silence. It is
    /// called once after each ask. The error is: out of memory; the machine isn't used after it.
    pub fn heard(&mut self, answer: Answer) -> Result<(), Memory>
        requires { head_awaited self.old ≢ None }
        ensures heard { IfOk result (λ _. HeadHasHeard J.judges self.old self.new answer) }
        ensures left { IfOk result (λ _. asks_left self.new.execution < asks_left self.old.execution) }
    {
        let counts = answers_get(&answer);
        if let Some((node, answer)) = self.execution.heard(answer, counts)? {
            self.take(node, answer)?;
        }
        Ok(())
    }

    /// Takes what the owner answered. The error is: out of memory.
    fn take(&mut self, node: Peer, answer: Answer) -> Result<(), Memory>
        ensures execution { IfOk result (λ _. self.new.execution ≡ self.old.execution) }
        ensures judge { IfOk result (λ _. self.new.judge ≡ self.old.judge) }
        ensures takes { IfOk result (λ _. HeadTakes J.judges self.old.execution.look.key self.old self.new node (block_in answer)) }
    {
        let Answer::Found(bytes) = answer else {
            drop(answer);
            return Ok(());
        };
        if let Some(head) = self.judge.judge(self.execution.key(), bytes) {
            self.heads.push(head)?;
        } else if self.wrong.is_none() {
            self.wrong = Some(node);
        }
        Ok(())
    }
}
