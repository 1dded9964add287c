//! A whole put among the nodes, ask by ask.

ghost use Rattle.std.specs.Prelude.{◌≡◌, ◌≢◌, ◌<◌, None, IfOk};
ghost use Rattle.ring_model.specs.Members.{IsAmong};

use crate::nodes::RingNodes;
use dhash_client::{Miss, PutPost};
use dht_ids::{Ask, Judge, Peer, Post, PostKind, Want};
use ivy_base::{Bytes, Key, Memory};
use std::alloc::Global;

impl RingNodes {
    ghost use Rattle.dht_ids.specs.declared.ask.Ask.TheVariants as ask;
    ghost use Rattle.dhash_client.specs.Execution.{asks_left};
    ghost use Rattle.dhash_client.specs.Puts.{put_awaited};
    ghost use Rattle.world_model.specs.World.{World};
    ghost use Rattle.ring_nodes.specs.Looking.{PutSteps, PutsSo};
    ghost use Rattle.ring_nodes.specs.NodesState.{BringsOnly, IsNodesOf, made_peers, with_nodes};

    /// Puts a content block at the owners of its key: a look-up from all nodes that were made, and then the owners, one ask
    /// after the other, until that many have answered. The result is whether the put was acknowledged, or that no owner was
    /// found. The error is: out of memory, or 2^64 asks; asks may have been made then.
    pub fn put_block<J: Judge>(
        &mut self,
        alloc: Global,
        judge: &J,
        replicas: u32,
        key: Key,
        bytes: Bytes,
    ) -> Result<Result<bool, Miss>, Memory>
        ensures puts { IfOk result (λ came. (w : World) → IsNodesOf w self.old → PutsSo (J.judges judge.now) w replicas key (ask.PutBlock key bytes) came (with_nodes w self.new)) }
        ensures made { made_peers self.new ≡ made_peers self.old }
    {
        let entries = self.entries(alloc)?;
        let post = Post {
            key,
            bytes,
            kind: PostKind::Block,
        };
        let mut put = PutPost::start(alloc, post, replicas, &entries)?;
        'asks: loop {
            match put.next()? {
                Want::Ask(node, question) => {
                    self.put_step(alloc, judge, &mut put, &node, &question)?;
                }
                Want::Done(came) => return Ok(came),
            }
        }
    }

    /// One ask of a put, which hears its answer. The error is: out of memory, or 2^64 asks.
    fn put_step<J: Judge>(
        &mut self,
        alloc: Global,
        judge: &J,
        put: &mut PutPost,
        node: &Peer,
        question: &Ask,
    ) -> Result<(), Memory>
        requires waiting { put_awaited put.old ≢ None }
        requires made { IsAmong node.now (made_peers self.old) }
        requires brings { BringsOnly (made_peers self.old) question.now }
        ensures steps { IfOk result (λ _. PutSteps (J.judges judge.now) node.now question.now self.old self.new put.old put.new) }
        ensures left { IfOk result (λ _. asks_left put.new.execution < asks_left put.old.execution) }
        ensures made { made_peers self.new ≡ made_peers self.old }
    {
        let answer = self.ask(alloc, judge, node, question)?;
        put.heard(answer)?;
        Ok(())
    }
}
