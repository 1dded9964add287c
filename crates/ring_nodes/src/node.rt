//! A node in memory.

ghost use Rattle.std.specs.Prelude.{◌≡◌, ◌<◌, true, false, fold, map, Some, IfOk, OnOk, OnErr};
ghost use Rattle.dhash_model.specs.Stores.{without};
ghost use Rattle.std.specs.Ordering.{eq_by_cmp};
ghost use Rattle.ivy_base.specs.Naming.{key_cmp, name};
ghost use Rattle.ring_model.specs.Circle.{identifier_bits};
ghost use Rattle.ring_nodes.specs.Puts.{IsNamed, Told};

use chord_core::Node;
use dht_ids::{Ack, Answer, Ask, Judge, Peer, Posts};
use ivy_base::{Bytes, Key, Memory, name_of};
use node_store::{PutFault, Store};
use std::alloc::Global;
use std::marker::Model;

/// Whether both are one identifier.
pub(crate) fn is_id(a: &Key, b: &Key) -> bool
    ensures { result ≡ eq_by_cmp key_cmp a.now b.now }
{
    a == b
}

/// A node: what it keeps of the ring, whether it lives, and the blocks that it holds.
#[derive(Drop)]
pub struct RingNode {
    peer: Peer,
    ring: Node,
    is_live: bool,
    store: Store,
}

impl Model for RingNode {
    ghost use Rattle.std.specs.Prelude.{◌≡◌};
    ghost use Rattle.world_model.specs.Nodes.{Node};

    ghost Value = { Node };

    ghost view = { λ n. record { ring = n.ring; is_live = n.is_live; blocks = n.store } };

    ghost invariant = { λ n. n.ring.me ≡ n.peer };
}

impl RingNode {
    ghost use Rattle.std.specs.Option.{option_map_or};
    ghost use Rattle.dht_ids.specs.declared.ask.Answer.TheVariants as answer;
    ghost use Rattle.dhash_model.specs.Stores.{bytes_at};
    ghost use Rattle.node_store.specs.Stores.{post_of};
    ghost use Rattle.world_model.specs.Nodes.{answered};
    ghost use Rattle.world_model.specs.World.{peer_of};
    ghost use Rattle.world_model.specs.Ring.{empty_node};
    ghost use Rattle.ring_nodes.specs.NodesState.{held_by};
    ghost use Rattle.chord_core.specs.State.{IsOfNear};
    ghost use Rattle.ring_model.specs.Members.{first};
    ghost use Rattle.ring_nodes.specs.Spoiling.{IsSpoiled};
    ghost use Rattle.ring_nodes.specs.Upkeep.{fingered, forgotten, renewed_by, without_blocks};

    /// A live node that holds nothing.
    pub(crate) fn empty(alloc: Global, peer: Peer, ring: Node) -> RingNode
        requires { ring.me ≡ peer }
        ensures { result ≡ empty_node ring }
    {
        RingNode {
            peer,
            ring,
            is_live: true,
            store: Store::new(alloc),
        }
    }

    /// The node as others know it.
    pub fn peer(&self) -> Peer
        ensures { result ≡ peer_of self.now }
    {
        self.peer
    }

    /// Whether the node lives.
    pub(crate) fn is_live(&self) -> bool
        ensures { result ≡ self.now.is_live }
    {
        self.is_live
    }

    /// Stops the node. False where it was stopped.
    pub(crate) fn stop(&mut self) -> bool
        ensures lived { result ≡ self.old.is_live }
        ensures stopped { self.new ≡ record self.old { is_live = false } }
    {
        std::mem::replace(&mut self.is_live, false)
    }

    /// What the live node answers. The error is: out of memory, and the node is as before then.
    pub fn answer<J: Judge>(
        &mut self,
        alloc: Global,
        judge: &J,
        question: &Ask,
    ) -> Result<Answer, Memory>
        ensures given { IfOk result (λ given. given ≡ (answered (J.judges judge.now) self.old question.now).0) }
        ensures after { OnOk result (self.new ≡ (answered (J.judges judge.now) self.old question.now).1) }
        ensures unchanged { OnErr result (self.new ≡ self.old) }
        ensures peer { peer_of self.new ≡ peer_of self.old }
    {
        self.answer_known(alloc, judge, question, false)
    }

    /// As [`RingNode::answer`], for whoever may know that a block which is put has its name: it isn't hashed then.
    pub fn answer_known<J: Judge>(
        &mut self,
        alloc: Global,
        judge: &J,
        question: &Ask,
        is_named: bool,
    ) -> Result<Answer, Memory>
        requires { is_named ≡ true → IsNamed question.now }
        ensures given { IfOk result (λ given. given ≡ (answered (J.judges judge.now) self.old question.now).0) }
        ensures after { OnOk result (self.new ≡ (answered (J.judges judge.now) self.old question.now).1) }
        ensures unchanged { OnErr result (self.new ≡ self.old) }
        ensures peer { peer_of self.new ≡ peer_of self.old }
    {
        match question {
            Ask::Route(_) | Ask::Near => self.ring.answer(alloc, question),
            Ask::Notify(peer) => {
                self.ring.notify(*peer);
                Ok(Answer::Noted)
            }
            Ask::Get(key) => self.found(alloc, key),
            Ask::PutBlock(key, bytes) => {
                told(self.store.put_known(alloc, key, bytes.as_slice(), is_named))
            }
            Ask::PutHead(key, bytes) => {
                told(self.store.put_head(alloc, judge, key, bytes.as_slice()))
            }
        }
    }

    /// Changes a byte of a block, and gives the block as it is then; None where no such byte is held, and nothing is changed
    /// then. The error is: out of memory, and nothing is changed then either.
    pub(crate) fn spoil(
        &mut self,
        alloc: Global,
        key: &Key,
        offset: u64,
        byte: u8,
    ) -> Result<Option<Bytes>, Memory>
        ensures spoiled { IfOk result (IsSpoiled key.now offset byte self.old self.new) }
        ensures unchanged { OnErr result (self.new ≡ self.old) }
        ensures ring { self.new.ring ≡ self.old.ring }
    {
        let Some(block) = self.store.get(key) else {
            return Ok(None);
        };
        let mut bytes = block.to_vec(alloc)?;
        if !self.store.spoil(key, offset, byte) {
            return Ok(None);
        }
        bytes[offset as usize] = byte;
        Ok(Some(Bytes::of(bytes)))
    }

    /// Copies of the blocks that the node holds, their keys ascending; None where it is stopped. The error is: out of memory.
    pub(crate) fn held(&self, alloc: Global) -> Result<Option<Posts>, Memory>
        ensures { IfOk result (λ posts. posts ≡ held_by (Some self.now)) }
    {
        if !self.is_live {
            return Ok(None);
        }
        Ok(Some(self.store.held(alloc)?))
    }

    /// The predecessor that the node knows.
    pub fn before(&self) -> Option<Peer>
        ensures { result ≡ self.now.ring.links.before }
    {
        self.ring.before()
    }

    /// The first entry of the node's list.
    pub fn first(&self) -> Option<Peer>
        ensures { result ≡ first self.now.ring.links.list }
    {
        self.ring.list().as_slice().first().copied()
    }

    /// Forgets the predecessor.
    pub fn forget(&mut self)
        ensures { self.new ≡ forgotten self.old }
    {
        self.ring.forget();
    }

    /// Renews the list by what its first entry answered to Near. The error is: out of memory, and the node is as before
    /// then.
    pub fn renew(&mut self, alloc: Global, heard: &Answer) -> Result<(), Memory>
        requires { IsOfNear heard.now }
        ensures renewed { OnOk result (self.new ≡ renewed_by heard.now self.old) }
        ensures unchanged { OnErr result (self.new ≡ self.old) }
    {
        self.ring.stabilise(alloc, heard)
    }

    /// Makes a peer the finger of that index, 0 to 159.
    pub fn fix_finger(&mut self, index: u32, owner: Peer)
        requires { index < identifier_bits }
        ensures { self.new ≡ fingered index owner self.old }
    {
        self.ring.fix_finger(index + 1, owner);
    }

    /// Copies of the blocks that the node holds, whether or not it lives, their keys ascending. The error is: out of memory.
    pub fn posts(&self, alloc: Global) -> Result<Posts, Memory>
        ensures { IfOk result (λ posts. posts ≡ map post_of self.now.blocks) }
    {
        self.store.held(alloc)
    }

    /// Drops the blocks of these keys.
    pub fn drop_blocks(&mut self, keys: &[Key])
        ensures { self.new ≡ without_blocks keys.now self.old }
    {
        drop_all(&mut self.store, keys);
    }

    /// Whether the node holds bytes of that name under that key.
    pub fn holds(&self, ack: &Ack) -> bool
        ensures { result ≡ option_map_or (λ bytes. eq_by_cmp key_cmp (name bytes) ack.now.name) (bytes_at ack.now.key self.now.blocks) false }
    {
        match self.store.get(&ack.key) {
            Some(bytes) => is_id(&name_of(bytes), &ack.name),
            None => false,
        }
    }

    /// What the node answers to a get. The error is: out of memory.
    fn found(&self, alloc: Global, key: &Key) -> Result<Answer, Memory>
        ensures { IfOk result (λ given. given ≡ option_map_or (λ bytes. answer.Found bytes) (bytes_at key.now self.now.blocks) answer.Nothing) }
    {
        Ok(match self.store.get(key) {
            Some(bytes) => Answer::Found(Bytes::copy_of(alloc, bytes)?),
            None => Answer::Nothing,
        })
    }
}

/// Drops the blocks of these keys.
fn drop_all(store: &mut Store, keys: &[Key])
    ensures { store.new ≡ fold (λ blocks key. without key blocks) store.old keys.now }
{
    'keys: for key in keys {
        store.drop_block(key);
    }
}

/// The answer that tells what became of a put. The error is: out of memory.
fn told(put: Result<(), PutFault>) -> Result<Answer, Memory>
    ensures { Told put result }
{
    match put {
        Ok(()) => Ok(Answer::Stored),
        Err(PutFault::Refused(fault)) => Ok(Answer::Refused(fault)),
        Err(PutFault::Memory) => Err(Memory),
    }
}
