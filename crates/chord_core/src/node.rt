//! A node of the ring.

ghost use Rattle.std.specs.Prelude.{◌≡◌, ◌-◌, ◌*◌, ◌≤◌, List, Contains, IsPermutation, length, set, Some, None, IfOk, MatchResult};
ghost use Rattle.dht_ids.specs.Peers.{place};
ghost use Rattle.dht_ids.specs.declared.peer.Peer.{Peer};
ghost use Rattle.ring_model.specs.Circle.{identifier_bits};
ghost use Rattle.ring_model.specs.Members.{HasAscendingPlaces};
ghost use Rattle.ring_model.specs.Pass.{notified};
ghost use Rattle.dhash_model.specs.Settled.{IsSettledNode};
ghost use Rattle.dhash_model.specs.State.{alone_node, with_links, with_list, adopted, stabilised};
ghost use Rattle.chord_core.specs.State.{ring_answer, IsOfRing, IsOfNear};

use crate::near::{notice, others, renew};
use crate::route::{nearer, owners};
use crate::settle;
use crate::settle::FINGERS;
use dht_ids::{Answer, Ask, Peer, Peers};
use ivy_base::Memory;
use std::alloc::Global;
use std::marker::Model;

/// A node of the ring: itself, r, its predecessor, the list of its next members (at most 2r) and its fingers.
#[derive(Drop)]
pub struct Node {
    me: Peer,
    replicas: u32,
    before: Option<Peer>,
    list: Peers,
    fingers: Vec<Peer>,
    /// Room for the first entry of an empty list, so that a notice takes no memory.
    room: Option<Vec<Peer>>,
}

impl Model for Node {
    ghost use Rattle.std.specs.Prelude.{◌≡◌, ◌≢◌, ◌≤◌, ◌*◌, [], length, vec_capacity, None, IfSome};
    ghost use Rattle.ring_model.specs.Circle.{identifier_bits};
    ghost use Rattle.dhash_model.specs.State.{State};

    ghost Value = { State };

    ghost view = { λ n. record { me = n.me; replicas = n.replicas; links = record { list = n.list; before = n.before; fingers = n.fingers.items } } };

    ghost invariant = { λ n. (1 ≤ n.replicas) × (n.replicas ≤ 8) × (length n.list ≤ 2 * n.replicas) × (length n.fingers.items ≡ identifier_bits) × IfSome n.room (λ room. (room.items ≡ []) × (1 ≤ vec_capacity room)) × (n.list ≡ [] → n.room ≢ None) };
}

impl Node {
    /// A node that knows of nobody; each of its fingers is itself. r is 1 to 8. The error is: out of memory.
    pub fn alone(alloc: Global, me: Peer, replicas: u32) -> Result<Node, Memory>
        requires { (1 ≤ replicas) × (replicas ≤ 8) }
        ensures { IfOk result (λ node. node ≡ alone_node me replicas) }
    {
        Ok(Node {
            me,
            replicas,
            before: None,
            list: Peers::of(Vec::new(alloc)),
            fingers: vec![in alloc; me; FINGERS as usize]?,
            room: Some(Vec::with_capacity(alloc, 1)?),
        })
    }

    /// A node of a settled ring of these members. r is 1 to 8, the node is one of the members, and no two of them have
    /// one identifier. It takes a number of comparisons that grows like n log n with the number of members. The error
    /// is: out of memory.
    pub fn settled(alloc: Global, me: Peer, replicas: u32, members: &Peers) -> Result<Node, Memory>
        requires few { (1 ≤ replicas) × (replicas ≤ 8) }
        requires member { Contains members.now me }
        ensures { (live : List Peer) → HasAscendingPlaces place live → IsPermutation live members.now → IfOk result (λ node. IsSettledNode live me replicas node) }
    {
        let live = settle::ascending(alloc, members.as_slice())?;
        let (behind, front) = settle::around(&live, &me.id);
        Ok(Node {
            me,
            replicas,
            before: settle::last(behind, front),
            list: Peers::of(settle::next(alloc, behind, front, 2 * replicas as usize)?),
            fingers: settle::fingers(alloc, &live, me)?,
            room: Some(Vec::with_capacity(alloc, 1)?),
        })
    }

    /// Answers Route by the list and the fingers, and Near by the predecessor and the list. It may be asked nothing
    /// else. The error is: out of memory.
    pub fn answer(&self, alloc: Global, ask: &Ask) -> Result<Answer, Memory>
        requires { IsOfRing ask.now }
        ensures { IfOk result (λ answer. Some answer ≡ ring_answer self.now ask.now) }
    {
        match ask {
            Ask::Route(key) => {
                let list = self.list.as_slice();
                Ok(Answer::Route {
                    nearer: Peers::of(nearer(alloc, self.me, list, &self.fingers, key)?),
                    owners: Peers::of(owners(alloc, self.replicas, self.me, list, key)?),
                })
            }
            Ask::Near => Ok(Answer::Near {
                before: self.before,
                list: self.list.copy(alloc)?,
            }),
            _ => unreachable!(),
        }
    }

    /// Takes the first list of a joining node: the entries that stand elsewhere than the node, at most 2r. The error
    /// is: out of memory, and the node is as before then.
    pub fn adopt(&mut self, alloc: Global, list: &Peers) -> Result<(), Memory>
        ensures { MatchResult result (λ _. self.new ≡ with_list self.old (adopted self.old list.now)) (λ _. self.new ≡ self.old) }
    {
        let entries = others(alloc, self.replicas, self.me, list.as_slice())?;
        self.keep(alloc, entries)
    }

    /// Hears what the first entry of the list answered to Near: the list is renewed by it, or loses an entry that is
    /// silent (Chord, SIGCOMM 2001, section 5.1). The error is: out of memory, and the node is as before then.
    pub fn stabilise(&mut self, alloc: Global, heard: &Answer) -> Result<(), Memory>
        requires { IsOfNear heard.now }
        ensures { MatchResult result (λ _. self.new ≡ with_list self.old (stabilised self.old self.old.links.list heard.now)) (λ _. self.new ≡ self.old) }
    {
        let [first, rest @ ..] = self.list.as_slice() else {
            return Ok(());
        };
        let entries = match heard {
            Answer::Near { before, list } => renew(
                alloc,
                self.replicas,
                self.me,
                *first,
                *before,
                list.as_slice(),
            )?,
            Answer::Silent => rest.to_vec(alloc)?,
            _ => unreachable!(),
        };
        self.keep(alloc, entries)
    }

    /// Keeps the entries as the list.
    fn keep(&mut self, alloc: Global, entries: Vec<Peer>) -> Result<(), Memory>
        requires { length entries.items ≤ 2 * self.old.replicas }
        ensures { MatchResult result (λ _. self.new ≡ with_list self.old entries.items) (λ _. self.new ≡ self.old) }
    {
        if self.room.is_none() {
            self.room = Some(Vec::with_capacity(alloc, 1)?);
        }
        self.list = Peers::of(entries);
        Ok(())
    }

    /// Makes a node the finger k, from 1 to 160.
    pub fn fix_finger(&mut self, k: u32, owner: Peer)
        requires { (1 ≤ k) × (k ≤ identifier_bits) }
        ensures { self.new ≡ with_links self.old (record self.old.links { fingers = set self.old.links.fingers (k - 1) owner }) }
    {
        self.fingers[(k - 1) as usize] = owner;
    }

    /// Takes note of a node that may stand before this one: it becomes the predecessor where there is none, or where
    /// it is strictly between that and this node, and the list where that is empty.
    pub fn notify(&mut self, peer: Peer)
        ensures { self.new ≡ with_links self.old (notified place self.old.me self.old.links peer) }
    {
        self.before = notice(self.me, self.before, peer);
        if self.list.as_slice().is_empty() {
            let Some(mut room) = self.room.take() else {
                unreachable!()
            };
            let Ok(()) = room.push(peer) else {
                unreachable!()
            };
            self.list = Peers::of(room);
        }
    }

    /// Forgets the predecessor, which was silent.
    pub fn forget(&mut self)
        ensures { self.new ≡ with_links self.old (record self.old.links { before = None }) }
    {
        self.before = None;
    }

    /// The list of the next members, as far as the node knows.
    pub fn list(&self) -> &Peers
        ensures { result.now ≡ self.now.links.list }
    {
        &self.list
    }

    /// The predecessor, where the node knows one.
    pub fn before(&self) -> Option<Peer>
        ensures { result ≡ self.now.links.before }
    {
        self.before
    }
}
