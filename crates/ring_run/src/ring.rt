//! A ring whose nodes lie behind locks.

ghost use Rattle.std.specs.Prelude.{◌≡◌, ◌≤◌, map, IfOk};
ghost use Rattle.std.specs.List.Sorted.{IsStrictlyIncreasing};
ghost use Rattle.dht_ids.specs.Asked.{IsAnswerTo};
ghost use Rattle.dhash_model.specs.Signed.{hss_judged};

use crate::names::Names;
use crate::remembering::RememberingJudge;
use crate::seat::{Seat, peers_of, seat_of, seats_of};
use crate::verdicts::Verdicts;
use dht_ids::{Answer, Ask, Peer, Peers};
use ivy_base::Memory;
use ring_nodes::settled_nodes;
use std::alloc::Global;
use std::marker::Model;
use std::sync::Wait;

/// A ring whose nodes lie behind locks. Contracts see how many nodes own a key, the nodes that were made, by number, and
/// those that live, in the order in which they came.
pub struct LiveRing {
    pub(crate) replicas: u32,
    /// By number.
    pub(crate) made: Vec<Peer>,
    pub(crate) live: Vec<Seat>,
    /// What the nodes know of signatures. No contract sees it.
    verdicts: Verdicts,
    /// What they know of names, likewise.
    names: Names,
}

/// One function, so that whatever drops a ring calls it and isn't proved over all of its parts once more.
impl Drop for LiveRing {
    fn drop(self) {
        let LiveRing {
            replicas: _,
            made: _,
            live: _,
            verdicts: _,
            names: _,
        } = self;
    }
}

impl Model for LiveRing {
    ghost use Rattle.std.specs.Prelude.{map};
    ghost use Rattle.ring_run.specs.Live.{IsLiveRing, LiveState};

    ghost Value = { LiveState };

    ghost view = { λ r. record { replicas = r.replicas; made = r.made.items; live = map (λ s. s.peer) r.live.items } };

    ghost invariant = { λ r. IsLiveRing (record { replicas = r.replicas; made = r.made.items; live = map (λ s. s.peer) r.live.items }) };
}

impl LiveRing {
    ghost use Rattle.ring_run.specs.Live.{Gives, IsLiveRing, new_ring};

    /// The settled ring of nodes 0 to `count` - 1, at most 256, of which `replicas`, 1 to 8, own a key. A node whose
    /// identifier was made before is left out. It waits for nothing. The error is: out of memory.
    pub fn make<R>(rt: &R, alloc: Global, count: u32, replicas: u32) -> Result<LiveRing, Memory>
        requires count { (1 ≤ count) × (count ≤ 256) }
        requires few { (1 ≤ replicas) × (replicas ≤ 8) }
        ensures { IfOk result (λ ring. ring ≡ new_ring count replicas) }
    {
        LiveRing::make_with(rt, alloc, count, replicas, Verdicts::new(alloc)?)
    }

    /// As [`LiveRing::make`], with nodes that have these verdicts, which whoever publishes may share: what a
    /// [`RememberedKey`](crate::RememberedKey) signs they needn't verify. The error is: out of memory.
    pub fn make_with<R>(
        _rt: &R,
        alloc: Global,
        count: u32,
        replicas: u32,
        verdicts: Verdicts,
    ) -> Result<LiveRing, Memory>
        requires count { (1 ≤ count) × (count ≤ 256) }
        requires few { (1 ≤ replicas) × (replicas ≤ 8) }
        ensures { IfOk result (λ ring. ring ≡ new_ring count replicas) }
    {
        let live = seats_of(alloc, settled_nodes(alloc, count, replicas)?)?;
        let made = peers_of(alloc, &live)?;
        let names = Names::new(alloc)?;
        Ok(LiveRing {
            replicas,
            made,
            live,
            verdicts,
            names,
        })
    }

    /// What holds of the ring at all times: `IsLiveRing` in `specs/Live.antt`. It does nothing.
    pub fn is_sound(&self)
        ensures { IsLiveRing self.now }
    {
        let _ = &self.made;
    }

    /// Asks a node, which answers under its lock: silence exactly where the peer doesn't live, and else an answer of the
    /// ask's form ([`live_laws`](crate::live_laws)). The error is: out of memory, and no node is changed then.
    pub fn ask<R: Wait>(
        &self,
        rt: &R,
        alloc: Global,
        node: &Peer,
        ask: &Ask,
    ) -> Result<Answer, Memory>
        ensures gives { IfOk result (Gives hss_judged self.now node.now ask.now) }
        ensures form { IfOk result (IsAnswerTo ask.now) }
    {
        let judge = RememberingJudge {
            verdicts: &self.verdicts,
        };
        match seat_of(&self.live, node) {
            Some(seat) => {
                let is_named = self.names.know(ask);
                seat.node
                    .lock(rt)
                    .answer_known(alloc, &judge, ask, is_named)
            }
            None => Ok(Answer::Silent),
        }
    }

    /// r: how many nodes own a key, 1 to 8.
    pub fn replicas(&self) -> u32
        ensures replicas { result ≡ self.now.replicas }
        ensures few { (1 ≤ result) × (result ≤ 8) }
    {
        self.replicas
    }

    /// The nodes that live, in the order in which they came. The error is: out of memory.
    pub fn live(&self, alloc: Global) -> Result<Peers, Memory>
        ensures { IfOk result (λ peers. peers ≡ self.now.live) }
    {
        Ok(Peers::of(peers_of(alloc, &self.live)?))
    }

    /// The nodes that were made, by number. The error is: out of memory.
    pub fn made(&self, alloc: Global) -> Result<Peers, Memory>
        ensures made { IfOk result (λ peers. peers ≡ self.now.made) }
        ensures ascending { IfOk result (λ peers. IsStrictlyIncreasing (map (λ p. p.number) peers)) }
    {
        Ok(Peers::of(self.made.as_slice().to_vec(alloc)?))
    }
}
