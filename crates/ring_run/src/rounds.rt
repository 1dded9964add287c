//! Rounds of maintenance, by asks like any other.

ghost use Rattle.std.specs.Prelude.{◌≡◌, ◌≢◌, ◌<◌, None, IfOk};
ghost use Rattle.dhash_client.specs.Machine.{looks_left};
ghost use Rattle.dhash_repair.specs.Repairing.{repair_awaited, repair_left};
ghost use Rattle.chord_core.specs.State.{IsOfNear};

use crate::ring::LiveRing;
use crate::seat::Seat;
use chord_core::FINGERS;
use dhash_client::Lookup;
use dhash_repair::Repair;
use dht_ids::{Acks, Answer, Ask, Peer, Peers, Posts, Want, finger_start};
use ivy_base::{Key, Memory};
use std::alloc::Global;
use std::sync::Wait;

/// The node alone, as what a look-up begins with. The error is: out of memory.
fn alone(alloc: Global, node: &Peer) -> Result<Peers, Memory> {
    Ok(Peers::of(vec![in alloc; *node]?))
}

impl LiveRing {
    /// A round of maintenance over the live nodes, in the order in which they came: silent predecessors are forgotten; 2r + 1
    /// times each list is renewed, and the first of each new list notified; fingers are fixed by look-ups; and blocks are put at
    /// their owners, and dropped where they aren't the node's to hold. Other threads may ask meanwhile. The error is: out of
    /// memory; a part of the round is done then.
    pub fn round<R: Wait>(&self, rt: &R, alloc: Global) -> Result<(), Memory> {
        for seat in &self.live {
            self.forget_silent(rt, alloc, seat)?;
        }
        for _ in 0..2 * self.replicas + 1 {
            self.renew_lists(rt, alloc)?;
        }
        for seat in &self.live {
            self.fix_fingers(rt, alloc, seat)?;
        }
        for seat in &self.live {
            self.repair(rt, alloc, seat)?;
        }
        Ok(())
    }

    /// A node forgets its predecessor, where that is silent. The error is: out of memory.
    fn forget_silent<R: Wait>(&self, rt: &R, alloc: Global, seat: &Seat) -> Result<(), Memory> {
        let Some(before) = seat.before(rt) else {
            return Ok(());
        };
        if let Answer::Silent = self.ask(rt, alloc, &before, &Ask::Near)? {
            seat.forget(rt, &before);
        }
        Ok(())
    }

    /// Each node, one after the other, renews its list. The error is: out of memory.
    fn renew_lists<R: Wait>(&self, rt: &R, alloc: Global) -> Result<(), Memory> {
        for seat in &self.live {
            self.stabilise(rt, alloc, seat)?;
        }
        Ok(())
    }

    /// A node renews its list by the first entry that answers, and notifies the first of the new list. Entries that are silent
    /// are dropped, at most the 2r that a list has. The error is: out of memory.
    fn stabilise<R: Wait>(&self, rt: &R, alloc: Global, seat: &Seat) -> Result<(), Memory> {
        for _ in 0..2 * self.replicas {
            let Some(first) = seat.first(rt) else {
                return Ok(());
            };
            let heard = self.near(rt, alloc, &first)?;
            seat.renew(rt, alloc, &first, &heard)?;
            if !matches!(heard, Answer::Silent) {
                return self.notify_first(rt, alloc, seat);
            }
        }
        Ok(())
    }

    /// What a node answers to Near. The error is: out of memory.
    fn near<R: Wait>(&self, rt: &R, alloc: Global, node: &Peer) -> Result<Answer, Memory>
        ensures { IfOk result IsOfNear }
    {
        self.ask(rt, alloc, node, &Ask::Near)
    }

    /// The first entry of a node's list hears of the node. The error is: out of memory.
    fn notify_first<R: Wait>(&self, rt: &R, alloc: Global, seat: &Seat) -> Result<(), Memory> {
        if let Some(first) = seat.first(rt) {
            self.ask(rt, alloc, &first, &Ask::Notify(seat.peer))?;
        }
        Ok(())
    }

    /// A node makes the first owner of each finger's start its finger, where a look-up from itself finds one. The error
    /// is: out of memory.
    fn fix_fingers<R: Wait>(&self, rt: &R, alloc: Global, seat: &Seat) -> Result<(), Memory> {
        for index in 0..FINGERS {
            let start = finger_start(&seat.peer.id, index + 1);
            if let Some(owner) = self.first_owner(rt, alloc, &seat.peer, start)? {
                seat.fix_finger(rt, index, owner);
            }
        }
        Ok(())
    }

    /// The first owner of a key that a look-up through a node finds. The error is: out of memory.
    fn first_owner<R: Wait>(
        &self,
        rt: &R,
        alloc: Global,
        through: &Peer,
        key: Key,
    ) -> Result<Option<Peer>, Memory> {
        let mut lookup = Lookup::start(alloc, key, 1, &alone(alloc, through)?)?;
        'asks: loop {
            match lookup.next()? {
                Want::Ask(node, question) => {
                    self.look(rt, alloc, &mut lookup, &node, &question)?;
                }
                Want::Done(Ok(owners)) => return Ok(owners.as_slice().first().copied()),
                Want::Done(Err(_)) => return Ok(None),
            }
        }
    }

    /// One ask of a look-up, which hears its answer. The error is: out of memory.
    fn look<R: Wait>(
        &self,
        rt: &R,
        alloc: Global,
        lookup: &mut Lookup,
        node: &Peer,
        question: &Ask,
    ) -> Result<(), Memory>
        requires { lookup.old.waiting ≢ None }
        ensures { IfOk result (λ _. looks_left lookup.new < looks_left lookup.old) }
    {
        let answer = self.ask(rt, alloc, node, question)?;
        lookup.heard(answer)
    }

    /// A node puts its blocks at their owners, and drops those that aren't its to hold. The error is: out of memory.
    fn repair<R: Wait>(&self, rt: &R, alloc: Global, seat: &Seat) -> Result<(), Memory> {
        let held = seat.posts(rt, alloc)?;
        let acks = self.put_all(rt, alloc, &seat.peer, held)?;
        seat.drop_put(rt, acks.as_slice());
        Ok(())
    }

    /// These blocks, which a node holds, are put at their owners; the result is said of those that it is to drop. The error
    /// is: out of memory.
    fn put_all<R: Wait>(
        &self,
        rt: &R,
        alloc: Global,
        node: &Peer,
        held: Posts,
    ) -> Result<Acks, Memory> {
        let mut repair = Repair::start(alloc, *node, held, self.replicas);
        'asks: loop {
            match repair.next()? {
                Want::Ask(node, question) => {
                    self.put(rt, alloc, &mut repair, &node, &question)?;
                }
                Want::Done(acks) => return Ok(acks),
            }
        }
    }

    /// One ask of a repair, which hears its answer. The error is: out of memory.
    fn put<R: Wait>(
        &self,
        rt: &R,
        alloc: Global,
        repair: &mut Repair,
        node: &Peer,
        question: &Ask,
    ) -> Result<(), Memory>
        requires { repair_awaited repair.old ≢ None }
        ensures { IfOk result (λ _. repair_left repair.new < repair_left repair.old) }
    {
        let answer = self.ask(rt, alloc, node, question)?;
        repair.heard(answer)
    }
}
