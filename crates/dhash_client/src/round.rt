//! The owners of a key, asked in their order.

ghost use Rattle.std.specs.Prelude.{◌≡◌, ◌≢◌, ◌+◌, ◌<◌, ◌^◌, length, [], ◌∷◌, ◌++◌, if◌then◌else◌, IfOk, MatchBool};
ghost use Rattle.ring_model.specs.Gets.{AreFirsts};
ghost use Rattle.dhash_client.specs.Execution.{next_owner};

use crate::lookup::was_asked;
use dht_ids::{Peer, Peers};
use ivy_base::Memory;
use std::alloc::Global;
use std::marker::Model;

/// The owners of a key, each once, of whom those before `at` were asked and heard, and how many of them answered.
#[derive(Drop)]
pub(crate) struct Round {
    owners: Vec<Peer>,
    at: usize,
    answered: usize,
}

impl Model for Round {
    ghost use Rattle.std.specs.Prelude.{◌≤◌, length, take, drop};
    ghost use Rattle.dhash_client.specs.Execution.{Asking};

    ghost Value = { Asking };

    ghost view = { λ r. record { asked = take r.at r.owners.items; rest = drop r.at r.owners.items; answered = r.answered } };

    ghost invariant = { λ r. (r.at ≤ length r.owners.items) × (r.answered ≤ r.at) };
}

/// The peers, each once, in the order in which they first stand.
fn once(alloc: Global, peers: &[Peer]) -> Result<Vec<Peer>, Memory>
    ensures { IfOk result (λ once. AreFirsts [] peers.now once.items) }
{
    let mut once = Vec::new(alloc);
    for peer in peers {
        if !was_asked(&once, peer) {
            once.push(*peer)?;
        }
    }
    Ok(once)
}

impl Round {
    /// The owners, of whom nobody was asked yet. The error is: out of memory.
    pub(crate) fn over(alloc: Global, owners: &Peers) -> Result<Round, Memory>
        ensures firsts { IfOk result (λ round. AreFirsts [] owners.now round.rest) }
        ensures asked { IfOk result (λ round. round.asked ≡ []) }
        ensures answered { IfOk result (λ round. round.answered ≡ 0) }
        ensures few { IfOk result (λ round. length round.rest < 2 ^ 64) }
    {
        Ok(Round {
            owners: once(alloc, owners.as_slice())?,
            at: 0,
            answered: 0,
        })
    }

    /// The owner to be asked, while fewer than that many have answered.
    pub(crate) fn next(&self, replicas: u32) -> Option<Peer>
        ensures { result ≡ next_owner replicas self.now }
    {
        if self.answered < replicas as usize {
            self.owners.get(self.at).copied()
        } else {
            None
        }
    }

    /// Ends the turn of the owner that was asked, which counts among those that answered, or doesn't.
    pub(crate) fn heard(&mut self, counts: bool) -> Peer
        requires { self.old.rest ≢ [] }
        ensures turn { self.old.rest ≡ result ∷ self.new.rest }
        ensures asked { self.new.asked ≡ self.old.asked ++ result ∷ [] }
        ensures answered { self.new.answered ≡ self.old.answered + (if counts then 1 else 0) }
    {
        let node = self.owners[self.at];
        self.at += 1;
        if counts {
            self.answered += 1;
        }
        node
    }

    /// Whether all owners were asked.
    pub(crate) fn is_through(&self) -> bool
        ensures { MatchBool result (self.now.rest ≡ []) (self.now.rest ≡ [] → ⊥) }
    {
        self.at == self.owners.len()
    }

    /// A copy of the owners that were asked, in order. The error is: out of memory.
    pub(crate) fn asked(&self, alloc: Global) -> Result<Peers, Memory>
        ensures { IfOk result (λ asked. asked ≡ self.now.asked) }
    {
        Ok(Peers::of(self.owners[..self.at].to_vec(alloc)?))
    }
}
