//! What gets and puts share: a look-up, and then asks of the owners that it found.

ghost use Rattle.std.specs.Prelude.{◌≡◌, ◌≢◌, ◌<◌, ◌≤◌, ◌^◌, None, IfOk, MatchBool};
ghost use Rattle.dht_ids.specs.declared.ask.Ask.TheVariants as ask;
ghost use Rattle.dhash_client.specs.Execution.{asks_left, begun, awaited, asked_of, miss_of, Goes, Hears, IsThrough, AreHolders};

use crate::lookup::Lookup;
use crate::round::Round;
use dhash_model::Miss;
use dht_ids::{Answer, Peer, Peers, Want};
use ivy_base::{Key, Memory};
use std::alloc::Global;
use std::marker::Model;

/// What an execution does next.
pub(crate) enum Step {
    /// It asks the node for the route to the key.
    Route(Peer),
    /// It asks the node as an owner.
    Owner(Peer),
    /// It found no owner.
    NoRoute,
    /// No further owner is asked.
    Over,
}

/// A look-up of a key's owners, and the owners once they are found.
pub(crate) struct Execution {
    lookup: Lookup,
    replicas: u32,
    round: Option<Round>,
}

// Written out, so that whatever drops one calls this and isn't proved over all of its parts once more.
impl Drop for Execution {
    fn drop(self) {
        let Execution {
            lookup: _,
            replicas: _,
            round: _,
        } = self;
    }
}

impl Model for Execution {
    ghost use Rattle.dhash_client.specs.Execution.{ExecutionState};

    ghost Value = { ExecutionState };

    ghost view = { λ c. record { look = c.lookup; replicas = c.replicas; asking = c.round } };
}

impl Execution {
    /// An execution that begins at these nodes. The error is: out of memory.
    pub(crate) fn start(
        alloc: Global,
        key: Key,
        replicas: u32,
        entries: &Peers,
    ) -> Result<Execution, Memory>
        ensures { IfOk result (λ execution. execution ≡ begun key replicas entries.now) }
    {
        Ok(Execution {
            lookup: Lookup::start(alloc, key, replicas, entries)?,
            replicas,
            round: None,
        })
    }

    /// The key.
    pub(crate) fn key(&self) -> Key
        ensures { result ≡ self.entry.now.look.key }
    {
        self.lookup.key()
    }

    /// What this execution takes memory from.
    pub(crate) fn allocator(&self) -> Global {
        self.lookup.allocator()
    }

    /// What comes next. The error is: out of memory.
    pub(crate) fn next(&mut self) -> Result<Step, Memory>
        ensures goes { IfOk result (λ step. Goes self.old self.new step) }
        ensures left { IfOk result (λ _. asks_left self.new ≤ asks_left self.old) }
    {
        let round = match self.round.take() {
            Some(round) => round,
            None => match self.lookup.next()? {
                Want::Ask(node, _) => return Ok(Step::Route(node)),
                Want::Done(Err(_)) => return Ok(Step::NoRoute),
                Want::Done(Ok(owners)) => Round::over(self.allocator(), &owners)?,
            },
        };
        let step = match round.next(self.replicas) {
            Some(node) => Step::Owner(node),
            None => Step::Over,
        };
        self.round = Some(round);
        Ok(step)
    }

    /// Hears what the node answered that was asked last; of an owner it is told whether its answer counts, and gives
    /// the owner and the answer back. The error is: out of memory.
    pub(crate) fn heard(
        &mut self,
        answer: Answer,
        counts: bool,
    ) -> Result<Option<(Peer, Answer)>, Memory>
        requires { awaited (ask.Get self.old.look.key) self.old ≢ None }
        ensures hears { IfOk result (λ heard. Hears self.old self.new answer counts heard) }
        ensures left { IfOk result (λ _. asks_left self.new < asks_left self.old) }
    {
        match &mut self.round {
            Some(round) => Ok(Some((round.heard(counts), answer))),
            None => {
                self.lookup.heard(answer)?;
                Ok(None)
            }
        }
    }

    /// The owners that were asked, in order, silent ones included. The error is: out of memory.
    fn asked(&self) -> Result<Peers, Memory>
        ensures { IfOk result (λ asked. asked ≡ asked_of self.now.asking) }
    {
        match &self.round {
            Some(round) => round.asked(self.allocator()),
            None => Ok(Peers::of(Vec::new(self.allocator()))),
        }
    }

    /// Whether a put is acknowledged that so many owners hold.
    pub(crate) fn are_holders(&self, holders: u32) -> bool
        ensures word { self.entry.now.replicas < 2 ^ 32 }
        ensures holders { MatchBool result (AreHolders self.entry.now holders) (AreHolders self.entry.now holders → ⊥) }
    {
        self.replicas <= holders || (holders > 0 && self.is_through())
    }

    /// Whether all owners were asked.
    fn is_through(&self) -> bool
        ensures { MatchBool result (IsThrough self.entry.now.asking) (IsThrough self.entry.now.asking → ⊥) }
    {
        match &self.round {
            Some(round) => round.is_through(),
            None => false,
        }
    }

    /// Why a get has no result, by the first node that gave something wrong. The error is: out of memory.
    pub(crate) fn miss(&self, wrong: Option<Peer>) -> Result<Miss, Memory>
        ensures { IfOk result (λ miss. miss ≡ miss_of self.now.look.key (asked_of self.now.asking) wrong) }
    {
        let key = self.key();
        Ok(match wrong {
            Some(node) => Miss::Damaged { key, node },
            None => Miss::Missing {
                key,
                asked: self.asked()?,
            },
        })
    }
}
