//! The look-up of a key's owners.

ghost use Rattle.std.specs.Prelude.{◌≡◌, ◌≢◌, ◌<◌, ◌≤◌, [], ◌∷◌, length, reverse, None, IfOk, MatchBool, MatchOption};
ghost use Rattle.ring_model.specs.Members.{IsAmong};
ghost use Rattle.dhash_model.specs.Execution.{outcome};
ghost use Rattle.dhash_client.specs.Machine.{fresh, looks_left, to_ask, IsRest, IsWanted, Follow, FollowsAfter, HasHeard};

use dhash_model::Miss;
use dht_ids::{Answer, Ask, Peer, Peers, Want};
use ivy_base::{Key, Memory};
use std::alloc::Global;
use std::collections::VecDeque;
use std::marker::Model;

/// How many asks a look-up makes at most.
const MOST_ASKS: usize = 512;

/// A look-up of a key's owners (Chord, SIGCOMM 2001, section 4.3, by asks of the one that looks up): the nodes asked,
/// the owners that the last answer named, the nodes still to ask, nearest to the key first, and the node that was
/// asked and not yet heard.
pub struct Lookup {
    key: Key,
    asked: Vec<Peer>,
    last: Option<Peers>,
    rest: VecDeque<Peer>,
    waiting: Option<Peer>,
}

// Written out, so that whatever drops one calls this and isn't proved over all of its parts once more.
impl Drop for Lookup {
    fn drop(self) {
        let Lookup {
            key: _,
            asked: _,
            last: _,
            rest: _,
            waiting: _,
        } = self;
    }
}

impl Model for Lookup {
    ghost use Rattle.std.specs.Prelude.{◌<◌, ◌≤◌, length, reverse, IfSome};
    ghost use Rattle.ring_model.specs.Members.{IsAmong};
    ghost use Rattle.dhash_client.specs.Machine.{State};

    ghost Value = { State };

    ghost view = { λ l. record { key = l.key; asked = reverse l.asked.items; last = l.last; rest = l.rest.items; waiting = l.waiting } };

    ghost invariant = { λ l. IfSome l.waiting (λ p. (length l.asked.items < 512) × (IsAmong p (reverse l.asked.items) → ⊥)) × (length l.asked.items ≤ 512) };
}

/// Whether the node was asked.
pub(crate) fn was_asked(asked: &[Peer], node: &Peer) -> bool
    ensures { MatchBool result (IsAmong node.now (reverse asked.now)) (IsAmong node.now (reverse asked.now) → ⊥) }
{
    asked.contains(node)
}

/// Takes the first node that wasn't asked, and those before it, from the rest.
fn next_of(asked: &[Peer], rest: &mut VecDeque<Peer>) -> Option<Peer>
    ensures skips { IsRest (reverse asked.now) rest.old.items (to_ask result rest.new.items) }
    ensures next { MatchOption result (rest.new.items ≡ []) (λ p. IsAmong p (reverse asked.now) → ⊥) }
{
    while let Some(node) = rest.pop_front() {
        if !was_asked(asked, &node) {
            return Some(node);
        }
    }
    None
}

/// The result of a look-up whose last answer named these owners.
fn result_of(alloc: Global, key: Key, last: &Option<Peers>) -> Result<Result<Peers, Miss>, Memory>
    ensures { IfOk result (λ found. found ≡ outcome key last.now) }
{
    match last {
        Some(owners) if !owners.as_slice().is_empty() => Ok(Ok(owners.copy(alloc)?)),
        _ => Ok(Err(Miss::NoRoute(key))),
    }
}

impl Lookup {
    /// A look-up of the key that begins at these nodes. All machines of a client are started so; a look-up makes
    /// nothing of the number of replicas. The error is: out of memory.
    pub fn start(alloc: Global, key: Key, _replicas: u32, entries: &Peers) -> Result<Lookup, Memory>
        ensures { IfOk result (λ lookup. lookup ≡ fresh key entries.now) }
    {
        Ok(Lookup {
            key,
            asked: Vec::new(alloc),
            last: None,
            rest: VecDeque::from(entries.copy(alloc)?.into_vec()),
            waiting: None,
        })
    }

    /// The key.
    pub(crate) fn key(&self) -> Key
        ensures { result ≡ self.now.key }
    {
        self.key
    }

    /// What this look-up takes memory from.
    pub(crate) fn allocator(&self) -> Global {
        *self.asked.allocator()
    }

    /// What the look-up wants next: an ask for the route to the key, of a node that it didn't ask before, or nothing
    /// more. Its result is then the owners that the last answer named, or NoRoute of the key where no node answered
    /// or the last answer named no owner. An ask that was not yet heard is wanted again. The error is: out of memory;
    /// the machine isn't used after it.
    pub fn next(&mut self) -> Result<Want<Result<Peers, Miss>>, Memory>
        ensures key { self.new.key ≡ self.old.key }
        ensures asked { self.new.asked ≡ self.old.asked }
        ensures follows { FollowsAfter [] self.old self.new }
        ensures wanted { IfOk result (λ want. IsWanted self.old self.new want) }
        ensures most { length self.new.asked ≤ 512 }
    {
        self.choose();
        Ok(match self.waiting {
            Some(node) => Want::Ask(node, Ask::Route(self.key)),
            None => Want::Done(result_of(self.allocator(), self.key, &self.last)?),
        })
    }

    /// Chooses the node to ask, where none is to be heard and the look-up isn't over.
    fn choose(&mut self)
        ensures key { self.new.key ≡ self.old.key }
        ensures asked { self.new.asked ≡ self.old.asked }
        ensures last { self.new.last ≡ self.old.last }
        ensures follows { FollowsAfter [] self.old self.new }
        ensures over { self.new.waiting ≡ None → Follow self.old [] self.old.last }
    {
        if self.waiting.is_none() && self.asked.len() < MOST_ASKS {
            self.waiting = next_of(&self.asked, &mut self.rest);
        }
    }

    /// Hears what the node answered that was asked last. Any answer but a route is silence. It is called once after
    /// each ask. The error is: out of memory; the machine isn't used after it.
    pub fn heard(&mut self, answer: Answer) -> Result<(), Memory>
        requires { self.old.waiting ≢ None }
        ensures heard { IfOk result (λ _. HasHeard self.old self.new answer) }
        ensures left { IfOk result (λ _. looks_left self.new < looks_left self.old) }
    {
        let Some(node) = self.waiting.take() else {
            unreachable!()
        };
        self.asked.push(node)?;
        match answer {
            Answer::Route { nearer, owners } => {
                self.rest = VecDeque::from(nearer.into_vec());
                self.last = Some(owners);
            }
            silence => drop(silence),
        }
        Ok(())
    }
}
