//! What carries asks to the nodes.

ghost use Rattle.std.specs.Prelude.{◌≡◌, ℕ, ◌≤◌, List, map, IfOk, OnErr};
ghost use Rattle.std.specs.List.Sorted.{IsStrictlyIncreasing};
ghost use Rattle.std.specs.declared.option.Option.{Option};
ghost use Rattle.ivy_io.specs.Causes.{Rose};
ghost use Rattle.dht_ids.specs.Asked.{IsForData, IsAnswerTo, told, longer};
ghost use Rattle.dht_ids.specs.declared.ask.Answer.{Answer};
ghost use Rattle.dht_ids.specs.declared.ask.Heard.{Heard};
ghost use Rattle.dht_ids.specs.declared.peer.Peer.{Peer};

use crate::ask::{Answer, Ask};
use crate::lists::Peers;
use crate::peer::Peer;
use ivy_base::Memory;
use std::alloc::Global;

/// What carries asks to the nodes of a ring and their answers back.
pub trait Mesh {
    /// How often no answer came. A count that reached 2^64 - 1 stays there.
    ghost silences: { Self → ℕ };

    /// The asks so far and their answers, where they are told.
    ghost trail: { Self → Option (List Heard) };

    /// r: how many nodes own a key.
    ghost owners_of_a_key: { Self → ℕ };

    /// The nodes ever made, by number.
    ghost made: { Self → List Peer };

    /// Asks a node, and gives its answer, which is of the ask's form. Silent comes only where the count of silences
    /// rose. Where the trail is told, the ask and its answer are its newest entry. The error is: out of memory, and the
    /// trail and the count of silences are as before then.
    fn ask(&mut self, alloc: Global, node: &Peer, ask: &Ask) -> Result<Answer, Memory>
        requires { IsForData ask.now }
        ensures form { IfOk result (λ answer. IsAnswerTo ask.now answer) }
        ensures silent { IfOk result (λ answer. answer ≡ Answer.Silent → Rose (silences self.old) (silences self.new)) }
        ensures told { IfOk result (λ answer. trail self.new ≡ longer (trail self.old) (told node.now ask.now answer)) }
        ensures untold { OnErr result (trail self.new ≡ trail self.old) }
        ensures uncounted { OnErr result (silences self.new ≡ silences self.old) }
        ensures later { silences self.old ≤ silences self.new }
        ensures owners { owners_of_a_key self.new ≡ owners_of_a_key self.old }
        ensures made { made self.new ≡ made self.old };

    /// r: how many nodes own a key, 1 to 8.
    fn replicas(&self) -> u32
        ensures owners { result ≡ owners_of_a_key self.now }
        ensures few { (1 ≤ result) × (result ≤ 8) };

    /// The nodes ever made, ascending by number, each once: those that a look-up may begin with. The error is: out of
    /// memory.
    fn entries(&self, alloc: Global) -> Result<Peers, Memory>
        ensures made { IfOk result (λ entries. entries ≡ made self.now) }
        ensures ascending { IfOk result (λ entries. IsStrictlyIncreasing (map (λ peer. peer.number) entries)) };
}
