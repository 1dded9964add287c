//! A look-up among the nodes, ask by ask.

ghost use Rattle.std.specs.Prelude.{◌≡◌, ◌∷◌, [], IfOk};
ghost use Rattle.ring_model.specs.Members.{IsAmong};

use crate::nodes::RingNodes;
use dhash_client::{Lookup, Miss};
use dht_ids::{Ask, Judge, Peer, Peers, Want};
use ivy_base::{Key, Memory};
use std::alloc::Global;

impl RingNodes {
    ghost use Rattle.std.specs.Prelude.{◌≢◌, ◌<◌, None};
    ghost use Rattle.dhash_client.specs.Machine.{looks_left};
    ghost use Rattle.world_model.specs.World.{World};
    ghost use Rattle.ring_nodes.specs.Joining.{Finds};
    ghost use Rattle.ring_nodes.specs.Looking.{Steps};
    ghost use Rattle.ring_nodes.specs.NodesState.{AreAllAmong, BringsOnly, IsNodesOf, made_peers, with_nodes};

    /// Looks a key up through one node that was made, ask by ask. The result is the owners that the last answer named, all
    /// of which were made, or that no answer named any. The error is: out of memory, or 2^64 asks; asks may have been made
    /// then.
    pub fn look_up<J: Judge>(
        &mut self,
        alloc: Global,
        judge: &J,
        through: &Peer,
        key: &Key,
    ) -> Result<Result<Peers, Miss>, Memory>
        requires { IsAmong through.now (made_peers self.old) }
        ensures finds { IfOk result (λ found. (w : World) → IsNodesOf w self.old → Finds (J.judges judge.now) w key.now through.now found (with_nodes w self.new)) }
        ensures named { IfOk result (λ found. IfOk found (AreAllAmong (made_peers self.old))) }
        ensures made { made_peers self.new ≡ made_peers self.old }
    {
        let mut lookup = Lookup::start(alloc, *key, 1, &alone(alloc, through)?)?;
        'asks: loop {
            match lookup.next()? {
                Want::Ask(node, question) => {
                    self.step(alloc, judge, &mut lookup, &node, &question)?;
                }
                Want::Done(found) => return Ok(found),
            }
        }
    }

    /// One ask of a look-up, which hears its answer. The error is: out of memory, or 2^64 asks.
    fn step<J: Judge>(
        &mut self,
        alloc: Global,
        judge: &J,
        lookup: &mut Lookup,
        node: &Peer,
        question: &Ask,
    ) -> Result<(), Memory>
        requires waiting { lookup.old.waiting ≢ None }
        requires made { IsAmong node.now (made_peers self.old) }
        requires brings { BringsOnly (made_peers self.old) question.now }
        ensures steps { IfOk result (λ _. Steps (J.judges judge.now) node.now question.now self.old self.new lookup.old lookup.new) }
        ensures left { IfOk result (λ _. looks_left lookup.new < looks_left lookup.old) }
        ensures made { made_peers self.new ≡ made_peers self.old }
    {
        let answer = self.ask(alloc, judge, node, question)?;
        lookup.heard(answer)?;
        Ok(())
    }
}

/// The node alone, as what a look-up begins with. The error is: out of memory.
fn alone(alloc: Global, node: &Peer) -> Result<Peers, Memory>
    ensures { IfOk result (λ peers. peers ≡ node.now ∷ []) }
{
    Ok(Peers::of(vec![in alloc; *node]?))
}
