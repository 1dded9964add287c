//! Agents that start again from what was saved.

ghost use Rattle.std.specs.Prelude.{◌≡◌};
ghost use Rattle.ivy_base.specs.Naming.{head_key_of};
ghost use Rattle.turn_model.specs.Basis.{nothing_held};
ghost use Rattle.replay_engine.specs.Engines.{holding};
ghost use Rattle.agent_model.specs.Agent.{own_key, restored};
ghost use Rattle.agent_model.specs.SavedBytes.{IsKept};
ghost use Rattle.agent_saves.specs.Saves.{IsCounted, said};
ghost use Rattle.ivy_agent.specs.Saves.{saved_of};
ghost use Rattle.ivy_agent.specs.Causes.{RestartHasCause};
ghost use Rattle.ivy_agent.specs.Restarting.{Restarts, Restores, StartsAgain};

use super::Agent;
use crate::fault::RestartFault;
use crate::opening::hold_nothing;
use crate::saving::Kept;
use agent_saves::Saved;
use hss_keys::Signs;
use ivy_base::{Memory, head_key};
use ivy_io::{KeepFault, Keeper, MemKeeper};
use log_fetch::KnownName;
use replay_engine::Engine;
use std::alloc::Global;
use version_vectors::Vector;

impl<K: Keeper, S: Signs + Drop> Agent<K, S> {
    /// An agent that starts again from what the keeper holds, over the keeper. It holds nothing, and its key signs on from where
    /// the key that was saved stood, so that one may sign no more.
    ///
    /// # Errors
    ///
    /// `Nothing` where the keeper holds nothing, `Malformed` where what it holds are no agent's bytes, and `Keeper` where the
    /// keeper fails. Either way, and where memory runs out (`Memory`), the keeper is given back.
    pub fn restart(alloc: Global, mut keeper: K) -> Result<Self, (K, RestartFault)>
        ensures restarts { Restarts S.signing S.is_whole K.kept K.faults keeper result }
        ensures cause { RestartHasCause K.faults keeper result }
    {
        match keeper.load(alloc) {
            Ok(bytes) => Agent::restore(alloc, keeper, bytes.as_slice()),
            Err(KeepFault::Nothing) => Err((keeper, RestartFault::Nothing)),
            Err(KeepFault::Failed) => Err((keeper, RestartFault::Keeper)),
            Err(KeepFault::Memory) => Err((keeper, RestartFault::Memory)),
        }
    }

    /// An agent that starts again from these bytes, over the keeper, which isn't asked.
    ///
    /// # Errors
    ///
    /// `Malformed` where these are no agent's bytes, those aside of a key whose own bytes no word counts, and `Memory` where
    /// memory runs out. The keeper is given back.
    pub fn restore(alloc: Global, keeper: K, bytes: &[u8]) -> Result<Self, (K, RestartFault)>
        ensures { Restores S.signing S.is_whole keeper bytes.now result }
    {
        let Ok(nothing) = hold_nothing(alloc) else {
            return Err((keeper, RestartFault::Memory));
        };
        match Saved::read(alloc, bytes) {
            Ok(Some(saved)) => Ok(Agent::again(alloc, keeper, saved, nothing)),
            Ok(None) => Err((keeper, RestartFault::Malformed)),
            Err(Memory) => Err((keeper, RestartFault::Memory)),
        }
    }

    /// The agent of what was saved, which holds nothing.
    fn again(alloc: Global, keeper: K, saved: Saved<S>, nothing: Engine) -> Self
        requires kept { IsKept S.signing (IsCounted S.is_whole S.signing.saved) (said saved) }
        requires nothing { holding nothing ≡ nothing_held }
        ensures { result ≡ record { agent = restored (said saved); keeper = keeper } }
    {
        let kept = kept_of(saved);
        let to_load = kept.snapshot;
        Agent {
            alloc,
            keeper,
            kept,
            engine: nothing,
            front: Vector::empty(alloc),
            to_load,
            has_failed: false,
            head: KnownName::none(),
        }
    }

    /// Becomes the agent of what was saved, which holds nothing.
    fn become_saved(&mut self, alloc: Global, saved: Saved<S>, nothing: Engine)
        requires kept { IsKept S.signing (IsCounted S.is_whole S.signing.saved) (said saved) }
        requires nothing { holding nothing ≡ nothing_held }
        ensures { self.new ≡ record self.old { agent = restored (said saved) } }
    {
        self.kept = kept_of(saved);
        self.to_load = self.kept.snapshot;
        self.engine = nothing;
        self.front = Vector::empty(alloc);
        self.has_failed = false;
    }
}

impl<S: Signs + Drop> Agent<MemKeeper, S> {
    /// Starts again in place from what the keeper holds, which stays as it is. What the agent was before is dropped, and with
    /// it the key that signed until now.
    ///
    /// # Errors
    ///
    /// `Nothing` exactly where the keeper holds nothing, `Malformed` where what it holds are no agent's bytes, and `Memory`
    /// where memory runs out. Nothing has changed then.
    pub fn start_again(&mut self, alloc: Global) -> Result<(), RestartFault>
        ensures { StartsAgain S.signing S.is_whole self.old result self.new }
    {
        let Some(bytes) = self.keeper.kept() else {
            return Err(RestartFault::Nothing);
        };
        let Ok(nothing) = hold_nothing(alloc) else {
            return Err(RestartFault::Memory);
        };
        match Saved::read(alloc, bytes) {
            Ok(Some(saved)) => {
                self.become_saved(alloc, saved, nothing);
                Ok(())
            }
            Ok(None) => Err(RestartFault::Malformed),
            Err(Memory) => Err(RestartFault::Memory),
        }
    }
}

/// What was saved, with the head key of its log.
fn kept_of<S: Signs>(saved: Saved<S>) -> Kept<S>
    ensures kept { saved_of result ≡ said saved }
    ensures log { result.log ≡ head_key_of (own_key S.signing saved.signer) }
{
    let log = head_key(&saved.signer.owner());
    Kept {
        signer: saved.signer,
        log,
        view: saved.view,
        floor: saved.floor,
        pending: saved.pending,
        snapshot: saved.snapshot,
    }
}
