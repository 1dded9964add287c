//! What a session wants of its agent.

ghost use Rattle.std.specs.Prelude.{◌≡◌, ◌≤◌, length, List, Option, IfOk, IfSome, IsSomeAnd};
ghost use Rattle.std.specs.List.{AllByRecursion};
ghost use Rattle.log_model.specs.View.{View};
ghost use Rattle.log_fetch.specs.Standings.{asked_of, refresh_of};
ghost use Rattle.agent_model.specs.SavedBytes.{HasItsName};
ghost use Rattle.ivy_agent.specs.Answering.{IsCall};
ghost use Rattle.ivy_agent.specs.Bounds.{HasBounds};
ghost use Rattle.ivy_agent.specs.Holders.{Holder};
ghost use Rattle.ivy_agent.specs.Turns.{IsFetchedIn};
ghost use Rattle.ivy_agent.specs.Calls.{Made, MadeThen, Settles, Stands, Turns as TakesTurn};
ghost use Rattle.nfs_model.specs.Results.{longest_result};

use dht_ids::Acks;
use hss_keys::Signs;
use ivy_base::{Memory, Moment};
use ivy_io::Keeper;
use log_fetch::{Asked, Refresh, Standing, TurnFault, Turned};
use std::alloc::Global;
use std::sync::Wait;

/// Whoever takes turns, by passes. A call may wait for the agent.
pub trait Turns<K: Keeper, S: Signs> {
    /// What whoever asks has to show.
    type Pass;

    /// Which passes may be shown.
    ghost fits: { Self → Self.Pass → Type 0 };

    /// Which agents the pass may come to.
    ghost comes: { Self → Self.Pass → Holder K S → Type 0 };

    /// Which agents it may have left.
    ghost leaves: { Self → Self.Pass → Holder K S → Type 0 };

    /// In which view each of these is, which no call changes.
    ghost view: { Self → Self.Pass → Option View };

    /// The turns that were taken with the pass and answered, in their order, where they are told.
    ghost made: { Self → Self.Pass → Option (List Made) };

    /// What a session is given of the agent, which stays as it is. The error is: out of memory.
    fn standing<R: Wait>(
        &self,
        rt: &R,
        alloc: Global,
        pass: &mut Self::Pass,
    ) -> Result<Standing, Memory>
        requires fits { fits self.now pass.old }
        requires entered { IsSomeAnd (view self.now pass.old) (λ view. Unit {0}) }
        ensures stands { Stands S.signing (comes self.now pass.old) (leaves self.now pass.new) (view self.now pass.old) result }
        ensures named { IfOk result (λ s. AllByRecursion HasItsName s.pending) }
        ensures made { made self.now pass.new ≡ made self.now pass.old }
        ensures fits { fits self.now pass.new }
        ensures view { view self.now pass.new ≡ view self.now pass.old };

    /// A turn of the agent, as [`ivy_agent::Agent::turn`] takes it, with its refusals. A reply has 32,772 bytes at most.
    fn turn<R: Wait>(
        &self,
        rt: &R,
        alloc: Global,
        pass: &mut Self::Pass,
        refresh: Refresh,
        asked: &Asked,
        now: Moment,
    ) -> Result<Turned, TurnFault>
        requires fits { fits self.now pass.old }
        requires batch { IsSomeAnd (view self.now pass.old) (λ view. IsFetchedIn view refresh.batch) }
        requires bounds { IfSome refresh.basis (λ basis. HasBounds basis.tree) }
        requires call { IsCall (asked_of asked.now) now }
        ensures turn { TakesTurn S.signing S.is_whole K.saves (comes self.now pass.old) (leaves self.now pass.new) (view self.now pass.old) (refresh_of refresh) (asked_of asked.now) now result }
        ensures made { MadeThen (made self.now pass.old) (made self.now pass.new) refresh asked.now now result }
        ensures fits { fits self.now pass.new }
        ensures view { view self.now pass.new ≡ view self.now pass.old }
        ensures short { IfOk result (λ turned. length turned.reply ≤ longest_result) };

    /// The agent drops the posts that are acknowledged. It takes no memory.
    fn settle<R: Wait>(&self, rt: &R, pass: &mut Self::Pass, acks: &Acks)
        requires fits { fits self.now pass.old }
        ensures settles { Settles (comes self.now pass.old) (leaves self.now pass.new) acks.now }
        ensures made { made self.now pass.new ≡ made self.now pass.old }
        ensures fits { fits self.now pass.new }
        ensures view { view self.now pass.new ≡ view self.now pass.old };
}
