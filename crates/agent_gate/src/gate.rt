//! The gate over an agent.

ghost use Rattle.std.specs.Prelude.{◌≡◌, ◌≢◌, ◌≤◌, ◌-◌, ◌^◌, length, [], IfOk, IfErr, OnErr, IsSomeAnd, All};
ghost use Rattle.value_gate.specs.Passes.{Found, FoundAndLeft, IsOwnHistory, IsPassOf, IsWhole, Met, SawOn, parts_of, with_parts};
ghost use Rattle.agent_gate.specs.Asking.{DropsPosts, MayAsk, Refuses, ShowsStanding};
ghost use Rattle.agent_gate.specs.Sharing.{Answers};
ghost use Rattle.agent_gate.specs.Taking.{HasTaken, kind_of};

use crate::calls::{AskStanding, DropPosts, TakeTurn};
use crate::shared::Shared;
use dht_ids::Acks;
use hss_keys::Signs;
use ivy_agent::{Agent, Turns};
use ivy_base::{Memory, Moment};
use ivy_io::Keeper;
use log_fetch::{Asked, Refresh, Standing, TurnFault, Turned};
use std::alloc::Global;
use std::marker::Model;
use std::sync::Wait;
use value_gate::Gate as Inner;

/// What a thread takes its turns with.
pub type Pass<K, S> = value_gate::Pass<Shared<K, S>>;

/// One agent, which one pass at a time takes out for a turn. Contracts see which gate it is and the agent that it was
/// opened with, which has entered a view.
#[derive(Drop)]
pub struct Gate<K: Keeper + Drop, S: Signs + Drop> {
    gate: Inner<Shared<K, S>>,
}

impl<K: Keeper + Drop, S: Signs + Drop> Model for Gate<K, S> {
    ghost use Rattle.std.specs.Prelude.{IsSomeAnd};
    ghost use Rattle.value_gate.specs.Passes.{GateView};
    ghost use Rattle.ivy_agent.specs.Holders.{Holder};

    ghost Value = { GateView (Holder K S) };

    ghost view = { λ g. g.gate };

    ghost invariant = { λ g. IsSomeAnd g.gate.opening.agent.view (λ view. Unit {0}) };
}

/// What is left of a gate: the agent after the whole history, and the history's length.
#[derive(Drop)]
pub struct Closed<K: Keeper + Drop, S: Signs> {
    pub agent: Agent<K, S>,
    pub turns: u64,
}

/// A gate that isn't closed, since a pass is missing.
#[derive(Drop)]
pub struct Unclosed<K: Keeper + Drop, S: Signs + Drop> {
    pub gate: Gate<K, S>,
    pub passes: Vec<Pass<K, S>>,
}

impl<K: Keeper + Drop, S: Signs + Drop> Gate<K, S> {
    /// A gate over an agent that has entered a view, and the first pass, which has all parts. The error is: out of memory.
    pub fn make(alloc: Global, agent: Agent<K, S>) -> Result<(Gate<K, S>, Pass<K, S>), Memory>
        requires { IsSomeAnd agent.agent.view (λ view. Unit {0}) }
        ensures pass { IfOk result (λ made. IsPassOf made.0 made.1 × (made.0.opening ≡ agent)) }
        ensures new { IfOk result (λ made. (made.1.parts ≡ 2 ^ 32) × (made.1.history ≡ []) × (made.1.calls ≡ [])) }
    {
        let Ok((gate, pass)) = Inner::make(alloc, Shared { agent }) else {
            return Err(Memory);
        };
        Ok((Gate { gate }, pass))
    }

    /// Waits for the agent, and takes a turn with it, as [`Agent::turn`] does. A turn that is answered is the newest entry of
    /// the one history, and the reply is that of the agent at its point. A fault leaves no entry; the pass has then seen the
    /// whole history as it came in, and the fault has its cause in the agent that it found.
    pub fn take_turn<R: Wait>(
        &self,
        rt: &R,
        alloc: Global,
        pass: &mut Pass<K, S>,
        refresh: Refresh,
        asked: &Asked,
        now: Moment,
    ) -> Result<Turned, TurnFault>
        requires pass { IsPassOf self.now pass.old }
        requires may { MayAsk self.now.opening (record { refresh = refresh; asked = asked.now; now = now }) }
        ensures answers { IfOk result (λ turned. Answers (kind_of S.signing S.is_whole K.saves) self.now pass.old (record { refresh = refresh; asked = asked.now; now = now }) turned pass.new) }
        ensures fault { OnErr result (SawOn pass.old pass.new) }
        ensures why { IfErr result (λ fault. Found (HasTaken (kind_of S.signing S.is_whole K.saves)) self.now.opening pass.new.history (λ found. Refuses (kind_of S.signing S.is_whole K.saves) (record { refresh = refresh; asked = asked.now; now = now }) found fault)) }
        ensures legal { IsOwnHistory (HasTaken (kind_of S.signing S.is_whole K.saves)) pass.new }
    {
        self.gate.take_turn(
            rt,
            pass,
            TakeTurn {
                alloc,
                refresh,
                asked,
                now,
            },
        )
    }

    /// Waits for the agent, and gives its standing. No entry is left; the pass has then seen the whole history as it came in.
    /// The error is: out of memory.
    pub fn standing<R: Wait>(
        &self,
        rt: &R,
        alloc: Global,
        pass: &mut Pass<K, S>,
    ) -> Result<Standing, Memory>
        requires { IsPassOf self.now pass.old }
        ensures saw { SawOn pass.old pass.new }
        ensures shows { Found (HasTaken (kind_of S.signing S.is_whole K.saves)) self.now.opening pass.new.history (λ found. ShowsStanding (kind_of S.signing S.is_whole K.saves) found result found) }
        ensures legal { IsOwnHistory (HasTaken (kind_of S.signing S.is_whole K.saves)) pass.new }
    {
        self.gate.visit(rt, pass, AskStanding { alloc })
    }

    /// Waits for the agent, which drops the posts that are acknowledged. No entry is left; the pass has then seen the whole
    /// history as it came in.
    pub fn settle<R: Wait>(&self, rt: &R, pass: &mut Pass<K, S>, acks: &Acks)
        requires { IsPassOf self.now pass.old }
        ensures saw { SawOn pass.old pass.new }
        ensures settles { FoundAndLeft (HasTaken (kind_of S.signing S.is_whole K.saves)) self.now.opening pass.new.history (DropsPosts acks.now) }
        ensures legal { IsOwnHistory (HasTaken (kind_of S.signing S.is_whole K.saves)) pass.new }
    {
        self.gate.visit(rt, pass, DropPosts { acks });
    }

    /// A pass for another thread, with one part of this one, which has at least two. It has seen the same.
    pub fn split(&self, pass: &mut Pass<K, S>) -> Pass<K, S>
        requires { IsPassOf self.now pass.old × (2 ≤ pass.old.parts) }
        ensures kept { pass.new ≡ with_parts pass.old (pass.old.parts - 1) }
        ensures new { IsPassOf self.now result × (result.parts ≡ 1) × (result.history ≡ pass.old.history) × (result.calls ≡ []) }
        ensures legal { IsOwnHistory (HasTaken (kind_of S.signing S.is_whole K.saves)) pass.new × IsOwnHistory (HasTaken (kind_of S.signing S.is_whole K.saves)) result }
    {
        self.gate.split(pass)
    }

    /// Afterwards both passes have seen what either had.
    pub fn meet(&self, pass: &mut Pass<K, S>, other: &mut Pass<K, S>)
        requires { IsPassOf self.now pass.old × IsPassOf self.now other.old }
        ensures met { Met pass.old other.old pass.new other.new }
        ensures legal { IsOwnHistory (HasTaken (kind_of S.signing S.is_whole K.saves)) pass.new × IsOwnHistory (HasTaken (kind_of S.signing S.is_whole K.saves)) other.new }
    {
        self.gate.meet(pass, other);
    }

    /// How many turns the pass has seen.
    pub fn seen(&self, pass: &Pass<K, S>) -> u64
        requires { IsPassOf self.now pass.now }
        ensures { result ≡ length pass.now.history }
    {
        self.gate.seen(pass)
    }

    /// Ends the gate with all its passes, and gives the agent after the whole history. Exactly where the passes don't have all
    /// 2^32 parts, so that one is missing, gate and passes come back.
    pub fn close(self, passes: Vec<Pass<K, S>>) -> Result<Closed<K, S>, Unclosed<K, S>>
        requires { All (λ p. IsPassOf self p) passes.items }
        ensures closed { IfOk result (λ closed. (parts_of passes.items ≡ 2 ^ 32) × IsWhole (HasTaken (kind_of S.signing S.is_whole K.saves)) self.opening passes.items closed.agent closed.turns) }
        ensures unclosed { IfErr result (λ unclosed. (parts_of passes.items ≢ 2 ^ 32) × (unclosed.gate ≡ self) × (unclosed.passes.items ≡ passes.items)) }
    {
        let Gate { gate } = self;
        match gate.close(passes) {
            Ok(value_gate::Closed { value, turns }) => {
                let Shared { agent } = value;
                Ok(Closed { agent, turns })
            }
            Err(value_gate::Unclosed { gate, passes }) => Err(Unclosed {
                gate: Gate { gate },
                passes,
            }),
        }
    }
}

impl<K: Keeper + Drop, S: Signs + Drop> Turns<K, S> for Gate<K, S> {
    ghost use Rattle.std.specs.Prelude.{Some};
    ghost use Rattle.value_gate.specs.Passes.{IsPassOf};
    ghost use Rattle.agent_gate.specs.Sharing.{Comes, Leaves, made_by};
    ghost use Rattle.agent_gate.specs.Taking.{kind_of};

    type Pass = Pass<K, S>;

    ghost fits = { λ g p. IsPassOf g p };

    ghost comes = { λ g p found. Comes (kind_of S.signing S.is_whole K.saves) g p found };

    ghost leaves = { λ g p left. Leaves (kind_of S.signing S.is_whole K.saves) g p left };

    ghost view = { λ g _. g.opening.agent.view };

    ghost made = { λ _ p. Some (made_by p) };

    fn standing<R: Wait>(
        &self,
        rt: &R,
        alloc: Global,
        pass: &mut Pass<K, S>,
    ) -> Result<Standing, Memory> {
        self.standing(rt, alloc, pass)
    }

    fn turn<R: Wait>(
        &self,
        rt: &R,
        alloc: Global,
        pass: &mut Pass<K, S>,
        refresh: Refresh,
        asked: &Asked,
        now: Moment,
    ) -> Result<Turned, TurnFault> {
        self.take_turn(rt, alloc, pass, refresh, asked, now)
    }

    fn settle<R: Wait>(&self, rt: &R, pass: &mut Pass<K, S>, acks: &Acks) {
        self.settle(rt, pass, acks);
    }
}
