//! Agents.

ghost use Rattle.std.specs.Prelude.{◌≡◌, ◌≤◌, ◌+◌, length, Option, None, false, IfOk, OnOk, OnErr, IfSome, IsSomeAnd, option_map};
ghost use Rattle.std.specs.List.{AllByRecursion};
ghost use Rattle.ivy_io.specs.Keepers.{with_plan};
ghost use Rattle.log_model.specs.Spelling.{HasSpelling};
ghost use Rattle.log_records.specs.Records.{records_of};
ghost use Rattle.turn_model.specs.Basis.{Basis, kept_tree};
ghost use Rattle.agent_model.specs.Others.{settled};
ghost use Rattle.agent_model.specs.Agent.{joined, own};
ghost use Rattle.agent_model.specs.SavedBytes.{HasItsName};
ghost use Rattle.agent_model.specs.Standing.{begun_again_in, going_on, standing_in};
ghost use Rattle.log_fetch.specs.Standings.{asked_of, refresh_of, standing_of};
ghost use Rattle.replay_engine.specs.Engines.{holding};
ghost use Rattle.ivy_agent.specs.Holders.{IsSound, agent_of};
ghost use Rattle.ivy_agent.specs.Making.{Makes};
ghost use Rattle.ivy_agent.specs.Entering.{Enters, GoesIn, IsTakenIn, MayEnter};
ghost use Rattle.ivy_agent.specs.Answering.{IsCall};
ghost use Rattle.ivy_agent.specs.Bounds.{HasBounds};
ghost use Rattle.ivy_agent.specs.Causes.{EnterHasCause, MakeHasCause, MayEnterHasCause, ReplyHasCause};
ghost use Rattle.ivy_agent.specs.Taking.{MayTakeFrom};
ghost use Rattle.ivy_agent.specs.Turns.{ComesFrom, ComesTo, IsFetchedIn, Refuses, TakesTurn, dropping};
ghost use Rattle.nfs_model.specs.Results.{longest_result};

mod restarting;
mod snapping;

use crate::entering::{not_named, save_in};
use crate::fault::{EnterFault, MakeFault};
use crate::grounds::{Ground, ground_of};
use crate::keys::is_among;
use crate::opening::{Opened, hold_nothing, open};
use crate::saving::{Kept, SaveFault, save};
use crate::settling::keep_unsettled;
use crate::standing::{fill, let_go, standing_without, without_held};
use crate::taking::{Refusal, turn_on};
use dht_ids::{Acks, Post, PostKind, Posts};
use fs_tree::Tree;
use hss_keys::Signs;
use ivy_base::{Key, Memory, Moment, PubKey, Steps};
use ivy_io::{Keeper, Leave, MemKeeper};
use log_fetch::{Asked, KnownName, Refresh, Standing, TurnFault, Turned};
use log_records::{Batch, Record};
use replay_engine::Engine;
use std::alloc::Global;
use std::marker::Model;
use std::mem::replace;
use std::sync::ledger::Ledger;
use version_vectors::Vector;
use view_blocks::View;

/// A participant's agent: it owns the participant's log, and holds what the participant knows of the logs of its view.
/// Contracts see the agent of the definitions, and its keeper (`specs/Holders.antt`).
#[derive(Drop)]
pub struct Agent<K: Keeper, S: Signs> {
    /// By which a list is replaced where no memory is taken.
    alloc: Global,
    keeper: K,
    /// What is saved.
    kept: Kept<S>,
    /// What is held.
    engine: Engine,
    /// The front of what is held.
    front: Vector,
    /// The name of the snapshot that is to be loaded.
    to_load: Option<Key>,
    /// Whether the keeper has failed.
    has_failed: bool,
    /// The name of the head that was given last, so that it isn't hashed again once it is acknowledged.
    head: KnownName,
}

impl<K: Keeper, S: Signs> Model for Agent<K, S> {
    ghost use Rattle.ivy_agent.specs.Holders.{Holder, IsSound, agent_of};

    ghost Value = { Holder K S };

    ghost view = { λ a. record { agent = agent_of a.kept a.engine a.to_load a.has_failed; keeper = a.keeper } };

    ghost invariant = { λ a. IsSound S.signing (agent_of a.kept a.engine a.to_load a.has_failed) a.kept.log a.front };
}

impl<K: Keeper, S: Signs + Drop> Agent<K, S> {
    /// An agent that opens its log at that moment, over the keeper, which saves it. One head is signed.
    ///
    /// # Errors
    ///
    /// `Spent` exactly where the signer signs nothing more. `Keeper` where the save fails, with which the keeper's count rises.
    /// Either way, and where memory runs out (`Memory`), the keeper is given back; but for a failed save it is as it was. The
    /// signer is dropped.
    pub fn create(
        alloc: Global,
        mut keeper: K,
        signs: S,
        now: Moment,
    ) -> Result<Self, (K, MakeFault)>
        ensures makes { Makes S.signing S.is_whole K.saves keeper signs now result }
        ensures cause { MakeHasCause K.faults keeper result }
    {
        if signs.left() == 0 {
            return Err((keeper, MakeFault::Spent));
        }
        let Ok(opened) = open(alloc, signs, now) else {
            return Err((keeper, MakeFault::Memory));
        };
        match save(alloc, &mut keeper, &opened.kept) {
            Ok(()) => Ok(Agent::of(alloc, keeper, opened)),
            Err(SaveFault::Keeper) => Err((keeper, MakeFault::Keeper)),
            Err(SaveFault::Memory) => Err((keeper, MakeFault::Memory)),
        }
    }

    /// The keeper; all else of the agent is dropped.
    pub fn into_keeper(self) -> K
        ensures { result ≡ self.keeper }
    {
        self.keeper
    }
}

impl<K: Keeper, S: Signs> Agent<K, S> {
    /// The agent of these parts.
    fn of(alloc: Global, keeper: K, opened: Opened<S>) -> Self
        requires { IsSound S.signing (agent_of opened.kept opened.engine None false) opened.kept.log opened.front }
        ensures { result ≡ record { agent = agent_of opened.kept opened.engine None false; keeper = keeper } }
    {
        Agent {
            alloc,
            keeper,
            kept: opened.kept,
            engine: opened.engine,
            front: opened.front,
            to_load: None,
            has_failed: false,
            head: KnownName::none(),
        }
    }

    /// Enters a view: what was held is dropped, and the agent is saved in the view. What it knew stays its floor.
    ///
    /// # Errors
    ///
    /// `NotMember` where the own log isn't a member's. `NotNamed` where the view doesn't take in a log that the agent knows: the
    /// least such log. `Keeper` where the save fails, after which the agent saves no more, or where one failed before, and then
    /// the keeper isn't asked. `Memory` where memory runs out, and then nothing has changed.
    pub fn enter(&mut self, alloc: Global, view: View) -> Result<(), EnterFault>
        ensures enters { Enters S.signing S.is_whole K.saves view self.old result self.new }
        ensures cause { EnterHasCause K.faults self.old result self.new }
    {
        self.may_enter(&view)?;
        self.go_in(alloc, view)
    }

    /// Whether the view may be entered, and the keeper asked. The error is that of [`Agent::enter`] which comes else.
    fn may_enter(&self, view: &View) -> Result<(), EnterFault>
        ensures may { MayEnter S.signing view.now self.now.agent result }
        ensures cause { MayEnterHasCause self.now.agent.has_failed result }
    {
        if !is_among(view.members(), &self.kept.signer.owner()) {
            return Err(EnterFault::NotMember);
        }
        if let Some(log) = not_named(self.kept.view.as_ref(), view, &self.kept.floor) {
            return Err(EnterFault::NotNamed(log));
        }
        if self.has_failed {
            return Err(EnterFault::Keeper);
        }
        Ok(())
    }

    /// Enters a view that takes in what the agent knows. The error is `Keeper` or `Memory`.
    fn go_in(&mut self, alloc: Global, view: View) -> Result<(), EnterFault>
        requires { IsTakenIn S.signing view self.old.agent }
        ensures goes { GoesIn S.signing S.is_whole K.saves view self.old result self.new }
        ensures cause { EnterHasCause K.faults self.old result self.new }
    {
        let Ok(nothing) = hold_nothing(alloc) else {
            return Err(EnterFault::Memory);
        };
        match save_in(alloc, &mut self.keeper, &mut self.kept, view) {
            Ok(()) => {
                self.engine = nothing;
                self.front = Vector::empty(alloc);
                self.to_load = None;
                Ok(())
            }
            Err(SaveFault::Keeper) => {
                self.has_failed = true;
                Err(EnterFault::Keeper)
            }
            Err(SaveFault::Memory) => Err(EnterFault::Memory),
        }
    }

    /// What a session is given of the agent, whose posts have their names. The error is: out of memory.
    pub fn standing(&self, alloc: Global) -> Result<Standing, Memory>
        requires { IsSomeAnd self.now.agent.view (λ view. Unit {0}) }
        ensures stands { IfOk result (λ s. IfSome self.now.agent.view (λ view. standing_of s ≡ standing_in S.signing self.now.agent view)) }
        ensures named { IfOk result (λ s. AllByRecursion HasItsName s.pending) }
    {
        let Some(view) = &self.kept.view else {
            unreachable!();
        };
        let mut standing = standing_without(alloc, view, self.kept.signer.owner(), self.to_load)?;
        let filled = fill(
            alloc,
            &mut standing,
            self.engine.basis_front(),
            &self.front,
            &self.kept.floor,
            self.engine.records(),
            &self.kept.pending,
        );
        match filled {
            Ok(()) => Ok(standing),
            Err(Memory) => Err(let_go(standing)),
        }
    }

    /// What a refusal is told as. Where memory runs out nothing has changed.
    fn refuse(&mut self, alloc: Global, refusal: Refusal) -> TurnFault
        requires { IsSomeAnd self.old.agent.view (λ view. Unit {0}) }
        ensures { IfSome self.old.agent.view (λ view. Refuses S.signing view self.old refusal result self.new) }
    {
        match refusal {
            Refusal::Behind => match self.anew(alloc) {
                Ok(standing) => TurnFault::Behind(standing),
                Err(Memory) => TurnFault::Memory,
            },
            Refusal::BelowTide => match self.drop_held(alloc) {
                Ok(standing) => TurnFault::BelowTide(standing),
                Err(Memory) => TurnFault::Memory,
            },
            Refusal::Memory => TurnFault::Memory,
        }
    }

    /// What a session is given that begins again, without a snapshot. The error is: out of memory.
    fn anew(&self, alloc: Global) -> Result<Standing, Memory>
        requires { IsSomeAnd self.now.agent.view (λ view. Unit {0}) }
        ensures { IfOk result (λ s. IfSome self.now.agent.view (λ view. standing_of s ≡ begun_again_in S.signing self.now.agent view)) }
    {
        let mut standing = self.standing(alloc)?;
        standing.basis = None;
        Ok(standing)
    }

    /// Drops what is held, and gives what a session is given that begins again then. The error is: out of memory, and
    /// then nothing has changed.
    fn drop_held(&mut self, alloc: Global) -> Result<Standing, Memory>
        requires { IsSomeAnd self.old.agent.view (λ view. Unit {0}) }
        ensures ok { OnOk result (self.new ≡ record self.old { agent = dropping self.old.agent }) }
        ensures standing { IfOk result (λ s. IfSome self.old.agent.view (λ view. standing_of s ≡ begun_again_in S.signing (dropping self.old.agent) view)) }
        ensures err { OnErr result (self.new ≡ self.old) }
    {
        let Ok(nothing) = hold_nothing(alloc) else {
            return Err(Memory);
        };
        let before = self.anew(alloc)?;
        let standing = without_held(alloc, before);
        self.engine = nothing;
        self.front = Vector::empty(alloc);
        self.to_load = None;
        Ok(standing)
    }

    /// Drops the posts that are acknowledged. It takes no memory.
    pub fn settle(&mut self, acks: &Acks)
        ensures { self.new ≡ record self.old { agent = settled self.old.agent acks.now } }
    {
        let posts = replace(&mut self.kept.pending, Posts::of(Vec::new(self.alloc)));
        let mut posts = posts.into_vec();
        keep_unsettled(&mut posts, acks.as_slice(), &self.head);
        self.kept.pending = Posts::of(posts);
    }

    /// The blocks that are still to be published, in their order.
    pub fn pending(&self) -> &Posts
        ensures { result.now ≡ self.now.agent.pending }
    {
        &self.kept.pending
    }

    /// The public key of the agent's log.
    pub fn owner(&self) -> PubKey
        ensures { result ≡ own S.signing self.now.agent }
    {
        self.kept.signer.owner()
    }

    /// The view that the agent is in.
    pub fn view(&self) -> Option<&View>
        ensures { option_map (λ v. v.now) result ≡ self.now.agent.view }
    {
        self.kept.view.as_ref()
    }

    /// The records that are held above the basis, ascending by rank. Each has a spelling.
    pub fn order(&self) -> &[Record]
        ensures records { records_of result.now ≡ self.now.agent.holding.held }
        ensures spelled { AllByRecursion HasSpelling (records_of result.now) }
    {
        self.engine.records()
    }

    /// The tree that they make of the basis's.
    pub fn tree(&self) -> &Tree
        ensures { result.now ≡ kept_tree self.now.agent.holding }
    {
        self.engine.tree()
    }
}

impl<S: Signs> Agent<MemKeeper, S> {
    /// Has a later save fail, as [`MemKeeper::plan`] has it. The error is: out of memory, and then nothing has changed.
    pub fn plan_fault(&mut self, leave: Leave) -> Result<(), Memory>
        ensures ok { OnOk result (self.new ≡ record self.old { keeper = with_plan self.old.keeper leave.call leave.new }) }
        ensures err { OnErr result (self.new ≡ self.old) }
    {
        self.keeper.plan(leave)
    }
}

impl<K: Keeper, S: Signs + Drop> Agent<K, S> {
    /// A turn: takes what the refresh brought, and answers the call on what is held then. What the call plans is written: its
    /// records are held, and the agent is saved with them and a head over them; where that fails nothing is written, the reply
    /// says so, and the agent saves no more. There is a step for each record that is applied. A reply has 32,772 bytes at most.
    ///
    /// # Errors
    ///
    /// `Behind` where the refresh began with more than is held, or else the record of a member's log that the floor names is
    /// missing; nothing has changed. `BelowTide` where else a new record isn't above the basis; nothing is held then. `Memory`
    /// where memory runs out, and then nothing has changed but the steps; it also comes where names clash so that the own log
    /// doesn't go on from the floor, and where a block or a list is so long that no word counts it.
    pub fn turn<L: Ledger>(
        &mut self,
        alloc: Global,
        refresh: Refresh,
        asked: &Asked,
        now: Moment,
        steps: &mut Steps<L>,
    ) -> Result<Turned, TurnFault>
        requires batch { IsSomeAnd self.old.agent.view (λ view. IsFetchedIn view refresh.batch) }
        requires bounds { IfSome refresh.basis (λ basis. HasBounds basis.tree) }
        requires call { IsCall (asked_of asked.now) now }
        ensures turn { IfSome self.old.agent.view (λ view. TakesTurn S.signing S.is_whole K.saves view (refresh_of refresh) (asked_of asked.now) now self.old result self.new) }
        ensures steps { IfOk result (λ turned. steps.new ≡ steps.old + turned.applied) }
        ensures cause { IfOk result (λ turned. ReplyHasCause (K.faults self.old.keeper) (K.faults self.new.keeper) self.old.agent.has_failed turned) }
        ensures short { IfOk result (λ turned. length turned.reply ≤ longest_result) }
    {
        match self.take_turn(alloc, refresh, asked, now, steps) {
            Ok(turned) => Ok(self.with_names(alloc, turned)),
            Err(refusal) => Err(self.refuse(alloc, refusal)),
        }
    }

    /// What is given, with what is known of the posts' names: each is the key, but of a head, which is hashed here once.
    fn with_names(&mut self, alloc: Global, mut turned: Turned) -> Turned
        requires { turned.posts ≡ self.old.agent.pending }
        ensures given { result ≡ turned }
        ensures same { self.new ≡ self.old }
    {
        let head = match head_among(turned.posts.as_slice()) {
            Some(post) => {
                self.head.learn(alloc, post.bytes.as_slice());
                self.head.copy(alloc)
            }
            None => KnownName::none(),
        };
        turned.posts.know(head);
        turned
    }

    /// Takes what the refresh brought, where the turn isn't refused, and answers. After an error nothing has changed but the
    /// steps.
    fn take_turn<L: Ledger>(
        &mut self,
        alloc: Global,
        refresh: Refresh,
        asked: &Asked,
        now: Moment,
        steps: &mut Steps<L>,
    ) -> Result<Turned, Refusal>
        requires batch { IsSomeAnd self.old.agent.view (λ view. IsFetchedIn view refresh.batch) }
        requires bounds { IfSome refresh.basis (λ basis. HasBounds basis.tree) }
        requires call { IsCall (asked_of asked.now) now }
        ensures turn { IfSome self.old.agent.view (λ view. ComesTo S.signing S.is_whole K.saves view (refresh_of refresh) (asked_of asked.now) now self.old result self.new) }
        ensures steps { IfOk result (λ turned. steps.new ≡ steps.old + turned.applied) }
        ensures cause { IfOk result (λ turned. ReplyHasCause (K.faults self.old.keeper) (K.faults self.new.keeper) self.old.agent.has_failed turned) }
        ensures short { IfOk result (λ turned. length turned.reply ≤ longest_result) }
    {
        let Refresh { batch, basis } = refresh;
        match ground_of(alloc, self.to_load, &self.kept.floor, basis) {
            Ok(None) => self.turn_here(alloc, batch, asked, now, steps),
            Ok(Some(ground)) => self.turn_over(alloc, ground, batch, asked, now, steps),
            Err(Memory) => Err(Refusal::Memory),
        }
    }

    /// A turn that goes on from what is held. After an error nothing has changed but the steps.
    fn turn_here<L: Ledger>(
        &mut self,
        alloc: Global,
        batch: Batch,
        asked: &Asked,
        now: Moment,
        steps: &mut Steps<L>,
    ) -> Result<Turned, Refusal>
        requires batch { IsSomeAnd self.old.agent.view (λ view. IsFetchedIn view batch) }
        requires call { IsCall (asked_of asked.now) now }
        ensures turn { IfSome self.old.agent.view (λ view. ComesFrom S.signing S.is_whole K.saves view batch (asked_of asked.now) now self.old self.old.agent.holding result self.new) }
        ensures steps { IfOk result (λ turned. steps.new ≡ steps.old + turned.applied) }
        ensures cause { IfOk result (λ turned. ReplyHasCause (K.faults self.old.keeper) (K.faults self.new.keeper) self.old.agent.has_failed turned) }
        ensures short { IfOk result (λ turned. length turned.reply ≤ longest_result) }
    {
        let done = turn_on(
            alloc,
            &mut self.keeper,
            &mut self.kept,
            &mut self.engine,
            &self.front,
            self.has_failed,
            batch,
            asked,
            now,
            steps,
        )?;
        self.front = done.front;
        self.to_load = None;
        self.has_failed = done.has_failed;
        Ok(done.turned)
    }

    /// A turn that goes on from a basis. After an error nothing has changed but the steps.
    fn turn_over<L: Ledger>(
        &mut self,
        alloc: Global,
        mut ground: Ground,
        batch: Batch,
        asked: &Asked,
        now: Moment,
        steps: &mut Steps<L>,
    ) -> Result<Turned, Refusal>
        requires from { IsSomeAnd self.old.agent.view (λ view. MayTakeFrom view (own S.signing self.old.agent) self.old.agent.floor (holding ground.engine) batch) }
        requires front { ground.front ≡ joined (holding ground.engine) }
        requires going { (basis : Option Basis) × (going_on self.old.agent basis ≡ holding ground.engine) }
        requires call { IsCall (asked_of asked.now) now }
        ensures turn { IfSome self.old.agent.view (λ view. ComesFrom S.signing S.is_whole K.saves view batch (asked_of asked.now) now self.old (holding ground.engine) result self.new) }
        ensures steps { IfOk result (λ turned. steps.new ≡ steps.old + turned.applied) }
        ensures cause { IfOk result (λ turned. ReplyHasCause (K.faults self.old.keeper) (K.faults self.new.keeper) self.old.agent.has_failed turned) }
        ensures short { IfOk result (λ turned. length turned.reply ≤ longest_result) }
    {
        let done = turn_on(
            alloc,
            &mut self.keeper,
            &mut self.kept,
            &mut ground.engine,
            &ground.front,
            self.has_failed,
            batch,
            asked,
            now,
            steps,
        )?;
        self.engine = ground.engine;
        self.front = done.front;
        self.to_load = None;
        self.has_failed = done.has_failed;
        Ok(done.turned)
    }
}

/// One of the posts that is a head, where there is one.
fn head_among(posts: &[Post]) -> Option<&Post> {
    posts.iter().find(|post| post.kind == PostKind::Head)
}
