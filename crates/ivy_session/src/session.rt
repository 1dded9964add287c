//! The machine of a session.

ghost use Rattle.std.specs.Prelude.{◌≡◌, ◌≢◌, ℕ, ◌+◌, ◌<◌, ◌≤◌, ◌^◌, List, [], true, false, length, nat_lt, Some, None, IfOk, IfErr, IfSome, option_map};
ghost use Rattle.std.specs.List.{AllByRecursion};
ghost use Rattle.agent_model.specs.Standing.{Standing as ModelStanding};
ghost use Rattle.session_model.specs.Executions.{publishing_session};
ghost use Rattle.log_fetch.specs.Standings.{standing_of};
ghost use Rattle.ivy_session.specs.States.{BeginsAs, IsSession, asked_at, awaited_at, begun, is_told, is_turning, session_awaited};
ghost use Rattle.ivy_session.specs.Stepping.{IsAgainFor, IsHeard, IsNext, IsTurned};
ghost use Rattle.ivy_session.specs.Cutting.{IsCutAsHeard, IsCutAsTurned, IsCutAsWanted};
ghost use Rattle.ivy_session.specs.Left.{FallsLeft, LeavesNoMore, StaysLeft, most_puts, session_left};
ghost use Rattle.ivy_session.specs.Ending.{BeginsAgain, ConcludesAs, PutHears, TellsMiss, lacking};
ghost use Rattle.ivy_session.specs.InPlace.{EndsRefresh, FailureAt, PutHeard, PutWants, RefreshHeard, RefreshWants, TellsWhy, call_at, is_publishing, is_refreshing, told_at};
ghost use Rattle.session_model.specs.Sessions.{Cache};
ghost use Rattle.wire_model.specs.Rpc.{SystemError, reply};
ghost use Rattle.agent_model.specs.SavedBytes.{HasItsName};
ghost use Rattle.ivy_session.specs.Publishing.{publishing_awaited, publishing_begun, puts_left};
ghost use Rattle.nfs_model.specs.Results.{longest_result};

use crate::missing::missed;
use crate::publishing::Publishing;
use crate::refreshing::{advance, failure, first_stage, hear, refresh_for};
use crate::served::{Call, Served, no_memory, reply_of};
use block_cache::BlockCache;
use dhash_client::Miss;
use dht_ids::{Acks, Answer, Ask, Judge, Peer, Peers, Post, Posts, Want};
use ivy_base::Memory;
use log_fetch::{Asked, NamedPosts, Notes, Refresh, Standing, TurnFault, Turned};
use std::alloc::Global;
use std::marker::Model;
use std::mem;
use view_refresh::{Refreshed, ViewRefresh};

/// What a session wants next.
#[derive(Drop)]
pub enum Next {
    /// To ask that node; its answer is to be told to [`Session::heard`].
    Ask(Peer, Ask),
    /// Its agent's turn, with what the refresh brought, on [`Session::asked`]; what comes of it is to be told to
    /// [`Session::turned`].
    Turn(Refresh),
    /// That its agent drops these posts.
    Settle(Acks),
    /// Nothing more.
    Done(Served),
}

/// How far a session has come.
#[derive(Drop)]
pub(crate) enum Stage<J: Judge> {
    /// Its refresh is on its way.
    Refreshing(Call, ViewRefresh<J>),
    /// Its agent's turn is awaited.
    Turning(Call),
    /// It publishes; this is told in the end.
    Publishing(Served, Publishing),
    /// This is to be told.
    Over(Served),
    /// It was told.
    Told,
}

/// One call of a participant, or the publishing of its posts alone. Contracts see by which judge, from how many owners and at
/// which nodes it asks, and how far it is (`specs/States.antt`).
pub struct Session<J: Judge> {
    alloc: Global,
    judge: J,
    replicas: u32,
    entries: Peers,
    starts: u32,
    notes: Notes,
    is_cut: bool,
    stage: Stage<J>,
}

/// One function, so that whatever drops a session calls it and isn't proved over all of its parts once more.
impl<J: Judge> Drop for Session<J> {
    fn drop(self) {
        let Session {
            alloc: _,
            judge: _,
            replicas: _,
            entries: _,
            starts: _,
            notes: _,
            is_cut: _,
            stage,
        } = self;
        drop(stage);
    }
}

impl<J: Judge> Model for Session<J> {
    ghost use Rattle.ivy_session.specs.States.{SessionState};

    ghost Value = { SessionState J };

    ghost view = { λ s. record { judge = s.judge; replicas = s.replicas; entries = s.entries; starts = s.starts; notes = s.notes; is_cut = s.is_cut; stage = s.stage } };
}

/// How often a session begins again at most.
const MOST_STARTS: u32 = 2;

impl<J: Judge> Session<J> {
    /// A session that answers this message for the agent of that standing; it asks these nodes first, and is content with
    /// that many answers. Where there is a snapshot to load, each block that is pending has its name. The error is: out of
    /// memory.
    pub fn begin(
        alloc: Global,
        judge: J,
        replicas: u32,
        entries: Peers,
        standing: Standing,
        message: &[u8],
    ) -> Result<Session<J>, Memory>
        requires { standing.basis ≢ None → AllByRecursion HasItsName standing.pending }
        ensures by { IfOk result (λ st. (st.judge ≡ judge) × (st.replicas ≡ replicas) × (st.entries ≡ entries)) }
        ensures begun { IfOk result (BeginsAs J.judges message.now (standing_of standing)) }
        ensures free { IfOk result (λ st. session_awaited st ≡ None) }
        ensures turning { IfOk result (λ st. is_turning st.stage ≡ false) }
        ensures whole { IfOk result (λ st. st.is_cut ≡ false) }
    {
        let stage = first_stage(alloc, judge, replicas, &entries, standing, message)?;
        Ok(Session {
            alloc,
            judge,
            replicas,
            entries,
            starts: 0,
            notes: Notes::of(Vec::new(alloc)),
            is_cut: false,
            stage,
        })
    }

    /// A session that publishes these posts alone, likewise. Their names aren't known, so each is hashed. The error is: out of
    /// memory.
    pub fn publish(
        alloc: Global,
        judge: J,
        replicas: u32,
        entries: Peers,
        pending: &Posts,
    ) -> Result<Session<J>, Memory>
        ensures by { IfOk result (λ st. (st.judge ≡ judge) × (st.replicas ≡ replicas) × (st.entries ≡ entries)) }
        ensures begun { IfOk result (λ st. (by : List ℕ) (standing : ModelStanding) → IsSession J.judges (publishing_session by st.entries standing pending.now) st) }
        ensures free { IfOk result (λ st. session_awaited st ≡ None) }
        ensures turning { IfOk result (λ st. is_turning st.stage ≡ false) }
        ensures whole { IfOk result (λ st. st.is_cut ≡ false) }
    {
        let posts = NamedPosts::of(pending.copy(alloc)?);
        let publishing = publishing_of(alloc, replicas, &entries, &posts)?;
        Ok(Session {
            alloc,
            judge,
            replicas,
            entries,
            starts: 0,
            notes: Notes::of(Vec::new(alloc)),
            is_cut: false,
            stage: Stage::Publishing(Served::Published, publishing),
        })
    }

    /// What the session's message asks for, until its turn is over.
    pub fn asked(&self) -> Option<&Asked>
        ensures { option_map (λ asked. asked.now) result ≡ asked_at self.now.stage }
    {
        match &self.stage {
            Stage::Refreshing(call, _) => Some(&call.asked),
            Stage::Turning(call) => Some(&call.asked),
            _ => None,
        }
    }

    /// What it wants next. A block that it wants and that is pending or in the cache is taken first. An ask that wasn't yet
    /// heard is wanted again. It isn't called while a turn is awaited, nor once it is done. No more is left to the session
    /// then, and less where it wants a settling.
    pub fn next(&mut self, cache: &mut BlockCache) -> Next
        requires turning { is_turning self.old.stage ≡ false }
        requires told { is_told self.old.stage ≡ false }
        ensures wanted { IsNext J.judges self.old self.new cache.old cache.new result }
        ensures cut { IsCutAsWanted self.old self.new result }
        ensures left { LeavesNoMore self.old self.new result }
    {
        match &self.stage {
            Stage::Refreshing(..) => self.refresh(cache),
            Stage::Publishing(..) => self.put(),
            _ => Next::Done(take_told(&mut self.stage)),
        }
    }

    /// Hears what the node answered that was asked last, or that there was no memory for it. It is called once after each
    /// ask. A block that a get gave right is kept in the cache. No turn is awaited then, and less is left to the session.
    pub fn heard(&mut self, cache: &mut BlockCache, answer: Result<Answer, Memory>)
        requires { session_awaited self.old ≢ None }
        ensures heard { IsHeard J.judges self.old self.new cache.old cache.new answer }
        ensures turning { is_turning self.new.stage ≡ false }
        ensures cut { IsCutAsHeard self.old self.new }
        ensures left { session_left self.new < session_left self.old }
    {
        match &self.stage {
            Stage::Refreshing(..) => self.hear_get(cache, answer),
            _ => self.hear_put(answer),
        }
    }

    /// Is told what came of its agent's turn. It is called once after each `Turn`. A reply has at most 32,772 bytes. No node
    /// is to be heard then until one is asked, and less is left to the session.
    pub fn turned(&mut self, turned: Result<Turned, TurnFault>)
        requires turning { is_turning self.old.stage ≡ true }
        requires short { IfOk turned (λ t. length t.reply ≤ longest_result) }
        requires anew { IfErr turned IsAgainFor }
        ensures turned { IsTurned J.judges self.old self.new turned }
        ensures free { session_awaited self.new ≡ None }
        ensures turning { is_turning self.new.stage ≡ false }
        ensures cut { IsCutAsTurned self.old self.new turned }
        ensures left { session_left self.new < session_left self.old }
    {
        match turned {
            Ok(turned) => self.answer(&turned),
            Err(TurnFault::Memory) => lack(&mut self.stage),
            Err(TurnFault::Behind(standing)) => self.begin_again(standing),
            Err(TurnFault::BelowTide(standing)) => self.begin_again(standing),
        }
    }

    /// Whether it may begin again after a refused turn: it did so at most once.
    pub fn may_begin_again(&self) -> bool
        ensures { result ≡ nat_lt self.now.starts 2 }
    {
        self.starts < MOST_STARTS
    }

    /// What is noted of the logs, once the session publishes or is over.
    pub fn notes(&self) -> &Notes
        ensures { result.now ≡ self.now.notes }
    {
        &self.notes
    }

    /// Whether its publishing ended before all puts were made, because memory ran out: the clauses `cut` of
    /// [`Session::next`], [`Session::heard`] and [`Session::turned`] say which step ends it, and no other does.
    pub fn is_cut(&self) -> bool
        ensures { result ≡ self.now.is_cut }
    {
        self.is_cut
    }

    /// Goes on with the refresh: a node is asked, or its agent's turn is wanted.
    fn refresh(&mut self, cache: &mut BlockCache) -> Next
        requires { is_refreshing self.old.stage ≡ true }
        ensures wanted { IsNext J.judges self.old self.new cache.old cache.new result }
        ensures cut { IsCutAsWanted self.old self.new result }
        ensures left { LeavesNoMore self.old self.new result }
    {
        match refresh_wants(&mut self.stage, cache) {
            Ok(Want::Ask(node, question)) => Next::Ask(node, question),
            Ok(Want::Done(refreshed)) => {
                let call = take_call(&mut self.stage);
                self.conclude(call, refreshed)
            }
            Err(Memory) => Next::Done(no_memory(take_call(&mut self.stage))),
        }
    }

    /// Concludes the refresh, which brought this: its agent's turn is wanted, or it has failed.
    fn conclude(&mut self, call: Call, refreshed: Refreshed) -> Next
        ensures { ConcludesAs self.old self.new call refreshed result }
    {
        let Refreshed { result, notes } = refreshed;
        match result {
            Ok(refresh) => {
                self.notes = notes;
                go_to(&mut self.stage, Stage::Turning(call));
                Next::Turn(refresh)
            }
            Err(miss) => Next::Done(self.fail(call, &miss, notes)),
        }
    }

    /// Tells that the refresh failed by that miss, and notes this. Where memory runs out that is told, and nothing is
    /// noted.
    fn fail(&mut self, call: Call, miss: &Miss, notes: Notes) -> Served
        ensures { TellsMiss self.old self.new call miss.now notes result }
    {
        match missed(self.alloc, call.xid, &call.asked, miss) {
            Ok(reply) => {
                self.notes = notes;
                Served::Reply(reply)
            }
            Err(Memory) => no_memory(call),
        }
    }

    /// Goes on to publish: a node is asked, or its agent is to drop what was acknowledged.
    fn put(&mut self) -> Next
        requires { is_publishing self.old.stage ≡ true }
        ensures wanted { (cache : Cache) → IsNext J.judges self.old self.new cache cache result }
        ensures cut { IsCutAsWanted self.old self.new result }
        ensures left { LeavesNoMore self.old self.new result }
    {
        match put_wants(&mut self.stage) {
            Ok(Want::Ask(node, question)) => Next::Ask(node, question),
            Ok(Want::Done(acks)) => {
                end(&mut self.stage);
                Next::Settle(acks)
            }
            Err(Memory) => {
                self.is_cut = true;
                Next::Done(take_told(&mut self.stage))
            }
        }
    }

    /// The refresh hears an answer, or that there was no memory for it.
    fn hear_get(&mut self, cache: &mut BlockCache, answer: Result<Answer, Memory>)
        requires refreshing { is_refreshing self.old.stage ≡ true }
        requires awaited { session_awaited self.old ≢ None }
        ensures heard { IsHeard J.judges self.old self.new cache.old cache.new answer }
        ensures turning { is_turning self.new.stage ≡ false }
        ensures cut { IsCutAsHeard self.old self.new }
        ensures left { session_left self.new < session_left self.old }
    {
        match refresh_heard(&mut self.stage, cache, answer) {
            Ok(false) => {}
            Ok(true) => self.end_refresh(),
            Err(Memory) => lack(&mut self.stage),
        }
    }

    /// Ends the refresh, which has failed.
    fn end_refresh(&mut self)
        requires { is_refreshing self.old.stage ≡ true }
        ensures { EndsRefresh J.judges self.old self.new }
    {
        let why = failure_at(&mut self.stage);
        let call = take_call(&mut self.stage);
        let told = self.tell(call, why);
        go_to(&mut self.stage, Stage::Over(told));
    }

    /// Tells why the refresh failed. None means out of memory.
    fn tell(&mut self, call: Call, why: Option<(Miss, Notes)>) -> Served
        ensures { TellsWhy self.old self.new call why result }
    {
        match why {
            Some((miss, notes)) => self.fail(call, &miss, notes),
            None => no_memory(call),
        }
    }

    /// What publishes hears an answer, or that there was no memory for it.
    fn hear_put(&mut self, answer: Result<Answer, Memory>)
        requires publishing { is_publishing self.old.stage ≡ true }
        requires awaited { session_awaited self.old ≢ None }
        ensures heard { (cache : Cache) → IsHeard J.judges self.old self.new cache cache answer }
        ensures turning { is_turning self.new.stage ≡ false }
        ensures cut { IsCutAsHeard self.old self.new }
        ensures left { session_left self.new < session_left self.old }
    {
        match put_heard(&mut self.stage, answer) {
            Ok(()) => {}
            Err(Memory) => {
                self.is_cut = true;
                end(&mut self.stage);
            }
        }
    }

    /// Answers the call by what its turn gave, and begins to publish.
    fn answer(&mut self, turned: &Turned)
        requires turning { is_turning self.old.stage ≡ true }
        requires short { length turned.now.reply ≤ longest_result }
        ensures turned { IsTurned J.judges self.old self.new (Ok turned.now) }
        ensures free { session_awaited self.new ≡ None }
        ensures turning { is_turning self.new.stage ≡ false }
        ensures cut { IsCutAsTurned self.old self.new (Ok turned.now) }
        ensures left { session_left self.new < session_left self.old }
    {
        let call = take_call(&mut self.stage);
        let told = reply_of(call, turned.reply.as_slice());
        match publishing_of(self.alloc, self.replicas, &self.entries, &turned.posts) {
            Ok(publishing) => go_to(&mut self.stage, Stage::Publishing(told, publishing)),
            Err(Memory) => {
                self.is_cut = true;
                go_to(&mut self.stage, Stage::Over(told));
            }
        }
    }

    /// Begins again from that standing, where it didn't so twice before.
    fn begin_again(&mut self, standing: Standing)
        requires turning { is_turning self.old.stage ≡ true }
        requires none { standing.basis ≡ None }
        ensures turned { IsTurned J.judges self.old self.new (Err (TurnFault.Behind standing)) }
        ensures free { session_awaited self.new ≡ None }
        ensures turning { is_turning self.new.stage ≡ false }
        ensures cut { self.new.is_cut ≡ self.old.is_cut }
        ensures left { session_left self.new < session_left self.old }
    {
        let call = take_call(&mut self.stage);
        match self.refresh_anew(standing) {
            Some(refresh) => go_to(&mut self.stage, Stage::Refreshing(call, refresh)),
            None => go_to(&mut self.stage, Stage::Over(no_memory(call))),
        }
    }

    /// The refresh with which the session begins again from that standing. None means out of memory, or that it did so
    /// twice before.
    fn refresh_anew(&mut self, standing: Standing) -> Option<ViewRefresh<J>>
        requires { standing.basis ≡ None }
        ensures { BeginsAgain J.judges self.old self.new standing result }
    {
        if !self.may_begin_again() {
            drop(standing);
            return None;
        }
        let refresh = refresh_for(
            self.alloc,
            self.judge,
            self.replicas,
            &self.entries,
            standing,
        );
        self.renew();
        refresh.ok()
    }

    /// Counts that it begins again, with nothing noted.
    fn renew(&mut self)
        requires { self.old.starts < 2 }
        ensures { self.new ≡ record self.old { starts = self.old.starts + 1; notes = [] } }
    {
        self.starts += 1;
        self.notes = Notes::of(Vec::new(self.alloc));
    }
}

/// What publishes these posts. The error is: out of memory.
fn publishing_of(
    alloc: Global,
    replicas: u32,
    entries: &Peers,
    posts: &NamedPosts,
) -> Result<Publishing, Memory>
    ensures begun { IfOk result (λ publishing. publishing ≡ publishing_begun replicas entries.now posts.now) }
    ensures left { IfOk result (λ publishing. puts_left publishing ≤ most_puts) }
{
    are_few(posts.as_slice());
    Publishing::start(alloc, replicas, entries.copy(alloc)?, posts)
}

/// Says that posts in memory are few enough to be counted. It does nothing.
fn are_few(posts: &[Post])
    ensures { length posts.now < 2 ^ 63 }
{}

/// Goes to that stage. What is left of the one before is dropped by a call, so that whatever changes a stage isn't proved
/// over all of its parts once more.
fn go_to<J: Judge>(stage: &mut Stage<J>, next: Stage<J>)
    ensures { stage.new ≡ next }
{
    drop(mem::replace(stage, next));
}

/// Takes the call, which isn't answered yet.
fn take_call<J: Judge>(stage: &mut Stage<J>) -> Call
    requires { call_at stage.old ≢ None }
    ensures call { call_at stage.old ≡ Some result }
    ensures told { stage.new ≡ Stage.Told }
{
    match mem::replace(stage, Stage::Told) {
        Stage::Refreshing(call, refresh) => {
            drop(refresh);
            call
        }
        Stage::Turning(call) => call,
        _ => unreachable!(),
    }
}

/// Takes what is to be told.
fn take_told<J: Judge>(stage: &mut Stage<J>) -> Served
    requires { told_at stage.old ≢ None }
    ensures served { told_at stage.old ≡ Some result }
    ensures told { stage.new ≡ Stage.Told }
{
    match mem::replace(stage, Stage::Told) {
        Stage::Publishing(told, publishing) => {
            drop(publishing);
            told
        }
        Stage::Over(told) => told,
        _ => unreachable!(),
    }
}

/// Nothing more is wanted than to tell what is to be told.
fn end<J: Judge>(stage: &mut Stage<J>)
    requires { told_at stage.old ≢ None }
    ensures { IfSome (told_at stage.old) (λ told. stage.new ≡ Stage.Over told) }
{
    let told = take_told(stage);
    go_to(stage, Stage::Over(told));
}

/// The call is to be told that memory runs out.
fn lack<J: Judge>(stage: &mut Stage<J>)
    requires { call_at stage.old ≢ None }
    ensures { IfSome (call_at stage.old) (λ call. stage.new ≡ Stage.Over (lacking call)) }
{
    let call = take_call(stage);
    go_to(stage, Stage::Over(no_memory(call)));
}

/// What the refresh wants. The error is: out of memory.
fn refresh_wants<J: Judge>(
    stage: &mut Stage<J>,
    cache: &mut BlockCache,
) -> Result<Want<Refreshed>, Memory>
    requires { is_refreshing stage.old ≡ true }
    ensures wanted { RefreshWants J.judges stage.old stage.new cache.old cache.new result }
    ensures left { IfOk result (λ _. StaysLeft stage.old stage.new) }
{
    match stage {
        Stage::Refreshing(_, refresh) => advance(refresh, cache),
        _ => unreachable!(),
    }
}

/// The refresh hears an answer; says whether it has failed. The error is: out of memory.
fn refresh_heard<J: Judge>(
    stage: &mut Stage<J>,
    cache: &mut BlockCache,
    answer: Result<Answer, Memory>,
) -> Result<bool, Memory>
    requires refreshing { is_refreshing stage.old ≡ true }
    requires awaited { awaited_at stage.old ≢ None }
    ensures heard { RefreshHeard J.judges stage.old stage.new cache.old cache.new answer result }
    ensures left { IfOk result (λ _. FallsLeft stage.old stage.new) }
{
    match stage {
        Stage::Refreshing(_, refresh) => hear(refresh, cache, answer),
        _ => unreachable!(),
    }
}

/// Why the refresh failed, which did, and what is noted then. None means out of memory.
fn failure_at<J: Judge>(stage: &mut Stage<J>) -> Option<(Miss, Notes)>
    requires { is_refreshing stage.old ≡ true }
    ensures { FailureAt J.judges stage.old stage.new result }
{
    match stage {
        Stage::Refreshing(_, refresh) => failure(refresh),
        _ => unreachable!(),
    }
}

/// What the publishing wants. The error is: out of memory.
fn put_wants<J: Judge>(stage: &mut Stage<J>) -> Result<Want<Acks>, Memory>
    requires { is_publishing stage.old ≡ true }
    ensures wanted { PutWants stage.old stage.new result }
    ensures left { IfOk result (λ _. StaysLeft stage.old stage.new) }
{
    match stage {
        Stage::Publishing(_, publishing) => publishing.next(),
        _ => unreachable!(),
    }
}

/// What publishes hears an answer. The error is: out of memory.
fn put_heard<J: Judge>(stage: &mut Stage<J>, answer: Result<Answer, Memory>) -> Result<(), Memory>
    requires publishing { is_publishing stage.old ≡ true }
    requires awaited { awaited_at stage.old ≢ None }
    ensures heard { PutHeard stage.old stage.new answer result }
    ensures left { IfOk result (λ _. FallsLeft stage.old stage.new) }
{
    match stage {
        Stage::Publishing(_, publishing) => put_hears(publishing, answer),
        _ => unreachable!(),
    }
}

/// What publishes hears an answer. The error is: out of memory.
fn put_hears(publishing: &mut Publishing, answer: Result<Answer, Memory>) -> Result<(), Memory>
    requires { publishing_awaited publishing.old ≢ None }
    ensures heard { PutHears publishing.old publishing.new answer result }
    ensures left { IfOk result (λ _. puts_left publishing.new < puts_left publishing.old) }
{
    publishing.heard(answer?)
}
