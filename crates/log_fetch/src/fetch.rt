//! The fetch of all logs of a view.

ghost use Rattle.std.specs.Prelude.{◌≡◌, ◌≢◌, ◌<◌, ◌≤◌, [], Some, None, IfOk, false};
ghost use Rattle.log_fetch.specs.Fetching.{awaited_in, fetch_awaited, fetch_left, fetch_wanted, is_failed, most_left, FetchIsAfter, FetchIsWanted, FetchHasHeard, FetchWasGiven, FetchStands, HasFailed, HasFewGets, IsSound, begins_in, with_next};
ghost use Rattle.log_fetch.specs.Counting.{GetsAreFew};
ghost use Rattle.log_fetch.specs.Standings.{standing_of};
ghost use Rattle.log_fetch.specs.Gathering.{heads_wanted, block_wanted};
ghost use Rattle.log_fetch.specs.Gets.{IsKept};
ghost use Rattle.log_fetch.specs.Stepping.{BeginsFor, BroughtNothing, GetsFor, HearsNext, IsMiss, WantsNext, Takes, FailsWith, Finishes, IsWantedKind, LeavesNoMore, StandsBehind};

use crate::gather::{Gather, Stage};
use crate::get::{Came, Get, Progress, Waiting};
use crate::note::{Note, Notes};
use crate::standing::Standing;
use dhash_client::Miss;
use dht_ids::{Answer, Heads, Judge, Peers, Want};
use ivy_base::{Bytes, Key, Memory};
use log_records::Batch;
use std::alloc::Global;
use std::marker::Model;
use std::mem;

/// What a fetch brings.
#[derive(Drop)]
pub struct Fetched {
    /// The chains that were fetched, over what is held, with the floor; or why something needed couldn't be had.
    pub result: Result<Batch, Miss>,
    /// What is noted of the logs, in their order, and last why the fetch failed, where it did.
    pub notes: Notes,
}

/// How far a fetch is.
#[derive(Drop)]
pub(crate) enum State<J: Judge> {
    /// No get is on its way.
    Free(Gather),
    /// A get of what is wanted waits for its ask to be heard.
    Asking(Gather, Waiting<J>),
    /// Something couldn't be had, and the result waits to be told.
    Ended(Fetched),
    /// It gave its result, or wanted memory.
    Over,
}

/// The fetch of all logs of a view: of each member in its order the heads before the blocks, of the own log blocks alone.
/// Contracts see by which judge, from how many owners and from which nodes on it gets, how far it is, and how many gets it began.
pub struct Fetch<J: Judge> {
    alloc: Global,
    judge: J,
    replicas: u32,
    entries: Peers,
    state: State<J>,
    gets: u64,
}

/// One function, so that whatever drops a fetch calls it and isn't proved over all of its parts once more.
impl<J: Judge> Drop for Fetch<J> {
    fn drop(self) {
        let Fetch {
            alloc: _,
            judge: _,
            replicas: _,
            entries: _,
            state: _,
            gets: _,
        } = self;
    }
}

impl<J: Judge> Model for Fetch<J> {
    ghost use Rattle.log_fetch.specs.Fetching.{Fetching, IsSound};

    ghost Value = { Fetching J };

    ghost view = { λ f. record { judge = f.judge; replicas = f.replicas; entries = f.entries; state = f.state; gets = f.gets } };

    ghost invariant = { λ f. IsSound f.judge f.replicas f.state };
}

/// What comes of what a get brought.
pub(crate) enum Step {
    /// It was gathered; a block is handed out, with its name.
    Takes(Option<(Key, Bytes)>),
    /// It couldn't be had.
    Fails(Miss),
}

impl<J: Judge> Fetch<J> {
    /// The fetch for that standing, over what it holds: its gets begin their look-ups at these nodes, and are content with
    /// that many answers. The error is: out of memory.
    pub fn start(
        alloc: Global,
        judge: J,
        replicas: u32,
        entries: Peers,
        standing: &Standing,
    ) -> Result<Fetch<J>, Memory>
        ensures by { IfOk result (λ fetch. (fetch.judge ≡ judge) × (fetch.replicas ≡ replicas) × (fetch.entries ≡ entries)) }
        ensures started { IfOk result (FetchIsAfter J.judges (standing_of standing.now) standing.now.held [] []) }
        ensures free { IfOk result (λ fetch. fetch_awaited fetch ≡ None) }
        ensures left { IfOk result (λ fetch. fetch_left fetch < most_left) }
    {
        Ok(Fetch {
            alloc,
            judge,
            replicas,
            entries,
            state: State::Free(Gather::start(alloc, standing)?),
            gets: 0,
        })
    }

    /// The name of the block that is to be got next, where a block is and no get is on its way.
    pub fn wanted(&self) -> Option<Key>
        ensures { result ≡ fetch_wanted self.now }
    {
        match &self.state {
            State::Free(gather) => gather.wanted_block(),
            _ => None,
        }
    }

    /// Whether something couldn't be had, and the result waits to be told. Without a node to be heard it is otherwise known
    /// that something is wanted next, or that all was brought.
    pub fn failed(&self) -> bool
        ensures value { result ≡ is_failed self.now }
        ensures ended { HasFailed J.judges self.now result }
    {
        matches!(self.state, State::Ended(_))
    }

    /// How many heads and records it began to get; a block that was given isn't counted. The count stays at `u64::MAX`.
    ///
    /// It never exceeds the sum of three numbers: the members other than the own log; over all members, the floor's number less
    /// the one held; and over the heads that were tried, each head's number less the one held.
    pub fn gets(&self) -> u64
        ensures value { result ≡ self.now.gets }
        ensures few { HasFewGets self.now result }
    {
        self.gets
    }

    /// Takes the block that is to be got next, which was available: its bytes are not tested here. The error is: out of
    /// memory; the fetch isn't used then any more.
    pub fn give(&mut self, bytes: &[u8]) -> Result<(), Memory>
        requires { fetch_wanted self.old ≢ None }
        ensures given { IfOk result (λ _. FetchWasGiven J.judges self.old self.new bytes.now) }
        ensures free { IfOk result (λ _. (fetch_awaited self.new ≡ None) × (is_failed self.new ≡ false)) }
        ensures left { IfOk result (λ _. fetch_left self.new < fetch_left self.old) }
    {
        let State::Free(gather) = &mut self.state else {
            unreachable!()
        };
        gather.take_block(self.alloc, bytes)?;
        Ok(())
    }

    /// What the fetch wants next: an ask, or nothing more, since it has its result. An ask that wasn't yet heard is wanted
    /// again. The error is: out of memory; after it and after the result the fetch is over, and gives that error.
    pub fn next(&mut self) -> Result<Want<Fetched>, Memory>
        ensures wanted { IfOk result (FetchIsWanted J.judges self.old self.new) }
        ensures left { IfOk result (λ _. fetch_left self.new ≤ fetch_left self.old) }
    {
        let gets = self.gets_with_next();
        let state = mem::replace(&mut self.state, State::Over);
        let (state, want) = self.go_on(state)?;
        come_to(&mut self.state, state);
        self.gets = gets;
        Ok(want)
    }

    /// Whether a get begins next: no other is on its way, and something is wanted.
    fn begins(&self) -> bool
        ensures { result ≡ begins_in self.now.state }
    {
        match &self.state {
            State::Free(gather) => gather.is_wanting(),
            _ => false,
        }
    }

    /// How many gets were begun, with the one that begins next, where one does.
    fn gets_with_next(&self) -> u64
        ensures { result ≡ with_next self.now.gets self.now.state }
    {
        if self.begins() {
            self.gets.saturating_add(1)
        } else {
            self.gets
        }
    }

    /// Hears what the node answered that was asked last, and takes what the get brought, where it is over with that: a block
    /// is handed out with its name. It is called once after each ask. The error is: out of memory; then the fetch is over.
    pub fn heard(&mut self, answer: Answer) -> Result<Option<(Key, Bytes)>, Memory>
        requires { fetch_awaited self.old ≢ None }
        ensures heard { IfOk result (FetchHasHeard J.judges self.old self.new answer) }
        ensures left { IfOk result (λ _. fetch_left self.new < fetch_left self.old) }
    {
        let state = mem::replace(&mut self.state, State::Over);
        let (state, block) = self.hear(state, answer)?;
        come_to(&mut self.state, state);
        Ok(block)
    }

    /// Hears what was answered in that state: how the fetch then stands, and the block that a get brought. The error is: out of
    /// memory.
    fn hear(
        &self,
        state: State<J>,
        answer: Answer,
    ) -> Result<(State<J>, Option<(Key, Bytes)>), Memory>
        requires awaited { awaited_in state ≢ None }
        requires sound { IsSound self.now.judge self.now.replicas state }
        ensures { IfOk result (HearsNext J.judges self.now state answer) }
    {
        let State::Asking(gather, waiting) = state else {
            unreachable!()
        };
        match waiting.hear(answer)? {
            Progress::Waits(waiting) => Ok((State::Asking(gather, waiting), None)),
            Progress::Comes(came) => stand(self.alloc, gather, came),
        }
    }

    /// What is wanted in that state, and how the fetch then stands. The error is: out of memory.
    fn go_on(&self, state: State<J>) -> Result<(State<J>, Want<Fetched>), Memory>
        requires { IsSound self.now.judge self.now.replicas state }
        ensures { IfOk result (WantsNext J.judges self.now state) }
    {
        match state {
            State::Free(gather) => self.begin(gather),
            State::Asking(gather, waiting) => Ok(ask(gather, waiting)),
            State::Ended(fetched) => Ok((State::Over, Want::Done(fetched))),
            State::Over => Err(Memory),
        }
    }

    /// Begins a get of what is wanted, where something is. The error is: out of memory.
    fn begin(&self, gather: Gather) -> Result<(State<J>, Want<Fetched>), Memory>
        ensures { IfOk result (WantsNext J.judges self.now (State.Free gather)) }
    {
        let first = self.first(&gather)?;
        self.begin_with(gather, first)
    }

    /// Goes on with the get of what is wanted, or gives the result where nothing is. The error is: out of memory.
    fn begin_with(
        &self,
        gather: Gather,
        first: Option<Progress<J>>,
    ) -> Result<(State<J>, Want<Fetched>), Memory>
        requires { BeginsFor J.judges self.now.judge self.now.replicas self.now.entries gather.stage first }
        ensures { IfOk result (WantsNext J.judges self.now (State.Free gather)) }
    {
        match first {
            Some(progress) => self.begun(gather, progress),
            None => self.done(gather),
        }
    }

    /// The result, where nothing more is wanted. The error is: out of memory.
    fn done(&self, gather: Gather) -> Result<(State<J>, Want<Fetched>), Memory>
        requires { gather.stage ≡ Stage.Through }
        ensures { IfOk result (WantsNext J.judges self.now (State.Free gather)) }
    {
        Ok((State::Over, Want::Done(finish(gather)?)))
    }

    /// Asks the first ask of a get, or ends the fetch where there is none. The error is: out of memory.
    fn begun(
        &self,
        gather: Gather,
        progress: Progress<J>,
    ) -> Result<(State<J>, Want<Fetched>), Memory>
        requires { BeginsFor J.judges self.now.judge self.now.replicas self.now.entries gather.stage (Some progress) }
        ensures { IfOk result (WantsNext J.judges self.now (State.Free gather)) }
    {
        match progress {
            Progress::Waits(waiting) => Ok(ask(gather, waiting)),
            Progress::Comes(came) => {
                let fetched = fail(gather, miss_in(came))?;
                Ok((State::Over, Want::Done(fetched)))
            }
        }
    }

    /// The get of what is wanted with its first ask, where something is wanted. The error is: out of memory.
    fn first(&self, gather: &Gather) -> Result<Option<Progress<J>>, Memory>
        ensures { IfOk result (BeginsFor J.judges self.now.judge self.now.replicas self.now.entries gather.now.stage) }
    {
        match self.get_for(gather)? {
            Some(get) => Ok(Some(get.go_on()?)),
            None => Ok(None),
        }
    }

    /// A get of what is wanted, where something is. The error is: out of memory.
    fn get_for(&self, gather: &Gather) -> Result<Option<Get<J>>, Memory>
        ensures { IfOk result (GetsFor J.judges self.now.judge self.now.replicas self.now.entries gather.now.stage) }
    {
        if let Some(owner) = gather.wanted_heads() {
            let get = Get::heads(self.alloc, self.judge, owner, self.replicas, &self.entries)?;
            return Ok(Some(get));
        }
        match gather.wanted_block() {
            Some(key) => Ok(Some(Get::block(self.alloc, key, self.replicas, &self.entries)?)),
            None => Ok(None),
        }
    }
}

/// Puts that state in the place of another.
fn come_to<J: Judge>(place: &mut State<J>, state: State<J>)
    ensures { place.new ≡ state }
{
    *place = state;
}

/// Has the node of that ask asked.
fn ask<J: Judge>(gather: Gather, waiting: Waiting<J>) -> (State<J>, Want<Fetched>)
    requires { IsKept waiting }
    ensures { result ≡ (State.Asking gather waiting, Want.Ask waiting.node waiting.question) }
{
    let (node, question) = waiting.again();
    (State::Asking(gather, waiting), Want::Ask(node, question))
}

/// Gathers what a get brought: then no get is on its way, or something couldn't be had. A block is handed out with its
/// name. The error is: out of memory.
fn stand<J: Judge>(
    alloc: Global,
    mut gather: Gather,
    came: Came,
) -> Result<(State<J>, Option<(Key, Bytes)>), Memory>
    requires { IsWantedKind gather.stage came }
    ensures stands { IfOk result (StandsBehind gather came) }
    ensures left { IfOk result (λ given. LeavesNoMore gather given.0) }
{
    match take(alloc, &mut gather, came)? {
        Step::Takes(block) => Ok((State::Free(gather), block)),
        Step::Fails(miss) => Ok((State::Ended(fail(gather, miss)?), None)),
    }
}

/// Gathers what a get brought. The error is: out of memory.
fn take(alloc: Global, gather: &mut Gather, came: Came) -> Result<Step, Memory>
    requires { IsWantedKind gather.old.stage came }
    ensures { IfOk result (Takes gather.old came gather.new) }
{
    match came {
        Came::Heads(heads) => take_heads(alloc, gather, heads),
        Came::Block(block) => take_block(alloc, gather, block),
    }
}

/// Gathers the heads that a get brought. The error is: out of memory.
fn take_heads(
    alloc: Global,
    gather: &mut Gather,
    heads: Result<Heads, Miss>,
) -> Result<Step, Memory>
    requires { heads_wanted gather.old.stage ≢ None }
    ensures { IfOk result (Takes gather.old (Came.Heads heads) gather.new) }
{
    match heads {
        Ok(heads) => {
            gather.take_heads(alloc, &heads)?;
            Ok(Step::Takes(None))
        }
        Err(miss) => Ok(Step::Fails(miss)),
    }
}

/// Gathers the block that a get brought, and hands it out. The error is: out of memory.
fn take_block(
    alloc: Global,
    gather: &mut Gather,
    block: Result<Bytes, Miss>,
) -> Result<Step, Memory>
    requires { block_wanted gather.old.stage ≢ None }
    ensures { IfOk result (Takes gather.old (Came.Block block) gather.new) }
{
    let key = gather.wanted_block().unwrap();
    match block {
        Ok(bytes) => {
            gather.take_block(alloc, bytes.as_slice())?;
            Ok(Step::Takes(Some((key, bytes))))
        }
        Err(miss) => Ok(Step::Fails(miss)),
    }
}

/// Why a get brought nothing.
fn miss_in(came: Came) -> Miss
    requires { BroughtNothing came }
    ensures { IsMiss came result }
{
    match came {
        Came::Heads(Err(miss)) | Came::Block(Err(miss)) => miss,
        _ => unreachable!(),
    }
}

/// What a fetch gives that ends since something needed couldn't be had. The error is: out of memory.
fn fail(gather: Gather, miss: Miss) -> Result<Fetched, Memory>
    ensures { IfOk result (FailsWith gather miss) }
{
    let (_, mut notes) = gather.into_parts()?;
    notes.push(Note::of_miss(&miss))?;
    Ok(Fetched {
        result: Err(miss),
        notes,
    })
}

/// What a fetch gives where all members are through. The error is: out of memory.
fn finish(gather: Gather) -> Result<Fetched, Memory>
    requires { gather.stage ≡ Stage.Through }
    ensures { IfOk result (Finishes gather) }
{
    let (batch, notes) = gather.into_parts()?;
    Ok(Fetched {
        result: Ok(batch),
        notes,
    })
}

/// Whatever a fetch was brought is known to come to some end, and while a get is on its way to that what it is for is wanted.
pub fn fetch_stands<J: Judge>()
    ensures { FetchStands J.judges }
{}

/// A law and no code: whatever the logs' fetch was brought, what was got of it, with the get that is to come, is within the bound
/// of [`Fetch::gets`].
pub fn gets_are_few()
    ensures { GetsAreFew }
{}
