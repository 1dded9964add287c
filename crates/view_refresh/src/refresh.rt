//! The refresh of a view on its way.

ghost use Rattle.std.specs.Prelude.{◌≡◌, ◌≢◌, ◌+◌, ◌-◌, ◌*◌, ◌<◌, ◌≤◌, [], Some, None, Ok, IfOk, OnOk, option_map, false, true};
ghost use Rattle.std.specs.List.{AllByRecursion};
ghost use Rattle.ivy_base.specs.Naming.{name};
ghost use Rattle.agent_model.specs.SavedBytes.{HasItsName};
ghost use Rattle.agent_model.specs.Standing.{dominates};
ghost use Rattle.snapshot_model.specs.Reading.{Root};
ghost use Rattle.fs_tree.specs.Bases.{basis_of};
ghost use Rattle.log_fetch.specs.Fetching.{fetch_awaited, fetch_wanted, most_asks, most_left};
ghost use Rattle.log_fetch.specs.Gets.{IsKept};
ghost use Rattle.log_fetch.specs.Standings.{standing_of};
ghost use Rattle.log_fetch.specs.Stepping.{BroughtNothing};
ghost use Rattle.session_model.specs.Refreshing.{counting};
ghost use Rattle.snapshot_loading.specs.Loading.{begun, load_left, most_of, wanted_of};
ghost use Rattle.view_refresh.specs.Behind.{RefreshIsAfter};
ghost use Rattle.view_refresh.specs.States.{IsForLoad, IsSound, IsInProgress, awaited_in, failed_in, has_failed, is_loading, left_in, loads_in, most_refresh, refresh_awaited, refresh_left, refresh_wanted, wanted_in};
ghost use Rattle.view_refresh.specs.Steps.{TakesPending, RefreshHasHeard, RefreshIsWanted, RefreshStands, RefreshWants, RefreshWasGiven};
ghost use Rattle.view_refresh.specs.Parts.{AreFirst, AreLoaded, AreNamed, AreOfLoad, AreOfOneMore, BeginsGet, BeginsWanted, FetchGivesNext, FetchHearsNext, FetchWantsNext, GivesMiss, GivesNext, HearsNext, IsFree, IsStarted, LoadTakesNext, TakesNext, WantsNext, held_over, refreshed_over};

use crate::pending::posted;
use dhash_client::Miss;
use dht_ids::{Answer, Judge, Peers, Posts, Want};
use fs_tree::Basis;
use ivy_base::{Bytes, Key, Memory};
use log_fetch::{Came, Fetch, Fetched, Get, Note, Notes, Progress, Refresh, Standing, Waiting};
use snapshot_loading::{Load, loaded};
use std::alloc::Global;
use std::marker::Model;
use std::mem;
use version_vectors::Vector;

/// What a refresh brings.
#[derive(Drop)]
pub struct Refreshed {
    /// What a turn is given; or why something needed couldn't be had.
    pub result: Result<Refresh, Miss>,
    /// What is noted of the logs, in their order, and last why the refresh failed, where it did.
    pub notes: Notes,
}

/// A snapshot on its way, and the standing for which it is loaded.
pub(crate) struct Loading {
    pub standing: Standing,
    pub load: Load,
}

/// One function, so that whatever drops one calls it and isn't proved over all of its parts once more.
impl Drop for Loading {
    fn drop(self) {
        let Loading {
            standing: _,
            load: _,
        } = self;
    }
}

impl Loading {
    /// The standing, and the snapshot that was loaded for it.
    fn into_parts(self) -> (Standing, Load)
        ensures { (result.0 ≡ self.standing) × (result.1 ≡ self.load) }
    {
        let Loading { standing, load } = self;
        (standing, load)
    }
}

/// How far a refresh is.
#[derive(Drop)]
pub(crate) enum State<J: Judge> {
    /// A block of the snapshot is wanted, and no get is on its way.
    Loading(Loading),
    /// A get of the block that is wanted waits for its ask to be heard.
    Asking(Loading, Waiting<J>),
    /// The logs are fetched, over that basis where one counts.
    Fetching(Option<Basis>, Fetch<J>),
    /// It gave its result, or wanted memory.
    Over,
}

/// The refresh of a view. Contracts see by which judge, from how many owners and from which nodes on it gets, which posts are
/// available, and how far it is.
pub struct ViewRefresh<J: Judge> {
    alloc: Global,
    judge: J,
    replicas: u32,
    entries: Peers,
    pending: Posts,
    state: State<J>,
}

/// One function, so that whatever drops a refresh calls it and isn't proved over all of its parts once more.
impl<J: Judge> Drop for ViewRefresh<J> {
    fn drop(self) {
        let ViewRefresh {
            alloc: _,
            judge: _,
            replicas: _,
            entries: _,
            pending: _,
            state: _,
        } = self;
    }
}

impl<J: Judge> Model for ViewRefresh<J> {
    ghost use Rattle.view_refresh.specs.States.{Refreshing, HoldsAlways};

    ghost Value = { Refreshing J };

    ghost view = { λ r. record { judge = r.judge; replicas = r.replicas; entries = r.entries; pending = r.pending; state = r.state } };

    ghost invariant = { λ r. HoldsAlways (record { judge = r.judge; replicas = r.replicas; entries = r.entries; pending = r.pending; state = r.state }) };
}

impl<J: Judge> ViewRefresh<J> {
    /// The refresh for that standing: its gets begin their look-ups at these nodes, and are content with that many answers. Where
    /// there is a snapshot to load, each block that is pending has its name. The error is: out of memory.
    pub fn start(
        alloc: Global,
        judge: J,
        replicas: u32,
        entries: Peers,
        standing: Standing,
    ) -> Result<ViewRefresh<J>, Memory>
        requires { standing.basis ≢ None → AllByRecursion HasItsName standing.pending }
        ensures by { IfOk result (λ refresh. (refresh.judge ≡ judge) × (refresh.replicas ≡ replicas) × (refresh.entries ≡ entries)) }
        ensures started { IfOk result (RefreshIsAfter J.judges (standing_of standing) [] []) }
        ensures free { IfOk result (λ refresh. refresh_awaited refresh ≡ None) }
        ensures unfailed { IfOk result (λ refresh. has_failed refresh ≡ false) }
        ensures left { IfOk result (λ refresh. refresh_left refresh < most_refresh) }
    {
        let (standing, root, pending) = taken_apart(alloc, standing);
        let state = first_state(alloc, judge, replicas, &entries, standing, root)?;
        Ok(ViewRefresh {
            alloc,
            judge,
            replicas,
            entries,
            pending,
            state,
        })
    }

    /// The name of the block that is to be got next, where a block is and no get is on its way.
    pub fn wanted(&self) -> Option<Key>
        ensures { result ≡ refresh_wanted self.now }
    {
        wanted_in(&self.state)
    }

    /// Whether a snapshot is on its way.
    pub fn is_loading(&self) -> bool
        ensures { result ≡ is_loading self.now }
    {
        loads_in(&self.state)
    }

    /// Whether something that is needed couldn't be had, and the result waits to be told.
    pub fn failed(&self) -> bool
        ensures { result ≡ has_failed self.now }
    {
        failed_in(&self.state)
    }

    /// Takes the block that is to be got next, where it is pending, and says whether it is. The error is: out of memory; the
    /// refresh isn't used then any more.
    pub fn take_pending(&mut self) -> Result<bool, Memory>
        ensures taken { IfOk result (TakesPending J.judges self.old self.new) }
        ensures left { IfOk result (λ taken. taken ≡ true → refresh_left self.new < refresh_left self.old) }
    {
        let state = mem::replace(&mut self.state, State::Over);
        let (state, taken) = self.give_pending(state)?;
        come_to(&mut self.state, state);
        Ok(taken)
    }

    /// Takes the block that is to be got next, which was available. While a snapshot is loaded it has its name; else its
    /// bytes are not tested. The error is: out of memory; the refresh isn't used then any more.
    pub fn give(&mut self, bytes: &[u8]) -> Result<(), Memory>
        requires wanted { refresh_wanted self.old ≢ None }
        requires named { is_loading self.old ≡ true → refresh_wanted self.old ≡ Some (name bytes.now) }
        ensures given { IfOk result (λ _. RefreshWasGiven J.judges self.old self.new bytes.now) }
        ensures left { IfOk result (λ _. refresh_left self.new < refresh_left self.old) }
    {
        let state = mem::replace(&mut self.state, State::Over);
        let state = self.give_to(state, bytes)?;
        come_to(&mut self.state, state);
        Ok(())
    }

    /// What the refresh wants next: an ask, or nothing more, since it has its result. An ask that wasn't yet heard is wanted
    /// again. The error is: out of memory; after it, and after the result, the refresh isn't used any more.
    pub fn next(&mut self) -> Result<Want<Refreshed>, Memory>
        ensures wanted { IfOk result (RefreshIsWanted J.judges self.old self.new) }
        ensures left { IfOk result (λ _. refresh_left self.new ≤ refresh_left self.old) }
    {
        let state = mem::replace(&mut self.state, State::Over);
        let (state, want) = self.go_on(state)?;
        come_to(&mut self.state, state);
        Ok(want)
    }

    /// Hears what the node answered that was asked last, and takes what the get brought, where it is over with that: a block
    /// is handed out with its name. It is called once after each ask. The error is: out of memory; the refresh isn't used then
    /// any more.
    pub fn heard(&mut self, answer: Answer) -> Result<Option<(Key, Bytes)>, Memory>
        requires { refresh_awaited self.old ≢ None }
        ensures heard { IfOk result (RefreshHasHeard J.judges self.old self.new answer) }
        ensures left { IfOk result (λ _. refresh_left self.new < refresh_left self.old) }
    {
        let state = mem::replace(&mut self.state, State::Over);
        let (state, block) = self.hear(state, answer)?;
        come_to(&mut self.state, state);
        Ok(block)
    }

    /// Gives the block that is wanted in that state, where it is pending: how the refresh then stands, and whether it is. The
    /// error is: out of memory.
    fn give_pending(&self, state: State<J>) -> Result<(State<J>, bool), Memory>
        requires sound { IsSound self.now.judge self.now.replicas self.now.entries state }
        requires named { AreNamed state self.now.pending }
        ensures { IfOk result (TakesNext J.judges self.now state) }
    {
        let Some(key) = wanted_in(&state) else {
            return Ok((state, false));
        };
        match posted(self.pending.as_slice(), &key) {
            Some(bytes) => Ok((self.give_to(state, bytes)?, true)),
            None => Ok((state, false)),
        }
    }

    /// Gives the block in that state: how the refresh then stands. The error is: out of memory.
    fn give_to(&self, state: State<J>, bytes: &[u8]) -> Result<State<J>, Memory>
        requires sound { IsSound self.now.judge self.now.replicas self.now.entries state }
        requires wanted { wanted_in state ≢ None }
        requires named { loads_in state ≡ true → wanted_in state ≡ Some (name bytes.now) }
        ensures { IfOk result (GivesNext J.judges self.now state bytes.now) }
    {
        match state {
            State::Loading(loading) => self.give_load(loading, bytes),
            State::Fetching(basis, fetch) => give_fetch(basis, fetch, bytes),
            _ => unreachable!(),
        }
    }

    /// Gives the snapshot the block that it wants. The error is: out of memory.
    fn give_load(&self, loading: Loading, bytes: &[u8]) -> Result<State<J>, Memory>
        requires wants { IsInProgress loading }
        requires named { wanted_of loading.load ≡ Some (name bytes.now) }
        ensures { IfOk result (GivesNext J.judges self.now (State.Loading loading) bytes.now) }
    {
        let bytes = Bytes::copy_of(self.alloc, bytes)?;
        self.loads_on(loading, Ok(bytes))
    }

    /// What is wanted in that state, and how the refresh then stands. The error is: out of memory.
    fn go_on(&self, state: State<J>) -> Result<(State<J>, Want<Refreshed>), Memory>
        requires { IsSound self.now.judge self.now.replicas self.now.entries state }
        ensures { IfOk result (WantsNext J.judges self.now state) }
    {
        match state {
            State::Loading(loading) => self.begin(loading),
            State::Asking(loading, waiting) => Ok(ask(loading, waiting)),
            State::Fetching(basis, fetch) => fetch_on(basis, fetch),
            State::Over => Err(Memory),
        }
    }

    /// Begins a get of the block that the snapshot wants. The error is: out of memory.
    fn begin(&self, loading: Loading) -> Result<(State<J>, Want<Refreshed>), Memory>
        requires { IsInProgress loading }
        ensures { IfOk result (WantsNext J.judges self.now (State.Loading loading)) }
    {
        let key = loading.load.wanted().unwrap();
        let first = self.first(key)?;
        self.begun(loading, first)
    }

    /// A get of that block with its first ask. The error is: out of memory.
    fn first(&self, key: Key) -> Result<Progress<J>, Memory>
        ensures { IfOk result (BeginsGet J.judges self.now.replicas self.now.entries key) }
    {
        let get: Get<J> = Get::block(self.alloc, key, self.replicas, &self.entries)?;
        get.go_on()
    }

    /// Asks the first ask of a get, or ends the refresh where there is none. The error is: out of memory.
    fn begun(
        &self,
        loading: Loading,
        progress: Progress<J>,
    ) -> Result<(State<J>, Want<Refreshed>), Memory>
        requires wants { IsInProgress loading }
        requires begins { BeginsWanted J.judges self.now.replicas self.now.entries loading progress }
        ensures { IfOk result (WantsNext J.judges self.now (State.Loading loading)) }
    {
        match progress {
            Progress::Waits(waiting) => Ok(ask(loading, waiting)),
            Progress::Comes(came) => {
                let given = unrouted(self.alloc, came)?;
                Ok((State::Over, Want::Done(given)))
            }
        }
    }

    /// Hears what was answered in that state: how the refresh then stands, and the block that a get brought. The error is: out
    /// of memory.
    fn hear(
        &self,
        state: State<J>,
        answer: Answer,
    ) -> Result<(State<J>, Option<(Key, Bytes)>), Memory>
        requires sound { IsSound self.now.judge self.now.replicas self.now.entries state }
        requires awaited { awaited_in state ≢ None }
        ensures { IfOk result (HearsNext J.judges self.now state answer) }
    {
        match state {
            State::Asking(loading, waiting) => self.hear_block(loading, waiting, answer),
            State::Fetching(basis, fetch) => hear_fetch(basis, fetch, answer),
            _ => unreachable!(),
        }
    }

    /// Hears what was answered to the get of a block of the snapshot. The error is: out of memory.
    fn hear_block(
        &self,
        loading: Loading,
        waiting: Waiting<J>,
        answer: Answer,
    ) -> Result<(State<J>, Option<(Key, Bytes)>), Memory>
        requires { IsForLoad self.now.replicas self.now.entries loading waiting }
        ensures { IfOk result (HearsNext J.judges self.now (State.Asking loading waiting) answer) }
    {
        match waiting.hear(answer)? {
            Progress::Waits(waiting) => Ok((State::Asking(loading, waiting), None)),
            Progress::Comes(Came::Block(came)) => self.take(loading, came),
            Progress::Comes(Came::Heads(_)) => unreachable!(),
        }
    }

    /// Takes what came of the block that the snapshot wants; a block is handed out, too. The error is: out of memory.
    fn take(
        &self,
        loading: Loading,
        came: Result<Bytes, Miss>,
    ) -> Result<(State<J>, Option<(Key, Bytes)>), Memory>
        requires wants { IsInProgress loading }
        requires named { IfOk came (λ bytes. wanted_of loading.load ≡ Some (name bytes)) }
        ensures { IfOk result (LoadTakesNext J.judges self.now loading came) }
    {
        match came {
            Ok(bytes) => self.take_block(loading, bytes),
            Err(miss) => Ok((self.loads_on(loading, Err(miss))?, None)),
        }
    }

    /// Takes the block that the snapshot wants, and hands it out. The error is: out of memory.
    fn take_block(
        &self,
        loading: Loading,
        bytes: Bytes,
    ) -> Result<(State<J>, Option<(Key, Bytes)>), Memory>
        requires wants { IsInProgress loading }
        requires named { wanted_of loading.load ≡ Some (name bytes) }
        ensures { IfOk result (LoadTakesNext J.judges self.now loading (Ok bytes)) }
    {
        let key = loading.load.wanted().unwrap();
        let copy = Bytes::copy_of(self.alloc, bytes.as_slice())?;
        let state = self.loads_on(loading, Ok(copy))?;
        Ok((state, Some((key, bytes))))
    }

    /// Goes on loading after what came of the block that the snapshot wants, or fetches the logs where it wants no more. The
    /// error is: out of memory.
    fn loads_on(&self, mut loading: Loading, came: Result<Bytes, Miss>) -> Result<State<J>, Memory>
        requires wanted { wanted_of loading.load ≢ None }
        requires named { IfOk came (λ bytes. wanted_of loading.load ≡ Some (name bytes)) }
        ensures { IfOk result (IsFree J.judges self.now.judge self.now.replicas self.now.entries (most_left + most_asks * (load_left loading.load - 1)) (AreOfOneMore loading came)) }
    {
        loading.load.give(self.alloc, came)?;
        self.goes_from(loading)
    }

    /// Goes on loading where the snapshot wants a block, or else fetches the logs. The error is: out of memory.
    fn goes_from(&self, loading: Loading) -> Result<State<J>, Memory>
        ensures { IfOk result (IsFree J.judges self.now.judge self.now.replicas self.now.entries (most_left + most_asks * load_left loading.load) (AreOfLoad loading)) }
    {
        match loading.load.wanted() {
            Some(_) => Ok(State::Loading(loading)),
            None => self.fetch_over(loading),
        }
    }

    /// Fetches the logs over the snapshot that was loaded, where there is one and it counts, or else over what is held: a
    /// snapshot that is missing, damaged or malformed is none. The error is: out of memory.
    fn fetch_over(&self, loading: Loading) -> Result<State<J>, Memory>
        requires { wanted_of loading.load ≡ None }
        ensures { IfOk result (IsFree J.judges self.now.judge self.now.replicas self.now.entries (most_left + most_asks * load_left loading.load) (AreOfLoad loading)) }
    {
        let (standing, load) = loading.into_parts();
        let basis = loaded(self.alloc, load)?.ok();
        fetch_from(
            self.alloc,
            self.judge,
            self.replicas,
            &self.entries,
            standing,
            basis,
        )
    }
}

/// Comes to that state, which was taken out of its place before.
fn come_to<J: Judge>(state: &mut State<J>, next: State<J>)
    requires { state.old ≡ State.Over }
    ensures { state.new ≡ next }
{
    match mem::replace(state, next) {
        State::Over => {}
        _ => unreachable!(),
    }
}

/// The name of the block that is to be got next in that state.
fn wanted_in<J: Judge>(state: &State<J>) -> Option<Key>
    ensures { result ≡ wanted_in state.now }
{
    match state {
        State::Loading(loading) => loading.load.wanted(),
        State::Fetching(_, fetch) => fetch.wanted(),
        _ => None,
    }
}

/// Whether a snapshot is on its way in that state.
fn loads_in<J: Judge>(state: &State<J>) -> bool
    ensures { result ≡ loads_in state.now }
{
    matches!(state, State::Loading(_) | State::Asking(..))
}

/// Whether something that is needed couldn't be had in that state.
fn failed_in<J: Judge>(state: &State<J>) -> bool
    ensures { result ≡ failed_in state.now }
{
    match state {
        State::Fetching(_, fetch) => fetch.failed(),
        _ => false,
    }
}

/// How a refresh begins: with the snapshot, where there is one to load. The error is: out of memory.
fn first_state<J: Judge>(
    alloc: Global,
    judge: J,
    replicas: u32,
    entries: &Peers,
    standing: Standing,
    root: Option<Key>,
) -> Result<State<J>, Memory>
    ensures free { IfOk result (IsFree J.judges judge replicas entries.now (most_left + most_asks * most_of Root) (AreFirst standing root)) }
    ensures loads { IfOk result (λ state. loads_in state ≡ true → root ≢ None) }
{
    match root {
        Some(root) => load_first(alloc, standing, root),
        None => fetch_from(alloc, judge, replicas, entries, standing, None),
    }
}

/// How a refresh begins with a snapshot. The error is: out of memory.
fn load_first<J: Judge>(alloc: Global, standing: Standing, root: Key) -> Result<State<J>, Memory>
    ensures { IfOk result (λ state. state ≡ State.Loading (record { standing = standing; load = begun root })) }
{
    let load = Load::start(alloc, root)?;
    Ok(State::Loading(Loading { standing, load }))
}

/// Fetches the logs over that basis, where the floor knows all that it covers. The error is: out of memory.
fn fetch_from<J: Judge>(
    alloc: Global,
    judge: J,
    replicas: u32,
    entries: &Peers,
    mut standing: Standing,
    basis: Option<Basis>,
) -> Result<State<J>, Memory>
    ensures free { IfOk result (IsFree J.judges judge replicas entries.now most_left (AreLoaded standing (option_map basis_of basis))) }
    ensures loads { IfOk result (λ state. loads_in state ≡ false) }
{
    let basis = counted(&standing.floor, basis);
    hold(alloc, &mut standing, &basis)?;
    start_over(alloc, judge, replicas, entries, &standing, basis)
}

/// Fetches the logs over what the standing holds. The error is: out of memory.
fn start_over<J: Judge>(
    alloc: Global,
    judge: J,
    replicas: u32,
    entries: &Peers,
    standing: &Standing,
    basis: Option<Basis>,
) -> Result<State<J>, Memory>
    ensures { IfOk result (IsStarted J.judges judge replicas entries.now standing.now basis) }
{
    let entries = entries.copy(alloc)?;
    let fetch = Fetch::start(alloc, judge, replicas, entries, standing)?;
    Ok(State::Fetching(basis, fetch))
}

/// Holds the front of that basis, where there is one. The error is: out of memory.
fn hold(alloc: Global, standing: &mut Standing, basis: &Option<Basis>) -> Result<(), Memory>
    ensures { OnOk result (standing.new ≡ record standing.old { held = held_over standing.old.held basis.now }) }
{
    match basis {
        Some(basis) => {
            standing.held = basis.front.copy(alloc)?;
            Ok(())
        }
        None => Ok(()),
    }
}

/// Asks what the get waits for.
fn ask<J: Judge>(loading: Loading, waiting: Waiting<J>) -> (State<J>, Want<Refreshed>)
    requires { IsKept waiting }
    ensures { result ≡ (State.Asking loading waiting, Want.Ask waiting.node waiting.question) }
{
    let (node, question) = waiting.again();
    (State::Asking(loading, waiting), Want::Ask(node, question))
}

/// What the fetch of the logs wants next. The error is: out of memory.
fn fetch_on<J: Judge>(
    basis: Option<Basis>,
    mut fetch: Fetch<J>,
) -> Result<(State<J>, Want<Refreshed>), Memory>
    ensures { IfOk result (FetchWantsNext J.judges basis fetch) }
{
    match fetch.next()? {
        Want::Ask(node, question) => Ok((State::Fetching(basis, fetch), Want::Ask(node, question))),
        Want::Done(fetched) => Ok((State::Over, Want::Done(over_basis(basis, fetched)))),
    }
}

/// Gives the fetch of the logs the block that it wants. The error is: out of memory.
fn give_fetch<J: Judge>(
    basis: Option<Basis>,
    mut fetch: Fetch<J>,
    bytes: &[u8],
) -> Result<State<J>, Memory>
    requires { fetch_wanted fetch ≢ None }
    ensures { IfOk result (FetchGivesNext J.judges basis fetch bytes.now) }
{
    fetch.give(bytes)?;
    Ok(State::Fetching(basis, fetch))
}

/// Has the fetch of the logs hear an answer. The error is: out of memory.
fn hear_fetch<J: Judge>(
    basis: Option<Basis>,
    mut fetch: Fetch<J>,
    answer: Answer,
) -> Result<(State<J>, Option<(Key, Bytes)>), Memory>
    requires { fetch_awaited fetch ≢ None }
    ensures { IfOk result (FetchHearsNext J.judges basis fetch answer) }
{
    let block = fetch.heard(answer)?;
    Ok((State::Fetching(basis, fetch), block))
}

/// What the refresh brings, over that basis, of what was fetched.
fn over_basis(basis: Option<Basis>, fetched: Fetched) -> Refreshed
    ensures { result ≡ refreshed_over basis fetched }
{
    let Fetched { result, notes } = fetched;
    match result {
        Ok(batch) => Refreshed {
            result: Ok(Refresh { batch, basis }),
            notes,
        },
        Err(miss) => Refreshed {
            result: Err(miss),
            notes,
        },
    }
}

/// What the refresh brings where a get of a block of the snapshot made no ask. The error is: out of memory.
fn unrouted(alloc: Global, came: Came) -> Result<Refreshed, Memory>
    requires { BroughtNothing came }
    ensures { IfOk result GivesMiss }
{
    match came {
        Came::Heads(Err(miss)) | Came::Block(Err(miss)) => missed(alloc, miss),
        _ => unreachable!(),
    }
}

/// What the refresh brings where something couldn't be had, and nothing is noted of the logs. The error is: out of memory.
fn missed(alloc: Global, miss: Miss) -> Result<Refreshed, Memory>
    ensures { IfOk result GivesMiss }
{
    let mut notes = Notes::of(Vec::new(alloc));
    notes.push(Note::of_miss(&miss))?;
    Ok(Refreshed {
        result: Err(miss),
        notes,
    })
}

/// The basis, where there is one and the floor knows all that it covers.
fn counted(floor: &Vector, basis: Option<Basis>) -> Option<Basis>
    ensures { option_map basis_of result ≡ counting floor.now (option_map basis_of basis) }
{
    match basis {
        Some(basis) => known(floor, basis),
        None => None,
    }
}

/// The basis, where the floor knows all that it covers.
fn known(floor: &Vector, basis: Basis) -> Option<Basis>
    ensures { option_map basis_of result ≡ counting floor.now (Some (basis_of basis)) }
{
    if !knows(floor, &basis.front) {
        return None;
    }
    Some(basis)
}

/// Whether the floor knows all that the front does.
fn knows(floor: &Vector, front: &Vector) -> bool
    ensures { result ≡ dominates floor.now front.now }
{
    // That it is a vector, so that each log has one entry.
    let _ = front.entries();
    floor.dominates(front)
}

/// The standing without what is pending and with no snapshot to load, the snapshot that is to be loaded, and what is pending.
fn taken_apart(alloc: Global, mut standing: Standing) -> (Standing, Option<Key>, Posts)
    ensures { (standing_of result.0 ≡ record (standing_of standing) { to_load = None; pending = [] }) × (result.1 ≡ standing.basis) × (result.2 ≡ standing.pending) }
{
    let root = standing.basis.take();
    let pending = mem::replace(&mut standing.pending, Posts::of(Vec::new(alloc)));
    (standing, root, pending)
}

/// What was brought came to something, and to a miss exactly where it failed.
pub fn refresh_stands<J: Judge>()
    ensures { RefreshStands J.judges }
{}

/// Where no node is to be heard, a block that is wanted by what was brought is the one that is to be got next.
pub fn refresh_wants<J: Judge>()
    ensures { RefreshWants J.judges }
{}
