//! The engine.

ghost use Rattle.std.specs.Prelude.{◌≡◌, ◌≢◌, ◌≤◌, ◌<◌, ◌+◌, ◌-◌, ◌%◌, ◌^◌, ◌⊎◌, [], ◌∷◌, ◌++◌, length, take, drop, map, option_map, IfOk, OnOk, OnErr};
ghost use Rattle.tree_model.specs.Apply.{apply_all};
ghost use Rattle.log_model.specs.Replay.{effect, in_order};
ghost use Rattle.replay_engine.specs.Replays.{passed};
ghost use Rattle.log_records.specs.Records.{records_of};
ghost use Rattle.replay_engine.specs.Rows.{IsRow};
ghost use Rattle.turn_model.specs.Basis.{kept_tree};
ghost use Rattle.version_vectors.specs.Ranks.{rank_of};
ghost use Rattle.fs_tree.specs.Bases.{basis_of};
ghost use Rattle.replay_engine.specs.Places.{AreNew, AreBehind, first_place, start_of};
ghost use Rattle.turn_model.specs.Work.{applied_for};
ghost use Rattle.replay_engine.specs.Engines.{holding, taken_in, undone};

use crate::copies::copy_records;
use crate::merge;
use crate::replaying::{Replayed, SPACE, replay};
use crate::state::{Replaced, State};
use fs_tree::{Basis, Tree};
use ivy_base::{Memory, Steps};
use log_records::{Record, merge_place};
use std::alloc::Global;
use std::marker::Model;
use std::sync::ledger::Ledger;
use version_vectors::{Rank, Vector};

/// Records above a basis, in order, and the tree that they make of the basis's.
pub struct Engine {
    front: Vector,
    tide: Option<Rank>,
    state: State,
    last: Option<Replaced>,
    before: Option<Replaced>,
}

/// One function, so that whatever drops an engine calls it and isn't proved over all of its parts once more.
impl Drop for Engine {
    fn drop(self) {
        let Engine {
            front: _,
            tide: _,
            state: _,
            last: _,
            before: _,
        } = self;
    }
}

impl Model for Engine {
    ghost use Rattle.replay_engine.specs.Engines.{Engine as Seen};

    ghost Value = { Seen };

    ghost use Rattle.std.specs.Prelude.{◌≡◌, option_map, map, IfNone};
    ghost use Rattle.std.specs.Vec.{vec_capacity};
    ghost use Rattle.version_vectors.specs.Ranks.{rank_of};
    ghost use Rattle.log_records.specs.Records.{records_of};
    ghost use Rattle.replay_engine.specs.States.{state_of, kept_calls, states_before};
    ghost use Rattle.replay_engine.specs.Engines.{first_tree, IsKept};

    ghost view = { λ e. record {
      basis = record { front = e.front; tide = option_map rank_of e.tide; tree = first_tree e.state.checkpoints.items };
      held = records_of e.state.records.items;
      before = map (λ b. b.held) (states_before (state_of e.state) (kept_calls e.last e.before));
    } };

    ghost invariant = { λ e. IsKept (first_tree e.state.checkpoints.items) (state_of e.state) (kept_calls e.last e.before) (vec_capacity e.state.records) (vec_capacity e.state.checkpoints) };
}

impl Engine {
    /// The basis alone. The error is: out of memory.
    pub fn over(alloc: Global, basis: Basis) -> Result<Engine, Memory>
        ensures { IfOk result (λ e. e ≡ record { basis = basis_of basis; held = []; before = [] }) }
    {
        let mut checkpoints = Vec::new(alloc);
        checkpoints.push(basis.tree.copy(alloc)?)?;
        Ok(Engine {
            front: basis.front,
            tide: basis.tide,
            state: State {
                records: Vec::new(alloc),
                tree: basis.tree,
                checkpoints,
            },
            last: None,
            before: None,
        })
    }

    /// The front of the basis.
    pub fn basis_front(&self) -> &Vector
        ensures { result.now ≡ self.now.basis.front }
    {
        &self.front
    }

    /// The tide of the basis.
    pub fn basis_tide(&self) -> Option<Rank>
        ensures { option_map rank_of result ≡ self.now.basis.tide }
    {
        self.tide
    }

    /// The tree that the records make of the basis's.
    pub fn tree(&self) -> &Tree
        ensures { result.now ≡ kept_tree (holding self.now) }
    {
        &self.state.tree
    }

    /// The records, ascending by rank.
    pub fn records(&self) -> &[Record]
        ensures records { records_of result.now ≡ self.now.held }
        ensures row { IsRow (records_of result.now) }
    {
        self.state.records.as_slice()
    }

    /// The tree before the last call of [`Engine::absorb`] or [`Engine::append`] that stands.
    pub fn tree_before(&self) -> &Tree
        requires { self.now.before ≢ [] }
        ensures { result.now ≡ kept_tree (holding (undone self.now)) }
    {
        let Some(replaced) = &self.last else {
            unreachable!()
        };
        &replaced.tree
    }

    /// Takes back the last call of [`Engine::absorb`] or [`Engine::append`] that stands; it takes no memory. Of more than
    /// the last two it knows nothing.
    pub fn undo(&mut self)
        requires { self.old.before ≢ [] }
        ensures { self.new ≡ undone self.old }
    {
        let Some(replaced) = self.last.take() else {
            unreachable!()
        };
        self.last = self.before.take();
        self.state.take_back(replaced);
    }

    /// Takes new records in, wherever they go, and says how many records were applied, with a step for each. The error
    /// is: out of memory, and then nothing has changed.
    pub fn absorb<L: Ledger>(
        &mut self,
        alloc: Global,
        more: Vec<Record>,
        steps: &mut Steps<L>,
    ) -> Result<u64, Memory>
        requires row { IsRow (records_of more.items) }
        requires new { AreNew self.old.held (records_of more.items) }
        ensures ok { OnOk result (self.new ≡ taken_in self.old (records_of more.items)) }
        ensures err { OnErr result (self.new ≡ self.old) }
        ensures count { IfOk result (λ count. count ≡ applied_for (length self.old.held) (length more.items) (first_place self.old.held (records_of more.items))) }
        ensures steps { IfOk result (λ count. steps.new ≡ steps.old + count) }
    {
        let place = match more.first() {
            Some(record) => merge_place(self.records(), &record.rank()),
            None => self.records().len(),
        };
        self.take_in(alloc, place, more, steps)
    }

    /// Takes new records in that are after all others, and says how many there are, with a step for each. The error is: out
    /// of memory, and then nothing has changed.
    pub fn append<L: Ledger>(
        &mut self,
        alloc: Global,
        more: Vec<Record>,
        steps: &mut Steps<L>,
    ) -> Result<u64, Memory>
        requires row { IsRow (records_of more.items) }
        requires behind { AreBehind self.old.held (records_of more.items) }
        ensures ok { OnOk result (self.new ≡ taken_in self.old (records_of more.items)) }
        ensures err { OnErr result (self.new ≡ self.old) }
        ensures count { IfOk result (λ count. count ≡ length more.items) }
        ensures steps { OnOk result (steps.new ≡ steps.old + length more.items) }
    {
        let place = self.records().len();
        self.take_in(alloc, place, more, steps)
    }

    // Takes new records in, the first of which goes to that place.
    fn take_in<L: Ledger>(
        &mut self,
        alloc: Global,
        place: usize,
        more: Vec<Record>,
        steps: &mut Steps<L>,
    ) -> Result<u64, Memory>
        requires row { IsRow (records_of more.items) }
        requires new { AreNew self.old.held (records_of more.items) }
        requires place { place ≡ first_place self.old.held (records_of more.items) }
        ensures ok { OnOk result (self.new ≡ taken_in self.old (records_of more.items)) }
        ensures err { OnErr result (self.new ≡ self.old) }
        ensures count { IfOk result (λ count. count ≡ applied_for (length self.old.held) (length more.items) (first_place self.old.held (records_of more.items))) }
        ensures steps { IfOk result (λ count. steps.new ≡ steps.old + count) }
    {
        let tail = self.tail_with(alloc, place, more)?;
        let reached = self.reach(alloc, place, steps)?;
        let replayed = replay(alloc, reached.tree, place, tail.as_slice(), steps)?;
        let count = (reached.applied + tail.len()) as u64;
        self.put_in(place, tail, replayed)?;
        Ok(count)
    }

    // Copies of the records from that place on, and the new ones among them. The error is: out of memory.
    fn tail_with(
        &self,
        alloc: Global,
        place: usize,
        more: Vec<Record>,
    ) -> Result<Vec<Record>, Memory>
        requires row { IsRow (records_of more.items) }
        requires new { AreNew self.now.held (records_of more.items) }
        requires place { place ≡ first_place self.now.held (records_of more.items) }
        ensures whole { IfOk result (λ tail. take place self.now.held ++ records_of tail.items ≡ in_order (self.now.held ++ records_of more.items)) }
        ensures row { IfOk result (λ tail. IsRow (take place self.now.held ++ records_of tail.items)) }
        ensures count { IfOk result (λ tail. place + length tail.items ≡ length self.now.held + length more.items) }
        ensures few { IfOk result (λ tail. place + length tail.items < 2 ^ 64) }
        ensures within { IfOk result (λ tail. place ≤ length self.now.held) }
    {
        let mut tail = copy_records(alloc, from_place(self.state.records.as_slice(), place))?;
        merge(alloc, &mut tail, more)?;
        Ok(tail)
    }

    // The tree before that place. The replay begins there, where it is the end, and else at the checkpoint at or before it.
    // The error is: out of memory.
    fn reach<L: Ledger>(
        &self,
        alloc: Global,
        place: usize,
        steps: &mut Steps<L>,
    ) -> Result<Reached, Memory>
        requires { place ≤ length self.now.held }
        ensures tree { IfOk result (λ r. r.tree ≡ apply_all self.now.basis.tree (map effect (take place self.now.held))) }
        ensures count { IfOk result (λ r. r.applied ≡ place - start_of (length self.now.held) place) }
        ensures steps { IfOk result (λ r. steps.new ≡ steps.old + r.applied) }
    {
        let records = self.state.records.as_slice();
        let start = start_of(records.len(), place);
        let tree = self.tree_at(alloc, start)?;
        let between = from_place(&records[..place], start);
        let replayed = replay(alloc, tree, start, between, steps)?;
        Ok(Reached {
            tree: replayed.tree,
            applied: place - start,
        })
    }

    // The tree before that place, which is the end or that of a checkpoint. The error is: out of memory.
    fn tree_at(&self, alloc: Global, place: usize) -> Result<Tree, Memory>
        requires within { place ≤ length self.now.held }
        requires mark { (place ≡ length self.now.held) ⊎ (place % 64 ≡ 0) }
        ensures { IfOk result (λ tree. tree ≡ apply_all self.now.basis.tree (map effect (take place self.now.held))) }
    {
        if place == self.state.records.len() {
            return self.state.tree.copy(alloc);
        }
        let checkpoints = self.state.checkpoints.as_slice();
        checkpoints[place / SPACE].copy(alloc)
    }

    // Puts these records in place of those from that place on, with the tree and the checkpoints that they make. The error
    // is: out of memory, and then nothing has changed.
    fn put_in(&mut self, place: usize, tail: Vec<Record>, replayed: Replayed) -> Result<(), Memory>
        requires place { place ≤ length self.old.held }
        requires row { IsRow (take place self.old.held ++ records_of tail.items) }
        requires tree { replayed.tree ≡ apply_all (apply_all self.old.basis.tree (map effect (take place self.old.held))) (map effect (records_of tail.items)) }
        requires passed { replayed.passed.items ≡ passed place (apply_all self.old.basis.tree (map effect (take place self.old.held))) (map effect (records_of tail.items)) }
        ensures ok { OnOk result (self.new ≡ record { basis = self.old.basis; held = take place self.old.held ++ records_of tail.items; before = take 2 (self.old.held ∷ self.old.before) }) }
        ensures err { OnErr result (self.new ≡ self.old) }
    {
        let replaced = self.state.put_in(place, tail, replayed)?;
        self.before = self.last.take();
        self.last = Some(replaced);
        Ok(())
    }
}

// The tree before a place, and how many records were applied for it.
#[derive(Drop)]
struct Reached {
    tree: Tree,
    applied: usize,
}

// The records from that place on.
#[tactic(auto, using(crate::proofs::Kept::rest_is))]
fn from_place(records: &[Record], place: usize) -> &[Record]
    requires { place ≤ length records.now }
    ensures { result.now ≡ drop place records.now }
{
    &records[place..]
}

// Where the replay begins that puts records in at that place: there, where it is the end, and else at the checkpoint at or
// before it.
fn start_of(held: usize, place: usize) -> usize
    ensures { result ≡ start_of held place }
{
    if place == held {
        return place;
    }
    place - place % SPACE
}
