//! The gate: one value, which one pass at a time takes out for a turn.

ghost use Rattle.std.specs.Prelude.{◌≡◌, ◌≢◌, ◌+◌, ◌-◌, ◌*◌, ◌/◌, ◌%◌, ◌<◌, ◌≤◌, ◌^◌, true, false, [], ◌∷◌, ◌++◌, length, min};
ghost use Rattle.std.specs.Prelude.{Some, None, IfOk, IfErr, OnErr, All};
ghost use mathlib.Core.List.{IsPrefix};
ghost use Rattle.value_gate.specs.Steps.{Sees, backed, entered, joined, left, next_call};
ghost use Rattle.value_gate.specs.Passes.{HasGathered, IsOwnHistory, IsPassOf, IsWhole, Found, FoundAndLeft, Met, SawOn, TookTurn};
ghost use Rattle.value_gate.specs.Passes.{parts_of, with_parts};

use crate::knows::Knows;
use crate::pass::{Pass, PassSeat};
use crate::rule::{Back, Enter, Joining, Law, Leave, Look, Make, NoPart, Noted, OnePart};
use crate::sequential::{Sequential, Turn, Visit};
use atomic_table::{Refused, Table};
use std::alloc::{AllocError, Global};
use std::marker::{Brand, Model};
use std::snapshot::Snapshot;
use std::sync::Wait;
use std::thread;

/// How many parts the first pass of a gate has: 2^32.
pub const ALL_PARTS: u64 = 1 << 32;

/// One value, with which one pass at a time takes a turn. All turns that leave an entry make one legal history.
///
/// Contracts see which gate it is, and the value that it was opened with. Each pass that is handed to a call is one of this
/// gate. A call that waits for the value may wait for good: there is no fairness, and after 2^63 - 1 turns nobody gets in.
#[derive(Drop)]
pub struct Gate<A: Sequential> {
    table: Table<Option<A>, Knows<A, (A::Asked, A::Reply)>, Snapshot<A>, Law, Global>,
}

impl<A: Sequential> Model for Gate<A> {
    ghost use Rattle.std.specs.Prelude.{◌≡◌};
    ghost use Rattle.value_gate.specs.Passes.{HasGathered, GateView};

    ghost Value = { GateView A };

    ghost view = { λ g. record { gate = g.table.shared.table_id; opening = g.table.shared.key.value } };

    ghost invariant = { λ g. (g.table.shared.table_id.words ≡ 1) × (g.table.shared.table_id.slots ≡ 1) };
}

/// What is left of a gate.
#[derive(Drop)]
pub struct Closed<A: Drop> {
    /// The value after the whole history.
    pub value: A,
    /// The length of the whole history.
    pub turns: u64,
}

/// A gate that isn't closed, since the passes that were given don't have all parts.
#[derive(Drop)]
pub struct Unclosed<A: Sequential> {
    /// The gate as it was.
    pub gate: Gate<A>,
    /// The passes that were given, as they were.
    pub passes: Vec<Pass<A>>,
}

impl<A: Sequential> Gate<A> {
    /// A gate over this value, which stands for no turns yet, and the first pass, which has all parts. `Err` means out
    /// of memory.
    pub fn make(alloc: Global, value: A) -> Result<(Gate<A>, Pass<A>), AllocError>
        requires { A.stands value [] value }
        ensures pass { IfOk result (λ made. IsPassOf made.0 made.1 × (made.0.opening ≡ value)) }
        ensures new { IfOk result (λ made. (made.1.parts ≡ 2 ^ 32) × (made.1.history ≡ []) × (made.1.calls ≡ [])) }
    {
        let mut slots = Vec::with_capacity(alloc, 1)?;
        let opening = Snapshot::of(&value);
        slots.push_reserved(Some(value));
        match Table::new(alloc, &[0], slots, &opening) {
            Ok((table, seat)) => Ok((
                Gate { table },
                Pass {
                    turns: 0,
                    parts: ALL_PARTS,
                    seat,
                },
            )),
            Err(Refused { slots: _ }) => Err(AllocError),
        }
    }

    // Waits for the slot, and takes the value out.
    fn enter<W: Wait>(&self, rt: &W, seat: &mut PassSeat<A>) -> (u64, A)
        requires gate { (seat.old.table_id ≡ self.now.gate) × (seat.old.me.0.opening ≡ Some self.now.opening) }
        requires outside { (seat.old.me.1 ≡ []) × (0 < seat.old.me.0.parts) }
        ensures gate { (seat.new.table_id ≡ seat.old.table_id) × (result.0 + 2 < 2 ^ 64) × (result.0 ≡ 2 * length seat.new.me.0.seen) }
        ensures inside { (seat.new.me ≡ (entered seat.old.me.0 seat.new.me.0.seen, (0, None) ∷ []))
            × IsPrefix seat.old.me.0.seen seat.new.me.0.seen }
        ensures legal { Sees A.stands seat.new.me.0 }
        ensures value { A.stands self.now.opening seat.new.me.0.seen result.1 }
    {
        let shared = &self.table.shared;
        for _ in rt.forever() {
            let word = shared.peek(0);
            if word % 2 == 0 && word < u64::MAX - 1 {
                let found = shared.compare_exchange::<Enter>(seat, 0, word, word + 1);
                if found == word {
                    let value = shared.exchange(seat, 0, None).unwrap();
                    return (word, value);
                }
            }
            thread::yield_now();
        }
        unreachable!()
    }

    // Puts the value back, with an entry for what the turn asked and what was replied: the pass's next call.
    fn leave<T: Turn<A>, N: Noted<(A::Asked, A::Reply)>>(
        &self,
        seat: &mut PassSeat<A>,
        word: u64,
        value: A,
        turn: &Snapshot<T>,
        reply: &A::Reply,
    )
        requires gate { (seat.old.table_id ≡ self.now.gate) × (seat.old.me.0.opening ≡ Some self.now.opening) }
        requires inside { (seat.old.me.0.inside ≡ true) × (seat.old.me.1 ≡ (0, None) ∷ [])
            × (word ≡ 2 * length seat.old.me.0.seen) × (word + 2 < 2 ^ 64) }
        requires noted { N.entries ≡ next_call seat.old.me.0 (T.asks turn.now.value, reply.now) ∷ [] }
        requires value { A.stands self.now.opening (seat.old.me.0.seen ++ N.entries) value }
        ensures gate { seat.new.table_id ≡ seat.old.table_id }
        ensures outside { seat.new.me ≡ (left seat.old.me.0 (next_call seat.old.me.0 (T.asks turn.now.value, reply.now) ∷ []), []) }
        ensures legal { Sees A.stands seat.new.me.0 }
    {
        let shared = &self.table.shared;
        drop(shared.exchange(seat, 0, Some(value)));
        shared.store::<Leave<N>>(seat, 0, word + 2);
    }

    // Puts the value back, without an entry.
    fn back(&self, seat: &mut PassSeat<A>, word: u64, value: A)
        requires gate { (seat.old.table_id ≡ self.now.gate) × (seat.old.me.0.opening ≡ Some self.now.opening) }
        requires inside { (seat.old.me.0.inside ≡ true) × (seat.old.me.1 ≡ (0, None) ∷ [])
            × (word ≡ 2 * length seat.old.me.0.seen) }
        requires value { A.stands self.now.opening seat.old.me.0.seen value }
        ensures gate { seat.new.table_id ≡ seat.old.table_id }
        ensures outside { seat.new.me ≡ (backed seat.old.me.0, []) }
    {
        let shared = &self.table.shared;
        drop(shared.exchange(seat, 0, Some(value)));
        shared.store::<Back>(seat, 0, word);
    }

    /// Waits for the value, and takes a turn with it. At `Ok` the turn is the newest entry of the one history, which the pass
    /// has then seen. A fault leaves no entry: the pass has then seen the history that the found value stood for, and what
    /// [`Turn`]'s `refuses` says holds of that value and the fault.
    pub fn take_turn<T: Turn<A>, W: Wait>(
        &self,
        rt: &W,
        pass: &mut Pass<A>,
        turn: T,
    ) -> Result<A::Reply, A::Fault>
        requires { IsPassOf self.now pass.old × A.may_ask self.now.opening (T.asks turn) }
        ensures taken { IfOk result (λ reply. TookTurn pass.old (T.asks turn, reply) pass.new) }
        ensures fault { OnErr result (SawOn pass.old pass.new) }
        ensures why { IfErr result (λ fault. Found A.stands self.now.opening pass.new.history (λ found. T.refuses turn found fault)) }
        ensures legal { IsOwnHistory A.stands pass.new }
    {
        let Pass { turns, seat, .. } = pass;
        let (word, mut value) = self.enter(rt, seat);
        let noted = Snapshot::of(&turn);
        match turn.take(&mut value) {
            Ok(reply) => {
                self.leave::<T, Brand>(seat, word, value, &noted, &reply);
                *turns = word / 2 + 1;
                Ok(reply)
            }
            Err(fault) => {
                self.back(seat, word, value);
                *turns = word / 2;
                Err(fault)
            }
        }
    }

    /// Waits for the value, and visits it. No entry is left: the pass has then seen the history that the found value stood
    /// for. What [`Visit`]'s `sees` says holds of that value, of what is brought back, and of the value that is left.
    pub fn visit<V: Visit<A>, W: Wait>(&self, rt: &W, pass: &mut Pass<A>, visit: V) -> V::Seen
        requires { IsPassOf self.now pass.old × A.may_visit self.now.opening }
        ensures saw { SawOn pass.old pass.new }
        ensures sees { FoundAndLeft A.stands self.now.opening pass.new.history (λ found left. V.sees visit found result left) }
        ensures legal { IsOwnHistory A.stands pass.new }
    {
        let Pass { turns, seat, .. } = pass;
        let (word, mut value) = self.enter(rt, seat);
        let seen = visit.visit(&mut value);
        self.back(seat, word, value);
        *turns = word / 2;
        seen
    }

    // Joins a pass or a note, and looks.
    fn hear(&self, seat: &mut PassSeat<A>, other: PassSeat<A>)
        requires gate { (seat.old.table_id ≡ self.now.gate) × (other.table_id ≡ self.now.gate) }
        requires outside { (seat.old.me.0.inside ≡ false) × (seat.old.me.1 ≡ []) × (other.me.0.inside ≡ false) × (other.me.1 ≡ []) }
        ensures gate { seat.new.table_id ≡ seat.old.table_id }
        ensures outside { seat.new.me ≡ (joined seat.old.me.0 other.me.0, []) }
        ensures begins { IsPrefix seat.old.me.0.seen seat.new.me.0.seen × IsPrefix other.me.0.seen seat.new.me.0.seen }
        ensures legal { Sees A.stands seat.new.me.0 }
    {
        let shared = &self.table.shared;
        shared.join_seat::<Joining>(seat, other);
        shared.load::<Look>(seat, 0);
    }

    /// A pass for another thread, with one part of this one, which has at least two. It has made no calls. It has seen the
    /// same, and none of these turns has its number.
    pub fn split(&self, pass: &mut Pass<A>) -> Pass<A>
        requires { IsPassOf self.now pass.old × (2 ≤ pass.old.parts) }
        ensures kept { pass.new ≡ with_parts pass.old (pass.old.parts - 1) }
        ensures new { IsPassOf self.now result × (result.parts ≡ 1) × (result.history ≡ pass.old.history) × (result.calls ≡ []) }
        ensures legal { IsOwnHistory A.stands pass.new × IsOwnHistory A.stands result }
    {
        let Pass { turns, parts, seat } = pass;
        let shared = &self.table.shared;
        let (_, mut other) = shared.load_new_seat::<Make>(0);
        let part = shared.split_seat::<OnePart>(seat);
        self.hear(&mut other, part);
        *parts -= 1;
        Pass {
            turns: *turns,
            parts: 1,
            seat: other,
        }
    }

    /// Lets two passes meet. Afterwards both have seen the longer of their two histories, which begins with the other.
    pub fn meet(&self, pass: &mut Pass<A>, other: &mut Pass<A>)
        requires { IsPassOf self.now pass.old × IsPassOf self.now other.old }
        ensures met { Met pass.old other.old pass.new other.new }
        ensures legal { IsOwnHistory A.stands pass.new × IsOwnHistory A.stands other.new }
    {
        let Pass {
            turns: ours,
            seat: our_seat,
            ..
        } = pass;
        let Pass {
            turns: theirs,
            seat: their_seat,
            ..
        } = other;
        let shared = &self.table.shared;
        let our_note = shared.split_seat::<NoPart>(our_seat);
        let their_note = shared.split_seat::<NoPart>(their_seat);
        self.hear(our_seat, their_note);
        self.hear(their_seat, our_note);
        let most = (*ours).max(*theirs);
        *ours = most;
        *theirs = most;
    }

    // Joins all passes to the first, which knows then what each knew.
    fn gather(&self, first: Pass<A>, mut others: Vec<Pass<A>>) -> PassSeat<A>
        requires { IsPassOf self.now first × All (λ p. IsPassOf self.now p) others.items }
        ensures gate { (result.table_id ≡ self.now.gate) × (result.me.1 ≡ []) }
        ensures gathered { HasGathered self.now.opening first others.items result.me.0 }
    {
        let Pass { mut seat, .. } = first;
        while let Some(pass) = others.pop() {
            let Pass { seat: other, .. } = pass;
            self.hear(&mut seat, other);
        }
        seat
    }

    /// Ends the gate with all its passes, and gives the value after the whole history, and the history's length. Exactly where
    /// the passes don't have all 2^32 parts, so that one is missing, gate and passes come back as they were.
    pub fn close(self, mut passes: Vec<Pass<A>>) -> Result<Closed<A>, Unclosed<A>>
        requires { All (λ p. IsPassOf self p) passes.items }
        ensures closed { IfOk result (λ closed. (parts_of passes.items ≡ 2 ^ 32)
            × IsWhole A.stands self.opening passes.items closed.value closed.turns) }
        ensures unclosed { IfErr result (λ unclosed. (parts_of passes.items ≢ 2 ^ 32)
            × (unclosed.gate ≡ self) × (unclosed.passes.items ≡ passes.items)) }
    {
        let is_whole = sum_of_parts(passes.as_slice()) == ALL_PARTS;
        if !is_whole {
            return Err(Unclosed { gate: self, passes });
        }
        let Some(first) = passes.pop() else {
            unreachable!()
        };
        let seat = self.gather(first, passes);
        let Gate { table } = self;
        let mut closed = table.close_with(seat);
        let turns = closed.word(0) / 2;
        let value = closed.take(0).unwrap();
        closed.free();
        Ok(Closed { value, turns })
    }

    /// How many turns the pass has seen: the length of its history.
    pub fn seen(&self, pass: &Pass<A>) -> u64
        requires { IsPassOf self.now pass.now }
        ensures { result ≡ length pass.now.history }
    {
        pass.turns
    }
}

// The parts of these passes, or 2^64 - 1 where they have more.
fn sum_of_parts<A: Sequential>(passes: &[Pass<A>]) -> u64
    ensures { result ≡ min (parts_of passes.now) (2 ^ 64 - 1) }
{
    let mut sum = 0u64;
    for pass in passes {
        sum = sum.saturating_add(pass.parts());
    }
    sum
}
