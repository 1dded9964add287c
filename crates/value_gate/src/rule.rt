//! The rule of the gate, and its six kinds of step on one word and one slot.
//!
//! The word is twice the number of turns, and one more while a pass is inside with the value. A pass enters ([`Enter`]),
//! leaves with an entry ([`Leave`]), goes back without one ([`Back`]), or looks at the word ([`Look`]), as does one that tried
//! to enter in vain. It is split ([`Make`] with [`OnePart`], or [`NoPart`] where two passes meet), and passes and notes are
//! joined ([`Joining`]).

ghost use Rattle.std.specs.Prelude.{List, []};
ghost use Rattle.value_gate.specs.declared.history.Entry.{Entry};

use crate::knows::Knows;
use crate::sequential::Sequential;
use atomic_table::{Join, Play, Split, TableRule};
use std::marker::{Brand, PhantomData};
use std::snapshot::Snapshot;

/// What holds between two steps: there is one legal history for all passes of a gate (`specs/Rules.antt`).
pub struct Law;

impl<A: Sequential> TableRule<Option<A>, Knows<A, (A::Asked, A::Reply)>, Snapshot<A>> for Law {
    ghost use Rattle.value_gate.specs.Rules.{IsGate};
    ghost use Rattle.value_gate.specs.Steps.{first_pass};

    ghost holds = { λ key s. IsGate A.stands key.value s };

    ghost first = { λ key. first_pass key.value };
}

/// Reads how many turns were taken. What the pass has seen is no longer.
pub struct Look;

impl<A: Sequential> Play<Option<A>, Knows<A, (A::Asked, A::Reply)>> for Look {
    ghost use Rattle.value_gate.specs.Steps.{Looked};

    ghost then = { Looked A.stands };
}

/// Takes the value out, where the word is still what was read.
pub struct Enter;

impl<A: Sequential> Play<Option<A>, Knows<A, (A::Asked, A::Reply)>> for Enter {
    ghost use Rattle.value_gate.specs.Steps.{Entered};

    ghost then = { Entered A.stands };
}

/// The entries that a step adds. Each call picks them.
pub trait Noted<T> {
    /// These entries, of which there are none or one.
    ghost entries: { List (Entry T) };
}

impl<T> Noted<T> for Brand {
    ghost entries = { [] };
}

/// Puts the value back, with an entry.
pub struct Leave<N> {
    of: PhantomData<N>,
}

impl<A: Sequential, N: Noted<(A::Asked, A::Reply)>> Play<Option<A>, Knows<A, (A::Asked, A::Reply)>>
    for Leave<N> {
    ghost use Rattle.value_gate.specs.Steps.{Left};

    ghost then = { Left A.stands N.entries };
}

/// Puts the value back, without an entry.
pub struct Back;

impl<A: Sequential> Play<Option<A>, Knows<A, (A::Asked, A::Reply)>> for Back {
    ghost use Rattle.value_gate.specs.Steps.{Backed};

    ghost then = { Backed A.stands };
}

/// Makes a pass with a number of its own and no part.
pub struct Make;

impl<A: Sequential> Play<Option<A>, Knows<A, (A::Asked, A::Reply)>> for Make {
    ghost use Rattle.value_gate.specs.Steps.{Made};

    ghost then = { Made A.stands };
}

/// Splits a note of one part from a pass.
pub struct OnePart;

impl<A, T> Split<Knows<A, T>> for OnePart {
    ghost use Rattle.value_gate.specs.Steps.{less, note};

    ghost left = { λ v. less 1 v };

    ghost right = { λ v. note 1 v.seen };
}

/// Splits a note of no part from a pass.
pub struct NoPart;

impl<A, T> Split<Knows<A, T>> for NoPart {
    ghost use Rattle.value_gate.specs.Steps.{less, note};

    ghost left = { λ v. less 0 v };

    ghost right = { λ v. note 0 v.seen };
}

/// Joins another pass or a note to a pass.
pub struct Joining;

impl<A, T> Join<Knows<A, T>> for Joining {
    ghost use Rattle.std.specs.Prelude.{[]};
    ghost use Rattle.value_gate.specs.Steps.{joined, note};

    ghost both = { λ v w. joined v w };

    ghost spent = { note 0 [] };
}
