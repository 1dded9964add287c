//! What a thread takes its turns with.

ghost use Rattle.std.specs.Prelude.{◌≡◌};
ghost use Rattle.value_gate.specs.Passes.{IsOwnHistory};

use crate::knows::Knows;
use crate::sequential::Sequential;
use atomic_table::Seat;
use std::marker::Model;

/// A pass's or a note's place at the table of its gate.
pub(crate) type PassSeat<A> = Seat<
    Option<A>,
    Knows<A, (<A as Sequential>::Asked, <A as Sequential>::Reply)>,
>;

/// What a thread takes turns with at a gate. Contracts see it as the history that it has seen, its own calls, its number
/// and its parts.
#[derive(Drop)]
pub struct Pass<A: Sequential> {
    pub(crate) turns: u64,
    pub(crate) parts: u64,
    pub(crate) seat: PassSeat<A>,
}

impl<A: Sequential> Model for Pass<A> {
    ghost use Rattle.value_gate.specs.Passes.{PassView, pass_view, IsPass};

    ghost Value = { PassView A (A.Asked × A.Reply) };

    ghost view = { λ p. pass_view p.seat.table_id p.seat.me.0 };

    ghost invariant = { λ p. IsPass A.stands p.turns p.parts p.seat.me };
}

impl<A: Sequential> Pass<A> {
    /// How many of the 2^32 parts of its gate the pass has, which is at least one.
    pub fn parts(&self) -> u64
        ensures { result ≡ self.now.parts }
    {
        self.parts
    }

    /// A fact, and no code: a pass's history is legal, and has the calls that the pass made, in their order, and no others
    /// of its number.
    pub fn is_own_history(&self)
        ensures { IsOwnHistory A.stands self.now }
    {
        let _ = &self.turns;
    }
}
