//! What can lie behind a gate.

ghost use Rattle.std.specs.Prelude.{List, IfOk, IfErr, OnErr};
ghost use Rattle.value_gate.specs.declared.history.Entry.{Entry};
ghost use Rattle.value_gate.specs.Histories.{CanTake, CanVisit, GoesOn, Stays};

/// A value that takes one turn after the other, each brought by a [`Turn`].
pub trait Sequential: Drop {
    /// What a turn is asked, as a history has it.
    type Asked;
    /// What a turn that leaves an entry replies.
    type Reply;
    /// Why a turn left no entry.
    type Fault;

    /// Of the opening value, a list of entries and a value: the opening value took these turns, with these replies, and
    /// the value stands for them.
    ghost stands: { Self → List (Entry (Self.Asked × Self.Reply)) → Self → Type 0 };

    /// What may be asked of all that came from this opening value.
    ghost may_ask: { Self → Self.Asked → Type 0 };

    /// Whether all that came from this opening value may be visited.
    ghost may_visit: { Self → Type 0 };
}

/// A turn on its way to such a value. It may hold what is lent to it, which a history has as data.
pub trait Turn<A: Sequential> {
    /// What it asks, as a history has it.
    ghost asks: { Self → A.Asked };

    /// What a fault says of the value that the turn found.
    ghost refuses: { Self → A → A.Fault → Type 0 };

    /// Takes the turn. At `Ok` the value stands for one entry more than it stood for, whoever took the turn. After a fault
    /// it stands for what it stood for.
    fn take(self, value: &mut A) -> Result<A::Reply, A::Fault>
        requires { CanTake A.stands A.may_ask value.old (asks self) }
        ensures taken { IfOk result (λ reply. GoesOn A.stands value.old value.new (asks self, reply)) }
        ensures fault { OnErr result (Stays A.stands value.old value.new) }
        ensures why { IfErr result (refuses self value.old) };
}

/// A visit to such a value, which leaves no entry. It may change what the turns don't tell of.
pub trait Visit<A: Sequential> {
    /// What it brings back.
    type Seen;

    /// What it says of the value that it found, and of how it left the value.
    ghost sees: { Self → A → Self.Seen → A → Type 0 };

    /// Makes the visit. The value stands for what it stood for.
    fn visit(self, value: &mut A) -> Self::Seen
        requires { CanVisit A.stands A.may_visit value.old }
        ensures stays { Stays A.stands value.old value.new }
        ensures sees { sees self value.old result value.new };
}
