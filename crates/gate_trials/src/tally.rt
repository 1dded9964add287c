//! A small stand-in for an agent.

ghost use Rattle.std.specs.Prelude.{◌≡◌, ◌+◌, ◌≤◌, ◌^◌};

use value_gate::{Sequential, Turn, Visit};

/// A sum, which a turn adds to.
#[derive(Drop)]
pub struct Tally {
    pub sum: u64,
    /// How many turns were refused. No history tells of them.
    pub refused: u64,
}

/// The sum would not fit.
#[derive(Drop)]
pub struct TooLarge;

impl Sequential for Tally {
    ghost use Rattle.gate_trials.specs.Tallies.{TallyStands, MayAsk};

    type Asked = u64;

    type Reply = u64;

    type Fault = TooLarge;

    ghost stands = { TallyStands };

    ghost may_ask = { MayAsk };

    ghost may_visit = { λ _. Unit {0} };
}

/// A turn that adds to the sum what it is lent.
#[derive(Clone, Copy)]
pub struct Adding<'a>(pub &'a u64);

impl<'a> Turn<Tally> for Adding<'a> {
    ghost asks = { λ adding. adding.0.now };

    ghost refuses = { λ adding found _. 2 ^ 64 ≤ found.sum + adding.0.now };

    #[tactic(auto, using(crate::proofs::Turns::stays))]
    fn take(self, value: &mut Tally) -> Result<u64, TooLarge> {
        match value.sum.checked_add(*self.0) {
            Some(sum) => {
                value.sum = sum;
                Ok(sum)
            }
            None => {
                value.refused = value.refused.saturating_add(1);
                Err(TooLarge)
            }
        }
    }
}

/// A visit that reads the sum.
#[derive(Clone, Copy)]
pub struct Reading;

impl Visit<Tally> for Reading {
    type Seen = u64;

    ghost sees = { λ _ found seen _. seen ≡ found.sum };

    fn visit(self, value: &mut Tally) -> u64 {
        value.sum
    }
}
