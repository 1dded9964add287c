//! A clock that stands still.

ghost use Rattle.std.specs.Prelude.{◌≡◌, ◌<◌, ◌^◌, Some, IfOk, IsOkAnd};

use crate::Clock;
use ivy_base::Memory;
use std::alloc::Global;
use std::marker::Model;

/// A clock that always gives one moment, as which it is seen.
#[derive(Drop)]
pub struct FixedClock {
    sec: u32,
    nsec: u32,
}

impl Model for FixedClock {
    ghost use Rattle.std.specs.Prelude.{ℕ, ◌<◌, ◌^◌};

    ghost Value = { ℕ × ℕ };

    ghost view = { λ c. (c.sec, c.nsec) };

    ghost invariant = { λ c. c.nsec < 10 ^ 9 };
}

impl FixedClock {
    /// A clock that stands at this moment.
    pub fn new(sec: u32, nsec: u32) -> FixedClock
        requires { nsec < 10 ^ 9 }
        ensures { result ≡ (sec, nsec) }
    {
        FixedClock { sec, nsec }
    }
}

impl Clock for FixedClock {
    ghost moment = { λ c. Some c };

    ghost gives = { λ c m new. (m ≡ c) × (new ≡ c) };

    fn now(&mut self) -> (u32, u32) {
        (self.sec, self.nsec)
    }

    // It takes no memory, so it can't run out.
    fn another(&self, _alloc: Global) -> Result<FixedClock, Memory>
        ensures moment { IfOk result (λ other. Some other ≡ Some self.now) }
        ensures same { IsOkAnd result (λ other. other ≡ self.now) }
    {
        Ok(FixedClock {
            sec: self.sec,
            nsec: self.nsec,
        })
    }
}
