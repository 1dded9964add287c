ghost use Rattle.std.specs.Prelude.{◌≡◌, ◌↔◌, IsTrue, Contains};
ghost use Rattle.ivy_io.specs.Causes.{counted};

use crate::failing::Failing;

/// Which calls are to fail, and how many there were.
#[derive(Drop)]
pub struct Plan {
    pub failing: Failing,
    pub calls: u64,
}

impl Plan {
    /// Counts a call, and says whether it is to fail.
    pub fn next_fails(&mut self) -> bool
        ensures fails { IsTrue result ↔ Contains self.old.failing (counted self.old.calls) }
        ensures calls { self.new.calls ≡ counted self.old.calls }
        ensures failing { self.new.failing ≡ self.old.failing }
    {
        self.calls = self.calls.saturating_add(1);
        self.failing.as_slice().contains(&self.calls)
    }
}
