ghost use Rattle.std.specs.Prelude.{◌≡◌, ◌<◌, ◌^◌, ℕ, IfSome, IfOk};
ghost use Rattle.std.specs.declared.option.Option.{Option};

use ivy_base::Memory;
use std::alloc::Global;

/// What tells the moment.
pub trait Clock: Drop + Send {
    /// The moment in seconds and nanoseconds, where it is known.
    ghost moment: { Self → Option (ℕ × ℕ) };

    /// Which moment the clock may give, and how that leaves it.
    ghost gives: { Self → ℕ × ℕ → Self → Type 0 };

    /// The moment in seconds, and nanoseconds below 10^9. A clock whose moment is known gives that one, and stays at it.
    fn now(&mut self) -> (u32, u32)
        ensures is { gives self.old result self.new }
        ensures below { result.1 < 10 ^ 9 }
        ensures told { IfSome (moment self.old) (λ m. result ≡ m) }
        ensures stays { moment self.new ≡ moment self.old };

    /// A clock of its own for another thread, with the same moment where that is known. The error is: out of memory.
    fn another(&self, alloc: Global) -> Result<Self, Memory>
        ensures { IfOk result (λ other. moment other ≡ moment self.now) };
}
