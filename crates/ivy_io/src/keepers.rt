ghost use Rattle.std.specs.Prelude.{◌≡◌, ◌≤◌, ℕ, List, IfOk, IfErr};
ghost use Rattle.std.specs.declared.option.Option.{Option};
ghost use Rattle.ivy_io.specs.Faults.{Refuses, after_return};

use crate::{Keeper, OpenFault};
use std::alloc::Global;

/// Where keepers lie under names.
pub trait Keepers {
    /// The keepers that lie here.
    type One: Keeper + Drop + Send;

    /// What the keeper of each name keeps, where that is known.
    ghost kept: { Self → List ℕ → Option (Option (List ℕ)) };

    /// How often a keeper wasn't given, or was taken back after it had failed. A count that reached 2^64 - 1 stays there.
    ghost faults: { Self → ℕ };

    /// Which keeper may be given for a name, and how that leaves the others.
    ghost lends: { Self → List ℕ → Self.One → Self → Type 0 };

    /// How a keeper may be taken back under a name.
    ghost takes: { Self → List ℕ → Self.One → Self → Type 0 };

    /// The keeper of that name, which has not failed yet. After running out of memory nothing has changed.
    fn keeper(&mut self, alloc: Global, name: &[u8]) -> Result<Self::One, OpenFault>
        ensures is { IfOk result (λ one. lends self.old name.now one self.new) }
        ensures kept { IfOk result (λ one. Self.One.kept one ≡ kept self.old name.now) }
        ensures first { IfOk result (λ one. Self.One.faults one ≡ 0) }
        ensures refused { IfErr result (λ fault. Refuses faults self.old self.new fault) }
        ensures later { faults self.old ≤ faults self.new };

    /// Takes a keeper back. The count of faults rises exactly where the keeper has failed.
    fn give_back(&mut self, name: &[u8], keeper: Self::One)
        ensures is { takes self.old name.now keeper self.new }
        ensures cause { faults self.new ≡ after_return (Self.One.faults keeper) (faults self.old) }
        ensures later { faults self.old ≤ faults self.new };
}
