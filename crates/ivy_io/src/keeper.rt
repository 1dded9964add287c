ghost use Rattle.std.specs.Prelude.{◌≡◌, ℕ, Bool, List};
ghost use Rattle.std.specs.declared.option.Option.{Option};
ghost use Rattle.ivy_io.specs.Keepers.{SaveCounts, SaveReplaces, SaveIs, LoadCounts, LoadGives, KeepsAfter, after_try};

use crate::{Failed, KeepFault};
use ivy_base::Bytes;
use std::alloc::Global;

/// Where bytes are kept, from which whoever saved them starts again.
pub trait Keeper {
    /// What is kept, where that is known: nothing yet, or the bytes that were saved.
    ghost kept: { Self → Option (Option (List ℕ)) };

    /// How often the keeper has failed. A count that reached 2^64 - 1 stays there.
    ghost faults: { Self → ℕ };

    /// How a save of these bytes may leave the keeper, where it fails and where it doesn't.
    ghost saves: { Self → List ℕ → Bool → Self → Type 0 };

    /// Replaces what is kept. After an error the old or the new bytes are kept.
    fn save(&mut self, bytes: Bytes) -> Result<(), Failed>
        ensures is { SaveIs (saves self.old bytes) self.new result }
        ensures bytes { SaveReplaces (kept self.old) (kept self.new) bytes result }
        ensures cause { SaveCounts (faults self.old) (faults self.new) result };

    /// What is kept, which stays as it is. `Nothing` comes exactly where nothing was saved.
    fn load(&mut self, alloc: Global) -> Result<Bytes, KeepFault>
        ensures bytes { LoadGives (kept self.old) (kept self.new) result }
        ensures cause { LoadCounts (faults self.old) (faults self.new) result };

    /// The count rises exactly with each save that fails.
    ghost counts: { (before after : Self) (bytes : List ℕ) (fails : Bool) → saves before bytes fails after → faults after ≡ after_try fails (faults before) };

    /// Where it is known what is kept: after a save that didn't fail the new bytes are, and after one that failed the new
    /// ones or the old.
    ghost keeps: { (before after : Self) (bytes : List ℕ) (fails : Bool) → saves before bytes fails after → KeepsAfter (kept before) bytes fails (kept after) };
}
