//! What is done together with a change of a map.

ghost use Rattle.std.specs.Prelude.{◌≡◌, OnOk, OnErr};

use ivy_base::Memory;
use std::alloc::Global;

/// What is done together with a change of a map: where it can't be done, the map doesn't change either.
pub trait Attempt {
    ghost makes: { Self → Self → Type 0 };

    /// Does it. The error is: out of memory, and then nothing has changed.
    fn attempt(&mut self, alloc: Global) -> Result<(), Memory>
        ensures ok { OnOk result (makes self.old self.new) }
        ensures err { OnErr result (self.new ≡ self.old) };
}

/// Nothing is done.
#[derive(Drop)]
pub struct Nothing;

impl Attempt for Nothing {
    ghost makes = { λ _ _. Unit {0} };

    fn attempt(&mut self, _: Global) -> Result<(), Memory> {
        Ok(())
    }
}
