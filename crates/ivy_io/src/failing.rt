//! Which calls are to fail.

ghost use Rattle.std.specs.Prelude.{◌≡◌, IfOk};

use ivy_base::Memory;
use std::alloc::Global;
use std::marker::Model;

/// The numbers, from 1, of the calls that are to fail.
#[derive(Drop)]
pub struct Failing {
    calls: Vec<u64>,
}

impl Model for Failing {
    ghost use Rattle.std.specs.Prelude.{List, ℕ};

    ghost Value = { List ℕ };

    ghost view = { λ f. f.calls.items };
}

impl Failing {
    /// The numbers of a vector, which is not copied.
    pub fn of(items: Vec<u64>) -> Failing
        ensures { result ≡ items.items }
    {
        Failing { calls: items }
    }

    /// The numbers as a vector, which is not copied.
    pub fn into_vec(self) -> Vec<u64>
        ensures { result.items ≡ self }
    {
        self.calls
    }

    /// The numbers as a slice.
    pub fn as_slice(&self) -> &[u64]
        ensures { result.now ≡ self.now }
    {
        self.calls.as_slice()
    }

    /// A copy of these numbers. The error is: out of memory.
    pub fn copy(&self, alloc: Global) -> Result<Failing, Memory>
        ensures { IfOk result (λ copy. copy ≡ self.now) }
    {
        Ok(Failing {
            calls: self.as_slice().to_vec(alloc)?,
        })
    }
}
