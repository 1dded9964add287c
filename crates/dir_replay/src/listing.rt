ghost use Rattle.std.specs.Prelude.{◌≡◌, IfOk};

use ivy_base::{Bytes, Key, Memory};
use std::alloc::Global;
use std::marker::Model;

/// The names in a directory, each with the number of the inode that it leads to, ascending by the names' bytes.
#[derive(Drop)]
pub struct Listing {
    pairs: Vec<(Bytes, Key)>,
}

impl Model for Listing {
    ghost use Rattle.std.specs.Prelude.{List, ℕ};
    ghost use Rattle.ivy_base.specs.declared.key.Key.{Key};

    ghost Value = { List (List ℕ × Key) };

    ghost view = { λ l. l.pairs.items };
}

impl Listing {
    /// The pairs of a vector, which is not copied.
    pub fn of(pairs: Vec<(Bytes, Key)>) -> Listing
        ensures { result ≡ pairs.items }
    {
        Listing { pairs }
    }

    /// The pairs as a vector, which is not copied.
    pub fn into_vec(self) -> Vec<(Bytes, Key)>
        ensures { result.items ≡ self }
    {
        self.pairs
    }

    /// The pairs as a slice.
    pub fn as_slice(&self) -> &[(Bytes, Key)]
        ensures { result.now ≡ self.now }
    {
        self.pairs.as_slice()
    }

    /// A copy of these pairs and of their names. The error is: out of memory.
    pub fn copy(&self, alloc: Global) -> Result<Listing, Memory>
        ensures { IfOk result (λ copy. copy ≡ self.now) }
    {
        let mut pairs = Vec::with_capacity(alloc, self.pairs.len())?;
        for pair in &self.pairs {
            pairs.push((pair.0.copy(alloc)?, pair.1))?;
        }
        Ok(Listing { pairs })
    }
}
