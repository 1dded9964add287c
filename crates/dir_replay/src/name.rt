//! A name, the key of a directory's entries.

ghost use Rattle.std.specs.Prelude.{◌≡◌, IfOk};

use ivy_base::Memory;
use shared_map::{MapKey, Sought};
use std::alloc::Global;
use std::cmp::Ordering;
use std::marker::Model;
use std::sync::Arc;

/// The bytes of a name, which all its copies share; seen as their list.
#[derive(Drop)]
pub struct Name {
    bytes: Arc<Vec<u8>>,
}

impl Model for Name {
    ghost use Rattle.std.specs.Prelude.{List, ℕ};

    ghost Value = { List ℕ };

    ghost view = { λ n. n.bytes.value.items };
}

impl Name {
    /// A name of these bytes, which are copied. The error is: out of memory.
    pub fn of(alloc: Global, bytes: &[u8]) -> Result<Name, Memory>
        ensures { IfOk result (λ name. name ≡ bytes.now) }
    {
        Ok(Name {
            bytes: Arc::new(alloc, bytes.to_vec(alloc)?)?,
        })
    }

    /// The bytes.
    pub fn as_slice(&self) -> &[u8]
        ensures { result.now ≡ self.now }
    {
        (*self.bytes).as_slice()
    }
}

impl MapKey for Name {
    ghost use Rattle.std.specs.Cmp.Lexicographic.{nat_list_cmp_total};
    ghost use Rattle.dir_replay.specs.Entries.{name_cmp};

    ghost order = { name_cmp };

    ghost total = { nat_list_cmp_total };

    fn compare(&self, other: &Name) -> Ordering {
        self.as_slice().cmp(&other.as_slice())
    }

    fn share(&self) -> Result<Name, Memory> {
        Ok(Name {
            bytes: self.bytes.clone()?,
        })
    }
}

// A name is sought by its bytes.
impl Sought<Name> for &[u8] {
    ghost key = { λ bytes. bytes.now };

    fn compare_with(&self, other: &Name) -> Ordering {
        (*self).cmp(&other.as_slice())
    }
}
