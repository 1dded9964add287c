//! Keys of maps: they have an order, and equal ones can be had without copying much.

ghost use Rattle.std.specs.Prelude.{◌≡◌, IfOk};
ghost use Rattle.std.specs.Cmp.{IsTotalOrder};
ghost use Rattle.std.specs.declared.cmp.Ordering.{Ordering};

use ivy_base::{Key, Memory};
use std::cmp::Ordering;

/// A key of a map.
pub trait MapKey {
    ghost order: { Self → Self → Ordering };

    /// How this key compares with another one.
    fn compare(&self, other: &Self) -> Ordering
        ensures { result ≡ order self.now other.now };

    /// An equal key, which costs no more than a few words. The error is: out of memory.
    fn share(&self) -> Result<Self, Memory>
        ensures { IfOk result (λ key. key ≡ self.now) };

    ghost total: { IsTotalOrder order };
}

/// What stands for a key where one is sought: the key itself, or a borrowed form of it.
pub trait Sought<K: MapKey> {
    ghost key: { Self → K };

    /// How the key that it stands for compares with another one.
    fn compare_with(&self, other: &K) -> Ordering
        ensures { result ≡ K.order (key self.now) other.now };
}

impl<K: MapKey> Sought<K> for K {
    ghost key = { λ k. k };

    fn compare_with(&self, other: &K) -> Ordering {
        self.compare(other)
    }
}

impl MapKey for Key {
    ghost use Rattle.std.proofs.lemmas.Cmp.{on_total};
    ghost use Rattle.std.specs.Cmp.Lexicographic.{nat_list_cmp_total};
    ghost use Rattle.ivy_base.specs.Naming.{key_cmp};

    ghost order = { key_cmp };

    ghost total = { on_total (λ k. k.0) nat_list_cmp_total };

    fn compare(&self, other: &Key) -> Ordering {
        self.cmp(other)
    }

    fn share(&self) -> Result<Key, Memory> {
        Ok(*self)
    }
}
