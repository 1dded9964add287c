//! Whether an entry passes a test.

ghost use Rattle.std.specs.Prelude.{◌≡◌, Bool};
ghost use Rattle.std.specs.List.{list_any};

use crate::tree::Tree;

/// A test of entries.
pub trait EntryTest<K, V> {
    ghost passes: { Self → K × V → Bool };

    /// Whether the entry passes.
    fn test(&self, key: &K, value: &V) -> bool
        ensures { result ≡ passes self.now (key.now, value.now) };
}

impl<K: Drop, V: Drop> Tree<K, V> {
    /// Whether an entry passes the test.
    pub fn any<P: EntryTest<K, V>>(&self, test: &P) -> bool
        ensures { result ≡ list_any (P.passes test.now) self.now.0 }
    {
        let Some(at) = self.top() else {
            return false;
        };
        at.left.any(test) || test.test(&at.key, &*at.value) || at.right.any(test)
    }
}
