//! When two numbers are one.

ghost use Rattle.std.specs.Prelude.{◌≡◌};
ghost use Rattle.ivy_base.specs.Naming.{root_number};
ghost use Rattle.tree_model.specs.Tree.{same_key};

use ivy_base::Key;

/// The number of the root directory: 1 as eight bytes, big-endian, and twelve zero bytes.
pub(crate) const ROOT: Key = Key([0, 0, 0, 0, 0, 0, 0, 1, 0, 0, 0, 0, 0, 0, 0, 0, 0, 0, 0, 0]);

// Whether the two numbers are one.
pub(crate) fn same(a: &Key, b: &Key) -> bool
    ensures { result ≡ same_key a.now b.now }
{
    a == b
}

// Whether it is the root's number.
pub(crate) fn is_root(ino: &Key) -> bool
    ensures { result ≡ same_key ino.now root_number }
{
    same(ino, &ROOT)
}
