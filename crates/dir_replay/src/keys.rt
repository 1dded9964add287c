//! The root's number, and when two numbers are one.

ghost use Rattle.std.specs.Prelude.{◌≡◌, IsTrue};
ghost use Rattle.ivy_base.specs.Naming.{root_number};
ghost use Rattle.tree_model.specs.Tree.{same_key};

use ivy_base::Key;

/// The number of the root directory: 1 as eight bytes, big-endian, and twelve zero bytes.
pub const ROOT: Key = Key([0, 0, 0, 0, 0, 0, 0, 1, 0, 0, 0, 0, 0, 0, 0, 0, 0, 0, 0, 0]);

// Whether the two numbers are one.
pub(crate) fn same(a: &Key, b: &Key) -> bool
    ensures { result ≡ same_key a.now b.now }
{
    a == b
}

// Whether both are one number, or neither is any.
pub(crate) fn both_same(a: Option<Key>, b: Option<Key>) -> bool
    ensures { IsTrue result → a ≡ b }
{
    match (a, b) {
        (Some(a), Some(b)) => same(&a, &b),
        (None, None) => true,
        _ => false,
    }
}

// Whether it is the root's number.
pub(crate) fn is_root(ino: &Key) -> bool
    ensures { result ≡ same_key ino.now root_number }
{
    same(ino, &ROOT)
}
