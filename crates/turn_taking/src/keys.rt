//! Whether keys are one.

ghost use Rattle.std.specs.Prelude.{◌≡◌, ◌↔◌, IsTrue};
ghost use Rattle.tree_model.specs.Tree.{same_key};

use ivy_base::{Key, PubKey};

/// Whether two keys are the same.
pub fn is_same(a: &Key, b: &Key) -> bool
    ensures { result ≡ same_key a.now b.now }
{
    a == b
}

/// Whether two public keys are the same.
pub fn is_owner(a: &PubKey, b: &PubKey) -> bool
    ensures { IsTrue result ↔ (a.now ≡ b.now) }
{
    a == b
}
