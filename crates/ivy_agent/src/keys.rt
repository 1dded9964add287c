//! Which keys are one.

ghost use Rattle.std.specs.Prelude.{◌≡◌};
ghost use Rattle.std.specs.List.{list_any};
ghost use Rattle.std.specs.Ordering.{eq_by_cmp};
ghost use Rattle.ivy_base.specs.Naming.{owner_cmp};
ghost use Rattle.tree_model.specs.Tree.{same_key};

use ivy_base::{Key, PubKey};

/// Whether the keys are one.
pub fn is_same(a: &Key, b: &Key) -> bool
    ensures { result ≡ same_key a.now b.now }
{
    *a == *b
}

/// Whether the public keys are one.
fn is_same_owner(a: &PubKey, b: &PubKey) -> bool
    ensures { result ≡ eq_by_cmp owner_cmp a.now b.now }
{
    *a == *b
}

/// Whether the public key is among these.
pub fn is_among(keys: &[PubKey], own: &PubKey) -> bool
    ensures { result ≡ list_any (eq_by_cmp owner_cmp own.now) keys.now }
{
    keys.iter().any(|key| is_same_owner(own, key))
}
