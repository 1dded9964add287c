//! Laws of keys that sign.

ghost use Rattle.std.specs.Prelude.{◌≡◌};
ghost use Rattle.hss_keys.specs.Signer.{NoLeafTwice, UpperLeafSignsOneKey};
ghost use Rattle.hss_keys.specs.Uses.{LoadsGiveTheSaved, SignaturesAreNumbered, SignaturesNameTheirLeaves};

use crate::Signs;

/// A law and no code: no two signatures of a key use the same leaf of the same tree of the lowest level, and what a leaf
/// of a level above signs is one key alone, that of the lower tree that is derived from it.
pub fn no_leaf_signs_twice()
    ensures lowest { NoLeafTwice }
    ensures upper { UpperLeafSignsOneKey }
{}

/// A law and no code: a key that is loaded from the bytes of a saved key equals that key, and so, however often a key
/// signs, is saved and is loaded again, it signs what the key that was saved last would sign.
pub fn loads_give_the_saved_key<S: Signs>()
    ensures equal { (key loaded : S) → S.is_whole key → S.is_whole loaded → S.signing.saved loaded ≡ S.signing.saved key → loaded ≡ key }
    ensures signatures { LoadsGiveTheSaved S.signing.signature S.signing.next S.is_whole S.signing.saved }
{}

/// A law and no code: which leaves each signature of an [`crate::Hss`] uses, however often it signs, is saved and is
/// loaded again. The signatures are those of ascending numbers, which go back to where the key was saved last where it
/// is loaded, and the signature of each number names the leaves that the number uses.
pub fn signatures_name_their_leaves()
    ensures numbers { SignaturesAreNumbered }
    ensures leaves { SignaturesNameTheirLeaves }
{}
