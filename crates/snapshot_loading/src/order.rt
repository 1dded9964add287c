//! The order of numbers and names, and the root.

ghost use Rattle.std.specs.Prelude.{◌≡◌, true, false, MatchBool, option_map, IsTrue};
ghost use Rattle.std.specs.Cmp.Lexicographic.{slice_cmp};
ghost use Rattle.std.specs.Ordering.{nat_cmp};
ghost use Rattle.std.specs.FinMap.Entries.{is_sorted};
ghost use Rattle.ivy_base.specs.Naming.{key_cmp, root_number};
ghost use Rattle.tree_model.specs.Tree.{IsInOrder, inode_at, is_directory, same_key};
ghost use Rattle.snapshot_loading.specs.Parts.{tree_of};
ghost use Rattle.snapshot_loading.specs.Steps.{NamesAscend};

use crate::parts::InodeParts;
use fs_tree::ROOT;
use ivy_base::{Bytes, Key, Kind};

/// Whether the numbers and the names of each directory ascend.
pub(crate) fn in_order(parts: &[InodeParts]) -> bool
    ensures { MatchBool result (IsInOrder (tree_of parts.now)) (IsInOrder (tree_of parts.now) → ⊥) }
{
    if !numbers_ascend(parts) {
        return false;
    }
    names_ascend(parts)
}

/// Whether the numbers ascend.
fn numbers_ascend(parts: &[InodeParts]) -> bool
    ensures { result ≡ is_sorted key_cmp (tree_of parts.now).inodes }
{
    parts.is_sorted_by(|a, b| a.number.cmp(&b.number).is_lt())
}

/// Whether the names of each directory ascend.
fn names_ascend(parts: &[InodeParts]) -> bool
    ensures { MatchBool result (NamesAscend parts.now) (NamesAscend parts.now → ⊥) }
{
    'parts: for part in parts {
        if !entries_ascend(part.entries.as_slice()) {
            return false;
        }
    }
    true
}

/// Whether the names ascend.
fn entries_ascend(entries: &[(Bytes, Key)]) -> bool
    ensures { result ≡ is_sorted (slice_cmp nat_cmp) entries.now }
{
    entries.is_sorted_by(|a, b| a.0.as_slice().cmp(b.0.as_slice()).is_lt())
}

/// Whether the root is among them, and is a directory.
pub(crate) fn has_root(parts: &[InodeParts]) -> bool
    ensures { result ≡ is_directory (inode_at (tree_of parts.now) root_number) }
{
    matches!(kind_of_root(parts), Some(Kind::Dir))
}

/// What the first inode of the root's number is.
fn kind_of_root(parts: &[InodeParts]) -> Option<Kind>
    ensures { result ≡ option_map (λ i. i.kind) (inode_at (tree_of parts.now) root_number) }
{
    'parts: for part in parts {
        if is_root(&part.number) {
            return Some(part.kind);
        }
    }
    None
}

/// Whether it is the root's number.
fn is_root(number: &Key) -> bool
    ensures { result ≡ same_key root_number number.now }
{
    ROOT == *number
}
