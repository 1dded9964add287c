//! Whether the parts are of the log of a public key.

ghost use Rattle.std.specs.Prelude.{◌≡◌, ◌↔◌, IsTrue, IfSome, Contains, option_map};
ghost use Rattle.std.specs.List.{AllByRecursion, list_any, list_all};
ghost use Rattle.std.specs.Ordering.{eq_by_cmp};
ghost use Rattle.ivy_base.specs.Naming.{owner_cmp};
ghost use Rattle.log_model.specs.View.{is_named};
ghost use Rattle.version_vectors.specs.Entries.{vector_of};
ghost use Rattle.agent_saves.specs.Parts.{AreOf};

use crate::parts::Parts;
use ivy_base::{Key, PubKey, head_key};
use log_records::MOST_RECORDS;
use version_vectors::{Entry, Vector};
use view_blocks::View;

/// Whether the parts may be those of the agent of that public key: its log is counted as far as the floor says, and where
/// it is in a view, it is a member, and the view names each log of the floor.
pub fn are_of(parts: &Parts, owner: &PubKey) -> bool
    ensures { IsTrue result ↔ AreOf owner.now parts.now.reach parts.now.floor parts.now.view }
{
    1 <= parts.reach
        && parts.reach <= MOST_RECORDS
        && parts.floor.seq_of(&head_key(owner)) == parts.reach
        && stands(parts.view.as_ref(), owner, &parts.floor)
}

/// Whether the view, where there is one, has the member and names each log of the floor.
fn stands(view: Option<&View>, owner: &PubKey, floor: &Vector) -> bool
    ensures { IsTrue result ↔ IfSome (option_map (λ v. v.now) view.entry) (λ v. Contains v.members owner.now × AllByRecursion (λ e. IsTrue (is_named v e.0)) floor.now) }
{
    match view {
        Some(view) => is_among(view.members(), owner) && names_all(view, floor.entries()),
        None => true,
    }
}

/// Whether the public keys are one.
fn is_same(a: &PubKey, b: &PubKey) -> bool
    ensures { result ≡ eq_by_cmp owner_cmp a.now b.now }
{
    a == b
}

/// Whether the public key is among these.
fn is_among(keys: &[PubKey], owner: &PubKey) -> bool
    ensures { result ≡ list_any (eq_by_cmp owner_cmp owner.now) keys.now }
{
    keys.iter().any(|key| is_same(owner, key))
}

/// Whether the view names the log, as a member's or as a former member's.
fn names(view: &View, log: &Key) -> bool
    ensures { result ≡ is_named view.now log.now }
{
    view.is_member(log) || view.is_former(log)
}

/// Whether the view names the log of each entry.
fn names_all(view: &View, entries: &[Entry]) -> bool
    ensures { result ≡ list_all (λ e. is_named view.now e.log) entries.now }
{
    entries.iter().all(|entry| names(view, &entry.log))
}
