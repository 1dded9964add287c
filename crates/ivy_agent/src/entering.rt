//! Entering a view: which views are refused, and the save.

ghost use Rattle.std.specs.Prelude.{◌≡◌, find, option_map, OnOk, OnErr};
ghost use Rattle.ivy_base.specs.Naming.{head_key_of};
ghost use Rattle.agent_model.specs.Agent.{own_key};
ghost use Rattle.agent_model.specs.SavedBytes.{kept_bytes};
ghost use Rattle.agent_model.specs.Views.{was_former, is_refused_in};
ghost use Rattle.ivy_agent.specs.Saves.{saved_of, HasSaved, IsWholeAfter};
ghost use Rattle.ivy_agent.specs.Entering.{kept_in};
ghost use Rattle.ivy_agent.specs.Causes.{SaveHasCause};

use crate::saving::{Kept, SaveFault, save};
use hss_keys::Signs;
use ivy_base::Key;
use ivy_io::Keeper;
use std::alloc::Global;
use std::mem::{replace, swap};
use version_vectors::{Entry, Vector};
use view_blocks::View;

/// The least log of the floor that the view can't take in, after the view that was entered before.
pub fn not_named(before: Option<&View>, view: &View, floor: &Vector) -> Option<Key>
    ensures { result ≡ option_map (λ e. e.0) (find (λ e. is_refused_in (option_map (λ v. v.now) before.entry) view.now e.0) floor.now) }
{
    let entry = first_refused(before, view, floor.entries())?;
    Some(entry.log)
}

/// The first entry whose log the view can't take in.
fn first_refused<'a>(before: Option<&View>, view: &View, entries: &'a [Entry]) -> Option<&'a Entry>
    ensures { option_map (λ e. e.now) result ≡ find (λ e. is_refused_in (option_map (λ v. v.now) before.entry) view.now e.log) entries.now }
{
    entries
        .iter()
        .find(|entry| is_refused_in(before, view, &entry.log))
}

/// Whether the view can't take in what the floor says of the log.
fn is_refused_in(before: Option<&View>, view: &View, log: &Key) -> bool
    ensures { result ≡ is_refused_in (option_map (λ v. v.now) before.entry) view.now log.now }
{
    let is_member = view.is_member(log);
    !(is_member || view.is_former(log)) || (is_member && was_former(before, log))
}

/// Whether it is a former member's log in that view.
fn was_former(view: Option<&View>, log: &Key) -> bool
    ensures { result ≡ was_former (option_map (λ v. v.now) view.entry) log.now }
{
    match view {
        Some(view) => view.is_former(log),
        None => false,
    }
}

/// Has the keeper save what is kept, in that view and without a snapshot. After an error what is kept is what it was.
pub fn save_in<K: Keeper, S: Signs>(
    alloc: Global,
    keeper: &mut K,
    kept: &mut Kept<S>,
    view: View,
) -> Result<(), SaveFault>
    requires { kept.old.log ≡ head_key_of (own_key S.signing kept.old.signer) }
    ensures saved { HasSaved K.saves keeper.old (kept_bytes S.signing (saved_of (kept_in view kept.old))) result keeper.new }
    ensures cause { SaveHasCause K.faults keeper.old result keeper.new }
    ensures whole { IsWholeAfter (S.is_whole kept.old.signer) result }
    ensures ok { OnOk result (kept.new ≡ kept_in view kept.old) }
    ensures err { OnErr result (kept.new ≡ kept.old) }
{
    let mut before = replace(&mut kept.view, Some(view));
    let snapshot = kept.snapshot.take();
    let saved = save(alloc, keeper, kept);
    if saved.is_err() {
        swap(&mut kept.view, &mut before);
        kept.snapshot = snapshot;
    }
    saved
}
