//! Whether the floor's record of a member's log is missing.

ghost use Rattle.std.specs.Prelude.{◌≡◌, ◌<◌, Contains};
ghost use Rattle.std.specs.List.{AllByRecursion, list_any};
ghost use Rattle.ivy_base.specs.Naming.{head_key_of};
ghost use Rattle.log_model.specs.Vector.{seq_of};
ghost use Rattle.log_model.specs.View.{IsView};
ghost use Rattle.version_vectors.specs.Entries.{stamped};
ghost use Rattle.log_records.specs.Records.{records_of};
ghost use Rattle.agent_model.specs.Standing.{beyond};
ghost use Rattle.agent_model.specs.Turning.{is_there, lacks};
ghost use Rattle.turn_taking.specs.Chains.{IsRow, IsWhole, as_chain, chains_in, new_of};

use crate::beyond::beyond;
use crate::keys::{is_owner, is_same};
use crate::names::name_at;
use crate::taking::Held;
use ivy_base::PubKey;
use log_records::Chain;
use version_vectors::Entry;

/// Whether of some member's log the record that the floor names is neither held nor among the new records.
pub fn lacks_one(held: &Held<'_>, chains: &[Chain]) -> bool
    requires { AllByRecursion (IsWhole held.now.view.now) chains.now }
    ensures { result ≡ list_any (λ owner. lacks held.now.floor.now held.now.front.now (new_of held.now.front.now (chains_in chains.now)) (head_key_of owner)) held.now.view.now.members }
{
    'members: for owner in held.view.members() {
        if lacks(held, chains, owner) {
            return true;
        }
    }
    false
}

/// Whether of the member's log the record that the floor names is neither held nor among the new records.
fn lacks(held: &Held<'_>, chains: &[Chain], owner: &PubKey) -> bool
    requires view { IsView held.now.view.now }
    requires whole { AllByRecursion (IsWhole held.now.view.now) chains.now }
    requires member { Contains held.now.view.now.members owner.now }
    ensures { result ≡ lacks held.now.floor.now held.now.front.now (new_of held.now.front.now (chains_in chains.now)) (head_key_of owner.now) }
{
    let log = held.view.head_key(owner);
    match held.floor.get(&log) {
        Some(entry) => {
            held.front.seq_of(&log) < entry.seq && !is_there(held, chains, owner, &entry)
        }
        None => false,
    }
}

/// Whether the entry's record, of the member's log and beyond what is held, is among the new records.
fn is_there(held: &Held<'_>, chains: &[Chain], owner: &PubKey, entry: &Entry) -> bool
    requires view { IsView held.now.view.now }
    requires whole { AllByRecursion (IsWhole held.now.view.now) chains.now }
    requires member { Contains held.now.view.now.members owner.now }
    requires log { entry.now.log ≡ head_key_of owner.now }
    requires ahead { seq_of held.now.front.now entry.now.log < entry.now.seq }
    ensures { result ≡ is_there (new_of held.now.front.now (chains_in chains.now)) entry.now.log (stamped entry.now).1 }
{
    'chains: for chain in chains {
        if is_new(held, chain, owner, entry) {
            return true;
        }
    }
    false
}

/// Whether the entry's record, of the member's log and beyond what is held, is among the chain's new records.
fn is_new(held: &Held<'_>, chain: &Chain, owner: &PubKey, entry: &Entry) -> bool
    requires view { IsView held.now.view.now }
    requires whole { IsWhole held.now.view.now chain.now }
    requires member { Contains held.now.view.now.members owner.now }
    requires log { entry.now.log ≡ head_key_of owner.now }
    requires ahead { seq_of held.now.front.now entry.now.log < entry.now.seq }
    ensures { result ≡ is_there (beyond held.now.front.now (as_chain (records_of chain.now.records))) entry.now.log (stamped entry.now).1 }
{
    let records = chain.records.as_slice();
    if !is_owner(&records[0].owner, owner) {
        return false;
    }
    !beyond(held.front, &entry.log, records).is_empty() && has_record(chain, entry)
}

/// Whether the entry's record is one of the chain's, which is of its log.
fn has_record(chain: &Chain, entry: &Entry) -> bool
    requires row { IsRow chain.now }
    requires log { AllByRecursion (λ r. head_key_of r.owner ≡ entry.now.log) (records_of chain.now.records) }
    ensures { result ≡ is_there (records_of chain.now.records) entry.now.log (stamped entry.now).1 }
{
    let records = chain.records.as_slice();
    let first = records[0].seq;
    if entry.seq < first {
        return false;
    }
    let at = (entry.seq - first) as usize;
    at < records.len() && is_same(&name_at(chain, at), &entry.name)
}
