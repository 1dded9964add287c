//! Whether what is new is above the basis.

ghost use Rattle.std.specs.Prelude.{◌≡◌, ◌≤◌, nat_le, None, if◌then◌else◌};
ghost use Rattle.std.specs.List.{AllByRecursion, list_all};
ghost use Rattle.ivy_base.specs.Naming.{head_key_of};
ghost use Rattle.tree_model.specs.Tree.{same_key};
ghost use Rattle.log_model.specs.Vector.{seq_of, stamp_at};
ghost use Rattle.log_records.specs.Records.{record_of, records_of};
ghost use Rattle.agent_model.specs.Standing.{beyond};
ghost use Rattle.turn_taking.specs.Chains.{IsWhole, as_chain, chains_in, is_over, new_of};

use crate::beyond::beyond;
use crate::keys::is_same;
use crate::taking::Held;
use ivy_base::{Key, head_key};
use log_records::{Chain, Record};
use version_vectors::{Entry, Vector};

/// Whether each new record knows all that the basis covers, and is later in its log.
pub fn are_above(held: &Held<'_>, chains: &[Chain]) -> bool
    requires { AllByRecursion (IsWhole held.now.view.now) chains.now }
    ensures { result ≡ list_all (is_over held.now.base.now) (new_of held.now.front.now (chains_in chains.now)) }
{
    'chains: for chain in chains {
        if !is_chain_above(held, chain) {
            return false;
        }
    }
    true
}

/// Whether each of the chain's new records is above the basis. If the first one is, then the later ones are, as they know
/// what it knows.
fn is_chain_above(held: &Held<'_>, chain: &Chain) -> bool
    requires { IsWhole held.now.view.now chain.now }
    ensures { result ≡ list_all (is_over held.now.base.now) (beyond held.now.front.now (as_chain (records_of chain.now.records))) }
{
    let records = chain.records.as_slice();
    let log = head_key(&records[0].owner);
    match beyond(held.front, &log, records).first() {
        Some(first) => is_above(held.base, &log, first),
        None => true,
    }
}

/// Whether the record of that log knows all that the front covers, and is later in its log.
fn is_above(base: &Vector, log: &Key, record: &Record) -> bool
    requires log { log.now ≡ head_key_of «record».now.owner }
    requires others { stamp_at «record».now.vector log.now ≡ None }
    ensures { result ≡ is_over base.now (record_of «record».now) }
{
    base.seq_of(log) < record.seq && knows_all(base.entries(), log, record)
}

/// Whether the record of that log goes as far as each of the entries.
fn knows_all(entries: &[Entry], log: &Key, record: &Record) -> bool
    ensures { result ≡ list_all (λ e. nat_le e.seq (if same_key e.log log.now then «record».now.seq else seq_of «record».now.vector e.log)) entries.now }
{
    entries
        .iter()
        .all(|e: &Entry| e.seq <= reach_of(record, log, &e.log))
}

/// How far the record, which is of that own log, goes in the other one.
fn reach_of(record: &Record, own: &Key, log: &Key) -> u32
    ensures { result ≡ if same_key log.now own.now then «record».now.seq else seq_of «record».now.vector log.now }
{
    if is_same(log, own) {
        record.seq
    } else {
        record.vector.seq_of(log)
    }
}
