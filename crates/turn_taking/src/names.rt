//! The names of a chain's records: each is what the next one names as the one before it, and the newest one's is the head's.

ghost use Rattle.std.specs.Prelude.{◌≡◌, ◌<◌, List, slice_index_or, length, IfOk};
ghost use Rattle.std.specs.List.{AllByRecursion};
ghost use Rattle.log_model.specs.Record.{Record as Seen};
ghost use Rattle.log_records.specs.Records.{records_of};
ghost use Rattle.turn_taking.specs.Chains.{IsRow, chains_in};
ghost use Rattle.turn_taking.specs.Naming.{name_of, AreNamesOf, AllNamesOf};

use ivy_base::{Key, Memory, PubKey, head_key};
use log_records::Chain;
use std::alloc::Global;

/// The names of a chain's records.
#[derive(Drop)]
pub struct Names {
    /// Whose log the chain is of.
    pub owner: PubKey,
    /// The log's head key.
    pub log: Key,
    /// The first record's number.
    pub first: u32,
    /// The names, in the records' order.
    pub names: Vec<Key>,
}

impl Names {
    /// The name of the record of that number, where there is one.
    pub fn name_of(&self, number: u32) -> Option<Key>
        ensures { (records : List Seen) → AreNamesOf self.now records → result ≡ name_of records number }
    {
        let at = number.checked_sub(self.first)?;
        self.names.as_slice().get(at as usize).copied()
    }
}

/// The names of each chain's records. The error is: out of memory.
pub fn all_names(alloc: Global, chains: &[Chain]) -> Result<Vec<Names>, Memory>
    requires { AllByRecursion IsRow chains.now }
    ensures { IfOk result (λ all. AllNamesOf all.items (chains_in chains.now)) }
{
    let mut all = Vec::with_capacity(alloc, chains.len())?;
    'chains: for chain in chains {
        all.push(names_in(alloc, chain)?)?;
    }
    Ok(all)
}

/// The names of the chain's records. The error is: out of memory.
fn names_in(alloc: Global, chain: &Chain) -> Result<Names, Memory>
    requires { IsRow chain.now }
    ensures { IfOk result (λ names. AreNamesOf names (records_of chain.now.records)) }
{
    let records = chain.records.as_slice();
    let first = &records[0];
    let mut names = Vec::with_capacity(alloc, records.len())?;
    'records: for i in 0..records.len() {
        names.push(name_at(chain, i))?;
    }
    Ok(Names {
        owner: first.owner,
        log: head_key(&first.owner),
        first: first.seq,
        names,
    })
}

/// The name of the chain's record of that index.
pub fn name_at(chain: &Chain, i: usize) -> Key
    requires row { IsRow chain.now }
    requires within { i < length chain.now.records }
    ensures { (r : Seen) → slice_index_or (records_of chain.now.records) i r ≡ r → result ≡ r.name }
{
    let records = chain.records.as_slice();
    if i + 1 < records.len() {
        records[i + 1].prev
    } else {
        chain.head.name
    }
}
