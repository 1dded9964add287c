//! The chains within the floor: of the own log a turn takes only what the floor names.

ghost use Rattle.std.specs.Prelude.{◌≡◌, nat_le, filter, IfOk};
ghost use Rattle.std.specs.List.{AllByRecursion};
ghost use Rattle.log_records.specs.Records.{records_of};
ghost use Rattle.turn_laws.specs.Taking.{within};
ghost use Rattle.turn_taking.specs.Chains.{IsRow, IsWhole, IsLeft, IsLeftRow, all_within, as_chain, chains_in};

use crate::keys::is_owner;
use crate::names::name_at;
use crate::numbers::count_to;
use crate::taking::Held;
use dht_ids::Judged;
use ivy_base::{Memory, head_key};
use log_records::{Chain, Records};
use std::alloc::Global;

/// What is left of each chain within the floor, without the chains of which nothing is left. The error is: out of memory.
pub fn all_within(alloc: Global, held: &Held<'_>, chains: Vec<Chain>) -> Result<Vec<Chain>, Memory>
    requires { AllByRecursion (IsWhole held.now.view.now) chains.items }
    ensures within { IfOk result (λ left. chains_in left.items ≡ all_within held.now.own.now held.now.floor.now (chains_in chains.items)) }
    ensures whole { IfOk result (λ left. AllByRecursion (IsWhole held.now.view.now) left.items) }
{
    let mut left = Vec::with_capacity(alloc, chains.len())?;
    'chains: for chain in chains {
        if let Some(chain) = chain_within(held, chain) {
            left.push(chain)?;
        }
    }
    Ok(left)
}

/// What is left of the chain within the floor, if there is something.
fn chain_within(held: &Held<'_>, chain: Chain) -> Option<Chain>
    requires { IsWhole held.now.view.now chain }
    ensures { IsLeft held.now.view.now (within held.now.own.now held.now.floor.now (as_chain (records_of chain.records))) result }
{
    if is_owner(&chain.records.as_slice()[0].owner, held.own) {
        up_to(chain, held.floor.seq_of(&head_key(held.own)))
    } else {
        Some(chain)
    }
}

/// What is left of the chain up to that number, if there is something.
fn up_to(chain: Chain, number: u32) -> Option<Chain>
    requires { IsRow chain }
    ensures { IsLeftRow (filter (λ r. nat_le r.seq number) (records_of chain.records)) result }
{
    let count = count_to(chain.records.as_slice(), number);
    if count == 0 {
        return None;
    }
    let head = Judged {
        seq: chain.records.as_slice()[count - 1].seq,
        name: name_at(&chain, count - 1),
    };
    let mut records = chain.records.into_vec();
    records.truncate(count);
    Some(Chain {
        head,
        records: Records::of(records),
    })
}
