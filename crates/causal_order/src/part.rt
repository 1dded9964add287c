//! The new records of the largest closed part.

ghost use Rattle.std.specs.Prelude.{◌≡◌, map, None, IfOk, IfSome};
ghost use Rattle.std.specs.List.{AllByRecursion};
ghost use Rattle.log_records.specs.Records.{records_of};
ghost use Rattle.causal_order.specs.Over.{IsClosed};
ghost use Rattle.causal_order.specs.Available.{IsFetched, IsNewPart};
ghost use Rattle.causal_order.specs.Kept.{newest_name};
ghost use Rattle.causal_order.specs.Started.{HaveOwnOwners};

use crate::base::Base;
use crate::pass::{least, see};
use crate::start::begin;
use ivy_base::Memory;
use log_records::{Batch, Chain, Record};
use std::alloc::Global;
use version_vectors::Vector;
use view_blocks::View;

/// The new records of the largest closed part of what is held and of the batch's chains, ascending by rank (Ivy).
///
/// `front` is that of the basis below the held records, and empty where there is none. The held records are closed
/// under the view, over the front. Each chain is of a member's log, was added under the view, and begins next after
/// what is held of its log, or before. A chain that doesn't go on from what is held is left out.
///
/// The error is: out of memory.
pub fn closed_part(
    alloc: Global,
    view: &View,
    front: &Vector,
    held: &[Record],
    batch: Batch,
) -> Result<Vec<Record>, Memory>
    requires held { IsClosed view.now front.now (records_of held.now) }
    requires fetched { AllByRecursion (λ c. IsFetched view.now front.now (records_of held.now) c.1) batch.chains }
    ensures { IfOk result (λ new. IsNewPart view.now front.now (records_of held.now) (map (λ c. c.1) batch.chains) (records_of new.items)) }
{
    closed_part_of(alloc, view, front, held, batch.into_chains())
}

/// As [`closed_part`], of chains that were taken out of a batch: no two are of one log, and the head of each names the
/// newest of its records. The records need not be all of the chain that the batch had. Without chains the held records
/// are not looked at.
pub fn closed_part_of(
    alloc: Global,
    view: &View,
    front: &Vector,
    held: &[Record],
    chains: Vec<Chain>,
) -> Result<Vec<Record>, Memory>
    requires held { IsClosed view.now front.now (records_of held.now) }
    requires fetched { AllByRecursion (λ c. IsFetched view.now front.now (records_of held.now) (records_of c.records)) chains.items }
    requires named { AllByRecursion (λ c. IfSome (newest_name None (records_of c.records)) (λ n. n ≡ c.head.name)) chains.items }
    requires apart { HaveOwnOwners (map (λ c. records_of c.records) chains.items) }
    ensures { IfOk result (λ new. IsNewPart view.now front.now (records_of held.now) (map (λ c. records_of c.records) chains.items) (records_of new.items)) }
{
    if chains.is_empty() {
        return Ok(Vec::new(alloc));
    }
    // That it is a view, so that each log is one member's.
    let _ = view.members();
    let base = Base { view, front, held };
    let mut logs = begin(alloc, &base, chains)?;
    let logs = logs.as_mut_slice();
    let mut taken = Vec::new(alloc);
    'records: while let Some(i) = least(logs) {
        see(&base, logs, &mut taken, i)?;
    }
    Ok(taken)
}
