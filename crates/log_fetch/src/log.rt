//! Fetching one log of a view.

ghost use Rattle.std.specs.Prelude.{◌≡◌, ◌≢◌, ◌<◌, ◌^◌, Contains, map, IfOk, OnErr};
ghost use Rattle.ivy_base.specs.Naming.{head_key_of};
ghost use Rattle.log_records.specs.Batches.{owners_in};
ghost use Rattle.session_model.specs.Brought.{stamp_of};
ghost use Rattle.log_fetch.specs.Trying.{trial_left};
ghost use Rattle.log_fetch.specs.Edges.{edge_in};
ghost use Rattle.log_fetch.specs.Logs.{Opens, GoesOn, settled_left};

use crate::edges::Edges;
use crate::{Settled, Trial, heads_to_try};
use dht_ids::Judged;
use ivy_base::{Memory, PubKey};
use log_records::Batch;
use std::alloc::Global;
use version_vectors::Vector;
use view_blocks::View;

/// Begins with the owner's log, whose heads these are, over what the batch started from and with its floor: a block is
/// wanted, or the log is through. The error is: out of memory.
pub fn open(
    alloc: Global,
    view: &View,
    edges: &Edges,
    floor: &Vector,
    owner: &PubKey,
    heads: &[Judged],
    batch: &mut Batch,
) -> Result<Settled, Memory>
    requires new_log { Contains (owners_in batch.old.chains) owner.now → ⊥ }
    requires floor { batch.old.floor ≡ floor.now }
    ensures opens { IfOk result (Opens view.now owner.now (edge_in edges.now (head_key_of owner.now)) (map stamp_of heads.now) batch.old batch.new) }
    ensures left { IfOk result (λ settled. settled_left settled < 2 ^ 96) }
    ensures unchanged { OnErr result (batch.new ≡ batch.old) }
{
    let log = view.head_key(owner);
    let held = batch.started().seq_of(&log);
    let tried = heads_to_try(alloc, heads, &log, held, floor)?;
    let edge = edges.at(alloc, &log)?;
    match Trial::first(alloc, *owner, held, tried) {
        Some(trial) => trial.settle(alloc, view, &edge, batch),
        None => Ok(Settled::Over(None)),
    }
}

/// Goes on with the owner's log, of which a block was wanted, with that block. The error is: out of memory.
pub fn go_on(
    alloc: Global,
    view: &View,
    edges: &Edges,
    owner: &PubKey,
    mut trial: Trial,
    bytes: &[u8],
    batch: &mut Batch,
) -> Result<Settled, Memory>
    requires new_log { Contains (owners_in batch.old.chains) owner.now → ⊥ }
    requires wanted { trial.walk.left ≢ 0 }
    requires owner { trial.walk.owner ≡ owner.now }
    ensures goes_on { IfOk result (GoesOn view.now owner.now (edge_in edges.now (head_key_of owner.now)) trial bytes.now batch.old batch.new) }
    ensures left { IfOk result (λ settled. settled_left settled < trial_left trial) }
    ensures unchanged { OnErr result (batch.new ≡ batch.old) }
{
    trial.give(alloc, bytes)?;
    let edge = edges.at(alloc, &view.head_key(owner))?;
    trial.settle(alloc, view, &edge, batch)
}
