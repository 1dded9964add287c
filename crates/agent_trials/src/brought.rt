//! What a refresh brings to an agent that is alone in its view.

ghost use Rattle.std.specs.Prelude.{◌≡◌, None, IfSome, Contains};
ghost use Rattle.std.specs.Ordering.{eq_by_cmp};
ghost use Rattle.ivy_base.specs.Naming.{owner_cmp};
ghost use Rattle.ivy_agent.specs.Turns.{IsFetchedIn};
ghost use Rattle.log_model.specs.View.{View as Seen};

use dht_ids::{Judged, Post};
use ivy_base::{Key, PubKey};
use log_fetch::{Refresh, Standing};
use log_records::{Batch, Record};
use std::alloc::Global;
use version_vectors::Vector;
use view_blocks::View;

/// Nothing. None means out of memory.
pub fn nothing(alloc: Global) -> Option<Refresh>
    ensures fetched { IfSome result (λ r. (view : Seen) → IsFetchedIn view r.batch) }
    ensures basis { IfSome result (λ r. r.basis ≡ None) }
{
    let empty = Vector::empty(alloc);
    let Ok(batch) = Batch::over(alloc, &empty, &empty) else {
        return None;
    };
    Some(Refresh { batch, basis: None })
}

/// Whether the public keys are one.
fn is_same(a: &PubKey, b: &PubKey) -> bool
    ensures { result ≡ eq_by_cmp owner_cmp a.now b.now }
{
    *a == *b
}

/// The chain of that record alone, under the view. None means out of memory, or that there is none.
fn of_one(alloc: Global, view: &View, floor: &Vector, record: Record, name: Key) -> Option<Batch>
    requires { Contains view.now.members record.owner }
    ensures { IfSome result (λ b. IsFetchedIn view.now b) }
{
    let head = Judged {
        seq: record.seq,
        name,
    };
    let empty = Vector::empty(alloc);
    let Ok(mut batch) = Batch::over(alloc, &empty, floor) else {
        return None;
    };
    let Ok(chain) = vec![in alloc; record] else {
        return None;
    };
    let Ok(()) = batch.add_chain(alloc, view, head, chain, None) else {
        return None;
    };
    Some(batch)
}

/// The record of the post, if it is one of the view's first member.
fn record_in(alloc: Global, view: &View, own: &PubKey, post: &Post) -> Option<Record>
    ensures { IfSome result (λ r. Contains view.now.members r.owner) }
{
    let member = view.members().first()?;
    if !is_same(own, member) {
        return None;
    }
    let Ok(record) = Record::read(alloc, post.bytes.as_slice(), own) else {
        return None;
    };
    if !is_same(&record.owner, member) {
        return None;
    }
    Some(record)
}

/// The first record of the own log, which is the first that is pending. None means out of memory, or that there is
/// none.
pub fn opening(alloc: Global, standing: &Standing) -> Option<Refresh>
    ensures fetched { IfSome result (λ r. IsFetchedIn standing.now.view r.batch) }
    ensures basis { IfSome result (λ r. r.basis ≡ None) }
{
    let post = standing.pending.as_slice().first()?;
    let record = record_in(alloc, &standing.view, &standing.own, post)?;
    let batch = of_one(alloc, &standing.view, &standing.floor, record, post.key)?;
    Some(Refresh { batch, basis: None })
}
