//! Plans that refuse a call, and plans of one operation.

ghost use Rattle.std.specs.Prelude.{◌≡◌, IfOk, [], ◌∷◌};
ghost use Rattle.nfs_model.specs.Objects.{object_of, cache_data, no_cache_data};
ghost use Rattle.nfs_model.specs.Changing.{Refuse, Operations, cache_of};
ghost use Rattle.nfs3_writes.specs.Seen.{seen};

use crate::ops::Ops;
use crate::plans::Plan;
use fs_tree::Tree;
use ivy_base::{Memory, Op};
use nfs_model::{NfsStatus, Reply, Tail, Wcc};
use nfs3_objects::{LiveObject, cache_data, no_cache_data, object_of};
use std::alloc::Global;
use view_blocks::View;

/// The refusal with that status and that tail.
pub fn refused(status: NfsStatus, tail: Tail) -> Plan
    ensures { seen result ≡ Refuse (Reply.Refused status tail) }
{
    Plan::Refuse(Reply::Refused { status, tail })
}

/// The refusal where the call's one handle fails its checks: nothing is told of an object.
pub fn refused_handle(status: NfsStatus) -> Plan
    ensures { seen result ≡ Refuse (Reply.Refused status (Tail.Cache no_cache_data)) }
{
    refused(status, Tail::Cache(no_cache_data()))
}

/// The refusal with what is told of the object of the call's one handle.
pub fn refused_at(tree: &Tree, view: &View, object: &LiveObject<'_>, status: NfsStatus) -> Plan
    ensures { seen result ≡ Refuse (Reply.Refused status (Tail.Cache (cache_data tree.now tree.now view.now object.now.number))) }
{
    refused(status, Tail::Cache(told_of(tree, view, object)))
}

/// What is told of an object where nothing is done.
pub fn told_of(tree: &Tree, view: &View, object: &LiveObject<'_>) -> Wcc
    ensures { result ≡ cache_data tree.now tree.now view.now object.now.number }
{
    cache_data(tree, tree, view, &object.number)
}

/// What is told of the object of a handle where nothing is done: nothing where the handle fails its checks.
pub fn told_at(tree: &Tree, view: &View, handle: &[u8]) -> Wcc
    ensures { result ≡ cache_of tree.now view.now (object_of tree.now view.now handle.now) }
{
    match object_of(tree, view, handle) {
        Ok(object) => told_of(tree, view, &object),
        Err(_) => no_cache_data(),
    }
}

/// The plan of that one operation. The error is: out of memory.
pub fn planned(alloc: Global, op: Op) -> Result<Plan, Memory>
    ensures { IfOk result (λ given. seen given ≡ Operations (op ∷ [])) }
{
    Ok(Plan::Ops(Ops::of(vec![in alloc; op]?)))
}
