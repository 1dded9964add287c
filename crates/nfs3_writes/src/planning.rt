//! What a call is to do.

ghost use Rattle.std.specs.Prelude.{◌≡◌, IfOk};
ghost use Rattle.rpc_wire.specs.Callers.{identity_of};
ghost use Rattle.nfs_model.specs.Changing.{plan};
ghost use Rattle.nfs3_writes.specs.Seen.{seen};

use crate::creating::{Asked, plan_create, plan_directory, plan_symbolic_link};
use crate::naming::{plan_link, plan_remove, plan_remove_directory, plan_rename};
use crate::plans::Plan;
use crate::setting::{plan_attributes, plan_write};
use fs_tree::Tree;
use ivy_base::{Memory, Moment, PubKey, number_of};
use nfs_model::{Args, Reply};
use rpc_wire::Caller;
use std::alloc::Global;
use view_blocks::View;

/// What the call is to do on this tree at this moment, where the caller's participant has the key `own` and its next
/// record has the number `seq`. To the reading procedures, NULL and MOUNT's it is `Nothing`, as these are answered
/// elsewhere. The error is: out of memory.
pub fn plan(
    alloc: Global,
    tree: &Tree,
    view: &View,
    caller: &Caller,
    args: &Args,
    now: Moment,
    own: &PubKey,
    seq: u32,
) -> Result<Plan, Memory>
    ensures { IfOk result (λ given. seen given ≡ plan tree.now view.now (identity_of caller.now) args.now now own.now seq) }
{
    match args {
        Args::SetAttr {
            object,
            what,
            guard,
        } => plan_attributes(
            alloc,
            tree,
            view,
            caller,
            object.as_slice(),
            what,
            *guard,
            now,
        ),
        Args::Write {
            file,
            offset,
            count,
            bytes,
            ..
        } => plan_write(
            alloc,
            tree,
            view,
            caller,
            file.as_slice(),
            *offset,
            *count,
            bytes.as_slice(),
        ),
        Args::Create { dir, name, how } => plan_create(
            alloc,
            tree,
            view,
            caller,
            dir.as_slice(),
            name.as_slice(),
            how,
            now,
            number_of(own, seq),
        ),
        Args::MkDir { dir, name, what } => plan_directory(
            alloc,
            tree,
            view,
            caller,
            dir.as_slice(),
            name.as_slice(),
            &Asked::of(what, now, number_of(own, seq)),
        ),
        Args::SymLink {
            dir,
            name,
            what,
            text,
        } => plan_symbolic_link(
            alloc,
            tree,
            view,
            caller,
            dir.as_slice(),
            name.as_slice(),
            &Asked::of(what, now, number_of(own, seq)),
            text.as_slice(),
        ),
        Args::Remove { dir, name } => {
            plan_remove(alloc, tree, view, caller, dir.as_slice(), name.as_slice())
        }
        Args::RmDir { dir, name } => {
            plan_remove_directory(alloc, tree, view, caller, dir.as_slice(), name.as_slice())
        }
        Args::Rename {
            dir,
            name,
            to_dir,
            to_name,
        } => plan_rename(
            alloc,
            tree,
            view,
            caller,
            dir.as_slice(),
            name.as_slice(),
            to_dir.as_slice(),
            to_name.as_slice(),
        ),
        Args::Link { file, dir, name } => plan_link(
            alloc,
            tree,
            view,
            caller,
            file.as_slice(),
            dir.as_slice(),
            name.as_slice(),
        ),
        _ => Ok(Plan::Nothing(Reply::Nothing)),
    }
}
