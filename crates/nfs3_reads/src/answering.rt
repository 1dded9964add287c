//! The procedures.

ghost use Rattle.std.specs.Prelude.{◌≡◌, IfOk};
ghost use Rattle.rpc_wire.specs.Callers.{identity_of};
ghost use Rattle.nfs_model.specs.Reading.{answer};

use crate::contents::{read, read_link};
use crate::finding::lookup;
use crate::numbers::{commit, get_attributes, limits, make_node, path_limits, room};
use crate::page::{PageStart, read_directory, read_directory_plus};
use crate::rights::access;
use fs_tree::Tree;
use ivy_base::Memory;
use nfs_model::{Args, Reply};
use rpc_wire::Caller;
use std::alloc::Global;
use view_blocks::View;

/// The answer of a reading procedure on this tree; to the calls that may change the tree, to NULL and to MOUNT's it is
/// `Nothing`, as these are answered elsewhere. The error is: out of memory.
pub fn answer(
    alloc: Global,
    tree: &Tree,
    view: &View,
    caller: &Caller,
    args: &Args,
) -> Result<Reply, Memory>
    ensures { IfOk result (λ reply. reply ≡ answer tree.now view.now (identity_of caller.now) args.now) }
{
    match args {
        Args::GetAttr { object } => Ok(get_attributes(tree, view, object.as_slice())),
        Args::Lookup { dir, name } => {
            lookup(alloc, tree, view, caller, dir.as_slice(), name.as_slice())
        }
        Args::Access { object, bits } => {
            Ok(access(tree, view, caller, object.as_slice(), *bits))
        }
        Args::ReadLink { link } => read_link(alloc, tree, view, link.as_slice()),
        Args::Read {
            file,
            offset,
            count,
        } => read(alloc, tree, view, caller, file.as_slice(), *offset, *count),
        Args::MkNod { dir, .. } => Ok(make_node(tree, view, dir.as_slice())),
        Args::ReadDir {
            dir,
            cookie,
            verifier,
            count,
        } => {
            let start = PageStart {
                cookie: *cookie,
                verifier: *verifier,
            };
            read_directory(alloc, tree, view, caller, dir.as_slice(), start, *count)
        }
        Args::ReadDirPlus {
            dir,
            cookie,
            verifier,
            dircount,
            maxcount,
        } => {
            let start = PageStart {
                cookie: *cookie,
                verifier: *verifier,
            };
            read_directory_plus(
                alloc,
                tree,
                view,
                caller,
                dir.as_slice(),
                start,
                *dircount,
                *maxcount,
            )
        }
        Args::FsStat { object } => Ok(room(tree, view, object.as_slice())),
        Args::FsInfo { object } => Ok(limits(tree, view, object.as_slice())),
        Args::PathConf { object } => Ok(path_limits(tree, view, object.as_slice())),
        Args::Commit { file, .. } => Ok(commit(tree, view, file.as_slice())),
        Args::Null
        | Args::SetAttr { .. }
        | Args::Write { .. }
        | Args::Create { .. }
        | Args::MkDir { .. }
        | Args::SymLink { .. }
        | Args::Remove { .. }
        | Args::RmDir { .. }
        | Args::Rename { .. }
        | Args::Link { .. }
        | Args::MountNull
        | Args::Mnt { .. }
        | Args::Dump
        | Args::Umnt { .. }
        | Args::UmntAll
        | Args::Export => Ok(Reply::Nothing),
    }
}
