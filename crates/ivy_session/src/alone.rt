//! The procedures that need no turn: NULL, and all of MOUNT.

ghost use Rattle.std.specs.Prelude.{◌≡◌, [], ◌∷◌, IfOk, if◌then◌else◌};
ghost use Rattle.ivy_base.specs.Naming.{root_number};
ghost use Rattle.nfs_model.specs.Checks.{same_bytes};
ghost use Rattle.nfs_model.specs.Objects.{handle_of};
ghost use Rattle.session_model.specs.Replies.{alone_answer};

use fs_tree::ROOT;
use ivy_base::Memory;
use nfs_model::{Args, Reply};
use nfs3_objects::handle_of;
use std::alloc::Global;
use view_blocks::View;

/// What NULL and the procedures of MOUNT answer (RFC 1813, sections 3.3.0 and 5.2); none to other calls. The error is: out of
/// memory.
pub fn alone_answer(alloc: Global, view: &View, args: &Args) -> Result<Option<Reply>, Memory>
    ensures { IfOk result (λ given. given ≡ alone_answer view.now args.now) }
{
    match args {
        Args::Null | Args::MountNull | Args::Umnt { .. } | Args::UmntAll => {
            Ok(Some(Reply::Nothing))
        }
        Args::Mnt { path } => Ok(Some(mounted(alloc, view, path.as_slice())?)),
        Args::Dump => Ok(Some(Reply::NoMounts)),
        Args::Export => Ok(Some(Reply::Exports)),
        _ => Ok(None),
    }
}

/// What MNT answers (section 5.2.1): the handle of the root where the path is its own, else that there is no such path. The
/// error is: out of memory.
fn mounted(alloc: Global, view: &View, path: &[u8]) -> Result<Reply, Memory>
    ensures { IfOk result (λ reply. reply ≡ (if same_bytes path.now (47 ∷ []) then Reply.Mounted (handle_of view.now root_number) else Reply.NoSuchPath)) }
{
    if is_root_path(path) {
        let handle = handle_of(alloc, view, &ROOT)?;
        Ok(Reply::Mounted { handle })
    } else {
        Ok(Reply::NoSuchPath)
    }
}

/// Whether the path is that of the root.
fn is_root_path(path: &[u8]) -> bool
    ensures { result ≡ same_bytes path.now (47 ∷ []) }
{
    path == b"/".as_slice()
}
