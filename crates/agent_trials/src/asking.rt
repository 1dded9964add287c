//! What an agent of a trial is asked.

ghost use Rattle.std.specs.Prelude.{◌≡◌, length, IfSome};
ghost use Rattle.agent_trials.specs.Agents.{IsAsked};
ghost use Rattle.rpc_wire.specs.Callers.{identity_of};
ghost use Rattle.wire_model.specs.Rpc.{IsIdentity};

use fs_tree::ROOT;
use ivy_base::{Bytes, Moment};
use log_fetch::Asked;
use nfs_model::{Args, SetTime, SetWhat};
use nfs3_objects::handle_of;
use rpc_wire::Caller;
use std::alloc::Global;
use view_blocks::View;

/// The moment of every turn.
pub const NOW: Moment = Moment {
    sec: 1_000_000_000,
    nsec: 0,
};

/// The superuser.
fn superuser() -> Caller
    ensures { IsIdentity (identity_of result) }
{
    Caller {
        uid: 0,
        gid: 0,
        gids: [0; 16],
        count: 0,
    }
}

/// The handle of the root in that view. None means out of memory.
pub fn root_of(alloc: Global, view: &View) -> Option<Bytes>
    ensures { IfSome result (λ root. length root ≡ 44) }
{
    handle_of(alloc, view, &ROOT).ok()
}

/// What the name of one byte leads to in the root. None means out of memory.
pub fn lookup(alloc: Global, root: &Bytes, name: u8) -> Option<Asked>
    requires { length root.now ≡ 44 }
    ensures { IfSome result IsAsked }
{
    let Ok(dir) = root.copy(alloc) else {
        return None;
    };
    let Ok(name) = Bytes::copy_of(alloc, &[name]) else {
        return None;
    };
    Some(Asked {
        caller: superuser(),
        args: Args::Lookup { dir, name },
    })
}

/// A directory of that name, of one byte, is to be made in the root. None means out of memory.
pub fn make_directory(alloc: Global, root: &Bytes, name: u8) -> Option<Asked>
    requires { length root.now ≡ 44 }
    ensures { IfSome result IsAsked }
{
    let Ok(dir) = root.copy(alloc) else {
        return None;
    };
    let Ok(name) = Bytes::copy_of(alloc, &[name]) else {
        return None;
    };
    Some(Asked {
        caller: superuser(),
        args: Args::MkDir {
            dir,
            name,
            what: SetWhat {
                mode: None,
                uid: None,
                gid: None,
                size: None,
                atime: SetTime::Keep,
                mtime: SetTime::Keep,
            },
        },
    })
}
