//! Which calls may change the tree, and what stands in a refusal that has no attributes.

ghost use Rattle.std.specs.Prelude.{◌≡◌};
ghost use Rattle.nfs_model.specs.Changing.{is_changing};
ghost use Rattle.turn_model.specs.Turn.{bare_tail};

use crate::fattr::no_cache_data;
use nfs_model::{Args, Tail};

/// Whether it is one of the procedures that may write records: SETATTR, WRITE, CREATE, MKDIR, SYMLINK, REMOVE, RMDIR, RENAME
/// and LINK.
pub fn is_changing(args: &Args) -> bool
    ensures { result ≡ is_changing args.now }
{
    matches!(
        args,
        Args::SetAttr { .. }
            | Args::Write { .. }
            | Args::Create { .. }
            | Args::MkDir { .. }
            | Args::SymLink { .. }
            | Args::Remove { .. }
            | Args::RmDir { .. }
            | Args::Rename { .. }
            | Args::Link { .. }
    )
}

/// What stands after a refusal of the procedure that gives no attributes.
pub fn bare_tail(args: &Args) -> Tail
    ensures { result ≡ bare_tail args.now }
{
    match args {
        Args::GetAttr { .. } => Tail::Empty,
        Args::Rename { .. } => Tail::TwoCaches(no_cache_data(), no_cache_data()),
        Args::Link { .. } => Tail::AttributesAndCache(None, no_cache_data()),
        Args::MkNod { .. } | Args::Commit { .. } => Tail::Cache(no_cache_data()),
        _ if is_changing(args) => Tail::Cache(no_cache_data()),
        _ => Tail::Attributes(None),
    }
}
