//! The numbers of procedures.

ghost use Rattle.std.specs.Prelude.{◌≡◌};
ghost use Rattle.nfs_model.specs.Arguments.{procedure_of, program_of};

use nfs_model::Args;

/// NFS (RFC 1813, section 3).
const NFS_PROGRAM: u32 = 100_003;
/// MOUNT (RFC 1813, section 5).
const MOUNT_PROGRAM: u32 = 100_005;

/// The number of the program that the arguments are of.
pub(crate) fn program_number(args: &Args) -> u32
    ensures { result ≡ program_of args.now }
{
    match args {
        Args::MountNull => MOUNT_PROGRAM,
        Args::Mnt { .. } => MOUNT_PROGRAM,
        Args::Dump => MOUNT_PROGRAM,
        Args::Umnt { .. } => MOUNT_PROGRAM,
        Args::UmntAll => MOUNT_PROGRAM,
        Args::Export => MOUNT_PROGRAM,
        _ => NFS_PROGRAM,
    }
}

/// The number of their procedure in it.
pub(crate) fn procedure_number(args: &Args) -> u32
    ensures { result ≡ procedure_of args.now }
{
    match args {
        Args::Null => 0,
        Args::GetAttr { .. } => 1,
        Args::SetAttr { .. } => 2,
        Args::Lookup { .. } => 3,
        Args::Access { .. } => 4,
        Args::ReadLink { .. } => 5,
        Args::Read { .. } => 6,
        Args::Write { .. } => 7,
        Args::Create { .. } => 8,
        Args::MkDir { .. } => 9,
        Args::SymLink { .. } => 10,
        Args::MkNod { .. } => 11,
        Args::Remove { .. } => 12,
        Args::RmDir { .. } => 13,
        Args::Rename { .. } => 14,
        Args::Link { .. } => 15,
        Args::ReadDir { .. } => 16,
        Args::ReadDirPlus { .. } => 17,
        Args::FsStat { .. } => 18,
        Args::FsInfo { .. } => 19,
        Args::PathConf { .. } => 20,
        Args::Commit { .. } => 21,
        Args::MountNull => 0,
        Args::Mnt { .. } => 1,
        Args::Dump => 2,
        Args::Umnt { .. } => 3,
        Args::UmntAll => 4,
        Args::Export => 5,
    }
}
