//! How much room arguments ask for, so that they are written with one allocation.

ghost use Rattle.std.specs.Prelude.{◌≡◌, [], ◌∷◌, length, MatchOption};
ghost use Rattle.xdr_codec.specs.Writing.{padded};
ghost use Rattle.nfs3_args.specs.Writable.{strings, IsShort};
ghost use Rattle.nfs3_args.specs.Room.{IsRoom};

use ivy_base::Bytes;
use nfs_model::Args;

/// The bytes that hold all of any arguments but their strings: MKNOD of a device with all attributes has 80.
const FRAME: usize = 80;

/// The room that [`crate::write_args`] asks for, in bytes. There is none exactly where a string has 2^32 bytes or more.
pub fn room_for(args: &Args) -> Option<usize>
    ensures { IsRoom (strings args.now) result }
{
    match args {
        Args::GetAttr { object } => with_one(object),
        Args::SetAttr { object, .. } => with_one(object),
        Args::Lookup { dir, name } => with_two(dir, name),
        Args::Access { object, .. } => with_one(object),
        Args::ReadLink { link } => with_one(link),
        Args::Read { file, .. } => with_one(file),
        Args::Write { file, bytes, .. } => with_two(file, bytes),
        Args::Create { dir, name, .. } => with_two(dir, name),
        Args::MkDir { dir, name, .. } => with_two(dir, name),
        Args::SymLink {
            dir,
            name,
            text,
            ..
        } => with_three(dir, name, text),
        Args::MkNod { dir, name, .. } => with_two(dir, name),
        Args::Remove { dir, name } => with_two(dir, name),
        Args::RmDir { dir, name } => with_two(dir, name),
        Args::Rename {
            dir,
            name,
            to_dir,
            to_name,
        } => with_four(dir, name, to_dir, to_name),
        Args::Link { file, dir, name } => with_three(file, dir, name),
        Args::ReadDir { dir, .. } => with_one(dir),
        Args::ReadDirPlus { dir, .. } => with_one(dir),
        Args::FsStat { object } => with_one(object),
        Args::FsInfo { object } => with_one(object),
        Args::PathConf { object } => with_one(object),
        Args::Commit { file, .. } => with_one(file),
        Args::Mnt { path } => with_one(path),
        Args::Umnt { path } => with_one(path),
        _ => Some(FRAME),
    }
}

/// The room for one string and what stands beside it.
fn with_one(a: &Bytes) -> Option<usize>
    ensures { IsRoom (a.now ∷ []) result }
{
    Some(FRAME + padded_len(a)?)
}

/// The room for two strings and what stands beside them.
fn with_two(a: &Bytes, b: &Bytes) -> Option<usize>
    ensures { IsRoom (a.now ∷ b.now ∷ []) result }
{
    Some(FRAME + padded_len(a)? + padded_len(b)?)
}

/// The room for three strings and what stands beside them.
fn with_three(a: &Bytes, b: &Bytes, c: &Bytes) -> Option<usize>
    ensures { IsRoom (a.now ∷ b.now ∷ c.now ∷ []) result }
{
    Some(FRAME + padded_len(a)? + padded_len(b)? + padded_len(c)?)
}

/// The room for four strings and what stands beside them.
fn with_four(a: &Bytes, b: &Bytes, c: &Bytes, d: &Bytes) -> Option<usize>
    ensures { IsRoom (a.now ∷ b.now ∷ c.now ∷ d.now ∷ []) result }
{
    Some(FRAME + padded_len(a)? + padded_len(b)? + padded_len(c)? + padded_len(d)?)
}

/// The bytes of a string with the zeros that fill it up; none where no word counts them.
fn padded_len(bytes: &Bytes) -> Option<usize>
    ensures { MatchOption result (IsShort bytes.now → ⊥) (λ n. (n ≡ padded (length bytes.now)) × IsShort bytes.now) }
{
    let count = bytes.as_slice().len();
    if count > u32::MAX as usize {
        return None;
    }
    Some(count + (4 - count % 4) % 4)
}
