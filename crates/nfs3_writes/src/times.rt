//! The times, modes, sizes and owners that a client gives.

ghost use Rattle.std.specs.Prelude.{◌≡◌, ◌||◌, nat_lt, false};
ghost use Rattle.std.specs.Option.{option_map_or};
ghost use Rattle.rpc_wire.specs.Callers.{identity_of};
ghost use Rattle.nfs_model.specs.Changing.{is_invalid_time, is_client_time, is_server_time, given_time, given_mode, permission_bits, usual_mode, new_owner, asked_change, only_times};
ghost use Rattle.tree_model.specs.Tree.{longest_file};

use block_parts::LONGEST_FILE;
use ivy_base::{Change, Kind, Moment};
use nfs_model::{SetTime, SetWhat};
use rpc_wire::Caller;

/// The nanoseconds of a second.
const SECOND: u32 = 1_000_000_000;

/// How many permission bits a mode has, as their number of values.
const MODES: u32 = 0o10000;

/// Whether it is a client's time with more nanoseconds than a second has.
fn is_invalid_time(time: SetTime) -> bool
    ensures { result ≡ is_invalid_time time }
{
    match time {
        SetTime::Client(moment) => moment.nsec >= SECOND,
        SetTime::Keep | SetTime::Server => false,
    }
}

/// Whether a client gives a time with more nanoseconds than a second has.
pub fn has_invalid_time(what: &SetWhat) -> bool
    ensures { result ≡ (is_invalid_time what.now.atime || is_invalid_time what.now.mtime) }
{
    is_invalid_time(what.atime) || is_invalid_time(what.mtime)
}

/// Whether the time is the client's own.
pub fn is_client_time(time: SetTime) -> bool
    ensures { result ≡ is_client_time time }
{
    matches!(time, SetTime::Client(_))
}

/// Whether the time is to be the server's.
fn is_server_time(time: SetTime) -> bool
    ensures { result ≡ is_server_time time }
{
    matches!(time, SetTime::Server)
}

/// Whether a time is to be the server's.
pub fn has_server_time(what: &SetWhat) -> bool
    ensures { result ≡ (is_server_time what.now.atime || is_server_time what.now.mtime) }
{
    is_server_time(what.atime) || is_server_time(what.mtime)
}

/// The time that is asked for: none, this moment, or the client's.
pub fn given_time(now: Moment, time: SetTime) -> Option<Moment>
    ensures { result ≡ given_time now time }
{
    match time {
        SetTime::Keep => None,
        SetTime::Server => Some(now),
        SetTime::Client(moment) => Some(moment),
    }
}

/// Whether a size is given that no file may have.
pub fn is_too_large(size: Option<u64>) -> bool
    ensures { result ≡ option_map_or (nat_lt longest_file) size false }
{
    match size {
        Some(size) => size > LONGEST_FILE,
        None => false,
    }
}

/// The permission bits of a mode, which are its low 12 bits.
fn permission_bits(mode: u32) -> u32
    ensures { result ≡ permission_bits mode }
{
    mode % MODES
}

/// The mode of a new inode for which none is given.
fn usual_mode(kind: Kind) -> u32
    ensures { result ≡ usual_mode kind }
{
    match kind {
        Kind::Reg => 0o644,
        Kind::Dir => 0o755,
        Kind::Lnk => 0o777,
    }
}

/// The mode of a new inode.
pub fn given_mode(kind: Kind, mode: Option<u32>) -> u32
    ensures { result ≡ given_mode kind mode }
{
    match mode {
        Some(mode) => permission_bits(mode),
        None => usual_mode(kind),
    }
}

/// The owner or the group of a new inode: the caller's own, and the one that is given where the caller is the superuser.
pub fn new_owner(caller: &Caller, own: u32, given: Option<u32>) -> u32
    ensures { result ≡ new_owner (identity_of caller.now) own given }
{
    if caller.uid == 0 {
        given.unwrap_or(own)
    } else {
        own
    }
}

/// What SETATTR is to set.
pub fn asked_change(now: Moment, what: &SetWhat) -> Change
    ensures { result ≡ asked_change now what.now }
{
    Change {
        mode: what.mode.map(permission_bits),
        uid: what.uid,
        gid: what.gid,
        size: what.size,
        atime: given_time(now, what.atime),
        mtime: given_time(now, what.mtime),
    }
}

/// Of what is asked for, the times alone.
pub fn only_times(now: Moment, what: &SetWhat) -> Change
    ensures { result ≡ only_times now what.now }
{
    Change {
        mode: None,
        uid: None,
        gid: None,
        size: None,
        atime: given_time(now, what.atime),
        mtime: given_time(now, what.mtime),
    }
}
