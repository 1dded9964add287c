//! How much room a result asks for, so that it is written with one allocation at most.

ghost use Rattle.std.specs.Prelude.{◌≡◌, ◌+◌, ◌^◌, ◌≤◌, IfSome, IsNone, length};
ghost use Rattle.std.specs.List.{All, sum_by};
ghost use Rattle.xdr_codec.specs.Writing.{padded};
ghost use Rattle.nfs3_replies.specs.Room.{room, listed_room, handle_room};
ghost use Rattle.nfs3_replies.specs.Writable.{IsShort, IsShortHandle, IsWritableListed, IsWritable};

use ivy_base::Bytes;
use nfs_model::{Listed, Reply};

/// The bytes that hold each form of a result, but for its strings and entries.
const FRAME: usize = 240;

/// The bytes of an entry of a page but for its name: its flag, file number, the name's length and the cookie.
const ENTRY_FRAME: usize = 24;

/// The most bytes of an entry's attributes.
const ENTRY_ATTRIBUTES: usize = 88;

/// The room that [`crate::put_reply`] asks for, in bytes. There is none where a string has 2^32 bytes or more, and where
/// the room is no number of 64 bits.
pub fn room_for(reply: &Reply) -> Option<usize>
    ensures some { IfSome result (λ bytes. bytes ≡ room reply.now) }
    ensures counted { IfSome result (λ bytes. IsWritable reply.now) }
    ensures none { IsNone result → IsWritable reply.now → 2 ^ 64 ≤ room reply.now }
{
    match reply {
        Reply::Found { handle, .. } => with_string(handle),
        Reply::Text { text, .. } => with_string(text),
        Reply::Bytes { bytes, .. } => with_string(bytes),
        Reply::Made { handle, .. } => with_string(handle),
        Reply::Mounted { handle } => with_string(handle),
        Reply::Directory { page, .. } => with_entries(page.as_slice(), false),
        Reply::DirectoryPlus { page, .. } => with_entries(page.as_slice(), true),
        _ => Some(FRAME),
    }
}

/// The room for one string and what stands beside it.
fn with_string(bytes: &Bytes) -> Option<usize>
    ensures some { IfSome result (λ count. count ≡ 240 + padded (length bytes.now)) }
    ensures counted { IfSome result (λ count. IsShort bytes.now) }
    ensures none { IsNone result → IsShort bytes.now → ⊥ }
{
    Some(FRAME + padded_len(bytes)?)
}

/// The room for a page's entries and what stands beside them; where they have attributes and handles, the most room.
fn with_entries(entries: &[Listed], plus: bool) -> Option<usize>
    ensures some { IfSome result (λ bytes. bytes ≡ 240 + sum_by (listed_room plus) entries.now) }
    ensures counted { IfSome result (λ bytes. All (IsWritableListed plus) entries.now) }
    ensures none { IsNone result → All (IsWritableListed plus) entries.now → 2 ^ 64 ≤ 240 + sum_by (listed_room plus) entries.now }
{
    let mut sum: usize = FRAME;
    for entry in entries {
        sum = sum.checked_add(room_of_entry(entry, plus)?)?;
    }
    Some(sum)
}

/// The bytes of an entry; with attributes and a handle, the most bytes.
fn room_of_entry(entry: &Listed, plus: bool) -> Option<usize>
    ensures some { IfSome result (λ bytes. bytes ≡ listed_room plus entry.now) }
    ensures counted { IfSome result (λ bytes. IsWritableListed plus entry.now) }
    ensures none { IsNone result → IsWritableListed plus entry.now → ⊥ }
{
    let shown = ENTRY_FRAME + padded_len(&entry.name)?;
    if plus {
        Some(shown + ENTRY_ATTRIBUTES + room_of_handle(&entry.handle)?)
    } else {
        Some(shown)
    }
}

/// The bytes of a handle that may be missing: its flag, and where it is given its length and its bytes.
fn room_of_handle(handle: &Option<Bytes>) -> Option<usize>
    ensures some { IfSome result (λ bytes. bytes ≡ handle_room handle.now) }
    ensures counted { IfSome result (λ bytes. IsShortHandle handle.now) }
    ensures none { IsNone result → IsShortHandle handle.now → ⊥ }
{
    match handle {
        None => Some(4),
        Some(handle) => Some(8 + padded_len(handle)?),
    }
}

/// The bytes of a string with the zeros that fill it up; none where no word counts them.
fn padded_len(bytes: &Bytes) -> Option<usize>
    ensures some { IfSome result (λ count. count ≡ padded (length bytes.now)) }
    ensures counted { IfSome result (λ count. IsShort bytes.now) }
    ensures none { IsNone result → IsShort bytes.now → ⊥ }
{
    let count = bytes.as_slice().len();
    if count > u32::MAX as usize {
        return None;
    }
    Some(count + (4 - count % 4) % 4)
}
