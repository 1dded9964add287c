//! Parts of bytes written and read, with zeros where there are none.

ghost use Rattle.std.specs.Prelude.{◌≡◌, ◌+◌, ◌-◌, ◌^◌, ◌<◌, ◌++◌, length, take, drop, replicate, IfOk, OnOk};
ghost use Rattle.inode_replay.specs.Pieces.{overwritten};

use ivy_base::Memory;
use std::alloc::Global;

/// The bytes with a part replaced from the start on, a gap filled with zeros. The error is: out of memory.
pub fn patched(alloc: Global, bytes: &[u8], start: usize, part: &[u8]) -> Result<Vec<u8>, Memory>
    requires { start + length part.now < 2 ^ 63 }
    ensures { IfOk result (λ v. v.items ≡ overwritten bytes.now start part.now) }
{
    let end = start + part.len();
    let mut new = Vec::with_capacity(alloc, bytes.len().max(end))?;
    new.extend_from_slice(&bytes[..start.min(bytes.len())])?;
    new.resize(start, 0)?;
    new.extend_from_slice(part)?;
    new.extend_from_slice(&bytes[end.min(bytes.len())..])?;
    Ok(new)
}

/// Puts so many of the bytes, from the start on, at the end of the list, and zeros for those that aren't there. The
/// error is: out of memory.
pub fn append_part(
    list: &mut Vec<u8>,
    bytes: &[u8],
    start: usize,
    count: usize,
) -> Result<(), Memory>
    requires { length list.old.items + count < 2 ^ 63 }
    ensures { OnOk result (list.new.items ≡ list.old.items ++ (take count (drop start bytes.now) ++ replicate (count - length (drop start bytes.now)) 0)) }
{
    let end = list.len() + count;
    let rest = &bytes[start.min(bytes.len())..];
    list.extend_from_slice(&rest[..count.min(rest.len())])?;
    list.resize(end, 0)?;
    Ok(())
}
