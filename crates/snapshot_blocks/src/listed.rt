//! Lists as they are named.

ghost use Rattle.std.specs.Prelude.{◌≡◌, ◌+◌, ◌^◌, ◌<◌, ◌≤◌, ◌++◌, ◌↔◌, IsTrue, IfOk, OnErr};
ghost use Rattle.log_model.specs.Spelling.{no_name};
ghost use Rattle.wire_model.specs.OneReading.{IsFront, HasNoFront};
ghost use Rattle.snapshot_model.specs.Blocks.{IsListed, listed_bytes};
ghost use Rattle.snapshot_blocks.specs.Parsed.{listed_of};

use block_parts::{Malformed, NO_NAME, put_key, read_at_most, read_key};
use ivy_base::Key;
use xdr_codec::{XdrRead, XdrWrite};

/// A list of blocks, by the topmost of its list blocks.
#[derive(Clone, Copy)]
pub struct Listed {
    /// How many levels of list blocks there are, at most 3, and 0 where the list is empty.
    pub level: u32,
    /// The topmost list block's name, and zeros where the list is empty.
    pub top: Key,
}

/// A list of at most 3 levels.
pub fn read_listed(reader: &mut XdrRead) -> Result<Listed, Malformed>
    ensures ok { IfOk result (λ l. IsFront (IsListed 3) listed_bytes reader.old (listed_of l) reader.new) }
    ensures err { OnErr result (HasNoFront (IsListed 3) listed_bytes reader.old) }
{
    let level = read_at_most(reader, 3)?;
    let top = read_key(reader)?;
    if !fits_level(level, &top) {
        return Err(Malformed);
    }
    Ok(Listed { level, top })
}

/// Whether there is a level, or else no name.
fn fits_level(level: u32, top: &Key) -> bool
    ensures { IsTrue result ↔ (level ≡ 0 → top.now ≡ no_name) }
{
    level != 0 || *top == NO_NAME
}

/// Appends the level and the name.
pub fn put_listed(out: &mut XdrWrite, list: &Listed)
    requires { 24 ≤ out.old.spare }
    ensures written { out.new.written ≡ out.old.written ++ listed_bytes (listed_of list.now) }
    ensures spare { out.new.spare + 24 ≡ out.old.spare }
{
    out.put_u32(list.level);
    put_key(out, &list.top);
}
