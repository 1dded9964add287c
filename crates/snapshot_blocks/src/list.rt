//! Blocks of lists: the names of other blocks.

ghost use Rattle.std.specs.Prelude.{◌≡◌, ◌+◌, ◌*◌, ◌≤◌, ◌++◌, length, IfOk, IfSome, IfNone, OnErr};
ghost use Rattle.std.specs.List.{flat_map};
ghost use Rattle.wire_model.specs.Xdr.{IsAny, array};
ghost use Rattle.wire_model.specs.OneReading.{IsFront, HasNoFront};
ghost use Rattle.snapshot_model.specs.Blocks.{AreNamed, Says, list_block};
ghost use Rattle.snapshot_blocks.specs.Parsed.{keys_of};
ghost use Rattle.block_parts.specs.Parts.{constant_bytes, key_bytes};
ghost use Rattle.snapshot_model.specs.Parts.{list_tag};
ghost use Rattle.snapshot_blocks.specs.Refusals.{SaysNothing};

use block_parts::{Malformed, put_constant, put_key, read_blocks, read_constant};
use ivy_base::{Bytes, Key, Memory};
use std::alloc::Global;
use xdr_codec::{XdrRead, XdrWrite};

/// What a list block begins with.
const MAGIC: [u8; 4] = *b"IVL1";

/// The most names in a list block.
const MOST_NAMES: u32 = 512;

/// How many bytes a name has.
const NAME_LEN: usize = 20;

/// The bytes of the names in a list block of that level, 1 to 512. There are none where the block is no such one.
pub fn read_list(block: &[u8], level: u32) -> Option<&[[u8; NAME_LEN]]>
    ensures some { IfSome result (λ keys. Says AreNamed (list_block level) block.now (keys_of keys.now)) }
    ensures none { IfNone result (SaysNothing AreNamed (list_block level) block.now) }
{
    read_whole(block, level).ok()
}

/// The names in a list block of that level, where nothing is after them.
fn read_whole(block: &[u8], level: u32) -> Result<&[[u8; NAME_LEN]], Malformed>
    ensures ok { IfOk result (λ keys. Says AreNamed (list_block level) block.now (keys_of keys.now)) }
    ensures err { OnErr result (SaysNothing AreNamed (list_block level) block.now) }
{
    let mut reader = XdrRead::new(block);
    read_tag(&mut reader, level)?;
    let names = read_names(&mut reader)?;
    reader.finish()?;
    Ok(names)
}

/// What a list block of that level begins with.
fn read_tag(reader: &mut XdrRead, level: u32) -> Result<(), Malformed>
    ensures ok { IfOk result (λ u. IsFront IsAny (constant_bytes (list_tag level)) reader.old u reader.new) }
    ensures err { OnErr result (HasNoFront IsAny (constant_bytes (list_tag level)) reader.old) }
{
    read_constant(reader, &MAGIC)?;
    if reader.u32()? != level {
        return Err(Malformed);
    }
    Ok(())
}

/// The names, after their count.
fn read_names<'a>(reader: &mut XdrRead<'a>) -> Result<&'a [[u8; NAME_LEN]], Malformed>
    ensures ok { IfOk result (λ keys. IsFront AreNamed (array key_bytes) reader.old (keys_of keys.now) reader.new) }
    ensures err { OnErr result (HasNoFront AreNamed (array key_bytes) reader.old) }
{
    let count = reader.u32()?;
    if count == 0 || count > MOST_NAMES {
        return Err(Malformed);
    }
    let names = read_blocks::<NAME_LEN>(reader, count)?;
    Ok(names)
}

/// The list block of that level over the blocks of these names. The error is: out of memory.
pub fn write_list(alloc: Global, level: u32, names: &[Key]) -> Result<Bytes, Memory>
    requires { length names.now ≤ 512 }
    ensures { IfOk result (λ block. block ≡ list_block level names.now) }
{
    let mut out = XdrWrite::new(alloc);
    out.reserve(12 + NAME_LEN * names.len())?;
    put_constant(&mut out, &MAGIC);
    out.put_u32(level);
    out.put_u32(names.len() as u32);
    put_names(&mut out, names);
    Ok(out.into_bytes())
}

/// Appends the names.
fn put_names(out: &mut XdrWrite, names: &[Key])
    requires { NAME_LEN * length names.now ≤ out.old.spare }
    ensures { out.new.written ≡ out.old.written ++ flat_map key_bytes names.now }
{
    for name in names {
        put_key(out, name);
    }
}
