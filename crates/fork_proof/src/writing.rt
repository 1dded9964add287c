//! Writing a proof.

ghost use Rattle.std.specs.Prelude.{◌≡◌, ◌++◌, ◌≤◌, length, map, IfOk, OnOk};
ghost use Rattle.std.specs.List.{flat_map};
ghost use Rattle.wire_model.specs.Xdr.{opaque};
ghost use Rattle.fork_model.specs.Bytes.{fork_bytes};

use block_parts::{opaque_len, put_constant};
use ivy_base::{Bytes, Memory};
use std::alloc::Global;
use xdr_codec::XdrWrite;

/// What a proof's bytes begin with.
const TAG: [u8; 4] = *b"IVF1";

/// The bytes of the proof of these heads and blocks. The error is: out of memory; it also comes where a word can't count the
/// blocks or the bytes of a part.
pub fn write_proof(
    alloc: Global,
    low: &[u8],
    high: &[u8],
    blocks: &[&[u8]],
) -> Result<Bytes, Memory>
    ensures { IfOk result (λ bytes. bytes ≡ fork_bytes low.now high.now (map (λ b. b.now) blocks.now)) }
{
    if blocks.len() > u32::MAX as usize {
        return Err(Memory);
    }
    let mut out = XdrWrite::new(alloc);
    out.reserve(4)?;
    put_constant(&mut out, &TAG);
    put_part(&mut out, low)?;
    put_part(&mut out, high)?;
    out.reserve(4)?;
    out.put_u32(blocks.len() as u32);
    put_parts(&mut out, blocks)?;
    Ok(out.into_bytes())
}

/// Appends the parts. After the error, which is that of [`write_proof`], some of them may be there.
fn put_parts(out: &mut XdrWrite, parts: &[&[u8]]) -> Result<(), Memory>
    ensures { OnOk result (out.new.written ≡ out.old.written ++ flat_map opaque (map (λ b. b.now) parts.now)) }
{
    'parts: for part in parts {
        put_part(out, part)?;
    }
    Ok(())
}

/// Appends the bytes of a part, after their count. The error is that of [`write_proof`].
fn put_part(out: &mut XdrWrite, part: &[u8]) -> Result<(), Memory>
    ensures { OnOk result (out.new.written ≡ out.old.written ++ opaque part.now) }
{
    let Some(part_len) = opaque_len(part) else {
        return Err(Memory);
    };
    out.reserve(part_len)?;
    out.put_opaque(part);
    Ok(())
}
