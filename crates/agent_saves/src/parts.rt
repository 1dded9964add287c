//! Saved bytes part by part, before the signer is loaded.

ghost use Rattle.std.specs.Prelude.{◌≡◌, IfOk, IfErr, OnErr};
ghost use Rattle.wire_model.specs.Xdr.{optional};
ghost use Rattle.wire_model.specs.OneReading.{IsFront, HasNoFront};
ghost use Rattle.log_model.specs.Spelling.{IsKey};
ghost use Rattle.block_parts.specs.Parts.{key_bytes, IsOptional};
ghost use Rattle.agent_saves.specs.Parts.{IsTold, told, told_bytes};
ghost use Rattle.agent_saves.specs.Refusals.{Refuses, RefusesFront};

use crate::posts::read_posts;
use crate::view::read_view;
use block_parts::{BlockFault, Malformed, read_constant, read_key};
use dht_ids::Posts;
use ivy_base::Key;
use std::alloc::Global;
use version_vectors::Vector;
use view_blocks::View;
use xdr_codec::XdrRead;

/// What saved bytes begin with.
pub const SAVED_TAG: [u8; 4] = *b"IVK1";

/// The parts of saved bytes.
#[derive(Drop)]
pub struct Parts<'a> {
    /// The signer's own saved bytes.
    pub signer: &'a [u8],
    /// The view that was entered.
    pub view: Option<View>,
    /// How far the own log goes.
    pub reach: u32,
    /// How far each log was ever known.
    pub floor: Vector,
    /// The blocks that are still to be published.
    pub pending: Posts,
    /// The name of the newest snapshot.
    pub snapshot: Option<Key>,
}

/// The parts that are all of the bytes.
pub fn read_whole(alloc: Global, bytes: &[u8]) -> Result<Parts<'_>, BlockFault>
    ensures fits { IfOk result (λ parts. IsTold (told parts)) }
    ensures bytes { IfOk result (λ parts. bytes.now ≡ told_bytes (told parts)) }
    ensures err { IfErr result (Refuses IsTold told_bytes bytes.now) }
{
    let mut reader = XdrRead::new(bytes);
    let parts = read_parts(alloc, &mut reader)?;
    reader.finish()?;
    Ok(parts)
}

/// The parts at the front.
fn read_parts<'a>(alloc: Global, reader: &mut XdrRead<'a>) -> Result<Parts<'a>, BlockFault>
    ensures ok { IfOk result (λ parts. IsFront IsTold told_bytes reader.old (told parts) reader.new) }
    ensures err { IfErr result (RefusesFront IsTold told_bytes reader.old) }
{
    read_constant(reader, &SAVED_TAG)?;
    let signer = reader.opaque(u32::MAX)?;
    let view = read_view(alloc, reader)?;
    let reach = reader.u32()?;
    let floor = Vector::read(alloc, reader, u32::MAX)?;
    let pending = read_posts(alloc, reader)?;
    let snapshot = read_name(reader)?;
    Ok(Parts {
        signer,
        view,
        reach,
        floor,
        pending,
        snapshot,
    })
}

/// A name, where there is one, after whether there is.
fn read_name(reader: &mut XdrRead) -> Result<Option<Key>, Malformed>
    ensures ok { IfOk result (λ name. IsFront (IsOptional IsKey) (optional key_bytes) reader.old name reader.new) }
    ensures err { OnErr result (HasNoFront (IsOptional IsKey) (optional key_bytes) reader.old) }
{
    if reader.boolean()? {
        Ok(Some(read_key(reader)?))
    } else {
        Ok(None)
    }
}
