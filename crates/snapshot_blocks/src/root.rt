//! The block of a snapshot that names all others.

ghost use Rattle.std.specs.Prelude.{◌≡◌, ◌+◌, ◌≤◌, ◌++◌, IfOk, IfErr, OnErr};
ghost use Rattle.wire_model.specs.Xdr.{optional};
ghost use Rattle.wire_model.specs.OneReading.{IsFront, HasNoFront};
ghost use Rattle.version_vectors.specs.Ranks.{rank_of};
ghost use Rattle.snapshot_model.specs.Blocks.{IsRootBlock, IsRankSpelled, Says, rank_bytes, root_block};
ghost use Rattle.snapshot_blocks.specs.Parsed.{root_of, tide_of};
ghost use Rattle.block_parts.specs.Parts.{IsOptional, optional_size};
ghost use Rattle.snapshot_blocks.specs.Refusals.{Refuses, RefusesFront};

use crate::listed::{Listed, put_listed, read_listed};
use block_parts::{
    BlockFault, Malformed, put_constant, put_key, put_owner, read_block, read_constant, read_key,
};
use ivy_base::{Bytes, Key, Memory, PubKey};
use std::alloc::Global;
use version_vectors::{Rank, Vector};
use xdr_codec::{XdrRead, XdrWrite};

/// What the root block begins with.
const MAGIC: [u8; 4] = *b"IVS1";

/// A snapshot, but for its inodes.
#[derive(Drop)]
pub struct RootBlock {
    /// The name of the view.
    pub view: Key,
    /// The front of the records that it covers.
    pub front: Vector,
    /// The greatest rank among them.
    pub tide: Option<Rank>,
    /// All inodes.
    pub inodes: Listed,
}

impl RootBlock {
    /// What this root block says.
    ///
    /// `Malformed` comes exactly where the block is no such one, and `Memory` means out of memory.
    pub fn read(alloc: Global, block: &[u8]) -> Result<RootBlock, BlockFault>
        ensures ok { IfOk result (λ root. Says IsRootBlock root_block block.now (root_of root)) }
        ensures err { IfErr result (Refuses IsRootBlock root_block block.now) }
    {
        let mut reader = XdrRead::new(block);
        let root = read_root(alloc, &mut reader)?;
        reader.finish()?;
        Ok(root)
    }

    /// The block. The error is: out of memory; it also comes where the front has 2^32 entries or more.
    pub fn write(&self, alloc: Global) -> Result<Bytes, Memory>
        ensures { IfOk result (λ block. block ≡ root_block (root_of self.now)) }
    {
        if self.front.len() > u32::MAX as usize {
            return Err(Memory);
        }
        let mut out = XdrWrite::new(alloc);
        out.reserve(124 + self.front.written_len())?;
        put_constant(&mut out, &MAGIC);
        put_key(&mut out, &self.view);
        self.front.write(&mut out);
        put_tide(&mut out, &self.tide);
        put_listed(&mut out, &self.inodes);
        Ok(out.into_bytes())
    }
}

/// The root block at the front.
fn read_root(alloc: Global, reader: &mut XdrRead) -> Result<RootBlock, BlockFault>
    ensures ok { IfOk result (λ root. IsFront IsRootBlock root_block reader.old (root_of root) reader.new) }
    ensures err { IfErr result (RefusesFront IsRootBlock root_block reader.old) }
{
    read_constant(reader, &MAGIC)?;
    let view = read_key(reader)?;
    let front = Vector::read(alloc, reader, u32::MAX)?;
    let tide = read_tide(reader)?;
    let inodes = read_listed(reader)?;
    Ok(RootBlock {
        view,
        front,
        tide,
        inodes,
    })
}

/// The tide, where there is one.
#[tactic(auto, using(block_parts::proofs::Optional::no_flag, block_parts::proofs::Optional::no_item))]
fn read_tide(reader: &mut XdrRead) -> Result<Option<Rank>, Malformed>
    ensures ok { IfOk result (λ tide. IsFront (IsOptional IsRankSpelled) (optional rank_bytes) reader.old (tide_of tide) reader.new) }
    ensures err { OnErr result (HasNoFront (IsOptional IsRankSpelled) (optional rank_bytes) reader.old) }
{
    if !reader.boolean()? {
        return Ok(None);
    }
    let rank = read_rank(reader)?;
    Ok(Some(rank))
}

/// A rank: the weight, the owner's public key and the number.
fn read_rank(reader: &mut XdrRead) -> Result<Rank, Malformed>
    ensures ok { IfOk result (λ rank. IsFront IsRankSpelled rank_bytes reader.old (rank_of rank) reader.new) }
    ensures err { OnErr result (HasNoFront IsRankSpelled rank_bytes reader.old) }
{
    let weight = reader.u64()?;
    let owner = PubKey(read_block::<60>(reader)?);
    let seq = reader.u32()?;
    Ok(Rank { weight, owner, seq })
}

/// Appends the tide, where there is one.
fn put_tide(out: &mut XdrWrite, tide: &Option<Rank>)
    requires { optional_size 72 tide.now ≤ out.old.spare }
    ensures written { out.new.written ≡ out.old.written ++ optional rank_bytes (tide_of tide.now) }
    ensures spare { out.new.spare + optional_size 72 tide.now ≡ out.old.spare }
{
    match tide {
        Some(rank) => {
            out.put_bool(true);
            put_rank(out, rank);
        }
        None => out.put_bool(false),
    }
}

/// Appends a rank.
fn put_rank(out: &mut XdrWrite, rank: &Rank)
    requires { 72 ≤ out.old.spare }
    ensures written { out.new.written ≡ out.old.written ++ rank_bytes (rank_of rank.now) }
    ensures spare { out.new.spare + 72 ≡ out.old.spare }
{
    out.put_u64(rank.weight);
    put_owner(out, &rank.owner);
    out.put_u32(rank.seq);
}
