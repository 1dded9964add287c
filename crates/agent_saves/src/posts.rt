//! The blocks that were still to be published.

ghost use Rattle.std.specs.Prelude.{◌≡◌, ◌↔◌, IsTrue, IfOk, IfErr, OnErr};
ghost use Rattle.std.specs.List.{list_all, flat_map};
ghost use Rattle.std.specs.Prelude.{nat_lt};
ghost use Rattle.wire_model.specs.Xdr.{array, AreSoMany, IsAny};
ghost use Rattle.wire_model.specs.OneReading.{IsFront, HasNoFront};
ghost use Rattle.log_model.specs.Spelling.{IsKey};
ghost use Rattle.block_parts.specs.Parts.{key_bytes};
ghost use Rattle.agent_model.specs.SavedBytes.{HasItsName, post_bytes};
ghost use Rattle.agent_saves.specs.Parts.{ArePosts, IsPost, kind_bytes};
ghost use Rattle.agent_saves.specs.Refusals.{RefusesFront};

use block_parts::{BlockFault, Malformed, check_bytes, read_key};
use dht_ids::{Post, PostKind, Posts};
use ivy_base::{Bytes, Key, Memory, name_of};
use std::alloc::Global;
use xdr_codec::XdrRead;

/// The posts, after their count. Each is read before memory is taken for it.
pub fn read_posts(alloc: Global, reader: &mut XdrRead) -> Result<Posts, BlockFault>
    ensures ok { IfOk result (λ posts. IsFront ArePosts (array post_bytes) reader.old posts reader.new) }
    ensures err { IfErr result (RefusesFront ArePosts (array post_bytes) reader.old) }
{
    let count = reader.u32()?;
    let posts = read_each(alloc, reader, count)?;
    Ok(Posts::of(posts))
}

/// So many posts.
fn read_each(alloc: Global, reader: &mut XdrRead, count: u32) -> Result<Vec<Post>, BlockFault>
    ensures ok { IfOk result (λ posts. IsFront (AreSoMany IsPost count) (flat_map post_bytes) reader.old posts.items reader.new) }
    ensures err { IfErr result (RefusesFront (AreSoMany IsPost count) (flat_map post_bytes) reader.old) }
{
    let mut posts = Vec::new(alloc);
    'posts: for _n in 0..count {
        posts.push(read_post(alloc, reader)?)?;
    }
    Ok(posts)
}

/// A post: what it is, its key and its block.
fn read_post(alloc: Global, reader: &mut XdrRead) -> Result<Post, BlockFault>
    ensures ok { IfOk result (λ post. IsFront IsPost post_bytes reader.old post reader.new) }
    ensures err { IfErr result (RefusesFront IsPost post_bytes reader.old) }
{
    let kind = read_kind(reader)?;
    let key = read_key(reader)?;
    let block = reader.opaque(u32::MAX)?;
    if !has_its_name(kind, &key, block) {
        return Err(BlockFault::Malformed);
    }
    let bytes = copy_of(alloc, block)?;
    Ok(Post { key, bytes, kind })
}

/// What a post is: 0 for a block, 1 for a record of a log, 2 for a head.
fn read_kind(reader: &mut XdrRead) -> Result<PostKind, Malformed>
    ensures ok { IfOk result (λ kind. IsFront IsAny kind_bytes reader.old kind reader.new) }
    ensures err { OnErr result (HasNoFront IsAny kind_bytes reader.old) }
{
    match reader.u32()? {
        0 => Ok(PostKind::Block),
        1 => Ok(PostKind::Log),
        2 => Ok(PostKind::Head),
        _ => Err(Malformed),
    }
}

/// Whether the key is the block's name, as it is of all but heads.
fn has_its_name(kind: PostKind, key: &Key, block: &[u8]) -> bool
    ensures { IsTrue result ↔ HasItsName (record { key = key.now; bytes = block.now; kind = kind }) }
{
    match kind {
        PostKind::Head => true,
        PostKind::Block | PostKind::Log => name_of(block) == *key,
    }
}

/// A copy of a block. The error is: out of memory.
fn copy_of(alloc: Global, block: &[u8]) -> Result<Bytes, Memory>
    ensures same { IfOk result (λ copy. copy ≡ block.now) }
    ensures each { IsTrue (list_all (λ b. nat_lt b 256) block.now) }
{
    check_bytes(block);
    Bytes::copy_of(alloc, block)
}
