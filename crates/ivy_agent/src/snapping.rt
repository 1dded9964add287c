//! Snapshots of what an agent holds: their blocks are to be published, and their names are saved.

ghost use Rattle.std.specs.Prelude.{◌≡◌, ◌<◌, ◌^◌, ◌&&◌, ◌++◌, map, length, option_map, IfOk, OnOk, OnErr};
ghost use Rattle.std.specs.List.{All, last_or};
ghost use Rattle.std.specs.Str.{bytes_eq};
ghost use Rattle.ivy_base.specs.Naming.{head_key_of};
ghost use Rattle.log_model.specs.Rank.{rank};
ghost use Rattle.replay_engine.specs.Engines.{holding};
ghost use Rattle.version_vectors.specs.Ranks.{rank_of};
ghost use Rattle.agent_model.specs.Agent.{joined, own_key};
ghost use Rattle.agent_model.specs.Others.{basis_of, block_post, is_block, is_pending_block};
ghost use Rattle.agent_model.specs.SavedBytes.{AreOpaque, kept_bytes};
ghost use Rattle.ivy_agent.specs.Saves.{saved_of, HasSaved, IsWholeAfter};
ghost use Rattle.ivy_agent.specs.Snapping.{IsSnapshot, kept_snapped, posts_of_new};
ghost use Rattle.ivy_agent.specs.Causes.{SaveHasCause};

use crate::posting::join_posts;
use crate::saving::{Kept, SaveFault, save};
use dht_ids::{Post, PostKind, Posts};
use hss_keys::Signs;
use ivy_base::{Key, Memory};
use ivy_io::Keeper;
use log_records::MOST_WEIGHED;
use replay_engine::Engine;
use snapshot_store::{Block, make};
use std::alloc::Global;
use std::mem::{replace, swap};
use version_vectors::{Rank, Vector};
use view_blocks::View;

/// A snapshot that is to be saved.
#[derive(Drop)]
pub struct Snapshot {
    /// The name of its root block.
    pub root: Key,
    /// What is pending then.
    pub posts: Posts,
}

/// The snapshot in that view of all that the engine holds, whose front that is, with its blocks after those that are pending.
/// The error is: out of memory; it also comes where a word counts neither the posts nor the bytes of one that is new, where the
/// newest record's vector has more than 2^31 entries, and where a list or a block of a snapshot has no room for what it would
/// stand for.
pub fn snapshot_of(
    alloc: Global,
    view: &View,
    front: &Vector,
    engine: &Engine,
    pending: &Posts,
) -> Result<Snapshot, Memory>
    requires { front.now ≡ joined (holding engine.now) }
    ensures { IfOk result (λ s. IsSnapshot view.now (basis_of (holding engine.now)) pending.now s) }
{
    let tide = tide_of(engine)?;
    let made = make(alloc, view, front, tide, engine.tree())?;
    Ok(Snapshot {
        root: made.root,
        posts: with_blocks(alloc, pending, made.blocks)?,
    })
}

/// The greatest rank of what is held, or that of the basis. The error is that of [`snapshot_of`].
fn tide_of(engine: &Engine) -> Result<Option<Rank>, Memory>
    ensures { IfOk result (λ tide. option_map rank_of tide ≡ last_or (holding engine.now).basis.tide (map rank (holding engine.now).held)) }
{
    match engine.records().last() {
        Some(newest) => {
            if newest.vector.len() > MOST_WEIGHED {
                return Err(Memory);
            }
            Ok(Some(newest.rank()))
        }
        None => Ok(engine.basis_tide()),
    }
}

/// Those that are pending, and after them the posts of the blocks that aren't. The error is: out of memory; it also comes where
/// a word counts neither the posts nor the bytes of one that is new.
fn with_blocks(alloc: Global, pending: &Posts, blocks: Vec<Block>) -> Result<Posts, Memory>
    ensures posts { IfOk result (λ posts. posts ≡ pending.now ++ posts_of_new pending.now blocks.items) }
    ensures few { IfOk result (λ posts. length posts < 2 ^ 32) }
    ensures new { OnOk result (All (λ p. AreOpaque p.bytes) (posts_of_new pending.now blocks.items)) }
{
    let new = new_posts(alloc, pending.as_slice(), blocks)?;
    join_posts(pending.copy(alloc)?.into_vec(), new)
}

/// The posts of the blocks that aren't pending. The error is: out of memory.
fn new_posts(alloc: Global, pending: &[Post], blocks: Vec<Block>) -> Result<Vec<Post>, Memory>
    ensures { IfOk result (λ posts. posts.items ≡ posts_of_new pending.now blocks.items) }
{
    let mut posts = Vec::new(alloc);
    'each: for block in blocks {
        if !is_pending(pending, block.as_slice()) {
            posts.push(post_of(block))?;
        }
    }
    Ok(posts)
}

/// Whether the block is pending.
fn is_pending(pending: &[Post], block: &[u8]) -> bool
    ensures { result ≡ is_pending_block pending.now block.now }
{
    pending.iter().any(|post| is_of_block(post, block))
}

/// Whether the post is that block's.
fn is_of_block(post: &Post, block: &[u8]) -> bool
    ensures { result ≡ (bytes_eq post.now.bytes block.now && is_block post.now.kind) }
{
    post.bytes.as_slice() == block && is_block(post.kind)
}

/// Whether it is a block that has its bytes' name alone.
fn is_block(kind: PostKind) -> bool
    ensures { result ≡ is_block kind }
{
    match kind {
        PostKind::Block => true,
        PostKind::Log | PostKind::Head => false,
    }
}

/// The post of a block, whose name it keeps.
fn post_of(block: Block) -> Post
    ensures { result ≡ block_post block }
{
    let (key, bytes) = block.into_parts();
    Post {
        key,
        bytes,
        kind: PostKind::Block,
    }
}

/// Has the keeper save what is kept, with that snapshot. After an error what is kept is what it was.
pub fn save_snapshot<K: Keeper, S: Signs>(
    alloc: Global,
    keeper: &mut K,
    kept: &mut Kept<S>,
    snapshot: Snapshot,
) -> Result<(), SaveFault>
    requires { kept.old.log ≡ head_key_of (own_key S.signing kept.old.signer) }
    ensures saved { HasSaved K.saves keeper.old (kept_bytes S.signing (saved_of (kept_snapped snapshot kept.old))) result keeper.new }
    ensures cause { SaveHasCause K.faults keeper.old result keeper.new }
    ensures whole { IsWholeAfter (S.is_whole kept.old.signer) result }
    ensures ok { OnOk result (kept.new ≡ kept_snapped snapshot kept.old) }
    ensures err { OnErr result (kept.new ≡ kept.old) }
{
    let mut pending = replace(&mut kept.pending, snapshot.posts);
    let before = replace(&mut kept.snapshot, Some(snapshot.root));
    let saved = save(alloc, keeper, kept);
    if saved.is_err() {
        swap(&mut kept.pending, &mut pending);
        kept.snapshot = before;
    }
    saved
}
