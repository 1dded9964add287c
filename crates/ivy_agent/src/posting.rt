//! What is to be published once records are written.

ghost use Rattle.std.specs.Prelude.{◌≡◌, ◌<◌, ◌^◌, [], ◌∷◌, ◌++◌, not, filter, length, IsTrue, IfOk, OnOk};
ghost use Rattle.std.specs.List.{All};
ghost use Rattle.agent_model.specs.Agent.{is_head};
ghost use Rattle.agent_model.specs.SavedBytes.{AreOpaque};

use dht_ids::{Post, PostKind, Posts};
use ivy_base::Memory;
use std::alloc::Global;

/// Those that are pending, without a head, then the posts of written records, then the head over them. The error is: out of
/// memory; it also comes where a word counts neither the posts nor the bytes of one that is new.
pub fn posts_with(
    alloc: Global,
    pending: &Posts,
    mut written: Vec<Post>,
    head: Post,
) -> Result<Posts, Memory>
    ensures posts { IfOk result (λ posts. posts ≡ filter (λ p. not (is_head p.kind)) pending.now ++ written.items ++ head ∷ []) }
    ensures few { IfOk result (λ posts. length posts < 2 ^ 32) }
    ensures written { OnOk result (All (λ p. AreOpaque p.bytes) written.items) }
    ensures head { OnOk result (AreOpaque head.bytes) }
{
    written.push(head)?;
    let mut posts = pending.copy(alloc)?.into_vec();
    drop_heads(&mut posts);
    join_posts(posts, written)
}

/// The first posts, then the others. The error is: out of memory; it also comes where a word counts neither all of them nor the
/// bytes of one of the others.
pub fn join_posts(mut posts: Vec<Post>, mut more: Vec<Post>) -> Result<Posts, Memory>
    ensures posts { IfOk result (λ all. all ≡ posts.items ++ more.items) }
    ensures few { IfOk result (λ all. length all < 2 ^ 32) }
    ensures more { OnOk result (All (λ p. AreOpaque p.bytes) more.items) }
{
    match put_behind(&mut posts, &mut more) {
        Ok(()) => Ok(Posts::of(posts)),
        Err(Memory) => Err(Memory),
    }
}

/// Puts the others after the posts. It owns nothing where it exits. The error is that of [`join_posts`].
fn put_behind(posts: &mut Vec<Post>, more: &mut Vec<Post>) -> Result<(), Memory>
    ensures posts { OnOk result (posts.new.items ≡ posts.old.items ++ more.old.items) }
    ensures few { OnOk result (length posts.new.items < 2 ^ 32) }
    ensures more { OnOk result (All (λ p. AreOpaque p.bytes) more.old.items) }
{
    if !are_counted(more.as_slice()) {
        return Err(Memory);
    }
    posts.append(more)?;
    if posts.len() > u32::MAX as usize {
        return Err(Memory);
    }
    Ok(())
}

/// Leaves the posts that aren't heads. It takes no memory.
fn drop_heads(posts: &mut Vec<Post>)
    ensures { posts.new.items ≡ filter (λ p. not (is_head p.kind)) posts.old.items }
{
    posts.retain(|post| !is_head(post.kind));
}

/// Whether it is a head.
fn is_head(kind: PostKind) -> bool
    ensures { result ≡ is_head kind }
{
    match kind {
        PostKind::Block | PostKind::Log => false,
        PostKind::Head => true,
    }
}

/// Whether a word counts the bytes of each.
pub fn are_counted(posts: &[Post]) -> bool
    ensures { IsTrue result → All (λ p. AreOpaque p.bytes) posts.now }
{
    'posts: for post in posts {
        if !is_counted(post) {
            return false;
        }
    }
    true
}

/// Whether a word counts the post's bytes.
fn is_counted(post: &Post) -> bool
    ensures { IsTrue result → AreOpaque post.now.bytes }
{
    has_few(post.bytes.as_slice())
}

/// Whether a word counts the bytes.
fn has_few(bytes: &[u8]) -> bool
    ensures { IsTrue result → AreOpaque bytes.now }
{
    bytes.len() <= u32::MAX as usize
}
