//! Blocks that are pending.

ghost use Rattle.std.specs.Prelude.{◌≡◌, ◌&&◌, not, option_map, option_copied};
ghost use Rattle.std.specs.List.{find};
ghost use Rattle.agent_model.specs.Agent.{is_head};
ghost use Rattle.tree_model.specs.Tree.{same_key};
ghost use Rattle.session_model.specs.Sessions.{pending_block};

use dht_ids::{Post, PostKind};
use ivy_base::Key;

/// The content block of that name among the posts.
pub(crate) fn posted<'a>(posts: &'a [Post], key: &Key) -> Option<&'a [u8]>
    ensures { option_copied result ≡ pending_block key.now posts.now }
{
    let post = post_of(posts, key)?;
    Some(post.bytes.as_slice())
}

/// The post of the content block of that name.
fn post_of<'a>(posts: &'a [Post], key: &Key) -> Option<&'a Post>
    ensures { option_map (λ post. post.now) result ≡ find (λ p. not (is_head p.kind) && same_key p.key key.now) posts.now }
{
    posts.iter().find(|post| is_block_of(post, key))
}

/// Whether the post is the content block of that name.
fn is_block_of(post: &Post, key: &Key) -> bool
    ensures { result ≡ (not (is_head post.now.kind) && same_key post.now.key key.now) }
{
    !is_head(post) && is_same(&post.key, key)
}

/// Whether the post is a head.
fn is_head(post: &Post) -> bool
    ensures { result ≡ is_head post.now.kind }
{
    post.kind == PostKind::Head
}

/// Whether the keys are the same.
fn is_same(key: &Key, other: &Key) -> bool
    ensures { result ≡ same_key key.now other.now }
{
    key == other
}
