//! The order in which posts are put.

ghost use Rattle.std.specs.Prelude.{◌≡◌, ◌++◌, filter, IfOk, OnOk};
ghost use Rattle.session_model.specs.Sessions.{in_publishing_order};
ghost use Rattle.ivy_session.specs.Kinds.{is_kind};

use crate::named::NamedPost;
use dht_ids::{Post, PostKind};
use ivy_base::Memory;
use log_fetch::NamedPosts;
use std::alloc::Global;
use std::collections::VecDeque;

/// Copies of the posts in the order in which they are put: records, then blocks of snapshots, then heads; within a kind as
/// they stand. They are those whose names are known. The error is: out of memory.
pub(crate) fn in_order(
    alloc: Global,
    posts: &[Post],
    named: &NamedPosts,
) -> Result<VecDeque<NamedPost>, Memory>
    requires { named.now ≡ posts.now }
    ensures { IfOk result (λ ordered. ordered.items ≡ in_publishing_order posts.now) }
{
    let mut ordered = Vec::with_capacity(alloc, posts.len())?;
    copy_kind(alloc, PostKind::Log, posts, named, &mut ordered)?;
    copy_kind(alloc, PostKind::Block, posts, named, &mut ordered)?;
    copy_kind(alloc, PostKind::Head, posts, named, &mut ordered)?;
    Ok(VecDeque::from(ordered))
}

/// Adds copies of the posts of that kind, which are those whose names are known. The error is: out of memory.
fn copy_kind(
    alloc: Global,
    kind: PostKind,
    posts: &[Post],
    named: &NamedPosts,
    ordered: &mut Vec<NamedPost>,
) -> Result<(), Memory>
    requires { named.now ≡ posts.now }
    ensures { OnOk result (ordered.new.items ≡ ordered.old.items ++ filter (λ p. is_kind kind p.kind) posts.now) }
{
    'posts: for post in posts {
        if is_kind(kind, post) {
            ordered.push(NamedPost::copy_of(alloc, post, named.name_of(post))?)?;
        }
    }
    Ok(())
}

/// Whether the post is of that kind.
fn is_kind(kind: PostKind, post: &Post) -> bool
    ensures { result ≡ is_kind kind post.now.kind }
{
    post.kind == kind
}
