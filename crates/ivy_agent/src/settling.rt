//! Which posts are acknowledged.

ghost use Rattle.std.specs.Prelude.{◌≡◌, ◌&&◌, not, filter};
ghost use Rattle.std.specs.List.{AllByRecursion, list_any};
ghost use Rattle.tree_model.specs.Tree.{same_key};
ghost use Rattle.agent_model.specs.Others.{is_of};
ghost use Rattle.agent_model.specs.SavedBytes.{HasItsName};
ghost use Rattle.ivy_agent.specs.Settling.{is_known_settled, known_name};

use crate::keys::is_same;
use dht_ids::{Ack, Post, PostKind};
use ivy_base::Key;
use log_fetch::KnownName;

/// Leaves the posts that aren't acknowledged. Each has its name, so that of these heads alone are hashed, where theirs isn't the
/// name that is known. It takes no memory.
pub fn keep_unsettled(posts: &mut Vec<Post>, acks: &[Ack], head: &KnownName)
    requires { AllByRecursion HasItsName posts.old.items }
    ensures { posts.new.items ≡ filter (λ p. not (list_any (λ ack. is_of ack p) acks.now)) posts.old.items }
{
    posts.retain(|post| !is_acknowledged(post, acks, head));
}

/// Whether an acknowledgement is of that post, if it has its name. A head is hashed only where one has its key.
fn is_acknowledged(post: &Post, acks: &[Ack], head: &KnownName) -> bool
    ensures { result ≡ is_known_settled acks.now post.now }
{
    has_key(acks, &post.key) && has_name(acks, &post.key, &known_name(post, head))
}

/// The name of the post's block, if the post has its name: that is the key, but of a head.
fn known_name(post: &Post, head: &KnownName) -> Key
    ensures { result ≡ known_name post.now }
{
    match post.kind {
        PostKind::Head => head.name_of(post.bytes.as_slice()),
        PostKind::Block | PostKind::Log => post.key,
    }
}

/// Whether an acknowledgement has that key.
fn has_key(acks: &[Ack], key: &Key) -> bool
    ensures { result ≡ list_any (λ ack. same_key ack.key key.now) acks.now }
{
    acks.iter().any(|ack| is_same(&ack.key, key))
}

/// Whether an acknowledgement has that key and that name.
fn has_name(acks: &[Ack], key: &Key, name: &Key) -> bool
    ensures { result ≡ list_any (λ ack. same_key ack.key key.now && same_key ack.name name.now) acks.now }
{
    acks.iter()
        .any(|ack| is_same(&ack.key, key) && is_same(&ack.name, name))
}
