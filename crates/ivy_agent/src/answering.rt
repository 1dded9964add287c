//! What is given of a turn.

ghost use Rattle.std.specs.Prelude.{◌≡◌, IfOk, OnOk, OnErr};
ghost use Rattle.nfs_model.specs.Results.{result as bytes_of};
ghost use Rattle.ivy_agent.specs.Outcomes.{Gives, kept_to};

use crate::saving::Kept;
use dht_ids::Posts;
use hss_keys::Signs;
use ivy_base::Memory;
use log_fetch::{NamedPosts, Turned};
use nfs_model::Reply;
use nfs3_replies::write_reply;
use std::alloc::Global;
use version_vectors::Vector;

/// What is given where this is the reply, these posts are pending, and all that is held has this front. The error is: out of
/// memory; it also comes where a part of the reply is too long to be counted.
pub fn give(
    alloc: Global,
    reply: &Reply,
    posts: &Posts,
    front: &Vector,
    applied: u64,
) -> Result<Turned, Memory>
    ensures bytes { IfOk result (λ t. t.reply ≡ bytes_of reply.now) }
    ensures posts { IfOk result (λ t. t.posts ≡ posts.now) }
    ensures front { IfOk result (λ t. t.front ≡ front.now) }
    ensures count { IfOk result (λ t. t.applied ≡ applied) }
{
    Ok(Turned {
        reply: write_reply(alloc, reply)?,
        posts: NamedPosts::of(posts.copy(alloc)?),
        front: front.copy(alloc)?,
        applied,
    })
}

/// What is given where this is the reply, which is dropped here alone. The error is that of [`give`].
pub fn give_reply(
    alloc: Global,
    reply: Reply,
    posts: &Posts,
    front: &Vector,
    applied: u64,
) -> Result<Turned, Memory>
    ensures bytes { IfOk result (λ t. t.reply ≡ bytes_of reply) }
    ensures posts { IfOk result (λ t. t.posts ≡ posts.now) }
    ensures front { IfOk result (λ t. t.front ≡ front.now) }
    ensures count { IfOk result (λ t. t.applied ≡ applied) }
{
    give(alloc, &reply, posts, front, applied)
}

/// Answers without writing: what is held, which has that front, is joined into the floor. The error is: out of memory, and then
/// what is kept is what it was.
pub fn reply<S: Signs>(
    alloc: Global,
    kept: &mut Kept<S>,
    front: &Vector,
    applied: u64,
    reply: Reply,
) -> Result<Turned, Memory>
    ensures kept { OnOk result (kept.new ≡ kept_to kept.old front.now) }
    ensures given { IfOk result (Gives reply kept.new front.now applied) }
    ensures err { OnErr result (kept.new ≡ kept.old) }
{
    let turned = give_reply(alloc, reply, &kept.pending, front, applied)?;
    match kept.floor.join(alloc, front) {
        Ok(floor) => {
            kept.floor = floor;
            Ok(turned)
        }
        Err(Memory) => Err(Memory),
    }
}
