//! A post whose block was named.

ghost use Rattle.std.specs.Prelude.{◌≡◌, IfOk};
ghost use Rattle.ivy_base.specs.Naming.{name};
ghost use Rattle.session_model.specs.Sessions.{ack_of};

use dht_ids::{Ack, Post, PostKind};
use ivy_base::{Key, Memory};
use std::alloc::Global;
use std::marker::Model;

/// A post, and the name of its block, which isn't hashed again.
pub(crate) struct NamedPost {
    post: Post,
    block: Key,
}

// Written out, so that whatever drops one calls this and isn't proved over all of its parts once more.
impl Drop for NamedPost {
    fn drop(self) {
        let NamedPost { post: _, block: _ } = self;
    }
}

impl Model for NamedPost {
    ghost use Rattle.std.specs.Prelude.{◌≡◌};
    ghost use Rattle.ivy_base.specs.Naming.{name};
    ghost use Rattle.dht_ids.specs.declared.post.Post.{Post};

    ghost Value = { Post };

    ghost view = { λ p. p.post };

    ghost invariant = { λ p. p.block ≡ name p.post.bytes };
}

impl NamedPost {
    /// A copy of the post, whose block has that name. The error is: out of memory.
    pub(crate) fn copy_of(alloc: Global, post: &Post, block: Key) -> Result<NamedPost, Memory>
        requires { block ≡ name post.now.bytes }
        ensures { IfOk result (λ copy. copy ≡ post.now) }
    {
        Ok(NamedPost {
            post: post.copy(alloc)?,
            block,
        })
    }

    /// What the post is.
    pub(crate) fn kind(&self) -> PostKind
        ensures { result ≡ self.now.kind }
    {
        self.post.kind
    }

    /// The acknowledgement of the post.
    pub(crate) fn ack(&self) -> Ack
        ensures { result ≡ ack_of self.now }
    {
        Ack {
            key: self.post.key,
            name: self.block,
        }
    }

    /// The post, which is not copied.
    pub(crate) fn into_post(self) -> Post
        ensures { result ≡ self }
    {
        let NamedPost { post, block: _ } = self;
        post
    }
}
