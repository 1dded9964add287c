//! Small lists, which contracts see as lists.

ghost use Rattle.std.specs.Prelude.{◌≡◌, IfOk};

use crate::judge::Judged;
use crate::peer::Peer;
use crate::post::{Ack, Post};
use ivy_base::Memory;
use std::alloc::Global;
use std::marker::Model;

/// Peers in a row.
#[derive(Drop)]
pub struct Peers {
    peers: Vec<Peer>,
}

impl Model for Peers {
    ghost use Rattle.std.specs.Prelude.{List};
    ghost use Rattle.dht_ids.specs.declared.peer.Peer.{Peer};

    ghost Value = { List Peer };

    ghost view = { λ p. p.peers.items };
}

impl Peers {
    /// The peers of a vector, which is not copied.
    pub fn of(items: Vec<Peer>) -> Peers
        ensures { result ≡ items.items }
    {
        Peers { peers: items }
    }

    /// The peers as a vector, which is not copied.
    pub fn into_vec(self) -> Vec<Peer>
        ensures { result.items ≡ self }
    {
        self.peers
    }

    /// The peers as a slice.
    pub fn as_slice(&self) -> &[Peer]
        ensures { result.now ≡ self.now }
    {
        self.peers.as_slice()
    }

    /// A copy of these peers. The error is: out of memory.
    pub fn copy(&self, alloc: Global) -> Result<Peers, Memory>
        ensures { IfOk result (λ copy. copy ≡ self.now) }
    {
        Ok(Peers {
            peers: self.as_slice().to_vec(alloc)?,
        })
    }
}

/// Acknowledgements in a row.
#[derive(Drop)]
pub struct Acks {
    acks: Vec<Ack>,
}

impl Model for Acks {
    ghost use Rattle.std.specs.Prelude.{List};
    ghost use Rattle.dht_ids.specs.declared.post.Ack.{Ack};

    ghost Value = { List Ack };

    ghost view = { λ a. a.acks.items };
}

impl Acks {
    /// The acknowledgements of a vector, which is not copied.
    pub fn of(items: Vec<Ack>) -> Acks
        ensures { result ≡ items.items }
    {
        Acks { acks: items }
    }

    /// The acknowledgements as a vector, which is not copied.
    pub fn into_vec(self) -> Vec<Ack>
        ensures { result.items ≡ self }
    {
        self.acks
    }

    /// The acknowledgements as a slice.
    pub fn as_slice(&self) -> &[Ack]
        ensures { result.now ≡ self.now }
    {
        self.acks.as_slice()
    }

    /// A copy of these acknowledgements. The error is: out of memory.
    pub fn copy(&self, alloc: Global) -> Result<Acks, Memory>
        ensures { IfOk result (λ copy. copy ≡ self.now) }
    {
        Ok(Acks {
            acks: self.as_slice().to_vec(alloc)?,
        })
    }
}

/// Heads in a row, each by what its judge said of it.
#[derive(Drop)]
pub struct Heads {
    heads: Vec<Judged>,
}

impl Model for Heads {
    ghost use Rattle.std.specs.Prelude.{List};
    ghost use Rattle.dht_ids.specs.declared.judge.Judged.{Judged};

    ghost Value = { List Judged };

    ghost view = { λ h. h.heads.items };
}

impl Heads {
    /// The heads of a vector, which is not copied.
    pub fn of(items: Vec<Judged>) -> Heads
        ensures { result ≡ items.items }
    {
        Heads { heads: items }
    }

    /// The heads as a vector, which is not copied.
    pub fn into_vec(self) -> Vec<Judged>
        ensures { result.items ≡ self }
    {
        self.heads
    }

    /// The heads as a slice.
    pub fn as_slice(&self) -> &[Judged]
        ensures { result.now ≡ self.now }
    {
        self.heads.as_slice()
    }

    /// A copy of these heads. The error is: out of memory.
    pub fn copy(&self, alloc: Global) -> Result<Heads, Memory>
        ensures { IfOk result (λ copy. copy ≡ self.now) }
    {
        Ok(Heads {
            heads: self.as_slice().to_vec(alloc)?,
        })
    }
}

/// Posts in a row.
#[derive(Drop)]
pub struct Posts {
    posts: Vec<Post>,
}

impl Model for Posts {
    ghost use Rattle.std.specs.Prelude.{List};
    ghost use Rattle.dht_ids.specs.declared.post.Post.{Post};

    ghost Value = { List Post };

    ghost view = { λ p. p.posts.items };
}

impl Posts {
    /// The posts of a vector, which is not copied.
    pub fn of(items: Vec<Post>) -> Posts
        ensures { result ≡ items.items }
    {
        Posts { posts: items }
    }

    /// The posts as a vector, which is not copied.
    pub fn into_vec(self) -> Vec<Post>
        ensures { result.items ≡ self }
    {
        self.posts
    }

    /// The posts as a slice.
    pub fn as_slice(&self) -> &[Post]
        ensures { result.now ≡ self.now }
    {
        self.posts.as_slice()
    }

    /// A copy of these posts and of their bytes. The error is: out of memory.
    pub fn copy(&self, alloc: Global) -> Result<Posts, Memory>
        ensures { IfOk result (λ copy. copy ≡ self.now) }
    {
        let mut posts = Vec::with_capacity(alloc, self.posts.len())?;
        for post in &self.posts {
            posts.push(post.copy(alloc)?)?;
        }
        Ok(Posts { posts })
    }
}
