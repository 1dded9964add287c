//! Posts whose names are known, so that their blocks aren't hashed again.

ghost use Rattle.std.specs.Prelude.{◌≡◌, Contains, IfSome};
ghost use Rattle.std.specs.List.{AllByRecursion};
ghost use Rattle.ivy_base.specs.Naming.{name};
ghost use Rattle.agent_model.specs.SavedBytes.{HasItsName};

use dht_ids::{Post, PostKind, Posts};
use ivy_base::{Bytes, Key, name_of};
use std::alloc::Global;
use std::marker::Model;

/// A block with its name.
struct Known {
    key: Key,
    bytes: Bytes,
}

// Written out, so that whatever drops one calls this and isn't proved over all of its parts once more.
impl Drop for Known {
    fn drop(self) {
        let Known { key: _, bytes: _ } = self;
    }
}

impl Model for Known {
    ghost use Rattle.std.specs.Prelude.{◌≡◌, List, ℕ};
    ghost use Rattle.ivy_base.specs.Naming.{name};

    ghost Value = { List ℕ };

    ghost view = { λ k. k.bytes };

    ghost invariant = { λ k. k.key ≡ name k.bytes };
}

impl Known {
    /// A copy of the block, with its name. None means out of memory.
    fn copy_of(alloc: Global, key: Key, bytes: &[u8]) -> Option<Known>
        requires { key ≡ name bytes.now }
    {
        match Bytes::copy_of(alloc, bytes) {
            Ok(bytes) => Some(Known { key, bytes }),
            Err(_) => None,
        }
    }

    /// The name, where it is that block's.
    fn name_of(&self, bytes: &[u8]) -> Option<Key>
        ensures { IfSome result (λ key. key ≡ name bytes.now) }
    {
        if self.bytes.as_slice() == bytes {
            Some(self.key)
        } else {
            None
        }
    }
}

/// The name of the block that was named last. Whatever is known, [`KnownName::name_of`] is exactly a block's name.
pub struct KnownName {
    known: Option<Known>,
}

// Written out, so that whatever drops one calls this and isn't proved over all of its parts once more.
impl Drop for KnownName {
    fn drop(self) {
        let KnownName { known: _ } = self;
    }
}

impl KnownName {
    /// No name is known.
    pub fn none() -> KnownName {
        KnownName { known: None }
    }

    /// The block's name. It is hashed only where it isn't the one whose name is known.
    pub fn name_of(&self, bytes: &[u8]) -> Key
        ensures { result ≡ name bytes.now }
    {
        match self.found(bytes) {
            Some(key) => key,
            None => name_of(bytes),
        }
    }

    /// The block's name, where it is known.
    fn found(&self, bytes: &[u8]) -> Option<Key>
        ensures { IfSome result (λ key. key ≡ name bytes.now) }
    {
        match &self.known {
            Some(known) => known.name_of(bytes),
            None => None,
        }
    }

    /// This block's name is known from now on, and no other; where memory runs out, none is.
    pub fn learn(&mut self, alloc: Global, bytes: &[u8]) {
        if self.found(bytes).is_some() {
            return;
        }
        self.known = Known::copy_of(alloc, name_of(bytes), bytes);
    }

    /// What is known; where memory runs out, nothing.
    pub fn copy(&self, alloc: Global) -> KnownName {
        let known = match &self.known {
            Some(known) => Known::copy_of(alloc, known.key, known.bytes.as_slice()),
            None => None,
        };
        KnownName { known }
    }
}

/// Posts that are to be published, and what is known of their names. Contracts see the list of posts.
pub struct NamedPosts {
    posts: Posts,
    /// Whether it is known that they have their names.
    are_named: bool,
    /// What is known of heads.
    head: KnownName,
}

// Written out, so that whatever drops one calls this and isn't proved over all of its parts once more.
impl Drop for NamedPosts {
    fn drop(self) {
        let NamedPosts {
            posts: _,
            are_named: _,
            head: _,
        } = self;
    }
}

impl Model for NamedPosts {
    ghost use Rattle.std.specs.Prelude.{◌≡◌, List, true};
    ghost use Rattle.std.specs.List.{AllByRecursion};
    ghost use Rattle.dht_ids.specs.declared.post.Post.{Post};
    ghost use Rattle.agent_model.specs.SavedBytes.{HasItsName};

    ghost Value = { List Post };

    ghost view = { λ p. p.posts };

    ghost invariant = { λ p. p.are_named ≡ true → AllByRecursion HasItsName p.posts };
}

impl NamedPosts {
    /// The posts, of whose names nothing is known yet.
    pub fn of(posts: Posts) -> NamedPosts
        ensures { result ≡ posts }
    {
        NamedPosts {
            posts,
            are_named: false,
            head: KnownName::none(),
        }
    }

    /// From now on it is known that they have their names, and this of heads.
    pub fn know(&mut self, head: KnownName)
        requires { AllByRecursion HasItsName self.old }
        ensures { self.new ≡ self.old }
    {
        self.are_named = true;
        self.head = head;
    }

    /// The posts as a slice.
    pub fn as_slice(&self) -> &[Post]
        ensures { result.now ≡ self.now }
    {
        self.posts.as_slice()
    }

    /// The name of the block of one of the posts. It is hashed only where it isn't known.
    pub fn name_of(&self, post: &Post) -> Key
        requires { Contains self.now post.now }
        ensures { result ≡ name post.now.bytes }
    {
        if post.kind == PostKind::Head {
            self.head.name_of(post.bytes.as_slice())
        } else if self.are_named {
            post.key
        } else {
            name_of(post.bytes.as_slice())
        }
    }
}
