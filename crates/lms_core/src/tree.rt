ghost use Rattle.std.specs.Prelude.{◌≡◌, ◌<◌, ◌≤◌, ◌+◌, ◌++◌, length, take, IfOk};
ghost use Rattle.hash_signature_model.specs.Parameters.{leaves};
ghost use Rattle.hash_signature_model.specs.Signatures.{Accepts, public_key, public_of, signature, signature_of};

use crate::chains::with_checksum;
use crate::hashing::{derive_randomizer, digest_message};
use crate::nodes::{all_nodes, all_nodes_joined};
use crate::signing::spell;
use hash_signature_model::{PrivateKey, Set};
use ivy_base::{Bytes, Memory};
use std::alloc::Global;
use std::marker::Model;
use std::sync::Arc;
use std::thread::Threads;

/// A tree that signs messages by its leaves. It keeps all its nodes: 64 bytes for each leaf, which its copies share. Contracts see it as the
/// private key that it was grown from.
#[derive(Drop)]
pub struct Tree {
    key: PrivateKey,
    nodes: Arc<Vec<[u8; 32]>, Global>,
}

impl Model for Tree {
    ghost use Rattle.std.specs.Prelude.{◌≡◌, length};
    ghost use Rattle.hash_signature_model.specs.declared.keys.PrivateKey.{PrivateKey};
    ghost use Rattle.lms_core.specs.Kept.{AreNodes};

    ghost Value = { PrivateKey };

    ghost view = { λ t. t.key };

    ghost invariant = { λ t. (length t.key.id ≡ 16) × AreNodes t.key t.nodes.value.items };
}

/// Writes bytes at a place.
fn put(out: &mut [u8], start: usize, bytes: &[u8])
    requires { start + length bytes.now ≤ length out.old }
    ensures { take (start + length bytes.now) out.new ≡ take start out.old ++ bytes.now }
{
    out[start..start + bytes.len()].copy_from_slice(bytes);
}

impl Tree {
    /// The tree of an identifier and a seed (RFC 8554, section 5.3 and appendix A). It allocates once.
    ///
    /// # Errors
    ///
    /// Where memory runs out.
    pub fn grow(alloc: Global, set: Set, id: &[u8; 16], seed: &[u8; 32]) -> Result<Tree, Memory>
        ensures { IfOk result (λ t. t ≡ record { set = set; id = id.now; seed = seed.now }) }
    {
        let key = PrivateKey {
            set,
            id: *id,
            seed: *seed,
        };
        let nodes = Arc::new(alloc, all_nodes(alloc, &key)?)?;
        Ok(Tree { key, nodes })
    }

    /// The tree of an identifier and a seed, the same as [`Tree::grow`] gives. The two halves of its leaves are grown at
    /// once, where there are two processors.
    ///
    /// # Errors
    ///
    /// Where memory runs out.
    pub fn grow_joined<R: Threads>(
        rt: &R,
        alloc: Global,
        set: Set,
        id: &[u8; 16],
        seed: &[u8; 32],
    ) -> Result<Tree, Memory>
        ensures { IfOk result (λ t. t ≡ record { set = set; id = id.now; seed = seed.now }) }
    {
        let key = PrivateKey {
            set,
            id: *id,
            seed: *seed,
        };
        let nodes = Arc::new(alloc, all_nodes_joined(rt, alloc, &key)?)?;
        Ok(Tree { key, nodes })
    }

    /// A copy, which nothing is grown for: both share the nodes.
    ///
    /// # Errors
    ///
    /// Where memory runs out.
    pub fn copy(&self, _alloc: Global) -> Result<Tree, Memory>
        ensures { IfOk result (λ t. t ≡ self.now) }
    {
        Ok(Tree {
            key: self.key,
            nodes: Arc::try_clone(&self.nodes)?,
        })
    }

    /// The public key: the two type numbers, the identifier and the root of the tree (RFC 8554, section 5.3).
    pub fn public(&self) -> [u8; 56]
        ensures { result ≡ public_key (public_of self.now) }
    {
        let mut out = [0u8; 56];
        put(&mut out[..], 0, &self.key.set.h.type_number().to_be_bytes());
        put(&mut out[..], 4, &self.key.set.w.type_number().to_be_bytes());
        put(&mut out[..], 8, &self.key.id[..]);
        put(&mut out[..], 24, &self.nodes[1][..]);
        out
    }

    /// The signature of a message by leaf q (RFC 8554, sections 4.5 and 5.4.1). It is the same each time, and allocates
    /// once. Whoever lets one leaf sign two messages gives the leaf away.
    ///
    /// # Errors
    ///
    /// Where memory runs out.
    pub fn sign_leaf(&self, alloc: Global, q: u32, message: &[u8]) -> Result<Bytes, Memory>
        requires { q < leaves self.now.set.h }
        ensures signed { IfOk result (λ s. s ≡ signature self.now.set (signature_of self.now q message.now)) }
        ensures accepted { IfOk result (λ s. Accepts (public_key (public_of self.now)) message.now s) }
    {
        let key = &self.key;
        let randomizer = derive_randomizer(&key.id, &key.seed, q);
        let digest = digest_message(&key.id, q, &randomizer[..], message);
        let code = with_checksum(key.set.w, &digest);
        let out = spell(alloc, key, q, &randomizer, &code, &self.nodes[..])?;
        Ok(Bytes::of(out))
    }
}
