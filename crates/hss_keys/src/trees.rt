//! The levels of a key that signs.

ghost use Rattle.std.specs.Prelude.{◌≡◌, ◌<◌, ◌++◌, IfOk, OnOk, IsTrue};
ghost use Rattle.hash_signature_model.specs.Parameters.{leaves};
ghost use Rattle.hash_signature_model.specs.Signer.{lower_key, leaf_signature, tree_public, signed_lower};

use ivy_base::{Bytes, Memory};
use lms_core::{PrivateKey, Set, Tree, lower_id, lower_seed};
use std::alloc::Global;
use std::marker::Model;

/// A tree with the private key that it was grown from. Contracts see it as that key.
#[derive(Drop)]
pub struct Level {
    key: PrivateKey,
    tree: Tree,
}

impl Model for Level {
    ghost use Rattle.std.specs.Prelude.{◌≡◌};
    ghost use Rattle.hash_signature_model.specs.declared.keys.PrivateKey.{PrivateKey};

    ghost Value = { PrivateKey };

    ghost view = { λ l. l.key };

    ghost invariant = { λ l. l.tree ≡ l.key };
}

/// The private key of the tree below a leaf.
fn derive_lower(upper: &PrivateKey, leaf: u32, set: Set) -> PrivateKey
    ensures { result ≡ lower_key upper.now leaf set }
{
    PrivateKey {
        set,
        id: lower_id(&upper.id, &upper.seed, leaf),
        seed: lower_seed(&upper.id, &upper.seed, leaf),
    }
}

/// Whether two private keys are one.
fn is_same_key(a: &PrivateKey, b: &PrivateKey) -> bool
    ensures { IsTrue result → a.now ≡ b.now }
{
    a.set == b.set && a.id == b.id && a.seed == b.seed
}

impl Level {
    /// The level of a private key.
    pub fn grow(alloc: Global, key: PrivateKey) -> Result<Level, Memory>
        ensures { IfOk result (λ l. l ≡ key) }
    {
        let tree = Tree::grow(alloc, key.set, &key.id, &key.seed)?;
        Ok(Level { key, tree })
    }

    /// A copy, which nothing is grown for.
    pub fn copy(&self, alloc: Global) -> Result<Level, Memory>
        ensures { IfOk result (λ l. l ≡ self.now) }
    {
        Ok(Level {
            key: self.key,
            tree: self.tree.copy(alloc)?,
        })
    }

    /// The private key.
    pub fn key(&self) -> &PrivateKey
        ensures { result.now ≡ self.now }
    {
        &self.key
    }

    /// The public key of the tree.
    pub fn public(&self) -> [u8; 56]
        ensures { result ≡ tree_public self.now }
    {
        self.tree.public()
    }

    /// The signature of a message by a leaf.
    pub fn sign_leaf(&self, alloc: Global, leaf: u32, message: &[u8]) -> Result<Bytes, Memory>
        requires { leaf < leaves self.now.set.h }
        ensures { IfOk result (λ s. s ≡ leaf_signature self.now leaf message.now) }
    {
        self.tree.sign_leaf(alloc, leaf, message)
    }
}

/// A level below a leaf of another, with the signature of its public key by that leaf, and that key. Contracts see it
/// as the private key of the level above, the leaf and the set.
#[derive(Drop)]
pub struct Lower {
    upper: PrivateKey,
    leaf: u32,
    set: Set,
    level: Level,
    signed: Bytes,
}

impl Model for Lower {
    ghost use Rattle.std.specs.Prelude.{◌≡◌};
    ghost use Rattle.hash_signature_model.specs.Signer.{lower_key, signed_lower};
    ghost use Rattle.hss_keys.specs.Signer.{LowerPlace};

    ghost Value = { LowerPlace };

    ghost view = { λ l. record { upper = l.upper; leaf = l.leaf; set = l.set } };

    ghost invariant = { λ l. (l.level ≡ lower_key l.upper l.leaf l.set) × (l.signed ≡ signed_lower l.upper l.leaf l.set) };
}

/// Bytes with others after them.
fn join(alloc: Global, front: &[u8], back: &[u8]) -> Result<Bytes, Memory>
    ensures { IfOk result (λ b. b ≡ front.now ++ back.now) }
{
    let mut out = Vec::with_capacity(alloc, front.len() + back.len())?;
    out.extend_from_slice(front)?;
    out.extend_from_slice(back)?;
    Ok(Bytes::of(out))
}

impl Lower {
    /// The level below a leaf, which is grown, and its key signed.
    pub fn grow(alloc: Global, upper: &Level, leaf: u32, set: Set) -> Result<Lower, Memory>
        requires { leaf < leaves upper.now.set.h }
        ensures { IfOk result (λ l. l ≡ record { upper = upper.now; leaf = leaf; set = set }) }
    {
        let level = Level::grow(alloc, derive_lower(upper.key(), leaf, set))?;
        let public = level.public();
        let signature = upper.sign_leaf(alloc, leaf, &public[..])?;
        let signed = join(alloc, signature.as_slice(), &public[..])?;
        Ok(Lower {
            upper: *upper.key(),
            leaf,
            set,
            level,
            signed,
        })
    }

    /// A copy, which nothing is grown for.
    pub fn copy(&self, alloc: Global) -> Result<Lower, Memory>
        ensures { IfOk result (λ l. l ≡ self.now) }
    {
        Ok(Lower {
            upper: self.upper,
            leaf: self.leaf,
            set: self.set,
            level: self.level.copy(alloc)?,
            signed: self.signed.copy(alloc)?,
        })
    }

    /// Whether this is the level below that leaf.
    fn is_below(&self, upper: &PrivateKey, leaf: u32, set: Set) -> bool
        ensures { IsTrue result → self.now ≡ record { upper = upper.now; leaf = leaf; set = set } }
    {
        self.leaf == leaf && self.set == set && is_same_key(&self.upper, upper)
    }

    /// Makes this the level below that leaf, which is grown only where this is another one.
    pub fn renew(&mut self, alloc: Global, upper: &Level, leaf: u32, set: Set) -> Result<(), Memory>
        requires { leaf < leaves upper.now.set.h }
        ensures { OnOk result (self.new ≡ record { upper = upper.now; leaf = leaf; set = set }) }
    {
        if !self.is_below(upper.key(), leaf, set) {
            *self = Lower::grow(alloc, upper, leaf, set)?;
        }
        Ok(())
    }

    /// The level itself.
    pub fn level(&self) -> &Level
        ensures { result.now ≡ lower_key self.now.upper self.now.leaf self.now.set }
    {
        &self.level
    }

    /// The signature of its public key, and that key.
    pub fn signed(&self) -> &[u8]
        ensures { result.now ≡ signed_lower self.now.upper self.now.leaf self.now.set }
    {
        self.signed.as_slice()
    }
}
