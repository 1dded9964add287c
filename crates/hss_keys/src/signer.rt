//! A key that signs.

ghost use Rattle.std.specs.Prelude.{◌≡◌, ◌↔◌, ◌<◌, ◌≤◌, length, Err, IfOk, OnOk, OnErr};
ghost use Rattle.dht_ids.specs.declared.signature.SignFault.TheVariants.{Spent};
ghost use Rattle.hss_keys.specs.Hss.{HssAccepts};
ghost use Rattle.hash_signature_model.specs.Signer.{left_of, public_key_of, next_signature, one_more_made};

mod saving;

use crate::spelling::{append, count_messages, push_signed};
use crate::trees::{Level, Lower};
use dht_ids::SignFault;
use ivy_base::{Bytes, Memory, PubKey};
use lms_core::{PrivateKey, Set};
use std::alloc::Global;
use std::marker::Model;

/// A key of one to three levels that signs as many messages as the product of its levels' leaves. It keeps the tree of
/// each level, and grows a new one only where the leaf above it changes. Contracts see its identifier, its seed, its
/// sets from the top down, and how many signatures it made.
#[derive(Drop)]
pub struct Hss {
    top: Level,
    sets: Vec<Set>,
    lower: Vec<Lower>,
    made: u64,
}

impl Model for Hss {
    ghost use Rattle.std.specs.Prelude.{◌≡◌, ◌≤◌, ◌∷◌, length};
    ghost use Rattle.hash_signature_model.specs.Signer.{Signer, capacity};
    ghost use Rattle.hash_signature_model.specs.Saved.{AreOctets};

    ghost Value = { Signer };

    ghost view = { λ h. record { id = h.top.id; seed = h.top.seed; sets = h.top.set ∷ h.sets.items; made = h.made } };

    ghost invariant = { λ h. AreOctets 16 h.top.id × AreOctets 32 h.top.seed × (length h.sets.items ≤ 2) × (length h.lower.items ≡ length h.sets.items) × (h.made ≤ capacity (h.top.set ∷ h.sets.items)) };
}

/// The levels below the first leaf of a level, and of each other.
fn grow_lower(alloc: Global, top: &Level, sets: &[Set]) -> Result<Vec<Lower>, Memory>
    ensures { IfOk result (λ v. length v.items ≡ length sets.now) }
{
    let mut lower: Vec<Lower> = Vec::with_capacity(alloc, sets.len())?;
    'levels: for set in sets {
        let next = match lower.last() {
            Some(above) => Lower::grow(alloc, above.level(), 0, *set)?,
            None => Lower::grow(alloc, top, 0, *set)?,
        };
        lower.push(next)?;
    }
    Ok(lower)
}

/// Copies of levels.
fn copy_lower(alloc: Global, lower: &[Lower]) -> Result<Vec<Lower>, Memory>
    ensures { IfOk result (λ v. length v.items ≡ length lower.now) }
{
    let mut copies = Vec::with_capacity(alloc, lower.len())?;
    'levels: for level in lower {
        copies.push(level.copy(alloc)?)?;
    }
    Ok(copies)
}

impl Hss {
    /// The key of an identifier, a seed and one to three sets, which stand from the top down. It grows one tree for each
    /// level.
    ///
    /// # Errors
    ///
    /// Where memory runs out.
    pub fn grow(alloc: Global, id: &[u8; 16], seed: &[u8; 32], sets: &[Set]) -> Result<Hss, Memory>
        requires some { 0 < length sets.now }
        requires few { length sets.now ≤ 3 }
        ensures { IfOk result (λ h. h ≡ record { id = id.now; seed = seed.now; sets = sets.now; made = 0 }) }
    {
        let key = PrivateKey {
            set: sets[0],
            id: *id,
            seed: *seed,
        };
        let top = Level::grow(alloc, key)?;
        let lower = grow_lower(alloc, &top, &sets[1..])?;
        Ok(Hss {
            top,
            sets: sets[1..].to_vec(alloc)?,
            lower,
            made: 0,
        })
    }

    /// An equal key, whose trees are copied and not grown. Only one of the two may sign from now on.
    ///
    /// # Errors
    ///
    /// Where memory runs out.
    pub fn copy(&self, alloc: Global) -> Result<Hss, Memory>
        ensures { IfOk result (λ h. h ≡ self.now) }
    {
        Ok(Hss {
            top: self.top.copy(alloc)?,
            sets: self.sets.as_slice().to_vec(alloc)?,
            lower: copy_lower(alloc, &self.lower[..])?,
            made: self.made,
        })
    }

    /// The public key: the number of levels and the public key of the top tree (RFC 8554, section 6.1).
    pub fn owner(&self) -> PubKey
        ensures { result.0 ≡ public_key_of self.now }
    {
        let count = self.sets.len() as u32 + 1;
        let mut out = [0u8; 60];
        out[..4].copy_from_slice(&count.to_be_bytes());
        out[4..].copy_from_slice(&self.top.public()[..]);
        PubKey(out)
    }

    /// How many messages it still signs: the product of all levels' leaves less the signatures made.
    pub fn left(&self) -> u64
        ensures { result ≡ left_of self.now }
    {
        let leaves = self.top.key().set.h.leaf_count() as u64;
        leaves * count_messages(&self.sets[..]) - self.made
    }

    /// The next signature of a message, which is not counted yet.
    fn spell(&mut self, alloc: Global, message: &[u8]) -> Result<Bytes, Memory>
        ensures signed { IfOk result (λ s. s ≡ next_signature self.old message.now) }
        ensures kept { self.new ≡ self.old }
    {
        let mut out = Vec::new(alloc);
        append(&mut out, &(self.sets.len() as u32).to_be_bytes())?;
        push_signed(
            alloc,
            &mut out,
            &self.top,
            &self.sets[..],
            self.lower.as_mut_slice(),
            self.made,
            message,
        )?;
        Ok(Bytes::of(out))
    }

    /// The next signature of a message (RFC 8554, section 6.2), by a leaf that has not signed and will not sign again.
    ///
    /// # Errors
    ///
    /// `Spent` exactly where nothing is left, and `Memory` where memory runs out. The key is then what it was.
    pub fn sign(&mut self, alloc: Global, message: &[u8]) -> Result<Bytes, SignFault>
        ensures signed { IfOk result (λ s. s ≡ next_signature self.old message.now) }
        ensures accepted { IfOk result (λ s. HssAccepts (public_key_of self.old) message.now s) }
        ensures counted { OnOk result (self.new ≡ one_more_made self.old) }
        ensures kept { OnErr result (self.new ≡ self.old) }
        ensures spent { (result ≡ Err Spent) ↔ (left_of self.old ≡ 0) }
    {
        if self.left() == 0 {
            return Err(SignFault::Spent);
        }
        match self.spell(alloc, message) {
            Ok(bytes) => {
                self.made += 1;
                Ok(bytes)
            }
            Err(Memory) => Err(SignFault::Memory),
        }
    }
}
