//! Keys that sign, saved and loaded.

ghost use Rattle.std.specs.Prelude.{◌≡◌, ◌<◌, ◌≤◌, ◌↔◌, length, Err, IfOk};
ghost use Rattle.dht_ids.specs.declared.signature.LoadFault.TheVariants.{Malformed};
ghost use Rattle.hash_signature_model.specs.Signer.{Signer, leaf_used};
ghost use Rattle.hash_signature_model.specs.Saved.{saved_bytes, IsSigner};
ghost use Rattle.hss_keys.specs.SavedReading.{said};

use super::Hss;
use crate::save::{Saved, write_signer};
use crate::spelling::choose_leaf;
use crate::trees::{Level, Lower};
use dht_ids::LoadFault;
use ivy_base::{Bytes, Memory};
use lms_core::{PrivateKey, Set};
use std::alloc::Global;

/// The levels below a level and of each other whose leaves signature n uses.
fn grow_used(alloc: Global, top: &Level, sets: &[Set], n: u64) -> Result<Vec<Lower>, Memory>
    requires { length sets.now ≤ 2 }
    ensures { IfOk result (λ v. length v.items ≡ length sets.now) }
{
    let mut lower: Vec<Lower> = Vec::with_capacity(alloc, sets.len())?;
    'levels: for (i, set) in sets.iter().enumerate() {
        let next = match lower.last() {
            Some(above) => grow_next(alloc, above.level(), *set, &sets[i..], n)?,
            None => grow_next(alloc, top, *set, &sets[i..], n)?,
        };
        lower.push(next)?;
    }
    Ok(lower)
}

/// The level of that set below the leaf that signature n uses of a level above levels of these sets.
fn grow_next(alloc: Global, above: &Level, set: Set, sets: &[Set], n: u64) -> Result<Lower, Memory>
    requires { length sets.now ≤ 2 }
    ensures { IfOk result (λ l. l ≡ record { upper = above.now; leaf = leaf_used above.now.set sets.now n; set = set }) }
{
    let leaf = choose_leaf(above.key().set, sets, n);
    Lower::grow(alloc, above, leaf, set)
}

/// The key of a saved signer. It grows the trees that the next signature uses.
fn regrow(alloc: Global, saved: &Saved) -> Result<Hss, Memory>
    requires few { saved.now.count ≤ 3 }
    requires signer { IsSigner (said saved.now) }
    ensures { IfOk result (λ h. h ≡ said saved.now) }
{
    let sets = saved.levels();
    let key = PrivateKey {
        set: sets[0],
        id: saved.id,
        seed: saved.seed,
    };
    let top = Level::grow(alloc, key)?;
    let lower = grow_used(alloc, &top, &sets[1..], saved.made)?;
    Ok(Hss {
        top,
        sets: sets[1..].to_vec(alloc)?,
        lower,
        made: saved.made,
    })
}

impl Hss {
    /// The saved bytes of the key: its identifier, its seed, its sets and how many signatures it made. They hold its
    /// secrets. A key that is loaded from them is equal, so it may sign only where this one signs no more.
    ///
    /// # Errors
    ///
    /// Where memory runs out.
    pub fn save(&self, alloc: Global) -> Result<Bytes, Memory>
        ensures bytes { IfOk result (λ bytes. bytes ≡ saved_bytes self.now) }
        ensures whole { IsSigner self.now }
    {
        let key = self.top.key();
        let mut sets = Vec::with_capacity(alloc, self.sets.len() + 1)?;
        sets.push(key.set)?;
        sets.extend_from_slice(&self.sets[..])?;
        write_signer(alloc, &key.id, &key.seed, &sets[..], self.made)
    }

    /// The key whose saved bytes these are. It grows the trees that the next signature uses: one for each level.
    ///
    /// # Errors
    ///
    /// `Malformed` exactly where these are the saved bytes of no signer, among others where the number of signatures is
    /// above that of the leaves, and `Memory` where memory runs out.
    pub fn load(alloc: Global, bytes: &[u8]) -> Result<Hss, LoadFault>
        ensures loaded { IfOk result (λ h. IsSigner h × (bytes.now ≡ saved_bytes h)) }
        ensures malformed { (result ≡ Err Malformed) ↔ ((signer : Signer) → IsSigner signer → bytes.now ≡ saved_bytes signer → ⊥) }
    {
        let Some(saved) = Saved::read(bytes) else {
            return Err(LoadFault::Malformed);
        };
        match regrow(alloc, &saved) {
            Ok(key) => Ok(key),
            Err(Memory) => Err(LoadFault::Memory),
        }
    }
}
