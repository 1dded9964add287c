//! Public keys with their head keys.

ghost use Rattle.std.specs.Prelude.{◌≡◌, ◌<◌, ◌++◌, ◌↔◌, not, length, get_or, IsTrue, IfOk, IfSome};
ghost use Rattle.std.specs.List.{AllByRecursion, list_all};
ghost use Rattle.ivy_base.specs.Naming.{head_key_of};
ghost use Rattle.ivy_base.specs.declared.key.PubKey.{PubKey};
ghost use Rattle.log_model.specs.View.{is_log_of, ascend, have_own_head_keys};
ghost use Rattle.log_model.specs.ViewKeys.{IsPubKey};
ghost use Rattle.view_blocks.specs.Faults.{keys_of};

use crate::form::KEY_LEN;
use block_parts::check_block;
use ivy_base::{Key, Memory, PubKey, head_key};
use std::alloc::Global;
use std::marker::Model;

/// Public keys, each with its head key, which is computed once. Contracts see the public keys.
#[derive(Drop)]
pub struct Owners {
    keys: Vec<PubKey>,
    heads: Vec<Key>,
}

impl Model for Owners {
    ghost use Rattle.std.specs.Prelude.{List};
    ghost use Rattle.ivy_base.specs.declared.key.PubKey.{PubKey};
    ghost use Rattle.view_blocks.specs.Owners.{AreHeads};

    ghost Value = { List PubKey };

    ghost view = { λ o. o.keys.items };

    ghost invariant = { λ o. AreHeads o.heads.items o.keys.items };
}

impl Owners {
    /// These keys, which are not copied. The error is: out of memory.
    pub fn of(alloc: Global, keys: Vec<PubKey>) -> Result<Owners, Memory>
        ensures ok { IfOk result (λ owners. owners ≡ keys.items) }
        ensures keys { IfOk result (AllByRecursion IsPubKey) }
    {
        let mut heads = Vec::with_capacity(alloc, keys.len())?;
        for key in &keys {
            check_block(&key.0);
            heads.push(head_key(key))?;
        }
        Ok(Owners { keys, heads })
    }

    /// A copy. The error is: out of memory.
    pub fn copy(&self, alloc: Global) -> Result<Owners, Memory>
        ensures { IfOk result (λ copy. copy ≡ self.now) }
    {
        let keys = self.keys.to_vec(alloc)?;
        let heads = self.heads.to_vec(alloc)?;
        Ok(Owners { keys, heads })
    }

    /// The keys.
    pub fn keys(&self) -> &[PubKey]
        ensures { result.now ≡ self.now }
    {
        self.keys.as_slice()
    }

    /// Whether one of the keys has this head key.
    pub fn has(&self, log: &Key) -> bool
        ensures { result ≡ is_log_of self.now log.now }
    {
        self.heads.contains(log)
    }

    /// The head key of that public key: the one that is kept, where the key is one of these, and else it is computed.
    pub fn head_key(&self, owner: &PubKey) -> Key
        ensures { result ≡ head_key_of owner.now }
    {
        match self.place(owner) {
            Some(place) => self.heads[place],
            None => head_key(owner),
        }
    }

    /// Where the key stands, if it is one of these.
    fn place(&self, owner: &PubKey) -> Option<usize>
        ensures { IfSome result (λ place. (place < length self.now) × ((key : PubKey) → get_or self.now place key ≡ owner.now)) }
    {
        self.keys.iter().position(|key| is_one(key, owner))
    }

    /// Whether no two keys, of these and the others together, have one head key.
    #[tactic(auto, using(crate::proofs::Heads::own_heads_of_both))]
    pub fn are_apart(&self, others: &Owners) -> bool
        ensures { result ≡ have_own_head_keys (self.now ++ others.now) }
    {
        self.have_own_heads() && others.have_own_heads() && others.has_none(&self.heads)
    }

    /// Whether none of these is the head key of one of the keys.
    fn has_none(&self, heads: &[Key]) -> bool
        ensures { result ≡ list_all (λ head. not (is_log_of self.now head)) heads.now }
    {
        heads.iter().all(|head| !self.has(head))
    }

    /// Whether no two of the keys have one head key.
    fn have_own_heads(&self) -> bool
        ensures { result ≡ have_own_head_keys self.now }
    {
        for (i, head) in self.heads.iter().enumerate() {
            if self.heads[i + 1..].contains(head) {
                return false;
            }
        }
        true
    }
}

/// Whether the keys are one.
fn is_one(key: &PubKey, other: &PubKey) -> bool
    ensures { IsTrue result ↔ (key.now ≡ other.now) }
{
    key == other
}

/// Whether the keys ascend strictly by their bytes.
pub fn ascend(keys: &[PubKey]) -> bool
    ensures { result ≡ ascend keys.now }
{
    keys.is_sorted_by(|a, b| a < b)
}

/// The keys of these bytes each. The error is: out of memory.
pub fn keys_of(alloc: Global, each: &[[u8; KEY_LEN]]) -> Result<Vec<PubKey>, Memory>
    ensures { IfOk result (λ keys. keys.items ≡ keys_of each.now) }
{
    Ok(each.iter().map(|bytes| PubKey(*bytes)).collect(alloc)?)
}

/// A copy of the keys. The error is: out of memory.
pub fn copy_of(alloc: Global, keys: &[PubKey]) -> Result<Vec<PubKey>, Memory>
    ensures { IfOk result (λ copy. copy.items ≡ keys.now) }
{
    Ok(keys.to_vec(alloc)?)
}
