//! What the owner of a log needs of a key that signs.

ghost use Rattle.std.specs.Prelude.{◌≡◌, ◌↔◌, ℕ, ◌+◌, List, Err, IfOk, OnOk, OnErr};
ghost use Rattle.dht_ids.specs.declared.signature.LoadFault.TheVariants.{Malformed};
ghost use Rattle.dht_ids.specs.declared.signature.SignFault.TheVariants.{Spent};
ghost use Rattle.log_model.specs.Signing.{Signing};

use crate::Hss;
use dht_ids::{LoadFault, SignFault, Signature};
use ivy_base::{Bytes, Memory, PubKey};
use std::alloc::Global;

/// A key that signs a bounded number of messages.
pub trait Signs: Sized {
    /// The bytes of its public key, how many messages it still signs, its next signature of a message, the key after that
    /// signature, and its saved bytes.
    ghost signing: { Signing Self };

    /// Which bytes are a signature of a message under the bytes of a public key: the key, the message, the signature.
    ghost accepts: { List ℕ → List ℕ → List ℕ → Type 0 };

    /// Whether it is a key that can be: its parts are within their bounds.
    ghost is_whole: { Self → Type 0 };

    /// The public key.
    fn owner(&self) -> PubKey
        ensures { result.0 ≡ signing.key self.now };

    /// How many messages it still signs.
    fn left(&self) -> u64
        ensures { result ≡ signing.remaining self.now };

    /// The next signature of a message, which is accepted under the public key. `Spent` comes exactly where nothing is
    /// left, and `Memory` where memory runs out; the key is then what it was.
    fn sign(&mut self, alloc: Global, message: &[u8]) -> Result<Signature, SignFault>
        ensures signed { IfOk result (λ s. s ≡ signing.signature self.old message.now) }
        ensures after { OnOk result (self.new ≡ signing.next self.old) }
        ensures accepted { IfOk result (λ s. accepts (signing.key self.old) message.now s) }
        ensures counted { OnOk result (signing.remaining self.new + 1 ≡ signing.remaining self.old) }
        ensures same { signing.key self.new ≡ signing.key self.old }
        ensures kept { OnErr result (self.new ≡ self.old) }
        ensures spent { (result ≡ Err Spent) ↔ (signing.remaining self.old ≡ 0) };

    /// An equal key. Only one of the two may sign from now on. The error is: out of memory.
    fn copy(&self, alloc: Global) -> Result<Self, Memory>
        ensures { IfOk result (λ copy. copy ≡ self.now) };

    /// The saved bytes of the key, which hold its secrets. The error is: out of memory.
    fn save(&self, alloc: Global) -> Result<Bytes, Memory>
        ensures bytes { IfOk result (λ bytes. bytes ≡ signing.saved self.now) }
        ensures whole { is_whole self.now };

    /// The key whose saved bytes these are, so an equal key. It may sign only where no other one signs. `Malformed` comes
    /// exactly where these are the saved bytes of no key, and `Memory` where memory runs out.
    fn load(alloc: Global, bytes: &[u8]) -> Result<Self, LoadFault>
        ensures loaded { IfOk result (λ key. is_whole key × (bytes.now ≡ signing.saved key)) }
        ensures malformed { (result ≡ Err Malformed) ↔ ((key : Self) → is_whole key → bytes.now ≡ signing.saved key → ⊥) };

    /// Their saved bytes tell keys apart.
    ghost told_apart: { (a b : Self) → is_whole a → is_whole b → signing.saved a ≡ signing.saved b → a ≡ b };
}

impl Signs for Hss {
    ghost use Rattle.hss_keys.specs.Hss.{HssAccepts};
    ghost use Rattle.hash_signature_model.specs.Saved.{hss, IsSigner};
    ghost use Rattle.hss_keys.specs.ToldApart.{signers_told_apart};

    ghost signing = { hss };

    ghost accepts = { λ key message bytes. HssAccepts key message bytes };

    ghost is_whole = { λ h. IsSigner h };

    ghost told_apart = { signers_told_apart };

    fn owner(&self) -> PubKey {
        self.owner()
    }

    fn left(&self) -> u64 {
        self.left()
    }

    fn sign(&mut self, alloc: Global, message: &[u8]) -> Result<Signature, SignFault> {
        Ok(Signature::of(self.sign(alloc, message)?))
    }

    fn copy(&self, alloc: Global) -> Result<Hss, Memory> {
        self.copy(alloc)
    }

    fn save(&self, alloc: Global) -> Result<Bytes, Memory> {
        self.save(alloc)
    }

    fn load(alloc: Global, bytes: &[u8]) -> Result<Hss, LoadFault> {
        Hss::load(alloc, bytes)
    }
}
