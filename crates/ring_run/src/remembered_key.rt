//! A key whose signatures are known to be accepted.

ghost use Rattle.hss_keys.specs.Hss.{HssAccepts};
ghost use Rattle.hash_signature_model.specs.Signer.{public_key_of};

use crate::verdicts::Verdicts;
use dht_ids::{LoadFault, SignFault, Signature};
use hss_keys::{Hss, Signs};
use ivy_base::{Bytes, Memory, PubKey};
use std::alloc::Global;
use std::marker::Model;

/// A key of `hss_keys` that keeps a verdict on each signature that it makes, so that nodes that have these verdicts needn't verify
/// it. Contracts see it as the key alone, and it signs as that does.
#[derive(Drop)]
pub struct RememberedKey {
    key: Hss,
    /// None where it was loaded, or where there was no memory for more.
    verdicts: Option<Verdicts>,
}

impl Model for RememberedKey {
    ghost use Rattle.hash_signature_model.specs.Signer.{Signer};

    ghost Value = { Signer };

    ghost view = { λ k. k.key };
}

impl RememberedKey {
    ghost use Rattle.std.specs.Prelude.{◌≡◌};

    /// The key, whose signatures are kept there from now on.
    pub fn new(key: Hss, verdicts: Verdicts) -> RememberedKey
        ensures { result ≡ key }
    {
        RememberedKey {
            key,
            verdicts: Some(verdicts),
        }
    }

    /// Keeps a verdict on a signature, where there are verdicts.
    fn remember(&self, message: &[u8], signature: &[u8])
        requires { HssAccepts (public_key_of self.now) message.now signature.now }
    {
        if let Some(verdicts) = &self.verdicts {
            verdicts.keep(&self.key.owner(), message, signature);
        }
    }
}

/// The same verdicts, where there are some and there is memory.
fn shared(verdicts: &Option<Verdicts>) -> Option<Verdicts> {
    match verdicts {
        Some(verdicts) => verdicts.share().ok(),
        None => None,
    }
}

impl Signs for RememberedKey {
    ghost use Rattle.hss_keys.specs.Hss.{HssAccepts};
    ghost use Rattle.hash_signature_model.specs.Saved.{hss, IsSigner};
    ghost use Rattle.hss_keys.specs.ToldApart.{signers_told_apart};

    ghost signing = { hss };

    ghost accepts = { λ key message bytes. HssAccepts key message bytes };

    ghost is_whole = { λ h. IsSigner h };

    ghost told_apart = { signers_told_apart };

    fn owner(&self) -> PubKey {
        self.key.owner()
    }

    fn left(&self) -> u64 {
        self.key.left()
    }

    fn sign(&mut self, alloc: Global, message: &[u8]) -> Result<Signature, SignFault> {
        let signature = self.key.sign(alloc, message)?;
        self.remember(message, signature.as_slice());
        Ok(Signature::of(signature))
    }

    fn copy(&self, alloc: Global) -> Result<RememberedKey, Memory> {
        Ok(RememberedKey {
            key: self.key.copy(alloc)?,
            verdicts: shared(&self.verdicts),
        })
    }

    fn save(&self, alloc: Global) -> Result<Bytes, Memory> {
        self.key.save(alloc)
    }

    fn load(alloc: Global, bytes: &[u8]) -> Result<RememberedKey, LoadFault> {
        Ok(RememberedKey {
            key: Hss::load(alloc, bytes)?,
            verdicts: None,
        })
    }
}
