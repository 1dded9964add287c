//! A judge of heads that remembers.

ghost use Rattle.std.specs.Prelude.{◌≡◌, ◌↔◌, ◌≤◌, length, take, IsTrue, IfSome, IfNone};
ghost use Rattle.ivy_base.specs.Naming.{head_key_of};
ghost use Rattle.dht_ids.specs.declared.judge.Judged.{Judged};
ghost use Rattle.hss_keys.specs.Hss.{HssAccepts};
ghost use Rattle.log_heads.specs.Signed.{IsSignedHead};

use crate::verdicts::Verdicts;
use dht_ids::{Judge, Judged};
use hss_keys::Hss;
use ivy_base::{Key, PubKey, head_key};
use log_heads::HssJudge;
use log_records::Head;

/// How many bytes of a head's block its signature signs: all that stand before it.
const SIGNED_LEN: usize = 88;

/// The judge of signed heads, with available verdicts: it says what [`HssJudge`] says, and verifies no signature that it has
/// a verdict on.
#[derive(Clone, Copy)]
pub(crate) struct RememberingJudge<'v> {
    pub(crate) verdicts: &'v Verdicts,
}

impl<'v> Judge for RememberingJudge<'v> {
    ghost use Rattle.dhash_model.specs.Signed.{hss_judged};

    ghost judges = { λ _ key bytes. hss_judged key bytes };

    fn judge(&self, key: &Key, bytes: &[u8]) -> Option<Judged> {
        judged(self.verdicts, key, bytes)
    }

    fn may_reach(&self, key: &Key, bytes: &[u8], seq: u32) -> bool {
        HssJudge.may_reach(key, bytes, seq)
    }
}

/// What the bytes say as a signed head under the key.
fn judged(verdicts: &Verdicts, key: &Key, bytes: &[u8]) -> Option<Judged>
    ensures some { IfSome result (IsSignedHead key.now bytes.now) }
    ensures none { IfNone result ((judged : Judged) → IsSignedHead key.now bytes.now judged → ⊥) }
{
    let head = Head::read(bytes)?;
    if !is_signed_under(verdicts, &head, signed_part(bytes), key) {
        return None;
    }
    Some(Judged {
        seq: head.seq,
        name: head.name,
    })
}

/// What the signature of a head of that block signs.
fn signed_part(block: &[u8]) -> &[u8]
    requires { 88 ≤ length block.now }
    ensures { result.now ≡ take 88 block.now }
{
    &block[..SIGNED_LEN]
}

/// Whether the key is the SHA-1 of the head's public key, and its signature signs those bytes. The key is tested first.
fn is_signed_under(verdicts: &Verdicts, head: &Head, signed: &[u8], key: &Key) -> bool
    ensures { IsTrue result ↔ (key.now ≡ head_key_of head.now.owner) × HssAccepts head.now.owner.0 signed.now head.now.signature.now }
{
    *key == head_key(&head.owner) && accepts(verdicts, &head.owner, signed, head.signature)
}

/// Whether the signature of the message is accepted under the key. It is verified where no verdict on it is available, and
/// kept where it is accepted.
fn accepts(verdicts: &Verdicts, owner: &PubKey, message: &[u8], signature: &[u8]) -> bool
    ensures { IsTrue result ↔ HssAccepts owner.now.0 message.now signature.now }
{
    if verdicts.have(owner, message, signature) {
        return true;
    }
    if Hss::verify(owner, message, signature).is_err() {
        return false;
    }
    verdicts.keep(owner, message, signature);
    true
}
