//! The judge of heads that their owners sign.

ghost use Rattle.std.specs.Prelude.{◌≡◌, ◌↔◌, ◌≤◌, length, take, IsTrue, IfSome, IfNone};
ghost use Rattle.ivy_base.specs.Naming.{head_key_of};
ghost use Rattle.dht_ids.specs.declared.judge.Judged.{Judged};
ghost use Rattle.hss_keys.specs.Hss.{HssAccepts};
ghost use Rattle.log_heads.specs.Signed.{IsSignedHead};

use dht_ids::{Judge, Judged};
use hss_keys::Hss;
use ivy_base::{Key, head_key};
use log_records::Head;

/// How many bytes of a head's block its signature signs: all that stand before it.
const SIGNED_LEN: usize = 88;

/// The judge of signed heads.
///
/// It takes the bytes exactly where they are a head ([`Head::read`]), the key is the SHA-1 of its public key, and its
/// signature of the block's first 88 bytes is accepted under that public key (RFC 8554, section 6.3; [`Hss::verify`]).
/// Nothing allocates.
#[derive(Clone, Copy)]
pub struct HssJudge;

impl Judge for HssJudge {
    ghost use Rattle.dhash_model.specs.Signed.{hss_judged};

    ghost judges = { λ _ key bytes. hss_judged key bytes };

    fn judge(&self, key: &Key, bytes: &[u8]) -> Option<Judged> {
        judged(key, bytes)
    }

    // By the number that stands in the head: nothing is verified.
    fn may_reach(&self, _key: &Key, bytes: &[u8], seq: u32) -> bool {
        match Head::read(bytes) {
            Some(head) => head.seq >= seq,
            None => false,
        }
    }
}

/// What the bytes say as a signed head under the key.
fn judged(key: &Key, bytes: &[u8]) -> Option<Judged>
    ensures some { IfSome result (IsSignedHead key.now bytes.now) }
    ensures none { IfNone result ((judged : Judged) → IsSignedHead key.now bytes.now judged → ⊥) }
{
    let head = Head::read(bytes)?;
    if !is_signed_under(&head, signed_part(bytes), key) {
        return None;
    }
    Some(Judged {
        seq: head.seq,
        name: head.name,
    })
}

/// What the signature of a head of that block signs.
fn signed_part(block: &[u8]) -> &[u8]
    requires { 88 ≤ length block.now }
    ensures { result.now ≡ take 88 block.now }
{
    &block[..SIGNED_LEN]
}

/// Whether the key is the SHA-1 of the head's public key, and its signature signs those bytes. The key is tested first.
fn is_signed_under(head: &Head, signed: &[u8], key: &Key) -> bool
    ensures { IsTrue result ↔ (key.now ≡ head_key_of head.now.owner) × HssAccepts head.now.owner.0 signed.now head.now.signature.now }
{
    *key == head_key(&head.owner) && Hss::verify(&head.owner, signed, head.signature).is_ok()
}
