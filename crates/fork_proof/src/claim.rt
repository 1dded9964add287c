//! Heads with what their signatures sign.

ghost use Rattle.std.specs.Prelude.{◌≡◌, ◌↔◌, ◌≤◌, ℕ, List, IsTrue, IfSome, IfNone, length, take};
ghost use Rattle.ivy_base.specs.declared.key.PubKey.{PubKey};
ghost use Rattle.log_model.specs.Vector.{Stamp};
ghost use Rattle.log_model.specs.Heads.{stamp};
ghost use Rattle.log_model.specs.Spelling.{IsHeadOf, head_message};
ghost use Rattle.hss_keys.specs.Hss.{HssAccepts};

use hss_keys::Hss;
use log_records::Head;

/// How many bytes of a head's block its signature signs.
const SIGNED_LEN: usize = 88;

/// A head, and the front of its block, which its signature signs.
#[derive(Clone, Copy)]
pub struct Claim<'a> {
    /// The head, whose signature isn't verified yet.
    pub head: Head<'a>,
    /// What the signature signs: the block's first 88 bytes.
    pub signed: &'a [u8],
}

impl<'a> Claim<'a> {
    /// The head whose block these bytes are. There is none where they are the block of no head.
    pub fn read(bytes: &'a [u8]) -> Option<Claim<'a>>
        ensures some { IfSome result (λ c. IsHeadOf c.head.owner bytes.now (stamp c.head.seq c.head.name) c.head.signature.now) }
        ensures signed { IfSome result (λ c. c.signed.now ≡ head_message c.head.owner (stamp c.head.seq c.head.name)) }
        ensures none { IfNone result ((owner : PubKey) (newest : Stamp) (signature : List ℕ) → IsHeadOf owner bytes.now newest signature → ⊥) }
    {
        let head = Head::read(bytes)?;
        Some(Claim {
            head,
            signed: signed_part(bytes),
        })
    }

    /// Whether the signature of those bytes is accepted under the head's public key.
    pub fn is_signed(&self) -> bool
        ensures { IsTrue result ↔ HssAccepts self.now.head.owner.0 self.now.signed.now self.now.head.signature.now }
    {
        Hss::verify(&self.head.owner, self.signed, self.head.signature).is_ok()
    }
}

/// What the signature of a head of that block signs.
fn signed_part(block: &[u8]) -> &[u8]
    requires { 88 ≤ length block.now }
    ensures { result.now ≡ take 88 block.now }
{
    &block[..SIGNED_LEN]
}
