//! The judge of heads that nobody signs.

ghost use Rattle.std.specs.Prelude.{◌≡◌, ◌↔◌, [], IsTrue, IfSome, IfNone};
ghost use Rattle.ivy_base.specs.Naming.{head_key_of};
ghost use Rattle.dht_ids.specs.declared.judge.Judged.{Judged};
ghost use Rattle.log_records.specs.Heads.{IsPlainHead};

use crate::head::Head;
use dht_ids::{Judge, Judged};
use ivy_base::{Key, head_key};

/// The judge of plain heads, whose signature is empty: for tests, and for a ring whose nodes trust one another.
///
/// It takes the bytes exactly where they are a head ([`Head::read`]), the key is the SHA-1 of its public key, and
/// its signature is empty.
#[derive(Clone, Copy)]
pub struct PlainJudge;

impl Judge for PlainJudge {
    ghost use Rattle.log_records.specs.Heads.{plain_judged};

    ghost judges = { λ _ key bytes. plain_judged key bytes };

    fn judge(&self, key: &Key, bytes: &[u8]) -> Option<Judged> {
        judged(key, bytes)
    }
}

/// What the bytes say as a plain head under the key.
fn judged(key: &Key, bytes: &[u8]) -> Option<Judged>
    ensures some { IfSome result (IsPlainHead key.now bytes.now) }
    ensures none { IfNone result ((judged : Judged) → IsPlainHead key.now bytes.now judged → ⊥) }
{
    let Some(head) = Head::read(bytes) else {
        return None;
    };
    if !is_plain_under(&head, key) {
        return None;
    }
    Some(Judged {
        seq: head.seq,
        name: head.name,
    })
}

/// Whether the head has an empty signature, and the key is the SHA-1 of its public key.
fn is_plain_under(head: &Head, key: &Key) -> bool
    ensures { IsTrue result ↔ (head.now.signature.now ≡ []) × (key.now ≡ head_key_of head.now.owner) }
{
    head.signature.is_empty() && *key == head_key(&head.owner)
}
