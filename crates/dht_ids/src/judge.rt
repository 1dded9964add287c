//! The judge of heads, whose form the ring does not know.

ghost use Rattle.std.specs.Prelude.{◌≡◌, ◌<◌, ℕ, List, Some, false};
ghost use Rattle.std.specs.declared.option.Option.{Option};
ghost use Rattle.ivy_base.specs.declared.key.Key.{Key};
ghost use Rattle.dht_ids.specs.declared.judge.Judged.{Judged};

use ivy_base::Key;

/// What a good head says: the record that is its log's newest.
#[derive(Clone, Copy, PartialEq, Eq)]
pub struct Judged {
    /// The record's number in its log. Of two heads under one key the one of the greater number is newer.
    pub seq: u32,
    /// The record's name.
    pub name: Key,
}

/// Who tells a good head from any other bytes.
pub trait Judge: Copy {
    /// What the bytes say as a head under the key, or None where they are none.
    ghost judges: { Self → Key → List ℕ → Option Judged };

    /// What the bytes say as a head under the key, or None where they are none. The same arguments get the same
    /// answer.
    fn judge(&self, key: &Key, bytes: &[u8]) -> Option<Judged>
        ensures { result ≡ judges self.now key.now bytes.now };

    /// Whether the bytes may be a head under the key of that number or of a greater one: false only where they are none. Here they
    /// are judged; a judge that sees the number in the bytes need not.
    fn may_reach(&self, key: &Key, bytes: &[u8], seq: u32) -> bool
        ensures { result ≡ false → (judged : Judged) → judges self.now key.now bytes.now ≡ Some judged → judged.seq < seq }
    {
        match self.judge(key, bytes) {
            Some(judged) => judged.seq >= seq,
            None => false,
        }
    }
}
