//! A judge that remembers the head that it took last.

ghost use Rattle.std.specs.Prelude.{◌≡◌, IfSome, IsTrue, Some};

use dht_ids::{Judge, Judged};
use ivy_base::{Bytes, Key};
use std::marker::Model;

/// A head that was judged, and what it says.
#[derive(Drop)]
struct Verdict {
    key: Key,
    bytes: Bytes,
    head: Judged,
}

impl Verdict {
    /// Whether it is of these bytes under that key.
    fn is_of(&self, key: &Key, bytes: &[u8]) -> bool
        ensures { IsTrue result → (self.now.key ≡ key.now) × (self.now.bytes ≡ bytes.now) }
    {
        self.key == *key && self.bytes.as_slice() == bytes
    }
}

/// A judge and the head that it took last, which isn't judged again where it is given again. Contracts see the judge.
#[derive(Drop)]
pub(crate) struct Remembering<J: Judge> {
    judge: J,
    last: Option<Verdict>,
}

impl<J: Judge> Model for Remembering<J> {
    ghost Value = { J };

    ghost view = { λ r. r.judge };

    ghost invariant = { λ r. IfSome r.last (λ v. J.judges r.judge v.key v.bytes ≡ Some v.head) };
}

impl<J: Judge> Remembering<J> {
    /// The judge, which has taken no head yet.
    pub(crate) fn new(judge: J) -> Remembering<J>
        ensures { result ≡ judge }
    {
        Remembering { judge, last: None }
    }

    /// What the bytes say as a head under the key.
    pub(crate) fn judge(&mut self, key: Key, bytes: Bytes) -> Option<Judged>
        ensures same { self.new ≡ self.old }
        ensures verdict { result ≡ J.judges self.old key bytes }
    {
        if let Some(last) = &self.last {
            if last.is_of(&key, bytes.as_slice()) {
                return Some(last.head);
            }
        }
        let head = self.judge.judge(&key, bytes.as_slice())?;
        self.last = Some(Verdict { key, bytes, head });
        Some(head)
    }
}
