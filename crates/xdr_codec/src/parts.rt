//! The parts of a message, which are read one after the other.

ghost use Rattle.std.specs.Prelude.{◌≡◌, ◌≢◌, ◌%◌, true, false, [], Some, None, length, MatchOption};
ghost use Rattle.wire_model.specs.Xdr.{word, double_word, boolean, opaque, IsWord, IsDoubleWord, IsAny, IsOfLength, IsUpTo};
ghost use Rattle.wire_model.specs.Parts.{Reads, as_it_stands};

use crate::read::XdrRead;
use std::marker::Model;

/// The bytes that are left of a message.
///
/// That a part isn't there is kept in mind, so a reader of many parts doesn't ask after each. From then on contracts see
/// nothing that is left, no flag is set, and what else is read has no meaning.
#[derive(Drop)]
pub struct Parts<'a> {
    left: XdrRead<'a>,
    missed: bool,
}

impl<'a> Model for Parts<'a> {
    ghost use Rattle.std.specs.Prelude.{Option, Some, None, List, ℕ, if◌then◌else◌};

    ghost Value = { Option (List ℕ) };

    ghost view = { λ p. if p.missed then None else Some p.left };
}

impl<'a> Parts<'a> {
    /// All of these bytes are left.
    pub fn of(bytes: &'a [u8]) -> Parts<'a>
        ensures { result ≡ Some bytes.now }
    {
        Parts {
            left: XdrRead::new(bytes),
            missed: false,
        }
    }

    /// Keeps in mind that a part isn't there.
    pub fn miss(&mut self)
        ensures { self.new ≡ None }
    {
        self.missed = true;
    }

    /// Whether each part was there and nothing is left.
    pub fn are_read(&self) -> bool
        ensures all { result ≡ true → self.now ≡ Some [] }
        ensures more { result ≡ false → self.now ≢ Some [] }
    {
        !self.missed && self.left.rest().is_empty()
    }

    /// A number of four bytes.
    pub fn u32(&mut self) -> u32
        ensures { Reads IsWord word self.old result self.new }
    {
        match self.left.u32() {
            Ok(number) => number,
            Err(_) => {
                self.miss();
                0
            }
        }
    }

    /// A number of eight bytes.
    pub fn u64(&mut self) -> u64
        ensures { Reads IsDoubleWord double_word self.old result self.new }
    {
        match self.left.u64() {
            Ok(number) => number,
            Err(_) => {
                self.miss();
                0
            }
        }
    }

    /// Whether a flag is set.
    pub fn boolean(&mut self) -> bool
        ensures reads { Reads IsAny boolean self.old result self.new }
        ensures set { result ≡ true → self.new ≢ None }
    {
        match self.left.boolean() {
            Ok(flag) => flag && !self.missed,
            Err(_) => {
                self.miss();
                false
            }
        }
    }

    /// At most `most` bytes, with their count in front.
    pub fn opaque(&mut self, most: u32) -> &'a [u8]
        ensures { Reads (IsUpTo most) opaque self.old result.now self.new }
    {
        match self.left.opaque(most) {
            Ok(bytes) => bytes,
            Err(_) => {
                self.miss();
                b"".as_slice()
            }
        }
    }

    /// Eight bytes, as they stand.
    pub fn eight(&mut self) -> [u8; 8]
        ensures { Reads (IsOfLength 8) as_it_stands self.old result self.new }
    {
        self.bytes::<8>()
    }

    /// So many bytes, as they stand, where no zeros fill them up.
    #[tactic(auto, using(crate::proofs::Whole::whole_front, crate::proofs::Whole::no_whole))]
    pub fn bytes<const N: usize>(&mut self) -> [u8; N]
        requires { N % 4 ≡ 0 }
        ensures { Reads (IsOfLength N) as_it_stands self.old result self.new }
    {
        match self.left.fixed(N) {
            Ok(bytes) => array_of(bytes),
            Err(_) => {
                self.miss();
                [0; N]
            }
        }
    }

    /// The bytes that are left. There are none where a part was missed.
    pub fn rest(&self) -> Option<&'a [u8]>
        ensures { MatchOption result (self.now ≡ None) (λ bytes. self.now ≡ Some bytes.now) }
    {
        if self.missed {
            None
        } else {
            Some(self.left.rest())
        }
    }
}

/// The bytes as an array.
fn array_of<const N: usize>(bytes: &[u8]) -> [u8; N]
    requires { length bytes.now ≡ N }
    ensures { result ≡ bytes.now }
{
    let mut array = [0; N];
    array.copy_from_slice(bytes);
    array
}
