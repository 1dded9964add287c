//! The reader.

ghost use Rattle.std.specs.Prelude.{◌≡◌, ◌≢◌, ◌≤◌, [], ◌++◌, length, take, replicate, IfOk, IfErr, OnOk, OnErr, MatchOption};
ghost use Rattle.wire_model.specs.Xdr.{word, double_word, boolean, fixed, opaque, IsWord, IsDoubleWord, IsAny, IsOfLength, IsUpTo};
ghost use Rattle.wire_model.specs.OneReading.{IsFront, HasNoFront};
ghost use Rattle.xdr_codec.specs.Reading.{IntegerFault, BooleanFault, FixedFault, OpaqueFault, EndFault};

use crate::fault::XdrFault;
use crate::padding::{PADDING, padding};
use std::marker::Model;

/// Bytes that are read from left to right, item by item. Contracts see it as the bytes that are left.
///
/// Each call either takes its item from the front, or answers the first fault that it meets and takes nothing. It
/// takes no memory: data lies in the bytes that are read, so a count that no bytes stand after costs nothing.
#[derive(Clone, Drop)]
pub struct XdrRead<'a> {
    rest: &'a [u8],
}

impl<'a> Model for XdrRead<'a> {
    ghost use Rattle.std.specs.Prelude.{List, ℕ};

    ghost Value = { List ℕ };

    ghost view = { λ r. r.rest.now };
}

impl<'a> XdrRead<'a> {
    /// A reader of these bytes.
    pub fn new(bytes: &'a [u8]) -> XdrRead<'a>
        ensures { result ≡ bytes.now }
    {
        XdrRead { rest: bytes }
    }

    /// An unsigned integer (RFC 4506, section 4.2). The fault is `Short`.
    pub fn u32(&mut self) -> Result<u32, XdrFault>
        ensures ok { IfOk result (λ n. IsFront IsWord word self.old n self.new) }
        ensures err { IfErr result (IntegerFault 4 self.old) }
        ensures none { OnErr result (HasNoFront IsWord word self.old) }
        ensures kept { OnErr result (self.new ≡ self.old) }
    {
        let Some((front, rest)) = self.rest.split_first_chunk::<4>() else {
            return Err(XdrFault::Short);
        };
        self.rest = rest;
        Ok(word_of(front))
    }

    /// An unsigned hyper integer (RFC 4506, section 4.5). The fault is `Short`.
    pub fn u64(&mut self) -> Result<u64, XdrFault>
        ensures ok { IfOk result (λ n. IsFront IsDoubleWord double_word self.old n self.new) }
        ensures err { IfErr result (IntegerFault 8 self.old) }
        ensures none { OnErr result (HasNoFront IsDoubleWord double_word self.old) }
        ensures kept { OnErr result (self.new ≡ self.old) }
    {
        let Some((front, rest)) = self.rest.split_first_chunk::<8>() else {
            return Err(XdrFault::Short);
        };
        self.rest = rest;
        Ok(double_word_of(front))
    }

    /// A boolean (RFC 4506, section 4.4). The fault is `Short`, or `NotBool` for a number above 1.
    pub fn boolean(&mut self) -> Result<bool, XdrFault>
        ensures ok { IfOk result (λ b. IsFront IsAny boolean self.old b self.new) }
        ensures err { IfErr result (BooleanFault self.old) }
        ensures none { OnErr result (HasNoFront IsAny boolean self.old) }
        ensures kept { OnErr result (self.new ≡ self.old) }
    {
        let before = self.rest;
        match self.u32()? {
            0 => Ok(false),
            1 => Ok(true),
            _ => {
                self.rest = before;
                Err(XdrFault::NotBool)
            }
        }
    }

    /// Opaque data of `n` bytes (RFC 4506, section 4.9). The fault is `Short` where fewer bytes are left than
    /// `n` and what fills them up to a multiple of four, and else `Padding` where what fills them isn't zero.
    pub fn fixed(&mut self, n: usize) -> Result<&'a [u8], XdrFault>
        ensures ok { IfOk result (λ item. IsFront (IsOfLength n) fixed self.old item.now self.new) }
        ensures err { IfErr result (FixedFault n self.old) }
        ensures none { OnErr result (HasNoFront (IsOfLength n) fixed self.old) }
        ensures kept { OnErr result (self.new ≡ self.old) }
    {
        let (item, rest) = fixed_item(self.rest, n)?;
        self.rest = rest;
        Ok(item)
    }

    /// Opaque data of at most `max` bytes whose count stands in front (RFC 4506, section 4.10), or a string
    /// (section 4.11).
    ///
    /// The fault is the first of these: `Short` where the count is cut, `TooLong` where it is above `max`,
    /// `Short` and `Padding` as for [`XdrRead::fixed`].
    pub fn opaque(&mut self, max: u32) -> Result<&'a [u8], XdrFault>
        ensures ok { IfOk result (λ item. IsFront (IsUpTo max) opaque self.old item.now self.new) }
        ensures err { IfErr result (OpaqueFault max self.old) }
        ensures none { OnErr result (HasNoFront (IsUpTo max) opaque self.old) }
        ensures kept { OnErr result (self.new ≡ self.old) }
    {
        let (item, rest) = opaque_item(self.rest, max)?;
        self.rest = rest;
        Ok(item)
    }

    /// The bytes that are left.
    pub fn rest(&self) -> &'a [u8]
        ensures { result.now ≡ self.now }
    {
        self.rest
    }

    /// Whether all was read. The fault is `Trailing` where bytes are left.
    pub fn finish(&self) -> Result<(), XdrFault>
        ensures ok { OnOk result (self.now ≡ []) }
        ensures err { IfErr result (EndFault self.now) }
    {
        if self.rest.is_empty() {
            Ok(())
        } else {
            Err(XdrFault::Trailing)
        }
    }
}

/// The number that four bytes spell.
fn word_of(bytes: &[u8; 4]) -> u32
    ensures { word result ≡ bytes.now }
{
    u32::from_be_bytes([bytes[0], bytes[1], bytes[2], bytes[3]])
}

/// The number that eight bytes spell.
fn double_word_of(bytes: &[u8; 8]) -> u64
    ensures { double_word result ≡ bytes.now }
{
    u64::from_be_bytes([
        bytes[0], bytes[1], bytes[2], bytes[3], bytes[4], bytes[5], bytes[6], bytes[7],
    ])
}

/// Data of so many bytes at the front, and the bytes after it and its padding.
fn fixed_item(bytes: &[u8], n: usize) -> Result<(&[u8], &[u8]), XdrFault>
    ensures ok { IfOk result (λ p. IsFront (IsOfLength n) fixed bytes.now p.0.now p.1.now) }
    ensures err { IfErr result (FixedFault n bytes.now) }
{
    if bytes.len() < n {
        return Err(XdrFault::Short);
    }
    let (item, after) = bytes.split_at(n);
    let zeros = padding(n);
    if after.len() < zeros {
        return Err(XdrFault::Short);
    }
    match behind_zeros(after, zeros) {
        Some(rest) => Ok((item, rest)),
        None => Err(XdrFault::Padding),
    }
}

/// The bytes after so many zeros.
fn behind_zeros(bytes: &[u8], zeros: usize) -> Option<&[u8]>
    requires few { zeros ≤ 3 }
    requires enough { zeros ≤ length bytes.now }
    ensures { MatchOption result (take zeros bytes.now ≢ replicate zeros 0) (λ rest. bytes.now ≡ replicate zeros 0 ++ rest.now) }
{
    let (front, rest) = bytes.split_at(zeros);
    if front == &PADDING[..zeros] {
        Some(rest)
    } else {
        None
    }
}

/// Data at the front with its count, and the bytes after it.
fn opaque_item(bytes: &[u8], max: u32) -> Result<(&[u8], &[u8]), XdrFault>
    ensures ok { IfOk result (λ p. IsFront (IsUpTo max) opaque bytes.now p.0.now p.1.now) }
    ensures err { IfErr result (OpaqueFault max bytes.now) }
{
    let mut reader = XdrRead::new(bytes);
    let count = reader.u32()?;
    if count > max {
        return Err(XdrFault::TooLong);
    }
    fixed_item(reader.rest, count as usize)
}
