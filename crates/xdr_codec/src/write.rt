//! The writer.

ghost use Rattle.std.specs.Prelude.{◌≡◌, ◌+◌, ◌^◌, ◌<◌, ◌≤◌, [], ◌++◌, length, OnOk, OnErr};
ghost use Rattle.wire_model.specs.Xdr.{word, double_word, boolean, fixed, opaque};
ghost use Rattle.xdr_codec.specs.Writing.{padded};

use crate::padding::{PADDING, padding};
use ivy_base::{Bytes, Memory};
use std::alloc::Global;
use std::marker::Model;

/// A message being written: the bytes so far, and for how many more bytes there is room.
///
/// Only [`XdrWrite::reserve`] takes memory. Each put call needs the room for its item, and cannot fail.
#[derive(Drop)]
pub struct XdrWrite {
    bytes: Vec<u8>,
    spare: usize,
}

impl Model for XdrWrite {
    ghost use Rattle.std.specs.Prelude.{◌+◌, ◌≤◌, vec_len, vec_capacity};
    ghost use Rattle.xdr_codec.specs.Writing.{Writing};

    ghost Value = { Writing };

    ghost view = { λ w. record { written = w.bytes.items; spare = w.spare } };

    ghost invariant = { λ w. vec_len w.bytes + w.spare ≤ vec_capacity w.bytes };
}

impl XdrWrite {
    /// A writer that has written nothing and has room for nothing. It takes no memory.
    pub fn new(alloc: Global) -> XdrWrite
        ensures written { result.written ≡ [] }
        ensures spare { result.spare ≡ 0 }
    {
        XdrWrite {
            bytes: Vec::new(alloc),
            spare: 0,
        }
    }

    /// Makes room for `additional` more bytes. The error is: out of memory: it leaves the writer as it was, and
    /// comes only where that room was missing.
    pub fn reserve(&mut self, additional: usize) -> Result<(), Memory>
        ensures written { self.new.written ≡ self.old.written }
        ensures room { OnOk result (additional ≤ self.new.spare) }
        ensures spare { self.old.spare ≤ self.new.spare }
        ensures err { OnErr result (self.new.spare ≡ self.old.spare) }
        ensures full { OnErr result (self.old.spare < additional) }
    {
        self.bytes.reserve(additional)?;
        self.spare = self.spare.max(additional);
        Ok(())
    }

    /// Appends an unsigned integer (RFC 4506, section 4.2): four bytes, big-endian.
    pub fn put_u32(&mut self, value: u32)
        requires { 4 ≤ self.old.spare }
        ensures written { self.new.written ≡ self.old.written ++ word value }
        ensures spare { self.new.spare + 4 ≡ self.old.spare }
    {
        self.append(&value.to_be_bytes());
    }

    /// Appends an unsigned hyper integer (RFC 4506, section 4.5): eight bytes, big-endian.
    pub fn put_u64(&mut self, value: u64)
        requires { 8 ≤ self.old.spare }
        ensures written { self.new.written ≡ self.old.written ++ double_word value }
        ensures spare { self.new.spare + 8 ≡ self.old.spare }
    {
        self.append(&value.to_be_bytes());
    }

    /// Appends a boolean (RFC 4506, section 4.4): four bytes, the number 0 or 1.
    pub fn put_bool(&mut self, value: bool)
        requires { 4 ≤ self.old.spare }
        ensures written { self.new.written ≡ self.old.written ++ boolean value }
        ensures spare { self.new.spare + 4 ≡ self.old.spare }
    {
        self.put_u32(if value { 1 } else { 0 });
    }

    /// Appends opaque data of a fixed length (RFC 4506, section 4.9): the bytes, and zeros up to a multiple of
    /// four.
    pub fn put_fixed(&mut self, bytes: &[u8])
        requires { padded (length bytes.now) ≤ self.old.spare }
        ensures written { self.new.written ≡ self.old.written ++ fixed bytes.now }
        ensures spare { self.new.spare + padded (length bytes.now) ≡ self.old.spare }
    {
        self.append(bytes);
        self.append(&PADDING[..padding(bytes.len())]);
    }

    /// Appends opaque data of any length (RFC 4506, section 4.10), or a string (section 4.11): the number of the
    /// bytes, the bytes, and zeros up to a multiple of four.
    pub fn put_opaque(&mut self, bytes: &[u8])
        requires room { 4 + padded (length bytes.now) ≤ self.old.spare }
        requires short { length bytes.now < 2 ^ 32 }
        ensures written { self.new.written ≡ self.old.written ++ opaque bytes.now }
        ensures spare { self.new.spare + (4 + padded (length bytes.now)) ≡ self.old.spare }
    {
        self.put_u32(bytes.len() as u32);
        self.put_fixed(bytes);
    }

    /// The bytes that were written, which are not copied.
    pub fn into_bytes(self) -> Bytes
        ensures { result ≡ self.written }
    {
        Bytes::of(self.bytes)
    }

    /// Appends the bytes as they are.
    fn append(&mut self, bytes: &[u8])
        requires { length bytes.now ≤ self.old.spare }
        ensures written { self.new.written ≡ self.old.written ++ bytes.now }
        ensures spare { self.new.spare + length bytes.now ≡ self.old.spare }
    {
        self.bytes.extend_from_slice(bytes).unwrap();
        self.spare -= bytes.len();
    }
}
