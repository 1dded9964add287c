//! Blocks that know their names.

ghost use Rattle.std.specs.Prelude.{◌≡◌};
ghost use Rattle.ivy_base.specs.Naming.{name};

use ivy_base::{Bytes, Key, name_of};
use std::marker::Model;

/// A block of a snapshot: its bytes, and their name, which was taken once. Contracts see the bytes.
#[derive(Drop)]
pub struct Block {
    name: Key,
    bytes: Bytes,
}

impl Model for Block {
    ghost use Rattle.std.specs.Prelude.{◌≡◌, List, ℕ};
    ghost use Rattle.ivy_base.specs.Naming.{name as name_of_bytes};

    ghost Value = { List ℕ };

    ghost view = { λ b. b.bytes };

    ghost invariant = { λ b. b.name ≡ name_of_bytes b.bytes };
}

impl Block {
    /// The block of these bytes, which are not copied. They are hashed here, once.
    pub fn of(bytes: Bytes) -> Block
        ensures { result ≡ bytes }
    {
        let name = name_of(bytes.as_slice());
        Block { name, bytes }
    }

    /// The block's name.
    pub fn name(&self) -> Key
        ensures { result ≡ name self.now }
    {
        self.name
    }

    /// The bytes as a slice.
    pub fn as_slice(&self) -> &[u8]
        ensures { result.now ≡ self.now }
    {
        self.bytes.as_slice()
    }

    /// The name and the bytes, which are not copied.
    pub fn into_parts(self) -> (Key, Bytes)
        ensures name { result.0 ≡ name self }
        ensures bytes { result.1 ≡ self }
    {
        (self.name, self.bytes)
    }
}
