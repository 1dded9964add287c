//! Signatures of heads, and what may keep one from being made.

ghost use Rattle.std.specs.Prelude.{◌≡◌};

use ivy_base::Bytes;
use std::marker::Model;
use thiserror::Error;

/// A signature, which contracts see as the list of its bytes.
#[derive(Drop)]
pub struct Signature(Bytes);

impl Model for Signature {
    ghost use Rattle.std.specs.Prelude.{List, ℕ};

    ghost Value = { List ℕ };

    ghost view = { λ s. s.0 };
}

impl Signature {
    /// The signature of these bytes, which are not copied.
    pub fn of(bytes: Bytes) -> Signature
        ensures { result ≡ bytes }
    {
        Signature(bytes)
    }

    /// The bytes of the signature, which are not copied.
    pub fn into_bytes(self) -> Bytes
        ensures { result ≡ self }
    {
        self.0
    }

    /// The signature as a slice.
    pub fn as_slice(&self) -> &[u8]
        ensures { result.now ≡ self.now }
    {
        self.0.as_slice()
    }
}

/// Why nothing was signed.
#[derive(Clone, Copy, Debug, Error)]
pub enum SignFault {
    /// Each leaf of the key has signed.
    #[error("each leaf of the key has signed")]
    Spent,
    /// Out of memory. No clause ties this to a cause.
    #[error("out of memory")]
    Memory,
}

/// Why no signer was loaded.
#[derive(Clone, Copy, Debug, Error)]
pub enum LoadFault {
    /// The bytes are not those of a saved signer.
    #[error("the bytes are not those of a saved signer")]
    Malformed,
    /// Out of memory. No clause ties this to a cause.
    #[error("out of memory")]
    Memory,
}
