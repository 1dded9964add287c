ghost use Rattle.std.specs.Prelude.{◌≡◌};
ghost use Rattle.hash_signature_model.specs.Parameters.{ots_type, lms_type, top, chains, digest_digits, checksum_factor, levels, leaves};

use thiserror::Error;

/// The Winternitz parameter w of a one-time signature: how many bits of a digest one chain signs.
#[derive(Clone, Copy, PartialEq, Eq)]
pub enum Width {
    /// LMOTS_SHA256_N32_W4.
    W4,
    /// LMOTS_SHA256_N32_W8.
    W8,
}

impl Width {
    /// The type number (RFC 8554, section 4.1).
    pub fn type_number(self) -> u32
        ensures { result ≡ ots_type self }
    {
        match self {
            Width::W4 => 3,
            Width::W8 => 4,
        }
    }

    /// The steps of a whole chain, 2^w - 1, which is also the greatest coefficient.
    pub fn step_count(self) -> u8
        ensures { result ≡ top self }
    {
        match self {
            Width::W4 => 15,
            Width::W8 => 255,
        }
    }

    /// The chains of a one-time signature: p.
    pub fn chain_count(self) -> u16
        ensures { result ≡ chains self }
    {
        match self {
            Width::W4 => 67,
            Width::W8 => 34,
        }
    }

    /// The coefficients of a digest: 256 / w.
    pub fn digit_count(self) -> u16
        ensures { result ≡ digest_digits self }
    {
        match self {
            Width::W4 => 64,
            Width::W8 => 32,
        }
    }

    /// 2^ls, by which the checksum is moved to its high bits.
    pub fn checksum_scale(self) -> u16
        ensures { result ≡ checksum_factor self }
    {
        match self {
            Width::W4 => 16,
            Width::W8 => 1,
        }
    }
}

/// The height h of a signature tree.
#[derive(Clone, Copy, PartialEq, Eq)]
pub enum Height {
    /// LMS_SHA256_M32_H5: 32 leaves.
    H5,
    /// LMS_SHA256_M32_H10: 1,024 leaves.
    H10,
}

impl Height {
    /// The type number (RFC 8554, section 5.1).
    pub fn type_number(self) -> u32
        ensures { result ≡ lms_type self }
    {
        match self {
            Height::H5 => 5,
            Height::H10 => 6,
        }
    }

    /// The levels below the root: h.
    pub fn level_count(self) -> u32
        ensures { result ≡ levels self }
    {
        match self {
            Height::H5 => 5,
            Height::H10 => 10,
        }
    }

    /// The leaves: 2^h.
    pub fn leaf_count(self) -> u32
        ensures { result ≡ leaves self }
    {
        match self {
            Height::H5 => 32,
            Height::H10 => 1024,
        }
    }
}

/// The parameters of a signature tree.
#[derive(Clone, Copy, PartialEq, Eq)]
pub struct Set {
    /// The width of its one-time signatures.
    pub w: Width,
    /// Its height.
    pub h: Height,
}

/// Why a signature isn't accepted: the first fault in reading order, and `Wrong` only after all was read.
#[derive(Clone, Copy, Debug, Error)]
pub enum LmsFault {
    /// A type number of RFC 8554 outside the profile: the one-time types 1 and 2, the tree types 7, 8 and 9.
    #[error("a type number is outside the profile")]
    Unsupported,
    /// The bytes spell no public key of the profile, or no signature for that key.
    #[error("the bytes are no public key of the profile, or no signature for the key")]
    Malformed,
    /// The signature gives another root.
    #[error("the signature gives another root")]
    Wrong,
}
