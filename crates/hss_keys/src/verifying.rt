//! Whether a signature of several levels is accepted under a public key.

ghost use Rattle.std.specs.Prelude.{◌≡◌, ◌↔◌, IsOk, IfOk, take};
ghost use Rattle.hash_signature_model.specs.Signatures.{IsSignature};
ghost use Rattle.hash_signature_model.specs.Reading.{read_word as number_at, key_at};
ghost use Rattle.hash_signature_model.specs.Levels.{is_right, between_of, whole_hss_key, hss_verdict};
ghost use Rattle.lms_core.specs.Readers.{Gives, fields_of};
ghost use Rattle.hss_keys.specs.Hss.{HssAccepts};
ghost use Rattle.hss_keys.specs.Checks.{right_levels};

use crate::Hss;
use ivy_base::PubKey;
use lms_core::{LmsFault, PublicKey, SignatureParts, read_key, read_signature, recompute_root};

/// How many bytes the public key of a level has.
const LEVEL_KEY: usize = 56;

/// A number of four bytes.
#[tactic(auto, unfolding(hash_signature_model::specs::Reading::read_word))]
fn read_number(bytes: &[u8]) -> Result<(u32, &[u8]), LmsFault>
    ensures { Gives (λ x. (x.0, x.1.now)) result (number_at bytes.now) }
{
    if bytes.len() < 4 {
        return Err(LmsFault::Malformed);
    }
    let (front, rest) = bytes.split_at(4);
    let number = u32::from_be_bytes([front[0], front[1], front[2], front[3]]);
    Ok((number, rest))
}

/// L - 1, where L is 1 to 3.
#[tactic(auto, unfolding(hash_signature_model::specs::Levels::between_of))]
fn keys_between(levels: u32) -> Result<u32, LmsFault>
    ensures { Gives (λ x. x) result (between_of levels) }
{
    match levels {
        1 => Ok(0),
        2 => Ok(1),
        3 => Ok(2),
        _ => Err(LmsFault::Malformed),
    }
}

/// A public key that is all of the bytes: L - 1 for its L, and the top level's key (RFC 8554, section 6.1).
#[tactic(auto, unfolding(hash_signature_model::specs::Levels::whole_hss_key, hash_signature_model::specs::Reading::whole_key))]
fn read_hss_key(bytes: &[u8]) -> Result<(u32, PublicKey), LmsFault>
    ensures { Gives (λ x. x) result (whole_hss_key bytes.now) }
{
    let (levels, rest) = read_number(bytes)?;
    let between = keys_between(levels)?;
    let (top, rest) = read_key(rest)?;
    if !rest.is_empty() {
        return Err(LmsFault::Malformed);
    }
    Ok((between, top))
}

/// Whether a signature gives the root of its level's key.
fn gives_root(key: &PublicKey, signed: &[u8], parts: &SignatureParts<'_>) -> bool
    requires { IsSignature key.now.set (fields_of parts.now) }
    ensures { result ≡ is_right (record { key = key.now; signed = signed.now; signature = fields_of parts.now }) }
{
    recompute_root(key, signed, parts)[..] == key.root[..]
}

/// The next level's key, its bytes, which the level above signs, and the bytes after it.
fn read_next(bytes: &[u8]) -> Result<(PublicKey, &[u8], &[u8]), LmsFault>
    ensures gives { Gives (λ x. (x.0, x.2.now)) result (key_at bytes.now) }
    ensures signed { IfOk result (λ x. x.1.now ≡ take 56 bytes.now) }
{
    let (key, behind) = read_key(bytes)?;
    let (signed, _) = bytes.split_at(LEVEL_KEY);
    Ok((key, signed, behind))
}

/// Whether the last level, which is all of the bytes, gives its root.
#[tactic(auto, using(crate::proofs::Levels::signature_fails, crate::proofs::Levels::last_read, crate::proofs::Levels::last_left))]
fn check_last(key: &PublicKey, message: &[u8], bytes: &[u8]) -> Result<bool, LmsFault>
    ensures { result ≡ right_levels 0 key.now message.now bytes.now }
{
    let (parts, left) = read_signature(key.set, bytes)?;
    if !left.is_empty() {
        return Err(LmsFault::Malformed);
    }
    Ok(gives_root(key, message, &parts))
}

/// Whether the levels from a key down, with so many keys between, all give their roots. They are all of the bytes, and
/// nothing is hashed before all of them are read.
fn check_levels(
    between: u32,
    key: &PublicKey,
    message: &[u8],
    bytes: &[u8],
) -> Result<bool, LmsFault>
    ensures { result ≡ right_levels between key.now message.now bytes.now }
{
    if between == 0 {
        return check_last(key, message, bytes);
    }
    let (parts, rest) = read_signature(key.set, bytes)?;
    let (next, signed, behind) = read_next(rest)?;
    let below_right = check_levels(between - 1, &next, message, behind)?;
    Ok(below_right && gives_root(key, signed, &parts))
}

/// The answer about a public key, a message and a signature.
#[tactic(auto, unfolding(hash_signature_model::specs::Levels::hss_verdict, hash_signature_model::specs::Levels::whole_hss_signature))]
fn judge(public: &[u8], message: &[u8], signature: &[u8]) -> Result<(), LmsFault>
    ensures { result ≡ hss_verdict public.now message.now signature.now }
{
    let (between, top) = read_hss_key(public)?;
    let (found, rest) = read_number(signature)?;
    if found != between {
        return Err(LmsFault::Malformed);
    }
    if check_levels(between, &top, message, rest)? {
        Ok(())
    } else {
        Err(LmsFault::Wrong)
    }
}

/// The answer, where the public key is any bytes.
fn verify_bytes(public: &[u8], message: &[u8], signature: &[u8]) -> Result<(), LmsFault>
    ensures accepted { IsOk result ↔ HssAccepts public.now message.now signature.now }
    ensures exact { result ≡ hss_verdict public.now message.now signature.now }
{
    judge(public, message, signature)
}

impl Hss {
    /// Whether the signature of the message is accepted under the public key (RFC 8554, section 6.3). Nothing allocates,
    /// and nothing is hashed before all was read.
    ///
    /// # Errors
    ///
    /// The first fault in reading order, the public key before the signature: `Unsupported` for a type number of
    /// RFC 8554 outside the profile, in a level's key or signature; `Malformed` for bytes that spell no key, or no
    /// signature of as many levels as the key has. `Wrong` where all was read and the signature of some level gives
    /// another root than its key's.
    pub fn verify(public: &PubKey, message: &[u8], signature: &[u8]) -> Result<(), LmsFault>
        ensures accepted { IsOk result ↔ HssAccepts public.now.0 message.now signature.now }
        ensures exact { result ≡ hss_verdict public.now.0 message.now signature.now }
    {
        verify_bytes(&public.0[..], message, signature)
    }
}
