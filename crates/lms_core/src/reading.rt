//! Public keys and signatures, read from left to right. Each reader gives the first fault that it meets, or what it read
//! and the bytes after that.

ghost use Rattle.std.specs.Prelude.{◌≡◌, ◌<◌, ◌*◌, length, IfOk};
ghost use Rattle.hash_signature_model.specs.Parameters.{chains, levels, leaves};
ghost use Rattle.hash_signature_model.specs.Reading.{part_at, read_word as number_at, width_of, height_of, width_at, height_at, key_at, whole_key, leaf_at, same_width_at, same_height_at, signature_at, whole_signature};
ghost use Rattle.lms_core.specs.Readers.{Gives, fields_of};

use hash_signature_model::{Height, LmsFault, PublicKey, Set, Width};

/// The parts of a signature, which lie in its bytes.
#[derive(Clone, Copy)]
pub struct SignatureParts<'a> {
    /// The leaf's number q.
    pub leaf: u32,
    /// C, of 32 bytes.
    pub randomizer: &'a [u8],
    /// The values of the one-time signature, of 32 bytes each.
    pub values: &'a [u8],
    /// The path's nodes, of 32 bytes each, from the leaf's sibling up.
    pub path: &'a [u8],
}

/// The first n bytes.
#[tactic(auto, unfolding(hash_signature_model::specs::Reading::part_at))]
fn part(bytes: &[u8], n: usize) -> Result<(&[u8], &[u8]), LmsFault>
    ensures gives { Gives (λ x. (x.0.now, x.1.now)) result (part_at n bytes.now) }
    ensures size { IfOk result (λ x. length x.0.now ≡ n) }
{
    if bytes.len() < n {
        return Err(LmsFault::Malformed);
    }
    Ok(bytes.split_at(n))
}

/// A number of four bytes.
#[tactic(auto, unfolding(hash_signature_model::specs::Reading::read_word))]
fn number(bytes: &[u8]) -> Result<(u32, &[u8]), LmsFault>
    ensures { Gives (λ x. (x.0, x.1.now)) result (number_at bytes.now) }
{
    if bytes.len() < 4 {
        return Err(LmsFault::Malformed);
    }
    let (front, rest) = bytes.split_at(4);
    let number = u32::from_be_bytes([front[0], front[1], front[2], front[3]]);
    Ok((number, rest))
}

/// The width of a one-time type.
#[tactic(auto, unfolding(hash_signature_model::specs::Reading::width_of))]
fn as_width(n: u32) -> Result<Width, LmsFault>
    ensures { Gives (λ x. x) result (width_of n) }
{
    match n {
        3 => Ok(Width::W4),
        4 => Ok(Width::W8),
        1 | 2 => Err(LmsFault::Unsupported),
        _ => Err(LmsFault::Malformed),
    }
}

/// The height of a tree type.
#[tactic(auto, unfolding(hash_signature_model::specs::Reading::height_of))]
fn as_height(n: u32) -> Result<Height, LmsFault>
    ensures { Gives (λ x. x) result (height_of n) }
{
    match n {
        5 => Ok(Height::H5),
        6 => Ok(Height::H10),
        7 | 8 | 9 => Err(LmsFault::Unsupported),
        _ => Err(LmsFault::Malformed),
    }
}

/// A one-time type.
#[tactic(auto, unfolding(hash_signature_model::specs::Reading::width_at))]
fn width(bytes: &[u8]) -> Result<(Width, &[u8]), LmsFault>
    ensures { Gives (λ x. (x.0, x.1.now)) result (width_at bytes.now) }
{
    let (n, rest) = number(bytes)?;
    Ok((as_width(n)?, rest))
}

/// A tree type.
#[tactic(auto, unfolding(hash_signature_model::specs::Reading::height_at))]
fn height(bytes: &[u8]) -> Result<(Height, &[u8]), LmsFault>
    ensures { Gives (λ x. (x.0, x.1.now)) result (height_at bytes.now) }
{
    let (n, rest) = number(bytes)?;
    Ok((as_height(n)?, rest))
}

/// A public key, and the bytes after it (RFC 8554, section 5.3).
///
/// # Errors
///
/// The first fault in reading order: `Unsupported` for a type number of RFC 8554 outside the profile, `Malformed` for
/// any other type number and where bytes are missing. Never `Wrong`.
#[tactic(auto, unfolding(hash_signature_model::specs::Reading::key_at))]
pub fn read_key(bytes: &[u8]) -> Result<(PublicKey, &[u8]), LmsFault>
    ensures { Gives (λ x. (x.0, x.1.now)) result (key_at bytes.now) }
{
    let (h, rest) = height(bytes)?;
    let (w, rest) = width(rest)?;
    let (id_bytes, rest) = part(rest, 16)?;
    let (root_bytes, rest) = part(rest, 32)?;
    let mut id = [0u8; 16];
    id.copy_from_slice(id_bytes);
    let mut root = [0u8; 32];
    root.copy_from_slice(root_bytes);
    let set = Set { w, h };
    Ok((PublicKey { set, id, root }, rest))
}

/// A public key that is all of the bytes.
#[tactic(auto, unfolding(hash_signature_model::specs::Reading::whole_key))]
pub fn read_whole_key(bytes: &[u8]) -> Result<PublicKey, LmsFault>
    ensures { Gives (λ x. x) result (whole_key bytes.now) }
{
    let (key, rest) = read_key(bytes)?;
    if rest.is_empty() {
        Ok(key)
    } else {
        Err(LmsFault::Malformed)
    }
}

/// The leaf's number, which is one of the tree.
#[tactic(auto, unfolding(hash_signature_model::specs::Reading::leaf_at))]
fn leaf_number(h: Height, bytes: &[u8]) -> Result<(u32, &[u8]), LmsFault>
    ensures { Gives (λ x. (x.0, x.1.now)) result (leaf_at h bytes.now) }
{
    let (leaf, rest) = number(bytes)?;
    if leaf < h.leaf_count() {
        Ok((leaf, rest))
    } else {
        Err(LmsFault::Malformed)
    }
}

/// The bytes after a one-time type, which is the key's.
#[tactic(auto, unfolding(hash_signature_model::specs::Reading::same_width_at))]
fn same_width(w: Width, bytes: &[u8]) -> Result<&[u8], LmsFault>
    ensures { Gives (λ x. x.now) result (same_width_at w bytes.now) }
{
    let (found, rest) = width(bytes)?;
    match (found, w) {
        (Width::W4, Width::W4) | (Width::W8, Width::W8) => Ok(rest),
        _ => Err(LmsFault::Malformed),
    }
}

/// The bytes after a tree type, which is the key's.
#[tactic(auto, unfolding(hash_signature_model::specs::Reading::same_height_at))]
fn same_height(h: Height, bytes: &[u8]) -> Result<&[u8], LmsFault>
    ensures { Gives (λ x. x.now) result (same_height_at h bytes.now) }
{
    let (found, rest) = height(bytes)?;
    match (found, h) {
        (Height::H5, Height::H5) | (Height::H10, Height::H10) => Ok(rest),
        _ => Err(LmsFault::Malformed),
    }
}

/// A signature under a key of that set, and the bytes after it (RFC 8554, sections 4.5 and 5.4).
///
/// # Errors
///
/// The first fault in reading order: `Malformed` for a leaf that the tree doesn't have, for a type of the profile that
/// isn't the key's, for a number that is no type and where bytes are missing; `Unsupported` for a type number of
/// RFC 8554 outside the profile. Never `Wrong`.
#[tactic(auto, unfolding(hash_signature_model::specs::Reading::signature_at))]
pub fn read_signature(set: Set, bytes: &[u8]) -> Result<(SignatureParts<'_>, &[u8]), LmsFault>
    ensures { Gives (λ x. (fields_of x.0, x.1.now)) result (signature_at set bytes.now) }
{
    let (leaf, rest) = leaf_number(set.h, bytes)?;
    let rest = same_width(set.w, rest)?;
    let (randomizer, rest) = part(rest, 32)?;
    let (values, rest) = part(rest, 32 * set.w.chain_count() as usize)?;
    let rest = same_height(set.h, rest)?;
    let (path, rest) = part(rest, 32 * set.h.level_count() as usize)?;
    let parts = SignatureParts {
        leaf,
        randomizer,
        values,
        path,
    };
    Ok((parts, rest))
}

/// A signature that is all of the bytes.
#[tactic(auto, unfolding(hash_signature_model::specs::Reading::whole_signature))]
pub fn read_whole_signature(set: Set, bytes: &[u8]) -> Result<SignatureParts<'_>, LmsFault>
    ensures { Gives fields_of result (whole_signature set bytes.now) }
{
    let (parts, rest) = read_signature(set, bytes)?;
    if !rest.is_empty() {
        return Err(LmsFault::Malformed);
    }
    Ok(parts)
}
