//! Whether a signature is accepted under a public key.

ghost use Rattle.std.specs.Prelude.{◌≡◌, ◌↔◌, ◌<◌, ◌*◌, IsOk, length};
ghost use Rattle.hash_signature_model.specs.Parameters.{chains, levels, leaves};
ghost use Rattle.hash_signature_model.specs.OneTime.{digest_of};
ghost use Rattle.hash_signature_model.specs.Nodes.{root_by_path};
ghost use Rattle.hash_signature_model.specs.Signatures.{Accepts, IsSignature, root_from};
ghost use Rattle.hash_signature_model.specs.Reading.{verdict};
ghost use Rattle.lms_core.specs.Readers.{fields_of};

use crate::chains::with_checksum;
use crate::hashing::{digest_message, hash_above, hash_leaf, value};
use crate::one_time::make_candidate;
use crate::reading::{SignatureParts, read_whole_key, read_whole_signature};
use hash_signature_model::{Height, LmsFault, PublicKey};

/// The root from the one-time key of a leaf and its path (RFC 8554, algorithm 6a).
fn climb(h: Height, id: &[u8; 16], leaf: u32, key: &[u8; 32], path: &[u8]) -> [u8; 32]
    requires in_tree { leaf < leaves h }
    requires path_length { length path.now ≡ 32 * levels h }
    ensures { result ≡ root_by_path h id.now leaf key.now path.now }
{
    let mut r = h.leaf_count() + leaf;
    let mut node = hash_leaf(id, r, key);
    'levels: for n in 0..h.level_count() {
        node = hash_above(id, r, &node, &value(path, n as usize));
        r /= 2;
    }
    node
}

/// The root that a signature of a message gives (RFC 8554, algorithms 4b and 6a). The signature is accepted where it is
/// the key's. The parts are of a signature under a key of that set, as [`crate::read_signature`] gives them.
pub fn recompute_root(key: &PublicKey, message: &[u8], parts: &SignatureParts<'_>) -> [u8; 32]
    requires { IsSignature key.now.set (fields_of parts.now) }
    ensures { result ≡ root_from key.now.set key.now.id message.now (fields_of parts.now) }
{
    let digest = digest_message(&key.id, parts.leaf, parts.randomizer, message);
    let code = with_checksum(key.set.w, &digest);
    let one_time = make_candidate(key.set.w, &key.id, parts.leaf, &code, parts.values);
    climb(key.set.h, &key.id, parts.leaf, &one_time, parts.path)
}

/// The answer about a public key, a message and a signature.
#[tactic(auto, unfolding(hash_signature_model::specs::Reading::verdict))]
fn judge(public: &[u8], message: &[u8], signature: &[u8]) -> Result<(), LmsFault>
    ensures { result ≡ verdict public.now message.now signature.now }
{
    let key = read_whole_key(public)?;
    let parts = read_whole_signature(key.set, signature)?;
    let root = recompute_root(&key, message, &parts);
    if root[..] == key.root[..] {
        Ok(())
    } else {
        Err(LmsFault::Wrong)
    }
}

/// Whether the signature of the message is accepted under the public key (RFC 8554, algorithm 6). Nothing allocates.
///
/// # Errors
///
/// The first fault in reading order, the public key before the signature: `Unsupported` for a type number of RFC 8554
/// outside the profile, `Malformed` for bytes that spell no key, or no signature under it. `Wrong` where all was read and
/// the signature gives another root.
pub fn verify(public: &[u8], message: &[u8], signature: &[u8]) -> Result<(), LmsFault>
    ensures accepted { IsOk result ↔ Accepts public.now message.now signature.now }
    ensures exact { result ≡ verdict public.now message.now signature.now }
{
    judge(public, message, signature)
}
