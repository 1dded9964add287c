//! How blocks, logs and inodes are named, and which names a directory may hold.

ghost use Rattle.std.specs.Prelude.{◌≡◌, ◌↔◌, IsTrue, take};
ghost use Rattle.sha2.specs.Sha256.{sha256};
ghost use Rattle.ivy_base.specs.Naming.{name, head_key_of, inode_number, is_named_by_sha256, IsFileName};

use crate::key::{Key, PubKey};
use sha1::Sha1;
use sha2::{Digest, Sha256};

/// The name of a block: the first 20 bytes of the SHA-256 of its bytes where these begin with a tag of format 2, and else their
/// SHA-1 (FIPS 180-4).
#[tactic(auto, unfolding(crate::specs::Naming::name))]
pub fn name_of(bytes: &[u8]) -> Key
    ensures { result ≡ name bytes.now }
{
    if is_named_by_sha256(bytes) {
        first_twenty(&Sha256::digest(bytes))
    } else {
        Key(Sha1::digest(bytes))
    }
}

/// Whether the bytes begin with a tag of format 2.
fn is_named_by_sha256(bytes: &[u8]) -> bool
    ensures { result ≡ is_named_by_sha256 bytes.now }
{
    let tag = &bytes[..bytes.len().min(4)];
    [*b"IVR2", *b"IVS2", *b"IVL2", *b"IVE2", *b"IVI2", *b"IVD2"]
        .iter()
        .any(|t: &[u8; 4]| tag == t.as_slice())
}

/// The first 20 bytes of a digest.
fn first_twenty(whole: &[u8; 32]) -> Key
    ensures { result.0 ≡ take 20 whole.now }
{
    let mut front = [0; 20];
    front.copy_from_slice(&whole[..20]);
    Key(front)
}

/// Where the head of the owner's log lies, which stands for the log: the SHA-1 of the owner's public key.
pub fn head_key(owner: &PubKey) -> Key
    ensures { result ≡ head_key_of owner.now }
{
    Key(Sha1::digest(&owner.0))
}

/// The number of the inode that the owner's record of that sequence number makes: the SHA-1 of the public key
/// followed by the number as four bytes, big-endian.
pub fn number_of(owner: &PubKey, seq: u32) -> Key
    ensures { result ≡ inode_number owner.now seq }
{
    let mut hasher = Sha1::new();
    hasher.update(&owner.0);
    hasher.update(&seq.to_be_bytes());
    Key(hasher.finalize())
}

/// Whether the bytes may name an entry of a directory: 1 to 255 bytes, no slash, no zero byte, and neither `.`
/// nor `..`.
pub fn name_ok(name: &[u8]) -> bool
    ensures { IsTrue result ↔ IsFileName name.now }
{
    !name.is_empty()
        && name.len() <= 255
        && !name.contains(&b'/')
        && !name.contains(&0)
        && name != b".".as_slice()
        && name != b"..".as_slice()
}
