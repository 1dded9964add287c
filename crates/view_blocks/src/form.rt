//! The form of a view's block: read without taking memory, and written.

ghost use Rattle.std.specs.Prelude.{◌≡◌, ◌≢◌, ℕ, ◌+◌, ◌*◌, ◌^◌, ◌<◌, ◌≤◌, List, ◌++◌, length, IfOk, IfSome, IfNone, MatchOption};
ghost use Rattle.wire_model.specs.OneReading.{IsFront, HasNoFront};
ghost use Rattle.log_model.specs.View.{view_block};
ghost use Rattle.view_blocks.specs.Faults.{AreKeys, keys_block, keys_of, FitsBlock, HasNoForm};

use block_parts::{put_owner, read_blocks};
use ivy_base::{Bytes, Memory, PubKey};
use std::alloc::Global;
use xdr_codec::{XdrRead, XdrWrite};

/// How many bytes a public key has.
pub const KEY_LEN: usize = 60;

/// How a view's block begins.
const MARK: [u8; 4] = *b"IVV1";

/// The bytes of the members' keys and of the former members' keys, where these bytes are the block of two lists of
/// public keys.
pub fn key_lists(bytes: &[u8]) -> Option<(&[[u8; KEY_LEN]], &[[u8; KEY_LEN]])>
    ensures fits { IfSome result (λ lists. FitsBlock (record { members = keys_of lists.0.now; former = keys_of lists.1.now })) }
    ensures some { IfSome result (λ lists. bytes.now ≡ view_block (record { members = keys_of lists.0.now; former = keys_of lists.1.now })) }
    ensures none { IfNone result (HasNoForm bytes.now) }
{
    let rest = behind_mark(bytes)?;
    let (members, rest) = keys(rest)?;
    let (former, rest) = keys(rest)?;
    if rest.is_empty() {
        Some((members, former))
    } else {
        None
    }
}

/// The bytes after the mark, if it stands in front.
fn behind_mark(bytes: &[u8]) -> Option<&[u8]>
    ensures { MatchOption result ((rest : List ℕ) → bytes.now ≢ MARK ++ rest) (λ rest. bytes.now ≡ MARK ++ rest.now) }
{
    bytes.strip_prefix(MARK.as_slice())
}

/// The bytes of the keys in the list of public keys that stands in front, and the bytes after it.
fn keys(bytes: &[u8]) -> Option<(&[[u8; KEY_LEN]], &[u8])>
    ensures some { IfSome result (λ p. IsFront AreKeys keys_block bytes.now (keys_of p.0.now) p.1.now) }
    ensures none { IfNone result (HasNoFront AreKeys keys_block bytes.now) }
{
    let mut reader = XdrRead::new(bytes);
    let count = reader.u32().ok()?;
    let keys = read_blocks::<KEY_LEN>(&mut reader, count).ok()?;
    Some((keys, reader.rest()))
}

/// The block of these two lists of public keys. The error is: out of memory.
pub fn block_of(alloc: Global, members: &[PubKey], former: &[PubKey]) -> Result<Bytes, Memory>
    requires members { length members.now < 2 ^ 32 }
    requires former { length former.now < 2 ^ 32 }
    ensures { IfOk result (λ block. block ≡ view_block (record { members = members.now; former = former.now })) }
{
    let mut out = XdrWrite::new(alloc);
    out.reserve(12 + KEY_LEN * (members.len() + former.len()))?;
    out.put_fixed(&MARK);
    put_keys(&mut out, members);
    put_keys(&mut out, former);
    Ok(out.into_bytes())
}

/// Appends a list of public keys.
fn put_keys(out: &mut XdrWrite, keys: &[PubKey])
    requires count { length keys.now < 2 ^ 32 }
    requires room { 4 + 60 * length keys.now ≤ out.old.spare }
    ensures written { out.new.written ≡ out.old.written ++ keys_block keys.now }
    ensures spare { out.new.spare + (4 + 60 * length keys.now) ≡ out.old.spare }
{
    out.put_u32(keys.len() as u32);
    for key in keys {
        put_owner(out, key);
    }
}
