//! The saved bytes of a signer, read and written.

ghost use Rattle.std.specs.Prelude.{◌≡◌, ℕ, ◌+◌, ◌*◌, ◌<◌, ◌≤◌, ◌++◌, [], length, take, IfOk, IfSome, IfNone};
ghost use Rattle.std.specs.List.{AllByRecursion, flat_map};
ghost use Rattle.wire_model.specs.Xdr.{array, IsAny, AreSoMany};
ghost use Rattle.wire_model.specs.OneReading.{IsFront, HasNoFront};
ghost use Rattle.hash_signature_model.specs.Signer.{Signer};
ghost use Rattle.hash_signature_model.specs.Saved.{bits, set_bytes, saved_bytes, AreLevels, IsSigner};
ghost use Rattle.hss_keys.specs.Saved.{SavedOnce};
ghost use Rattle.hss_keys.specs.SavedReading.{width_bytes, height_bytes, secrets_bytes, AreSecrets, parts_bytes, AreParts, said};

use crate::spelling::count_messages;
use block_parts::read_block;
use ivy_base::{Bytes, Memory};
use lms_core::{Height, Set, Width};
use std::alloc::Global;
use xdr_codec::{XdrRead, XdrWrite};

/// The most levels of a key.
const MOST_LEVELS: usize = 3;

/// What the saved bytes of a signer say, its secrets among it: so it is not printed.
#[derive(Clone, Copy)]
pub struct Saved {
    /// The identifier.
    pub id: [u8; 16],
    /// The seed.
    pub seed: [u8; 32],
    /// The sets from the top down: the first `count` of these.
    pub sets: [Set; MOST_LEVELS],
    /// How many levels there are.
    pub count: u32,
    /// How many signatures were made.
    pub made: u64,
}

/// w: 4 or 8.
fn read_width(reader: &mut XdrRead) -> Option<Width>
    ensures some { IfSome result (λ w. IsFront IsAny width_bytes reader.old w reader.new) }
    ensures none { IfNone result (HasNoFront IsAny width_bytes reader.old) }
{
    match reader.u32().ok()? {
        4 => Some(Width::W4),
        8 => Some(Width::W8),
        _ => None,
    }
}

/// h: 5 or 10.
fn read_height(reader: &mut XdrRead) -> Option<Height>
    ensures some { IfSome result (λ h. IsFront IsAny height_bytes reader.old h reader.new) }
    ensures none { IfNone result (HasNoFront IsAny height_bytes reader.old) }
{
    match reader.u32().ok()? {
        5 => Some(Height::H5),
        10 => Some(Height::H10),
        _ => None,
    }
}

/// w and h of a level.
fn read_set(reader: &mut XdrRead) -> Option<Set>
    ensures some { IfSome result (λ set. IsFront IsAny set_bytes reader.old set reader.new) }
    ensures none { IfNone result (HasNoFront IsAny set_bytes reader.old) }
{
    let w = read_width(reader)?;
    let h = read_height(reader)?;
    Some(Set { w, h })
}

/// So many sets, at most three.
fn read_each_set(reader: &mut XdrRead, count: u32) -> Option<[Set; MOST_LEVELS]>
    requires { count ≤ 3 }
    ensures some { IfSome result (λ sets. IsFront (AllByRecursion IsAny) (flat_map set_bytes) reader.old (take count sets) reader.new × (length (take count sets) ≡ count)) }
    ensures none { IfNone result (HasNoFront (AreSoMany IsAny count) (flat_map set_bytes) reader.old) }
{
    let unset = Set {
        w: Width::W4,
        h: Height::H5,
    };
    let mut sets = [unset; MOST_LEVELS];
    'sets: for i in 0..count {
        sets[i as usize] = read_set(reader)?;
    }
    Some(sets)
}

/// The sets of one to three levels, and how many there are.
#[tactic(auto, using(crate::proofs::Saving::no_count_of_sets, crate::proofs::Saving::too_many_sets, crate::proofs::Saving::no_sets, crate::proofs::Saving::no_counted_sets, crate::proofs::Saving::sets_front))]
fn read_sets(reader: &mut XdrRead) -> Option<([Set; MOST_LEVELS], u32)>
    ensures some { IfSome result (λ s. IsFront AreLevels (array set_bytes) reader.old (take s.1 s.0) reader.new) }
    ensures few { IfSome result (λ s. s.1 ≤ 3) }
    ensures none { IfNone result (HasNoFront AreLevels (array set_bytes) reader.old) }
{
    let count = reader.u32().ok()?;
    if count == 0 || count as usize > MOST_LEVELS {
        return None;
    }
    let sets = read_each_set(reader, count)?;
    Some((sets, count))
}

/// The identifier and the seed.
#[tactic(auto, using(crate::proofs::Saving::secrets_front, crate::proofs::Saving::no_id, crate::proofs::Saving::no_seed))]
fn read_secrets(reader: &mut XdrRead) -> Option<([u8; 16], [u8; 32])>
    ensures some { IfSome result (λ s. IsFront AreSecrets secrets_bytes reader.old (s.0, s.1) reader.new) }
    ensures none { IfNone result (HasNoFront AreSecrets secrets_bytes reader.old) }
{
    let id = read_block::<16>(reader).ok()?;
    let seed = read_block::<32>(reader).ok()?;
    Some((id, seed))
}

/// All parts, of which the number of signatures is not tested yet.
#[tactic(auto, using(crate::proofs::Saving::parts_front, crate::proofs::Saving::no_secrets, crate::proofs::Saving::no_levels, crate::proofs::Saving::no_made))]
fn read_parts(reader: &mut XdrRead) -> Option<Saved>
    ensures some { IfSome result (λ s. IsFront AreParts parts_bytes reader.old (((s.id, s.seed), take s.count s.sets), s.made) reader.new) }
    ensures few { IfSome result (λ s. s.count ≤ 3) }
    ensures none { IfNone result (HasNoFront AreParts parts_bytes reader.old) }
{
    let (id, seed) = read_secrets(reader)?;
    let (sets, count) = read_sets(reader)?;
    let made = reader.u64().ok()?;
    Some(Saved {
        id,
        seed,
        sets,
        count,
        made,
    })
}

/// The parts, where they are all of the bytes.
#[tactic(auto, using(crate::proofs::Saving::no_signer_without, crate::proofs::Saving::no_signer_before))]
fn read_all_parts(bytes: &[u8]) -> Option<Saved>
    ensures some { IfSome result (λ s. IsFront AreParts parts_bytes bytes.now (((s.id, s.seed), take s.count s.sets), s.made) []) }
    ensures few { IfSome result (λ s. s.count ≤ 3) }
    ensures none { IfNone result ((signer : Signer) → IsSigner signer → bytes.now ≡ saved_bytes signer → ⊥) }
{
    let mut reader = XdrRead::new(bytes);
    let saved = read_parts(&mut reader)?;
    reader.finish().ok()?;
    Some(saved)
}

impl Saved {
    /// The signer whose saved bytes these are. There is none where no signer is saved so, among others where the number
    /// of signatures is above that of the leaves. Nothing allocates.
    #[tactic(auto, using(crate::proofs::Saving::no_signer_above, crate::proofs::Saving::a_signer))]
    pub fn read(bytes: &[u8]) -> Option<Saved>
        ensures some { IfSome result (λ s. IsSigner (said s) × (bytes.now ≡ saved_bytes (said s))) }
        ensures few { IfSome result (λ s. s.count ≤ 3) }
        ensures none { IfNone result ((signer : Signer) → IsSigner signer → bytes.now ≡ saved_bytes signer → ⊥) }
    {
        let saved = read_all_parts(bytes)?;
        if saved.made > count_messages(saved.levels()) {
            return None;
        }
        Some(saved)
    }

    /// The sets from the top down.
    pub fn levels(&self) -> &[Set]
        requires { self.now.count ≤ 3 }
        ensures { result.now ≡ take self.now.count self.now.sets }
    {
        &self.sets[..self.count as usize]
    }
}

/// The saved bytes of a signer. The error is: out of memory.
pub fn write_signer(
    alloc: Global,
    id: &[u8; 16],
    seed: &[u8; 32],
    sets: &[Set],
    made: u64,
) -> Result<Bytes, Memory>
    requires { length sets.now ≤ 3 }
    ensures { IfOk result (λ bytes. bytes ≡ saved_bytes (record { id = id.now; seed = seed.now; sets = sets.now; made = made })) }
{
    let mut out = XdrWrite::new(alloc);
    out.reserve(60 + 8 * sets.len())?;
    out.put_fixed(&id[..]);
    out.put_fixed(&seed[..]);
    put_sets(&mut out, sets);
    out.put_u64(made);
    Ok(out.into_bytes())
}

/// Appends the count of sets, and w and h of each.
fn put_sets(out: &mut XdrWrite, sets: &[Set])
    requires few { length sets.now ≤ 3 }
    requires room { 4 + 8 * length sets.now ≤ out.old.spare }
    ensures written { out.new.written ≡ out.old.written ++ array set_bytes sets.now }
    ensures spare { out.new.spare + (4 + 8 * length sets.now) ≡ out.old.spare }
{
    out.put_u32(sets.len() as u32);
    for set in sets {
        put_set(out, *set);
    }
}

/// Appends w and h of a level.
fn put_set(out: &mut XdrWrite, set: Set)
    requires { 8 ≤ out.old.spare }
    ensures written { out.new.written ≡ out.old.written ++ set_bytes set }
    ensures spare { out.new.spare + 8 ≡ out.old.spare }
{
    out.put_u32(width_bits(set.w));
    out.put_u32(set.h.level_count());
}

/// w.
fn width_bits(w: Width) -> u32
    ensures { result ≡ bits w }
{
    match w {
        Width::W4 => 4,
        Width::W8 => 8,
    }
}

/// A law and no code: saved bytes are of one signer.
pub fn saved_bytes_are_of_one_signer()
    ensures { SavedOnce }
{}
