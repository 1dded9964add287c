//! The parameter sets of a key.

ghost use Rattle.std.specs.Prelude.{◌≡◌, IfOk};
ghost use Rattle.script_model.specs.Words.{set_of, sets_of};

use crate::words::{is, parts};
use hash_signature_model::{Height, Set, Width};
use ivy_base::Memory;
use script_model::SetWords;
use std::alloc::Global;

/// The most levels of a key.
const LEVEL_LIMIT: usize = 3;

/// The parameter set that the word names, if it names one.
fn named_set(word: &[u8]) -> Option<Set>
    ensures { result ≡ set_of word.now }
{
    if is(word, b"w4h5") {
        Some(Set {
            w: Width::W4,
            h: Height::H5,
        })
    } else if is(word, b"w4h10") {
        Some(Set {
            w: Width::W4,
            h: Height::H10,
        })
    } else if is(word, b"w8h5") {
        Some(Set {
            w: Width::W8,
            h: Height::H5,
        })
    } else if is(word, b"w8h10") {
        Some(Set {
            w: Width::W8,
            h: Height::H10,
        })
    } else {
        None
    }
}

/// The sets that a word names, the top level's first, if it is one to three names of sets joined by commas. The error
/// is: out of memory.
pub fn key_sets(alloc: Global, word: &[u8]) -> Result<Option<SetWords>, Memory>
    ensures { IfOk result (λ sets. sets ≡ sets_of word.now) }
{
    let parts = parts(alloc, word, b',')?;
    if parts.len() > LEVEL_LIMIT {
        return Ok(None);
    }
    let mut sets = Vec::new(alloc);
    for part in &parts {
        let Some(set) = named_set(part) else {
            return Ok(None);
        };
        sets.push(set)?;
    }
    Ok(Some(SetWords::of(sets)))
}
