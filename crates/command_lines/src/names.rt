//! Names of logs, views and sessions.

ghost use Rattle.std.specs.Prelude.{◌≡◌, IfOk};
ghost use Rattle.std.specs.List.{list_all};
ghost use Rattle.std.specs.Option.{option_map};
ghost use Rattle.script_model.specs.Words.{name_of, is_name_byte, names_of};

use crate::words::parts;
use ivy_base::{Bytes, Memory};
use script_model::Names;
use std::alloc::Global;

/// The most characters that a name has.
const NAME_LIMIT: usize = 16;

/// Whether all bytes may stand in a name.
fn are_name_bytes(word: &[u8]) -> bool
    ensures { result ≡ list_all is_name_byte word.now }
{
    for byte in word {
        if !byte.is_ascii_lowercase() && !byte.is_ascii_digit() {
            return false;
        }
    }
    true
}

/// The word, if it is a name: 1 to 16 lower-case letters and digits.
pub fn name(word: &[u8]) -> Option<&[u8]>
    ensures { option_map (λ name. name.now) result ≡ name_of word.now }
{
    if !word.is_empty() && word.len() <= NAME_LIMIT && are_name_bytes(word) {
        Some(word)
    } else {
        None
    }
}

/// The names that stand in a word, in its order, if it is names joined by commas; they are copied. There is one at
/// least: neither the empty word nor an empty part between commas is a name. The error is: out of memory.
pub fn names(alloc: Global, word: &[u8]) -> Result<Option<Names>, Memory>
    ensures { IfOk result (λ names. names ≡ names_of word.now) }
{
    let parts = parts(alloc, word, b',')?;
    let mut names = Vec::new(alloc);
    for part in &parts {
        let Some(name) = name(part) else {
            return Ok(None);
        };
        names.push(Bytes::copy_of(alloc, name)?)?;
    }
    Ok(Some(Names::of(names)))
}
