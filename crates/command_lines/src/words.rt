//! The parts of a line and of a word.

ghost use Rattle.std.specs.Prelude.{◌≡◌, ◌==◌, nat_eq, true, false, length, drop, IfOk, MatchOption, map, bytes_eq};
ghost use Rattle.std.specs.List.{slice_split, starts_with};

use ivy_base::Memory;
use std::alloc::Global;

/// The parts between the separators, one more than there are separators. The error is: out of memory.
pub fn parts(alloc: Global, text: &[u8], separator: u8) -> Result<Vec<&[u8]>, Memory>
    ensures { IfOk result (λ parts. map (λ part. part.now) parts.items ≡ slice_split (λ b. b == separator) text.now) }
{
    Ok(text.split(|byte| *byte == separator).collect(alloc)?)
}

/// Whether the word is that text.
pub fn is(word: &[u8], text: &[u8]) -> bool
    ensures { result ≡ bytes_eq word.now text.now }
{
    *word == *text
}

/// What stands after the prefix, if the word begins with it.
pub fn behind<'a>(word: &'a [u8], prefix: &[u8]) -> Option<&'a [u8]>
    ensures { MatchOption result (starts_with nat_eq word.now prefix.now ≡ false) (λ rest. (starts_with nat_eq word.now prefix.now ≡ true) × (rest.now ≡ drop (length prefix.now) word.now)) }
{
    if word.starts_with(prefix) {
        Some(&word[prefix.len()..])
    } else {
        None
    }
}
