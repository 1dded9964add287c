//! Keys and nodes, as a line names them.

ghost use Rattle.std.specs.Prelude.{◌≡◌, ◌^◌, [], ◌∷◌, true, length, IfOk, map};
ghost use Rattle.std.specs.List.{list_all};
ghost use Rattle.script_model.specs.Words.{is_lower_hex, key_of_name, key_of_parts, itself_of, key_of, parts_at, owner_node, numbered_node, node_word_of};
ghost use Rattle.command_lines.specs.Steps.{key_behind};

use crate::hex_digits::{is_key_text, key_bytes};
use crate::names::name;
use crate::numbers::{number_u32, number_u64};
use crate::words::{is, parts};
use ivy_base::{Bytes, Key, Memory};
use script_model::{KeyWord, NodeWord};
use std::alloc::Global;

/// The key of a log's head, of a view, or of a participant's last snapshot, by the word and whose it is.
fn key_of_name(word: &[u8], name: Bytes) -> Option<KeyWord>
    ensures { result ≡ key_of_name word.now name }
{
    if is(word, b"head") {
        Some(KeyWord::HeadOf { log: name })
    } else if is(word, b"view") {
        Some(KeyWord::ViewOf { view: name })
    } else if is(word, b"snap") {
        Some(KeyWord::SnapshotOf { log: name })
    } else {
        None
    }
}

/// The key of a word and a name. The error is: out of memory.
fn key_of_two(alloc: Global, word: &[u8], whose: &[u8]) -> Result<Option<KeyWord>, Memory>
    ensures { IfOk result (λ key. key ≡ key_of_parts (word.now ∷ whose.now ∷ [])) }
{
    let Some(whose) = name(whose) else {
        return Ok(None);
    };
    let whose = Bytes::copy_of(alloc, whose)?;
    Ok(key_of_name(word, whose))
}

/// The key of a log's record, of `rec`, a name and a number. The error is: out of memory.
fn key_of_three(
    alloc: Global,
    word: &[u8],
    log: &[u8],
    seq: &[u8],
) -> Result<Option<KeyWord>, Memory>
    ensures { IfOk result (λ key. key ≡ key_of_parts (word.now ∷ log.now ∷ seq.now ∷ [])) }
{
    let Some(log) = name(log) else {
        return Ok(None);
    };
    let Some(seq) = number_u64(seq) else {
        return Ok(None);
    };
    if !is(word, b"rec") {
        return Ok(None);
    }
    let log = Bytes::copy_of(alloc, log)?;
    Ok(Some(KeyWord::RecordOf { log, seq }))
}

/// The key of the parts between colons. The error is: out of memory.
fn key_of_parts(alloc: Global, parts: &[&[u8]]) -> Result<Option<KeyWord>, Memory>
    ensures { IfOk result (λ key. key ≡ key_of_parts (map (λ part. part.now) parts.now)) }
{
    match parts {
        [word, log] => key_of_two(alloc, word, log),
        [word, log, seq] => key_of_three(alloc, word, log, seq),
        _ => Ok(None),
    }
}

/// The key itself, of its digits.
fn itself(word: &[u8]) -> Option<KeyWord>
    requires size { length word.now ≡ 40 }
    requires digits { list_all is_lower_hex word.now ≡ true }
    ensures { result ≡ itself_of word.now }
{
    let key = Key(key_bytes(word)?);
    Some(KeyWord::Itself { key })
}

/// The key that the parts of a text are. The error is: out of memory.
fn key_of_text(alloc: Global, text: &[u8]) -> Result<Option<KeyWord>, Memory>
    ensures { IfOk result (λ key. key ≡ key_of_parts (parts_at 58 text.now)) }
{
    let parts = parts(alloc, text, b':')?;
    key_of_parts(alloc, &parts)
}

/// The key that a word is, if it is one. The error is: out of memory.
pub fn key(alloc: Global, word: &[u8]) -> Result<Option<KeyWord>, Memory>
    ensures { IfOk result (λ key. key ≡ key_of word.now) }
{
    if is_key_text(word) {
        Ok(itself(word))
    } else {
        key_of_text(alloc, word)
    }
}

/// The key that is the only part, or that several parts are. The error is: out of memory.
fn key_behind(alloc: Global, parts: &[&[u8]]) -> Result<Option<KeyWord>, Memory>
    ensures { IfOk result (λ key. key ≡ key_behind (map (λ part. part.now) parts.now)) }
{
    match parts {
        [word] => key(alloc, word),
        _ => key_of_parts(alloc, parts),
    }
}

/// A key's owner, of its place and the key. The error is: out of memory.
fn owner_of_parts(alloc: Global, parts: &[&[u8]]) -> Result<Option<NodeWord>, Memory>
    ensures { IfOk result (λ node. node ≡ owner_node (map (λ part. part.now) parts.now)) }
{
    let [place, rest @ ..] = parts else {
        return Ok(None);
    };
    let Some(place) = number_u64(place) else {
        return Ok(None);
    };
    let Some(key) = key_behind(alloc, rest)? else {
        return Ok(None);
    };
    Ok(Some(NodeWord::OwnerOf { place, key }))
}

/// A key's owner, of the text after `own:`. The error is: out of memory.
fn owner(alloc: Global, text: &[u8]) -> Result<Option<NodeWord>, Memory>
    ensures { IfOk result (λ node. node ≡ owner_node (parts_at 58 text.now)) }
{
    let parts = parts(alloc, text, b':')?;
    owner_of_parts(alloc, &parts)
}

/// The node of a number.
fn numbered(word: &[u8]) -> Option<NodeWord>
    ensures { result ≡ numbered_node word.now }
{
    let number = number_u32(word)?;
    Some(NodeWord::Numbered { number })
}

/// The node that a word is, if it is one. The error is: out of memory.
pub fn node(alloc: Global, word: &[u8]) -> Result<Option<NodeWord>, Memory>
    ensures { IfOk result (λ node. node ≡ node_word_of word.now) }
{
    if word.starts_with(b"own:".as_slice()) {
        owner(alloc, &word[4..])
    } else {
        Ok(numbered(word))
    }
}
