//! The lines of nodes and of their blocks.

ghost use Rattle.std.specs.Prelude.{◌≡◌, IfOk, map};
ghost use Rattle.script_model.specs.declared.command.Command.TheVariants as command;
ghost use Rattle.script_model.specs.Lines.{join_of, of_node, round_of, lose_of, damage_of};

use crate::hex_digits::byte;
use crate::keys::{key, node};
use crate::numbers::{number_u32, number_u64};
use ivy_base::Memory;
use script_model::{Command, NodeWord};
use std::alloc::Global;

/// `join I`, of the words after the first.
pub fn join(words: &[&[u8]]) -> Option<Command>
    ensures { result ≡ join_of (map (λ word. word.now) words.now) }
{
    let [word] = words else {
        return None;
    };
    let node = number_u32(word)?;
    Some(Command::Join { node })
}

/// The node that the only word is, if there is one word and it is a node. The error is: out of memory.
pub fn only_node(alloc: Global, words: &[&[u8]]) -> Result<Option<NodeWord>, Memory>
    ensures { IfOk result (λ node. node ≡ of_node (λ node. node) (map (λ word. word.now) words.now)) }
{
    let [word] = words else {
        return Ok(None);
    };
    let Some(node) = node(alloc, word)? else {
        return Ok(None);
    };
    Ok(Some(node))
}

/// `stop NODE`, of the words after the first. The error is: out of memory.
pub fn stop(alloc: Global, words: &[&[u8]]) -> Result<Option<Command>, Memory>
    ensures { IfOk result (λ read. read ≡ of_node command.Stop (map (λ word. word.now) words.now)) }
{
    let Some(node) = only_node(alloc, words)? else {
        return Ok(None);
    };
    Ok(Some(Command::Stop { node }))
}

/// `round`, of the words after the first.
pub fn round(words: &[&[u8]]) -> Option<Command>
    ensures { result ≡ round_of (map (λ word. word.now) words.now) }
{
    if words.is_empty() {
        Some(Command::Round)
    } else {
        None
    }
}

/// `lose K`, of the words after the first.
pub fn lose(words: &[&[u8]]) -> Option<Command>
    ensures { result ≡ lose_of (map (λ word. word.now) words.now) }
{
    let [count] = words else {
        return None;
    };
    let count = number_u64(count)?;
    Some(Command::Lose { count })
}

/// `damage NODE KEY OFFSET BYTE`, of the words after the first. The error is: out of memory.
pub fn damage(alloc: Global, words: &[&[u8]]) -> Result<Option<Command>, Memory>
    ensures { IfOk result (λ command. command ≡ damage_of (map (λ word. word.now) words.now)) }
{
    let [node_word, key_word, offset, digits] = words else {
        return Ok(None);
    };
    let Some(offset) = number_u64(offset) else {
        return Ok(None);
    };
    let Some(byte) = byte(digits) else {
        return Ok(None);
    };
    let Some(key) = key(alloc, key_word)? else {
        return Ok(None);
    };
    let Some(node) = node(alloc, node_word)? else {
        return Ok(None);
    };
    Ok(Some(Command::Damage {
        node,
        key,
        offset,
        byte,
    }))
}
