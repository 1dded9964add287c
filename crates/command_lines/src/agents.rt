//! The lines of a participant's agent.

ghost use Rattle.std.specs.Prelude.{◌≡◌, IfOk, map};
ghost use Rattle.script_model.specs.Lines.{of_log, kept_word_of, keep_of};
ghost use Rattle.command_lines.specs.Steps.{command_asked};

use crate::names::name;
use crate::numbers::number_u64;
use crate::words::is;
use ivy_base::{Bytes, Memory};
use script_model::Command;
use std::alloc::Global;

/// What a line asks of the one participant or session that it names.
#[derive(Drop)]
pub enum Asked {
    /// `snap P`.
    Snap,
    /// `restart P`.
    Restart,
    /// `end S`.
    Finish,
}

/// The line that asks this and nothing more, of the words after the first. The error is: out of memory.
pub fn ask(alloc: Global, asked: Asked, words: &[&[u8]]) -> Result<Option<Command>, Memory>
    ensures { IfOk result (λ command. command ≡ of_log (command_asked asked) (map (λ word. word.now) words.now)) }
{
    let [log] = words else {
        return Ok(None);
    };
    let Some(log) = name(log) else {
        return Ok(None);
    };
    let log = Bytes::copy_of(alloc, log)?;
    Ok(Some(match asked {
        Asked::Snap => Command::Snap { log },
        Asked::Restart => Command::Restart { log },
        Asked::Finish => Command::Finish { session: log },
    }))
}

/// Whether a save that fails leaves the new bytes, of the word for it.
fn kept(word: &[u8]) -> Option<bool>
    ensures { result ≡ kept_word_of word.now }
{
    if is(word, b"new") {
        Some(true)
    } else if is(word, b"old") {
        Some(false)
    } else {
        None
    }
}

/// `keep P K W`, of the words after the first. The error is: out of memory.
pub fn keep(alloc: Global, words: &[&[u8]]) -> Result<Option<Command>, Memory>
    ensures { IfOk result (λ read. read ≡ keep_of (map (λ word. word.now) words.now)) }
{
    let [log, count, word] = words else {
        return Ok(None);
    };
    let Some(log) = name(log) else {
        return Ok(None);
    };
    let Some(count) = number_u64(count) else {
        return Ok(None);
    };
    let Some(new) = kept(word) else {
        return Ok(None);
    };
    let log = Bytes::copy_of(alloc, log)?;
    Ok(Some(Command::Keep { log, count, new }))
}
