//! Which command a line is.

ghost use Rattle.std.specs.Prelude.{◌≡◌, IfOk, map};
ghost use Rattle.script_model.specs.Lines.{call_command, command_of_words, is_comment, command_of};

use crate::agents::{Asked, ask, keep};
use crate::calls::{begin, call, end, step};
use crate::nodes::{damage, join, lose, round, stop};
use crate::setup::{enter, log, moment, ring, view};
use crate::shows::show;
use crate::words::{is, parts};
use ivy_base::Memory;
use script_driver::LINE_LIMIT;
use script_model::Command;
use std::alloc::Global;

/// A command of a call or a session, or one that makes nodes, logs and views, sets the moment, or shows something. The
/// error is: out of memory.
fn call_command(alloc: Global, word: &[u8], words: &[&[u8]]) -> Result<Option<Command>, Memory>
    ensures { IfOk result (λ command. command ≡ call_command word.now (map (λ word. word.now) words.now)) }
{
    if is(word, b"as") {
        call(alloc, words)
    } else if is(word, b"open") {
        begin(alloc, words)
    } else if is(word, b"step") {
        step(alloc, words)
    } else if is(word, b"end") {
        end(alloc, words)
    } else if is(word, b"ring") {
        Ok(ring(words))
    } else if is(word, b"log") {
        log(alloc, words)
    } else if is(word, b"view") {
        view(alloc, words)
    } else if is(word, b"use") {
        enter(alloc, words)
    } else if is(word, b"at") {
        Ok(moment(words))
    } else {
        show(alloc, word, words)
    }
}

/// The command that these words are, if they are one: one of agents, of nodes and their blocks, or one of those above.
/// The error is: out of memory.
fn command(alloc: Global, words: &[&[u8]]) -> Result<Option<Command>, Memory>
    ensures { IfOk result (λ command. command ≡ command_of_words (map (λ word. word.now) words.now)) }
{
    let [first, rest @ ..] = words else {
        return Ok(None);
    };
    let word = *first;
    if is(word, b"snap") {
        ask(alloc, Asked::Snap, rest)
    } else if is(word, b"restart") {
        ask(alloc, Asked::Restart, rest)
    } else if is(word, b"keep") {
        keep(alloc, rest)
    } else if is(word, b"join") {
        Ok(join(rest))
    } else if is(word, b"stop") {
        stop(alloc, rest)
    } else if is(word, b"round") {
        Ok(round(rest))
    } else if is(word, b"lose") {
        Ok(lose(rest))
    } else if is(word, b"damage") {
        damage(alloc, rest)
    } else {
        call_command(alloc, word, rest)
    }
}

/// Whether the line is empty, or begins with `#`.
fn is_comment(line: &[u8]) -> bool
    ensures { result ≡ is_comment line.now }
{
    matches!(line, [] | [b'#', ..])
}

/// Reads a line of a script, without its newline. `Ok(None)` where the line is no command, as one of more than
/// 32,768 bytes. The error is: out of memory.
pub fn read_command(alloc: Global, line: &[u8]) -> Result<Option<Command>, Memory>
    ensures { IfOk result (λ command. command ≡ command_of line.now) }
{
    if line.len() > LINE_LIMIT {
        return Ok(None);
    }
    if is_comment(line) {
        return Ok(Some(Command::Nothing));
    }
    let words = parts(alloc, line, b' ')?;
    command(alloc, &words)
}
