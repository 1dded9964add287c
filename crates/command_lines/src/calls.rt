//! The lines of calls and sessions, and the line that ends a run.

ghost use Rattle.std.specs.Prelude.{◌≡◌, IfOk, map};
ghost use Rattle.script_model.specs.Lines.{as_of, open_of, step_line_of, end_line_of};

use crate::agents::{Asked, ask};
use crate::names::name;
use crate::numbers::number_u64;
use crate::pieces::pieces;
use ivy_base::{Bytes, Memory};
use script_model::Command;
use std::alloc::Global;

/// `as P PIECES`, of the words after the first. The error is: out of memory.
pub fn call(alloc: Global, words: &[&[u8]]) -> Result<Option<Command>, Memory>
    ensures { IfOk result (λ command. command ≡ as_of (map (λ word. word.now) words.now)) }
{
    let [log, rest @ ..] = words else {
        return Ok(None);
    };
    let Some(log) = name(log) else {
        return Ok(None);
    };
    let Some(pieces) = pieces(alloc, rest)? else {
        return Ok(None);
    };
    let log = Bytes::copy_of(alloc, log)?;
    Ok(Some(Command::As { log, pieces }))
}

/// `open S P PIECES`, of the words after the first. The error is: out of memory.
pub fn begin(alloc: Global, words: &[&[u8]]) -> Result<Option<Command>, Memory>
    ensures { IfOk result (λ command. command ≡ open_of (map (λ word. word.now) words.now)) }
{
    let [session, log, rest @ ..] = words else {
        return Ok(None);
    };
    let Some(session) = name(session) else {
        return Ok(None);
    };
    let Some(log) = name(log) else {
        return Ok(None);
    };
    let Some(pieces) = pieces(alloc, rest)? else {
        return Ok(None);
    };
    let session = Bytes::copy_of(alloc, session)?;
    let log = Bytes::copy_of(alloc, log)?;
    Ok(Some(Command::Open {
        session,
        log,
        pieces,
    }))
}

/// `step S K`, of the words after the first. The error is: out of memory.
pub fn step(alloc: Global, words: &[&[u8]]) -> Result<Option<Command>, Memory>
    ensures { IfOk result (λ command. command ≡ step_line_of (map (λ word. word.now) words.now)) }
{
    let [session, count] = words else {
        return Ok(None);
    };
    let Some(session) = name(session) else {
        return Ok(None);
    };
    let Some(count) = number_u64(count) else {
        return Ok(None);
    };
    let session = Bytes::copy_of(alloc, session)?;
    Ok(Some(Command::Step { session, count }))
}

/// `end` and `end S`, of the words after the first. The error is: out of memory.
pub fn end(alloc: Global, words: &[&[u8]]) -> Result<Option<Command>, Memory>
    ensures { IfOk result (λ command. command ≡ end_line_of (map (λ word. word.now) words.now)) }
{
    match words {
        [] => Ok(Some(Command::End)),
        _ => ask(alloc, Asked::Finish, words),
    }
}
