//! The lines that make nodes, logs and views, and set the moment.

ghost use Rattle.std.specs.Prelude.{◌≡◌, IfOk, map};
ghost use Rattle.script_model.specs.Lines.{ring_of, log_line_of, view_of, use_of, at_of};
ghost use Rattle.command_lines.specs.Steps.{former_of};

use crate::hex_digits::{identifier, seed};
use crate::names::{name, names};
use crate::numbers::number_u64;
use crate::sets::key_sets;
use ivy_base::{Bytes, Memory};
use script_model::{Command, Names};
use std::alloc::Global;

/// `ring N R`, of the words after the first.
pub fn ring(words: &[&[u8]]) -> Option<Command>
    ensures { result ≡ ring_of (map (λ word. word.now) words.now) }
{
    let [nodes, replicas] = words else {
        return None;
    };
    let nodes = number_u64(nodes)?;
    let replicas = number_u64(replicas)?;
    Some(Command::Ring { nodes, replicas })
}

/// `log P ID SEED SETS`, of the words after the first. The error is: out of memory.
pub fn log(alloc: Global, words: &[&[u8]]) -> Result<Option<Command>, Memory>
    ensures { IfOk result (λ command. command ≡ log_line_of (map (λ word. word.now) words.now)) }
{
    let [log, id, key_seed, sets] = words else {
        return Ok(None);
    };
    let Some(log) = name(log) else {
        return Ok(None);
    };
    let Some(id) = identifier(id) else {
        return Ok(None);
    };
    let Some(seed) = seed(key_seed) else {
        return Ok(None);
    };
    let Some(sets) = key_sets(alloc, sets)? else {
        return Ok(None);
    };
    let log = Bytes::copy_of(alloc, log)?;
    Ok(Some(Command::Log {
        log,
        id,
        seed,
        sets,
    }))
}

/// The former members of a view, of the words after its members: there may be none. The error is: out of memory.
fn former_names(alloc: Global, words: &[&[u8]]) -> Result<Option<Names>, Memory>
    ensures { IfOk result (λ names. names ≡ former_of (map (λ word. word.now) words.now)) }
{
    match words {
        [] => Ok(Some(Names::of(Vec::new(alloc)))),
        [former] => names(alloc, former),
        _ => Ok(None),
    }
}

/// `view V M` and `view V M F`, of the words after the first. The error is: out of memory.
pub fn view(alloc: Global, words: &[&[u8]]) -> Result<Option<Command>, Memory>
    ensures { IfOk result (λ command. command ≡ view_of (map (λ word. word.now) words.now)) }
{
    let [view, members, rest @ ..] = words else {
        return Ok(None);
    };
    let Some(view) = name(view) else {
        return Ok(None);
    };
    let Some(members) = names(alloc, members)? else {
        return Ok(None);
    };
    let Some(former) = former_names(alloc, rest)? else {
        return Ok(None);
    };
    let view = Bytes::copy_of(alloc, view)?;
    Ok(Some(Command::View {
        view,
        members,
        former,
    }))
}

/// `use P V`, of the words after the first. The error is: out of memory.
pub fn enter(alloc: Global, words: &[&[u8]]) -> Result<Option<Command>, Memory>
    ensures { IfOk result (λ command. command ≡ use_of (map (λ word. word.now) words.now)) }
{
    let [log, view] = words else {
        return Ok(None);
    };
    let Some(log) = name(log) else {
        return Ok(None);
    };
    let Some(view) = name(view) else {
        return Ok(None);
    };
    let log = Bytes::copy_of(alloc, log)?;
    let view = Bytes::copy_of(alloc, view)?;
    Ok(Some(Command::Use { log, view }))
}

/// `at SEC NSEC`, of the words after the first.
pub fn moment(words: &[&[u8]]) -> Option<Command>
    ensures { result ≡ at_of (map (λ word. word.now) words.now) }
{
    let [sec, nsec] = words else {
        return None;
    };
    Some(Command::At {
        sec: number_u64(sec)?,
        nsec: number_u64(nsec)?,
    })
}
