//! The lines that show something.

ghost use Rattle.std.specs.Prelude.{◌≡◌, IfOk, map};
ghost use Rattle.script_model.specs.declared.command.Shown.TheVariants as shown;
ghost use Rattle.script_model.specs.Lines.{of_log, of_node, shown_of, show_command};
ghost use Rattle.command_lines.specs.Steps.{shown_asked};

use crate::names::name;
use crate::nodes::only_node;
use crate::words::is;
use ivy_base::{Bytes, Memory};
use script_model::{Command, Shown};
use std::alloc::Global;

/// What may be asked to be shown of a participant.
#[derive(Drop)]
enum ShownAsked {
    /// `order P`.
    Order,
    /// `work P`.
    Work,
    /// `conflicts P`.
    Conflicts,
    /// `proof P`.
    Proof,
}

/// What is shown of a participant, of the words after the first: its name alone. The error is: out of memory.
fn of_log(alloc: Global, asked: ShownAsked, words: &[&[u8]]) -> Result<Option<Shown>, Memory>
    ensures { IfOk result (λ it. it ≡ of_log (shown_asked asked) (map (λ word. word.now) words.now)) }
{
    let [log] = words else {
        return Ok(None);
    };
    let Some(log) = name(log) else {
        return Ok(None);
    };
    let log = Bytes::copy_of(alloc, log)?;
    Ok(Some(match asked {
        ShownAsked::Order => Shown::Order { log },
        ShownAsked::Work => Shown::Work { log },
        ShownAsked::Conflicts => Shown::Conflicts { log },
        ShownAsked::Proof => Shown::Proof { log },
    }))
}

/// `holds NODE`, of the words after the first. The error is: out of memory.
fn holds(alloc: Global, words: &[&[u8]]) -> Result<Option<Shown>, Memory>
    ensures { IfOk result (λ it. it ≡ of_node shown.Holds (map (λ word. word.now) words.now)) }
{
    let Some(node) = only_node(alloc, words)? else {
        return Ok(None);
    };
    Ok(Some(Shown::Holds { node }))
}

/// What a line shows, if it shows something. The error is: out of memory.
fn shown(alloc: Global, word: &[u8], words: &[&[u8]]) -> Result<Option<Shown>, Memory>
    ensures { IfOk result (λ it. it ≡ shown_of word.now (map (λ word. word.now) words.now)) }
{
    if is(word, b"holds") {
        holds(alloc, words)
    } else if is(word, b"order") {
        of_log(alloc, ShownAsked::Order, words)
    } else if is(word, b"work") {
        of_log(alloc, ShownAsked::Work, words)
    } else if is(word, b"conflicts") {
        of_log(alloc, ShownAsked::Conflicts, words)
    } else if is(word, b"proof") {
        of_log(alloc, ShownAsked::Proof, words)
    } else {
        Ok(None)
    }
}

/// A command that shows something. The error is: out of memory.
pub fn show(alloc: Global, word: &[u8], words: &[&[u8]]) -> Result<Option<Command>, Memory>
    ensures { IfOk result (λ command. command ≡ show_command word.now (map (λ word. word.now) words.now)) }
{
    let Some(shown) = shown(alloc, word, words)? else {
        return Ok(None);
    };
    Ok(Some(Command::Show { shown }))
}
