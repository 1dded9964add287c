//! What is shown of a call that is over, and what it leaves to later lines.

ghost use Rattle.std.specs.Prelude.{◌≡◌, ◌≢◌, ◌++◌, ◌∷◌, [], None, codes, filter, IfOk, OnOk};
ghost use Rattle.std.specs.List.{flat_map};
ghost use Rattle.world_model.specs.Calls.{key_line, reply_line};
ghost use Rattle.session_steps.specs.Ending.{IsRepresentedOf, LeavesGiven, is_miss, is_shown, note_key, note_line, note_word, served_line};

use crate::open::OpenCall;
use command_messages::ReplyParts;
use ivy_base::{Key, Memory};
use ivy_session::Served;
use log_fetch::Note;
use std::alloc::Global;
use std::mem;

impl OpenCall {
    /// What a line shows of it, once it is over: its reply, or that it has none, why its refresh failed, where it did, and what
    /// was noted of logs. The error is: out of memory.
    pub fn shown(&self, alloc: Global) -> Result<Vec<u8>, Memory>
        requires { self.now.told ≢ None }
        ensures { IfOk result (λ text. IsRepresentedOf self.now text.items) }
    {
        let Some(told) = &self.told else {
            unreachable!();
        };
        let mut text = Vec::new(alloc);
        put_served(alloc, &mut text, told)?;
        let notes = self.session.notes().as_slice();
        put_notes(alloc, &mut text, notes, true)?;
        put_notes(alloc, &mut text, notes, false)?;
        Ok(text)
    }

    /// What its reply leaves to later lines, where it has one.
    pub fn into_given(mut self) -> Option<ReplyParts>
        requires { self.told ≢ None }
        ensures { LeavesGiven self result }
    {
        match &self.told {
            Some(Served::Reply(_)) => Some(mem::replace(
                &mut self.given,
                ReplyParts::of(None, None),
            )),
            _ => None,
        }
    }
}

/// Adds the line of how a session ended; that of posts alone has none. The error is: out of memory.
fn put_served(alloc: Global, text: &mut Vec<u8>, told: &Served) -> Result<(), Memory>
    ensures { OnOk result (text.new.items ≡ text.old.items ++ served_line told.now) }
{
    match told {
        Served::Reply(message) => put_reply(alloc, text, message.as_slice()),
        Served::NotACall => Ok(text.extend_from_slice(b"none\n".as_slice())?),
        Served::Published => Ok(()),
    }
}

/// Adds the line of a reply. The error is: out of memory.
fn put_reply(alloc: Global, text: &mut Vec<u8>, message: &[u8]) -> Result<(), Memory>
    ensures { OnOk result (text.new.items ≡ text.old.items ++ reply_line message.now) }
{
    let digits = hex::encode(alloc, message)?;
    text.extend_from_slice(b"reply ".as_slice())?;
    text.extend_from_slice(digits.as_bytes())?;
    text.push(b'\n')?;
    Ok(())
}

/// Adds the lines of what was missed, or of the other notes. The error is: out of memory.
fn put_notes(alloc: Global, text: &mut Vec<u8>, notes: &[Note], misses: bool) -> Result<(), Memory>
    ensures { OnOk result (text.new.items ≡ text.old.items ++ flat_map note_line (filter (is_shown misses) notes.now)) }
{
    'notes: for note in notes {
        if is_shown(note, misses) {
            put_key(alloc, text, word_of(note), &key_of(note))?;
        }
    }
    Ok(())
}

/// Whether the note is of those that are shown then: why a refresh failed, or the others.
fn is_shown(note: &Note, misses: bool) -> bool
    ensures { result ≡ is_shown misses note.now }
{
    is_miss(note) == misses
}

/// Adds the line of a word and a key. The error is: out of memory.
fn put_key(alloc: Global, text: &mut Vec<u8>, word: &[u8], key: &Key) -> Result<(), Memory>
    ensures { OnOk result (text.new.items ≡ text.old.items ++ key_line word.now key.now) }
{
    let digits = hex::encode(alloc, &key.0[..])?;
    text.extend_from_slice(word)?;
    text.push(b' ')?;
    text.extend_from_slice(digits.as_bytes())?;
    text.push(b'\n')?;
    Ok(())
}

/// Whether the note is why a refresh failed.
fn is_miss(note: &Note) -> bool
    ensures { result ≡ is_miss note.now }
{
    matches!(note, Note::NoRoute(_) | Note::Missing(_) | Note::Damaged(_))
}

/// The word that a note is shown by.
fn word_of(note: &Note) -> &'static [u8]
    ensures { result.now ≡ note_word note.now }
{
    match note {
        Note::Bad(_) => b"bad".as_slice(),
        Note::Fork(_) => b"fork".as_slice(),
        Note::NoRoute(_) => b"noroute".as_slice(),
        Note::Missing(_) => b"missing".as_slice(),
        Note::Damaged(_) => b"damaged".as_slice(),
    }
}

/// The key that a note is of.
fn key_of(note: &Note) -> Key
    ensures { result ≡ note_key note.now }
{
    match note {
        Note::Bad(key) | Note::Fork(key) => *key,
        Note::NoRoute(key) | Note::Missing(key) | Note::Damaged(key) => *key,
    }
}
