//! What a refresh notes.

ghost use Rattle.std.specs.Prelude.{◌≡◌, [], ◌∷◌, ◌++◌, OnOk};
ghost use Rattle.log_fetch.specs.Standings.{note_of_miss};

use dhash_client::Miss;
use ivy_base::{Key, Memory};
use std::marker::Model;

/// What a refresh notes of a log, or why it ended early; the key is that of the log's head, or of the block.
#[derive(Clone, Copy)]
pub enum Note {
    /// The first of the log's heads that was passed over leads to records that break a rule of logs.
    Bad(Key),
    /// The first of the log's heads that was passed over leads to another history of its log.
    Fork(Key),
    /// No owner of the key was found, and the refresh ended.
    NoRoute(Key),
    /// No owner that was asked has the block, and the refresh ended.
    Missing(Key),
    /// An owner gave another block, none gave the right one, and the refresh ended.
    Damaged(Key),
}

impl Note {
    /// What is noted of that miss.
    pub fn of_miss(miss: &Miss) -> Note
        ensures { result ≡ note_of_miss miss.now }
    {
        match miss {
            Miss::NoRoute(key) => Note::NoRoute(*key),
            Miss::Missing { key, .. } => Note::Missing(*key),
            Miss::Damaged { key, .. } => Note::Damaged(*key),
        }
    }
}

/// Notes in a row.
#[derive(Drop)]
pub struct Notes {
    notes: Vec<Note>,
}

impl Model for Notes {
    ghost use Rattle.std.specs.Prelude.{List};
    ghost use Rattle.log_fetch.specs.declared.note.Note.{Note};

    ghost Value = { List Note };

    ghost view = { λ n. n.notes.items };
}

impl Notes {
    /// The notes of a vector, which is not copied.
    pub fn of(items: Vec<Note>) -> Notes
        ensures { result ≡ items.items }
    {
        Notes { notes: items }
    }

    /// Adds a note after the others. The error is: out of memory.
    pub fn push(&mut self, note: Note) -> Result<(), Memory>
        ensures { OnOk result (self.new ≡ self.old ++ note ∷ []) }
    {
        self.notes.push(note)?;
        Ok(())
    }

    /// The notes as a vector, which is not copied.
    pub fn into_vec(self) -> Vec<Note>
        ensures { result.items ≡ self }
    {
        self.notes
    }

    /// The notes as a slice.
    pub fn as_slice(&self) -> &[Note]
        ensures { result.now ≡ self.now }
    {
        self.notes.as_slice()
    }
}
