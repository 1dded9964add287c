//! A table of nodes, who writes logs over it, and who fetches from it; and what lines say of them and ask for.

use crate::sessions::fetching::Fetcher;
use crate::sessions::reading::{keys_of, peers_of, view_of};
use crate::sessions::table::Table;
use crate::sessions::writer::Writer;
use crate::text::Text;
use crate::words::Words;
use dht_ids::Peers;
use ivy_base::PubKey;
use std::alloc::Global;
use std::sync::Wait;

/// A table of nodes, who writes logs over it, in the order in which they opened them, and who fetches from it.
pub struct Trial {
    table: Table,
    writers: Vec<Writer>,
    fetcher: Option<Fetcher>,
}

/// One function, so that whatever drops a trial calls it and isn't proved over all of its parts once more.
impl Drop for Trial {
    fn drop(self) {
        let Trial {
            table: _,
            writers: _,
            fetcher: _,
        } = self;
    }
}

impl Trial {
    /// No nodes, and nobody.
    pub fn new(alloc: Global) -> Trial {
        let table = Table::of(
            alloc,
            1,
            Peers::of(Vec::new(alloc)),
            Peers::of(Vec::new(alloc)),
        );
        Trial::over(alloc, table)
    }

    /// Those nodes, and nobody else.
    fn over(alloc: Global, table: Table) -> Trial {
        Trial {
            table,
            writers: Vec::new(alloc),
            fetcher: None,
        }
    }

    /// Puts the answer to a line: nothing where it only says something that is taken, and the line where it says what comes.
    pub fn take<R: Wait>(&mut self, rt: &R, answer: &mut Text, line: &str) {
        if line.is_empty() || line.starts_with('#') {
            answer.add(line);
            answer.byte(b'\n');
            return;
        }
        let mut words = Words::new(answer.alloc, line);
        self.obey(rt, answer, &mut words);
        answer.note(words.were_taken());
    }

    /// Takes what the words say, and answers what they ask for.
    fn obey<R: Wait>(&mut self, rt: &R, answer: &mut Text, words: &mut Words<'_>) {
        match words.word() {
            "start" => self.start(words),
            "log" => self.open(words),
            "enter" => self.enter(words),
            "view" => self.view(words),
            "fetch" => self.fetch(answer),
            what @ ("call" | "publish" | "pending" | "empty") => self.ask(rt, answer, words, what),
            what => self.inform(words, what),
        }
    }

    /// Begins again over the nodes that the words say.
    fn start(&mut self, words: &mut Words<'_>) {
        *self = Trial::over(words.alloc, Table::start(words));
    }

    /// Answers what the words ask for of who writes a log.
    fn ask<R: Wait>(&mut self, rt: &R, answer: &mut Text, words: &mut Words<'_>, what: &str) {
        match self.writers.get_mut(place_of(words.number())) {
            Some(writer) => writer.answer(rt, answer, &mut self.table, words, what),
            None => words.fail(),
        }
    }

    /// Takes what the words say of the nodes, and of who fetches.
    fn inform(&mut self, words: &mut Words<'_>, what: &str) {
        match what {
            "owners" => self.table.owners = peers_of(words),
            "nearer" => self.table.nearer = peers_of(words),
            "silent" => self.table.silent = peers_of(words),
            "lost" => self.table.lost = keys_of(words),
            "at" => self.table.put(words),
            _ => self.inform_fetcher(words, what),
        }
    }

    /// Takes what the words say of who fetches.
    fn inform_fetcher(&mut self, words: &mut Words<'_>, what: &str) {
        match &mut self.fetcher {
            Some(fetcher) => fetcher.take(words, what),
            None => words.fail(),
        }
    }

    fn open(&mut self, words: &mut Words<'_>) {
        let place = place_of(words.number());
        words.note(place == self.writers.len());
        match Writer::open(words) {
            Some(writer) => words.note(self.writers.push(writer).is_ok()),
            None => words.fail(),
        }
    }

    fn enter(&mut self, words: &mut Words<'_>) {
        let number = words.number();
        let members = self.members_of(words);
        match self.writers.get_mut(place_of(number)) {
            Some(writer) => writer.enter(words, &members),
            None => words.fail(),
        }
    }

    /// The public keys of those whose numbers the words left are, ascending.
    fn members_of(&self, words: &mut Words<'_>) -> Vec<PubKey> {
        let mut members = Vec::new(words.alloc);
        for _ in 0..words.left() {
            match self.writers.get(place_of(words.number())) {
                Some(writer) => words.note(members.push(writer.agent.owner()).is_ok()),
                None => words.fail(),
            }
        }
        words.note(members.sort().is_ok());
        members
    }

    fn view(&mut self, words: &mut Words<'_>) {
        match view_of(words) {
            Some(view) => self.fetcher = Some(Fetcher::of(words.alloc, view)),
            None => words.fail(),
        }
    }

    fn fetch(&mut self, answer: &mut Text) {
        match &self.fetcher {
            Some(fetcher) => fetcher.fetch(answer, &mut self.table),
            None => answer.lack(),
        }
    }
}

/// The place of who has that number, which is from 1 on.
fn place_of(number: u32) -> usize {
    number.wrapping_sub(1) as usize
}
