//! Fetches of the logs of a view from the table.

ghost use Rattle.std.specs.Prelude.{◌≢◌, None};
ghost use Rattle.log_fetch.specs.Fetching.{fetch_awaited};

use crate::sessions::reading::{owner_of, vector_of};
use crate::sessions::showing::{show_fetched, show_gets, show_question};
use crate::sessions::table::Table;
use crate::text::Text;
use crate::words::Words;
use dht_ids::{Ask, Peer, Posts, Want};
use ivy_base::{Bytes, Key, Memory, PubKey, head_key, name_of};
use log_fetch::{Edge, Edges, Fetch, Standing};
use log_records::PlainJudge;
use std::alloc::Global;
use version_vectors::Vector;
use view_blocks::View;

/// How often a fetch is told to go on.
const MOST_STEPS: u32 = 100_000;

/// Who fetches.
pub struct Fetcher {
    /// What is known, and whose logs are fetched.
    standing: Standing,
    /// The blocks that are available.
    hand: Vec<Bytes>,
}

/// One function, so that whatever drops who fetches calls it and isn't proved over all parts once more.
impl Drop for Fetcher {
    fn drop(self) {
        let Fetcher {
            standing: _,
            hand: _,
        } = self;
    }
}

impl Fetcher {
    /// The logs of that view are fetched; nothing is known, and nothing is available.
    pub fn of(alloc: Global, view: View) -> Fetcher {
        Fetcher {
            standing: Standing {
                view,
                own: PubKey([0; 60]),
                held: Vector::empty(alloc),
                floor: Vector::empty(alloc),
                edges: Edges::of(Vec::new(alloc)),
                basis: None,
                pending: Posts::of(Vec::new(alloc)),
            },
            hand: Vec::new(alloc),
        }
    }

    /// Takes what the words say.
    pub fn take(&mut self, words: &mut Words<'_>, what: &str) {
        match what {
            "hand" => self.keep(words),
            "own" => self.standing.own = owner_of(words),
            "floor" => self.standing.floor = vector_of(words),
            "held" => self.standing.held = vector_of(words),
            "edge" => self.standing.edges = edges_of(words),
            _ => words.fail(),
        }
    }

    /// Has the available block that the words say.
    fn keep(&mut self, words: &mut Words<'_>) {
        let bytes = words.bytes();
        words.note(self.hand.push(bytes).is_ok());
    }

    /// Adds what a fetch asks and comes to, where it may begin.
    pub fn fetch(&self, text: &mut Text, table: &mut Table) {
        match self.started(text.alloc, table) {
            Some(mut fetch) => drive(text, table, &self.hand, &mut fetch),
            None => text.lack(),
        }
    }

    /// A fetch that begins. None means out of memory, or that more is held than was known.
    fn started(&self, alloc: Global, table: &Table) -> Option<Fetch<PlainJudge>> {
        if !self.standing.floor.dominates(&self.standing.held) {
            return None;
        }
        let entries = table.entries.copy(alloc).ok()?;
        Fetch::start(alloc, PlainJudge, table.replicas, entries, &self.standing).ok()
    }
}

/// What the held record of a log cites, which knows nothing of its own log.
fn edges_of(words: &mut Words<'_>) -> Edges {
    let log = head_key(&owner_of(words));
    let vector = vector_of(words);
    if vector.get(&log).is_some() {
        words.fail();
        return Edges::of(Vec::new(words.alloc));
    }
    match vec![in words.alloc; Edge { log, vector }] {
        Ok(edges) => Edges::of(edges),
        Err(_) => {
            words.fail();
            Edges::of(Vec::new(words.alloc))
        }
    }
}

/// Goes on with a fetch to its end, and adds its execution to the text.
fn drive(text: &mut Text, table: &mut Table, hand: &[Bytes], fetch: &mut Fetch<PlainJudge>) {
    'steps: for _ in 0..MOST_STEPS {
        if step(text, table, hand, fetch) {
            return;
        }
    }
    text.lack();
}

/// A step of the fetch; says whether it has ended.
fn step(text: &mut Text, table: &mut Table, hand: &[Bytes], fetch: &mut Fetch<PlainJudge>) -> bool {
    if give(text, hand, fetch) {
        return false;
    }
    match fetch.next() {
        Ok(Want::Ask(node, question)) => {
            ask(text, table, fetch, &node, &question);
            return false;
        }
        Ok(Want::Done(fetched)) => {
            show_fetched(text, fetched);
            show_gets(text, fetch.gets());
            return true;
        }
        Err(Memory) => {
            text.lack();
            return true;
        }
    }
}

/// Gives the fetch the block that it wants, where it is available, and says whether it is.
fn give(text: &mut Text, hand: &[Bytes], fetch: &mut Fetch<PlainJudge>) -> bool {
    let Some(key) = fetch.wanted() else {
        return false;
    };
    let Some(bytes) = available(hand, &key) else {
        return false;
    };
    text.key("given ", &key);
    text.byte(b'\n');
    text.note(fetch.give(bytes.as_slice()).is_ok());
    true
}

/// The block of that name that is available.
fn available<'a>(hand: &'a [Bytes], key: &Key) -> Option<&'a Bytes> {
    for bytes in hand {
        if name_of(bytes.as_slice()) == *key {
            return Some(bytes);
        }
    }
    None
}

/// The node is asked, and the fetch hears what it answers.
fn ask(
    text: &mut Text,
    table: &mut Table,
    fetch: &mut Fetch<PlainJudge>,
    node: &Peer,
    question: &Ask,
)
    requires { fetch_awaited fetch.old ≢ None }
{
    show_question(text, node.number, question);
    text.byte(b'\n');
    match table.answer(text.alloc, node, question) {
        Ok(answer) => text.note(fetch.heard(answer).is_ok()),
        Err(Memory) => text.lack(),
    }
}
