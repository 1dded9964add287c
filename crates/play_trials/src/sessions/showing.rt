//! What is told of a session, and of a fetch.

use crate::text::Text;
use dhash_client::Miss;
use dht_ids::{Acks, Answer, Ask, Post, PostKind};
use ivy_base::{Key, Memory};
use ivy_session::{Served, Session};
use log_fetch::{Fetched, Note};
use log_heads::HssJudge;
use log_records::Chain;

/// Adds a word, a number and a key.
fn show_numbered(text: &mut Text, word: &str, number: u32, key: &Key) {
    text.count(word, u64::from(number));
    text.key(" ", key);
}

/// Adds what a node is asked.
pub fn show_question(text: &mut Text, number: u32, ask: &Ask) {
    match ask {
        Ask::Route(key) => show_numbered(text, "route ", number, key),
        Ask::Get(key) => show_numbered(text, "get ", number, key),
        Ask::PutBlock(key, _) => show_numbered(text, "put ", number, key),
        Ask::PutHead(key, bytes) => {
            show_numbered(text, "head ", number, key);
            show_head(text, bytes.as_slice());
        }
        _ => text.lack(),
    }
}

/// Adds the number and the name that a head's block has after its mark and its public key.
fn show_head(text: &mut Text, block: &[u8]) {
    match block.get(64..88) {
        Some(bytes) => text.digits(" ", bytes),
        None => text.lack(),
    }
}

/// Adds what was answered, and ends the line.
pub fn show_answer(text: &mut Text, answer: &Result<Answer, Memory>) {
    match answer {
        Ok(Answer::Route { owners, .. }) => show_count(text, owners.as_slice().len(), " owners\n"),
        Ok(Answer::Found(bytes)) => show_count(text, bytes.as_slice().len(), " bytes\n"),
        Ok(Answer::Nothing) => text.add(": nothing\n"),
        Ok(Answer::Stored) => text.add(": stored\n"),
        Ok(Answer::Silent) => text.add(": silent\n"),
        _ => text.lack(),
    }
}

/// Adds how much was answered.
fn show_count(text: &mut Text, count: usize, what: &str) {
    text.count(": ", count as u64);
    text.add(what);
}

/// Adds the keys of what was acknowledged.
pub fn show_settled(text: &mut Text, acks: &Acks) {
    text.add("settle");
    for ack in acks.as_slice() {
        text.key(" ", &ack.key);
    }
    text.byte(b'\n');
}

/// Adds how a session ended, and what was noted.
pub fn show_end(text: &mut Text, session: &Session<HssJudge>, served: &Served) {
    if session.is_cut() {
        text.add("cut\n");
    }
    show_served(text, served);
    for note in session.notes().as_slice() {
        show_note(text, note);
    }
}

/// Adds how a session ended.
fn show_served(text: &mut Text, served: &Served) {
    match served {
        Served::Reply(message) => {
            text.digits("reply ", message.as_slice());
            text.byte(b'\n');
        }
        Served::NotACall => text.add("none\n"),
        Served::Published => text.add("published\n"),
    }
}

/// Adds the line of a note.
fn show_note(text: &mut Text, note: &Note) {
    match note {
        Note::Bad(key) => text.key("bad ", key),
        Note::Fork(key) => text.key("fork ", key),
        Note::NoRoute(key) => text.key("noroute ", key),
        Note::Missing(key) => text.key("missing ", key),
        Note::Damaged(key) => text.key("damaged ", key),
    }
    text.byte(b'\n');
}

/// Adds what is still to be published: of each block its kind and its key, and a line that ends them.
pub fn show_pending(text: &mut Text, posts: &[Post]) {
    for post in posts {
        show_post(text, post);
    }
    text.add("pending\n");
}

/// Adds the line of a post.
fn show_post(text: &mut Text, post: &Post) {
    match post.kind {
        PostKind::Log => text.key("record ", &post.key),
        PostKind::Block => text.key("block ", &post.key),
        PostKind::Head => {
            text.key("head ", &post.key);
            show_head(text, post.bytes.as_slice());
        }
    }
    text.byte(b'\n');
}

/// Adds what a fetch came to: its chains, its notes, and how it ended.
pub fn show_fetched(text: &mut Text, fetched: Fetched) {
    let Fetched { result, notes } = fetched;
    match result {
        Ok(batch) => {
            show_chains(text, batch.into_chains().as_slice());
            show_log_notes(text, notes.as_slice());
            text.add("done\n");
        }
        Err(miss) => {
            show_log_notes(text, notes.as_slice());
            show_miss(text, &miss);
        }
    }
}

/// Adds how many heads and records a fetch began to get.
pub fn show_gets(text: &mut Text, gets: u64) {
    text.count("gets ", gets);
    text.byte(b'\n');
}

/// Adds the lines of chains.
fn show_chains(text: &mut Text, chains: &[Chain]) {
    for chain in chains {
        show_chain(text, chain);
    }
}

/// Adds whose chain it is, the number of its first record, and the number and the name of its last.
fn show_chain(text: &mut Text, chain: &Chain) {
    match chain.records.as_slice().first() {
        Some(first) => {
            text.count("chain ", u64::from(first.owner.0[0]));
            text.count(" ", u64::from(first.seq));
        }
        None => text.lack(),
    }
    text.count(" ", u64::from(chain.head.seq));
    text.key(" ", &chain.head.name);
    text.byte(b'\n');
}

/// Adds the notes of logs. What ended the fetch is told by itself.
fn show_log_notes(text: &mut Text, notes: &[Note]) {
    for note in notes {
        match note {
            Note::Bad(_) | Note::Fork(_) => show_note(text, note),
            _ => {}
        }
    }
}

/// Adds why the fetch ended early.
fn show_miss(text: &mut Text, miss: &Miss) {
    match miss {
        Miss::NoRoute(key) => text.key("no route ", key),
        Miss::Missing { key, .. } => text.key("missing ", key),
        Miss::Damaged { key, node } => show_numbered(text, "damaged ", node.number, key),
    }
    text.byte(b'\n');
}
