//! Who writes a log.

use crate::sessions::calling::{call, publish};
use crate::sessions::reading::set_of;
use crate::sessions::showing::show_pending;
use crate::sessions::table::Table;
use crate::text::Text;
use crate::words::Words;
use block_cache::BlockCache;
use hss_keys::Hss;
use ivy_agent::Agent;
use ivy_base::{Memory, PubKey};
use ivy_io::MemKeeper;
use std::sync::Wait;
use view_blocks::View;

/// Who writes a log: an agent that is kept in memory, and its cache.
pub struct Writer {
    pub agent: Agent<MemKeeper, Hss>,
    pub cache: BlockCache,
}

/// One function, so that whatever drops a writer calls it and isn't proved over all of its parts once more.
impl Drop for Writer {
    fn drop(self) {
        let Writer { agent: _, cache: _ } = self;
    }
}

impl Writer {
    /// Opens a log as the words say. None means out of memory.
    pub fn open(words: &mut Words<'_>) -> Option<Writer> {
        let cache = BlockCache::new(words.alloc).ok()?;
        let agent = agent_of(words)?;
        Some(Writer { agent, cache })
    }

    /// Enters the view of these members, where it may.
    pub fn enter(&mut self, words: &mut Words<'_>, members: &[PubKey]) {
        match View::make(words.alloc, members, &[]) {
            Ok(view) => words.note(self.agent.enter(words.alloc, view).is_ok()),
            Err(_) => words.fail(),
        }
    }

    /// Answers what the words ask for.
    pub fn answer<R: Wait>(
        &mut self,
        rt: &R,
        text: &mut Text,
        table: &mut Table,
        words: &mut Words<'_>,
        what: &str,
    ) {
        match what {
            "call" => call(rt, text, table, self, words),
            "publish" => publish(rt, text, table, self),
            "pending" => show_pending(text, self.agent.pending().as_slice()),
            _ => self.empty_cache(words),
        }
    }

    /// Forgets the blocks of its cache.
    fn empty_cache(&mut self, words: &mut Words<'_>) {
        match BlockCache::new(words.alloc) {
            Ok(cache) => self.cache = cache,
            Err(Memory) => words.fail(),
        }
    }
}

/// An agent that opens a log at the moment and by the key that the words say. None means out of memory.
fn agent_of(words: &mut Words<'_>) -> Option<Agent<MemKeeper, Hss>> {
    let now = words.moment();
    let signer = signer_of(words)?;
    match Agent::create(words.alloc, MemKeeper::new(words.alloc), signer, now) {
        Ok(agent) => Some(agent),
        Err(_) => None,
    }
}

/// The key of an identifier, a seed and the name of its one set. None means out of memory.
fn signer_of(words: &mut Words<'_>) -> Option<Hss> {
    let mut id = [0; 16];
    let mut seed = [0; 32];
    let word = words.word();
    words.fill(word, &mut id);
    let word = words.word();
    words.fill(word, &mut seed);
    let set = set_of(words);
    Hss::grow(words.alloc, &id, &seed, &[set]).ok()
}
