//! Nodes, and what they answer.

use crate::sessions::reading::first_peers;
use crate::words::Words;
use dht_ids::{Answer, Ask, Peer, Peers};
use ivy_base::{Bytes, Key, Memory, name_of};
use std::alloc::Global;

/// A block that a node gives under a key.
#[derive(Drop)]
struct Block {
    node: u32,
    key: Key,
    bytes: Bytes,
}

/// Nodes that all know the owners of every key.
pub struct Table {
    /// How many answers are enough.
    pub replicas: u32,
    /// The nodes that are asked first.
    pub entries: Peers,
    /// The owners, in their order.
    pub owners: Peers,
    /// Those that every node calls nearer, in their order.
    pub nearer: Peers,
    /// The nodes that answer nothing.
    pub silent: Peers,
    /// The keys under which a put is answered nothing.
    pub lost: Vec<Key>,
    /// The newest last.
    blocks: Vec<Block>,
}

/// One function, so that whatever drops a table calls it and isn't proved over all of its parts once more.
impl Drop for Table {
    fn drop(self) {
        let Table {
            replicas: _,
            entries: _,
            owners: _,
            nearer: _,
            silent: _,
            lost: _,
            blocks: _,
        } = self;
    }
}

impl Table {
    /// Nodes of these numbers, told twice, which own every key and hold nothing. No other is nearer.
    pub fn of(alloc: Global, replicas: u32, entries: Peers, owners: Peers) -> Table {
        Table {
            replicas,
            entries,
            owners,
            nearer: Peers::of(Vec::new(alloc)),
            silent: Peers::of(Vec::new(alloc)),
            lost: Vec::new(alloc),
            blocks: Vec::new(alloc),
        }
    }

    /// Nodes as the words say: how many answers are enough, and how many nodes there are.
    pub fn start(words: &mut Words<'_>) -> Table {
        let replicas = words.number();
        let count = words.number();
        let entries = first_peers(words, count);
        let owners = first_peers(words, count);
        Table::of(words.alloc, replicas, entries, owners)
    }

    /// Has a node give bytes under a key, as the words say.
    pub fn put(&mut self, words: &mut Words<'_>) {
        let node = words.number();
        let key = words.word();
        let bytes = words.bytes();
        let key = match key {
            "-" => name_of(bytes.as_slice()),
            _ => words.key_of(key),
        };
        words.note(self.blocks.push(Block { node, key, bytes }).is_ok());
    }

    /// What the node answers. The error is: out of memory.
    pub fn answer(&mut self, alloc: Global, node: &Peer, ask: &Ask) -> Result<Answer, Memory> {
        if self.silent.as_slice().contains(node) {
            return Ok(Answer::Silent);
        }
        match ask {
            Ask::Route(_) => self.route(alloc),
            Ask::Get(key) => self.found(alloc, node.number, key),
            Ask::PutBlock(key, bytes) | Ask::PutHead(key, bytes) => {
                self.store(alloc, node.number, key, bytes)
            }
            _ => Ok(Answer::Silent),
        }
    }

    /// The owners, and those that are nearer.
    fn route(&self, alloc: Global) -> Result<Answer, Memory> {
        Ok(Answer::Route {
            owners: self.owners.copy(alloc)?,
            nearer: self.nearer.copy(alloc)?,
        })
    }

    /// What the node gives under the key.
    fn found(&self, alloc: Global, node: u32, key: &Key) -> Result<Answer, Memory> {
        match self.newest(node, key) {
            Some(bytes) => Ok(Answer::Found(bytes.copy(alloc)?)),
            None => Ok(Answer::Nothing),
        }
    }

    /// The newest block that the node gives under the key.
    fn newest(&self, node: u32, key: &Key) -> Option<&Bytes> {
        for block in self.blocks.iter().rev() {
            if block.node == node && block.key == *key {
                return Some(&block.bytes);
            }
        }
        None
    }

    /// Has the node give these bytes, where the put isn't lost.
    fn store(
        &mut self,
        alloc: Global,
        node: u32,
        key: &Key,
        bytes: &Bytes,
    ) -> Result<Answer, Memory> {
        if self.lost.contains(key) {
            return Ok(Answer::Silent);
        }
        let bytes = bytes.copy(alloc)?;
        let key = *key;
        self.blocks.push(Block { node, key, bytes })?;
        Ok(Answer::Stored)
    }
}
