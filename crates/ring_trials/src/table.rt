//! What the lines change.

use crate::line::Line;
use crate::{caches, circle, copies, gets, lone, one_node, stores, strangers, trials};
use block_cache::BlockCache;
use chord_core::Node;
use node_store::Store;
use std::alloc::Global;

/// The node, the store and the cache that the lines change.
pub struct Table {
    node: Option<Node>,
    store: Store,
    cache: Option<BlockCache>,
}

impl Drop for Table {
    fn drop(self) {
        let Table {
            node: _,
            store: _,
            cache: _,
        } = self;
    }
}

impl Table {
    /// A table with no node and no cache, and a store of no blocks.
    pub fn new(alloc: Global) -> Table {
        Table {
            node: None,
            store: Store::new(alloc),
            cache: None,
        }
    }

    /// Writes the answer to a line of that text.
    fn put_answer(&mut self, line: &mut Line<'_>, text: &str) {
        match line.word() {
            "circle" => circle::answer(line),
            "copy" => copies::answer(line),
            "mesh" => lone::answer(line),
            "node" => one_node::answer(line, &mut self.node),
            "strangers" => strangers::answer(line),
            "store" => stores::answer(line, &mut self.store),
            "cache" => caches::answer(line, &mut self.cache),
            what if what.contains('-') => gets::answer(line, what),
            what => trials::answer(line, text, what),
        }
    }

    /// The answer to a line, `None` because memory ran out and where the line asks nothing.
    pub fn answer(&mut self, alloc: Global, text: &str) -> Option<String> {
        let mut line = Line::new(alloc, text);
        self.put_answer(&mut line, text);
        line.answer()
    }
}
