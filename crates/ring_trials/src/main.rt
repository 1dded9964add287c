//! Runs nodes of the ring and what clients do with them, a trial for each line of the standard input. Keys are
//! numbers of the first 256 places or 40 hexadecimal digits, bytes are hexadecimal digits (`-` for none), and lists have
//! commas between (`-` for none).
//!
//! Whole rings, whose nodes have the numbers from 0 on and the identifiers that these give; a key has at most R owners:
//!
//! - `lookups N R KEYS`: so many keys are looked up in a settled ring of N nodes, each from each node, and the owners
//!   compared with those that sorting the members gives
//! - `stopped N R KEYS S`: the same after the nodes 1 to S, fewer than R, have stopped
//! - `round N R S`: the nodes 1 to S of a settled ring stop, and the others do a round of maintenance
//! - `join N R J P`: the node J joins a settled ring, and all do a round with P passes, 2R + 1 where P is 0
//!
//! Of look-ups they tell how many gave the owners and asked no node twice, the most asks that one made, and the asks of
//! all. Of a round they tell whether each node then has the list, the predecessor and, for a few keys, the answers of a
//! node in a settled ring of the live members. The stored run has joins after which a pass fewer than 2R + 1 leaves a
//! ring that isn't settled. Its answers are those of a model of the ring in another language.
//!
//! Single parts:
//!
//! - `circle id N`, `circle distance A B`, `circle finger A K`, `circle arc A X B`, `circle order A B`
//! - `node alone P R`, `node settled P R MEMBERS`: a node, at the place of its number as all others here; `node near
//!   BEFORE LIST`, `node silent`, `node adopt LIST`, `node notify P`, `node forget`, `node finger K P`: what it hears or
//!   takes, and what it then answers to Near; `node route KEY`: what it answers to Route
//! - `strangers WHO N KEY`: a look-up of the identifier of the node KEY from the nodes below N, which `muddled`, `echoes`,
//!   `crowd` or `blank` answer, and for any other word, as `nobody`, none
//! - `get-block R OWNERS`, `get-head R OWNERS`, `put-block R OWNERS`, `put-head R OWNERS`: of the block `block`, and of
//!   the head of `owner`, where the owners answer as listed (`silent`, `empty`, `gives:BYTES`, `stores`, `older`, `full`,
//!   `muddled`), and are asked of a node that is listed after a silent one
//! - `store new`, `store put KEY BYTES`, `store head KEY BYTES`, `store get KEY`, `store drop KEY`, `store spoil KEY
//!   OFFSET BYTE`, `store held`, and, for rows of one byte, `store put-row BYTE COUNT`, `store head-row KEY BYTE COUNT`
//! - `cache full`, `cache keep N`, `cache find N`, `cache has N`: of blocks of two bytes
//! - `copy peers ..`, `copy acks ..`, `copy heads ..`, `copy posts ..`, `copy answer ..`, `copy signature ..`: what the
//!   copies have
//! - `mesh KEY`: the route to it that a mesh of one node names, and how many nodes own a key
//!
//! Their answers follow from the rules of the ring, and identifiers and names are SHA-1 by another implementation.
//! `no answer` stands for a line that asks for none of these.
#![tactic(auto)]

mod caches;
mod circle;
mod copies;
mod execution;
mod gets;
mod line;
mod lone;
mod lookups;
mod one_node;
mod ring;
mod round;
mod stores;
mod strangers;
mod table;
mod told;
mod trials;
mod words;

use dht_ids::Peer;
use std::io;
use table::Table;

/// The laws of rings hold of peers: each is said at them, and those of look-ups at what nodes answer.
fn laws() {
    ring_model::lookup_laws::<Peer>();
    ring_model::round_laws::<Peer>();
    ring_model::block_laws::<Peer>();
    chord_core::answer_laws();
}

fn main(rt: HostRuntime) -> io::Result<()> {
    laws();
    let mut table = Table::new(rt.alloc());
    for line in rt.lines(rt.alloc()) {
        let line = line?;
        let answer = table.answer(rt.alloc(), line.as_str());
        let answer = match &answer {
            Some(answer) => answer.as_str(),
            None => "no answer",
        };
        println!(rt; "{answer}")?;
    }
    Ok(())
}
