//! The nodes of a ring.

ghost use Rattle.std.specs.Prelude.{◌≤◌};

use crate::line::{Line, place};
use chord_core::Node;
use dht_ids::{Answer, Ask, Peer, Peers, distance, order};
use ivy_base::Key;
use std::collections::BTreeMap;

/// What the live nodes know, by their numbers.
pub type Nodes = BTreeMap<u32, Node>;

/// The live nodes of a ring.
pub struct Ring {
    /// The nodes as others know them, in ascending order of their identifiers.
    pub live: Peers,
    /// What they know.
    pub nodes: Nodes,
}

impl Drop for Ring {
    fn drop(self) {
        let Ring { live: _, nodes: _ } = self;
    }
}

/// Sorts the peers by their distances from a place on.
fn sort_from(peers: &mut [Peer], key: &Key) {
    peers.sort_unstable_by(|a, b| order(&distance(key, &a.id), &distance(key, &b.id)));
}

/// The peers in ascending order of their identifiers, which are their distances from the place 0 on.
pub fn ascending(mut peers: Vec<Peer>) -> Peers {
    sort_from(&mut peers, &place(0));
    Peers::of(peers)
}

/// Adds what a node knows.
fn insert(line: &mut Line<'_>, nodes: &mut Nodes, number: u32, node: Node) {
    if let Err(_) = nodes.insert(number, node) {
        line.fail();
    }
}

impl Ring {
    /// A settled ring of these members, which ascend, after the nodes 1 to `stopped` have stopped, of which each is a
    /// member. R is 1 to 8.
    pub fn settled(line: &mut Line<'_>, members: &Peers, replicas: u32, stopped: u32) -> Ring
        requires { (1 ≤ replicas) × (replicas ≤ 8) }
    {
        line.note((stopped as usize) < members.as_slice().len());
        let mut live = Vec::new(line.alloc);
        let mut nodes = BTreeMap::new(line.alloc);
        for peer in members.as_slice() {
            if peer.number == 0 || peer.number > stopped {
                line.push(&mut live, *peer);
                match Node::settled(line.alloc, *peer, replicas, members) {
                    Ok(node) => insert(line, &mut nodes, peer.number, node),
                    Err(_) => line.fail(),
                }
            }
        }
        Ring {
            live: Peers::of(live),
            nodes,
        }
    }

    /// Adds a node that is no member.
    pub fn add(&mut self, line: &mut Line<'_>, peer: Peer, node: Node) {
        insert(line, &mut self.nodes, peer.number, node);
        let mut live = line.peers_of(self.live.as_slice());
        line.push(&mut live, peer);
        self.live = ascending(live);
    }

    /// The owners of a key: the first of the live members from the key on, at most `replicas`.
    pub fn owners(&self, line: &mut Line<'_>, key: Key, replicas: u32) -> Vec<Peer> {
        let mut owners = line.peers_of(self.live.as_slice());
        sort_from(&mut owners, &key);
        owners.truncate(replicas as usize);
        owners
    }
}

/// What the node answers to Route: Silent where it doesn't live.
pub fn answer_of(line: &mut Line<'_>, nodes: &Nodes, peer: Peer, key: Key) -> Answer {
    match nodes.get(&peer.number) {
        Some(node) => {
            let answer = node.answer(line.alloc, &Ask::Route(key));
            line.made_or(answer, Answer::Silent)
        }
        None => Answer::Silent,
    }
}
