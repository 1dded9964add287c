//! Look-ups over the live nodes of a ring, and over others.

use crate::line::Line;
use crate::ring::{Nodes, answer_of};
use crate::strangers;
use dhash_client::{Lookup, Miss, Want};
use dht_ids::{Peer, Peers};
use ivy_base::Key;

/// How often a look-up is told to go on: once more than the asks that it may make.
const MOST_STEPS: u32 = 513;

/// What a look-up came to: its result and the nodes that it asked, in order.
pub struct Execution {
    pub found: Result<Peers, Miss>,
    pub asked: Vec<Peer>,
}

impl Drop for Execution {
    fn drop(self) {
        let Execution { found: _, asked: _ } = self;
    }
}

impl Execution {
    /// Whether a node was asked twice.
    pub fn asked_twice(&self) -> bool {
        let asked = self.asked.as_slice();
        for i in 0..asked.len() {
            if asked[..i].contains(&asked[i]) {
                return true;
            }
        }
        false
    }
}

/// Who answers the asks of a look-up.
#[derive(Clone, Copy)]
pub enum Others<'a> {
    /// The nodes of a ring; those that aren't among them are silent.
    Ring(&'a Nodes),
    /// Strangers of that name.
    Strangers(&'a str),
}

/// Tells a look-up to go on until it has its result, and notes the nodes that it asks. The line fails where it doesn't end.
fn result_of(
    line: &mut Line<'_>,
    lookup: &mut Lookup,
    asked: &mut Vec<Peer>,
    key: Key,
    others: &Others<'_>,
) -> Result<Peers, Miss> {
    for _ in 0..MOST_STEPS {
        let Ok(want) = lookup.next() else { break };
        match want {
            Want::Ask(node, _) => {
                line.push(asked, node);
                let answer = match others {
                    Others::Ring(nodes) => answer_of(line, nodes, node, key),
                    Others::Strangers(who) => strangers::route(line, who, node),
                };
                line.done(lookup.heard(answer));
            }
            Want::Done(found) => return found,
        }
    }
    line.fail();
    Err(Miss::NoRoute(key))
}

/// Looks a key up from these nodes.
pub fn drive(line: &mut Line<'_>, key: Key, entries: Vec<Peer>, others: &Others<'_>) -> Execution {
    let mut asked = Vec::new(line.alloc);
    let found = match Lookup::start(line.alloc, key, 1, &Peers::of(entries)) {
        Ok(mut lookup) => result_of(line, &mut lookup, &mut asked, key, others),
        Err(_) => {
            line.fail();
            Err(Miss::NoRoute(key))
        }
    };
    Execution { found, asked }
}

/// Looks a key up from a node of a ring.
pub fn look_up(line: &mut Line<'_>, nodes: &Nodes, key: Key, entry: Peer) -> Execution {
    let entries = line.peers_of(&[entry]);
    drive(line, key, entries, &Others::Ring(nodes))
}
