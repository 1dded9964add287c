//! Look-ups over nodes that answer without a ring.

use crate::execution::{Others, drive};
use crate::line::{Line, peer};
use crate::told::put_miss;
use dht_ids::{Answer, Peer, Peers, node_id};
use ivy_base::Key;

/// A thousand nodes after a number, at one place.
fn crowd(line: &mut Line<'_>, behind: u32) -> Vec<Peer> {
    let mut nodes = Vec::new(line.alloc);
    for i in 1..1001 {
        let node = Peer {
            number: behind.saturating_add(i),
            id: Key([7; 20]),
        };
        line.push(&mut nodes, node);
    }
    nodes
}

/// A route of nearer nodes and these owners.
fn route_to(line: &mut Line<'_>, nearer: Vec<Peer>, owners: &[Peer]) -> Answer {
    Answer::Route {
        nearer: Peers::of(nearer),
        owners: Peers::of(line.peers_of(owners)),
    }
}

/// What a node among strangers of that name answers to Route.
pub fn route(line: &mut Line<'_>, who: &str, node: Peer) -> Answer {
    match who {
        "muddled" => Answer::Near {
            before: Some(node),
            list: Peers::of(line.numbered(9)),
        },
        "echoes" => {
            let next = peer(node.number.saturating_add(1) % 20);
            let nearer = line.peers_of(&[node, node, next, next]);
            route_to(line, nearer, &[node])
        }
        "crowd" => {
            let nearer = crowd(line, node.number);
            route_to(line, nearer, &[node])
        }
        "blank" => route_to(line, Vec::new(line.alloc), &[]),
        _ => Answer::Silent,
    }
}

/// Writes the answer to a line.
pub fn answer(line: &mut Line<'_>) {
    let who = line.word();
    let count: u32 = line.read();
    let number: u32 = line.read();
    let key = node_id(number);
    let entries = line.numbered(count);
    let execution = drive(line, key, entries, &Others::Strangers(who));
    match &execution.found {
        Ok(owners) => line.put_peers("owners ", owners.as_slice()),
        Err(miss) => put_miss(line, miss),
    }
    line.put_number(", ", execution.asked.len() as u64);
    line.put(if execution.asked_twice() {
        " asked, one twice"
    } else {
        " asked, none twice"
    });
}
