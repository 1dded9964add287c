//! Trials of look-ups.

use crate::execution::look_up;
use crate::line::Line;
use crate::ring::Ring;
use dht_ids::{Peer, node_id};
use ivy_base::Key;

/// The keys are the identifiers that nodes of the numbers from this one on would have.
const FIRST_KEY: u32 = 1_000_000;

/// What look-ups came to.
#[derive(Clone, Copy)]
struct Tally {
    /// How many gave the owners and asked no node twice.
    right: u64,
    /// The most asks that one made.
    most: usize,
    /// The asks of all.
    asks: u64,
}

/// The key of that number.
pub fn key(number: u32) -> Key {
    node_id(FIRST_KEY.saturating_add(number))
}

/// Whether those of the nodes that live begin with the owners.
fn are_first_live(found: &[Peer], ring: &Ring, owners: &[Peer]) -> bool {
    let mut count = 0;
    for peer in found {
        if count < owners.len() && ring.nodes.contains_key(&peer.number) {
            if owners[count] != *peer {
                return false;
            }
            count += 1;
        }
    }
    count == owners.len()
}

/// Looks a key up from each live node. A look-up is right where it found the owners, perhaps with stopped nodes among
/// them and others after them, and asked no node twice.
fn look_up_key(line: &mut Line<'_>, ring: &Ring, key: Key, owners: &[Peer], tally: &mut Tally) {
    for entry in ring.live.as_slice() {
        let execution = look_up(line, &ring.nodes, key, *entry);
        if let Ok(found) = &execution.found
            && are_first_live(found.as_slice(), ring, owners)
            && !execution.asked_twice()
        {
            tally.right = tally.right.saturating_add(1);
        }
        tally.most = tally.most.max(execution.asked.len());
        tally.asks = tally.asks.saturating_add(execution.asked.len() as u64);
    }
}

/// Looks so many keys up in a ring, each from each live node, and writes what that comes to.
pub fn put_lookups(line: &mut Line<'_>, ring: &Ring, replicas: u32, keys: u32) {
    let mut tally = Tally {
        right: 0,
        most: 0,
        asks: 0,
    };
    for number in 0..keys {
        let key = key(number);
        let owners = ring.owners(line, key, replicas);
        look_up_key(line, ring, key, &owners, &mut tally);
    }
    line.put_number(": ", tally.right);
    line.put_number(" right, most asks ", tally.most as u64);
    line.put_number(", asks in all ", tally.asks);
}
