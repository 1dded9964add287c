//! Nodes as others know them.

ghost use Rattle.std.specs.Prelude.{◌≡◌};
ghost use Rattle.dht_ids.specs.NodeIds.{node_id_of};

use itoa::Buffer;
use ivy_base::Key;
use ring_model::Placed;
use sha1::Sha1;

/// A node of the ring: its number and its identifier, which is its place on the circle.
#[derive(Clone, Copy, PartialEq, Eq)]
pub struct Peer {
    /// The number, in the order in which nodes are made.
    pub number: u32,
    /// The identifier, mostly that of [`node_id`]. A peer that came in an answer may have any.
    pub id: Key,
}

impl Placed for Peer {
    ghost use Rattle.dht_ids.specs.Peers.{place};

    ghost place = { place };
}

/// The identifier of the node of that number: the SHA-1 of `node-` and the number in decimal (this project's rule).
pub fn node_id(number: u32) -> Key
    ensures { result ≡ node_id_of number }
{
    let mut digits = Buffer::new();
    let mut hasher = Sha1::new();
    hasher.update(b"node-".as_slice());
    hasher.update(digits.format(number).as_bytes());
    Key(hasher.finalize())
}
