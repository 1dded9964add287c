//! How things are told in an answer.

use crate::line::{Line, place};
use dhash_client::Miss;
use dht_ids::{Ack, Acks, Answer, Heads, Judged, Peer, Peers, Post, PostKind, Posts, node_id};
use ivy_base::Bytes;
use std::fmt::Write;

/// What is told by a word.
pub trait Told {
    /// Writes the word.
    fn put(&self, line: &mut Line<'_>);
}

/// The node's number, and its place where that is neither its identifier nor the place of the number.
impl Told for Peer {
    fn put(&self, line: &mut Line<'_>) {
        line.put_number("", self.number as u64);
        let last = self.id.0[19];
        let is_small = self.number == last as u32 && self.id == place(last);
        if !is_small && self.id != node_id(self.number) {
            line.put_key("@", &self.id);
        }
    }
}

impl Told for Ack {
    fn put(&self, line: &mut Line<'_>) {
        line.put_key("", &self.key);
        line.put_key(":", &self.name);
    }
}

impl Told for Judged {
    fn put(&self, line: &mut Line<'_>) {
        line.put_number("", self.seq as u64);
        line.put_key(":", &self.name);
    }
}

impl Told for Post {
    fn put(&self, line: &mut Line<'_>) {
        line.put_key("", &self.key);
        let kind = match self.kind {
            PostKind::Block => ":Block:",
            PostKind::Log => ":Log:",
            PostKind::Head => ":Head:",
        };
        line.put_bytes(kind, self.bytes.as_slice());
    }
}

impl Told for Peers {
    fn put(&self, line: &mut Line<'_>) {
        line.put_list(self.as_slice());
    }
}

impl Told for Acks {
    fn put(&self, line: &mut Line<'_>) {
        line.put_list(self.as_slice());
    }
}

impl Told for Heads {
    fn put(&self, line: &mut Line<'_>) {
        line.put_list(self.as_slice());
    }
}

impl Told for Posts {
    fn put(&self, line: &mut Line<'_>) {
        line.put_list(self.as_slice());
    }
}

impl Told for Bytes {
    fn put(&self, line: &mut Line<'_>) {
        line.put_bytes("", self.as_slice());
    }
}

/// Whether a put was acknowledged.
impl Told for bool {
    fn put(&self, line: &mut Line<'_>) {
        line.put(if *self {
            "acknowledged"
        } else {
            "not acknowledged"
        });
    }
}

impl Told for Answer {
    fn put(&self, line: &mut Line<'_>) {
        match self {
            Answer::Route { nearer, owners } => {
                line.put_peers("nearer ", nearer.as_slice());
                line.put_peers(" owners ", owners.as_slice());
            }
            Answer::Near { before, list } => {
                line.put_peers("before ", before.as_slice());
                line.put_peers(" list ", list.as_slice());
            }
            Answer::Found(bytes) => line.put_bytes("found ", bytes.as_slice()),
            Answer::Nothing => line.put("nothing"),
            Answer::Stored => line.put("stored"),
            Answer::Refused(fault) => {
                let written = write!(line.text, "refused: {fault:?}");
                line.done(written);
            }
            Answer::Noted => line.put("noted"),
            Answer::Silent => line.put("silent"),
        }
    }
}

/// Writes why there is no result.
pub fn put_miss(line: &mut Line<'_>, miss: &Miss) {
    match miss {
        Miss::NoRoute(key) => line.put_key("no route to ", key),
        Miss::Missing { key, asked } => {
            line.put_key("missing ", key);
            line.put_peers(" at ", asked.as_slice());
        }
        Miss::Damaged { key, node } => {
            line.put_key("damaged ", key);
            line.put(" at ");
            node.put(line);
        }
    }
}
