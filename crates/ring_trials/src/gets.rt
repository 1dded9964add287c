//! Gets and puts over a table of owners.

ghost use Rattle.std.specs.Prelude.{◌<◌};

use crate::line::{Line, peer};
use crate::told::{Told, put_miss};
use crate::words::{Word, parts};
use dhash_client::{GetBlock, GetHead, Miss, PutPost, Want};
use dht_ids::{Answer, Ask, Judge, Judged, Peer, Peers, Post, PostKind, StoreFault};
use ivy_base::{Bytes, Key, name_of};

/// The number of the node that knows the owners.
const ENTRY: u32 = 100;

/// How often a machine is told to go on.
const MOST_STEPS: u32 = 30;

/// What an owner answers. An older one holds a newer head, and the answers of a muddled one have the form of no answer to a
/// get or a put.
impl Word for Answer {
    fn from_word(line: &mut Line<'_>, word: &str) -> Answer {
        match word {
            "silent" => Answer::Silent,
            "empty" | "nothing" => Answer::Nothing,
            "stores" | "stored" => Answer::Stored,
            "older" => Answer::Refused(StoreFault::Older(7)),
            "full" => Answer::Refused(StoreFault::Full),
            "muddled" | "noted" => Answer::Noted,
            _ => {
                let (gives, bytes) = parts(line, word);
                line.note(gives == "gives");
                Answer::Found(Bytes::from_word(line, bytes))
            }
        }
    }
}

/// What the owners of a key answer, by their numbers, and those that were asked, in order.
struct Owners {
    owners: Vec<Answer>,
    asked: Vec<Peer>,
}

impl Drop for Owners {
    fn drop(self) {
        let Owners {
            owners: _,
            asked: _,
        } = self;
    }
}

impl Owners {
    /// The route that the node names: the owners, and then the first one again.
    fn route(&self, line: &mut Line<'_>, node: Peer) -> Answer {
        if node.number != ENTRY {
            return Answer::Silent;
        }
        let mut owners = line.numbered(self.owners.len().min(100) as u32);
        line.push(&mut owners, peer(0));
        Answer::Route {
            nearer: Peers::of(Vec::new(line.alloc)),
            owners: Peers::of(owners),
        }
    }

    /// What the node answers to a get or a put. It counts as asked.
    fn held(&mut self, line: &mut Line<'_>, node: Peer) -> Answer {
        line.push(&mut self.asked, node);
        match self.owners.get(node.number as usize) {
            Some(owner) => {
                let answer = owner.copy(line.alloc);
                line.made_or(answer, Answer::Silent)
            }
            None => Answer::Silent,
        }
    }

    /// What the node answers.
    fn answer(&mut self, line: &mut Line<'_>, node: Peer, ask: Ask) -> Answer {
        match ask {
            Ask::Route(_) => self.route(line, node),
            _ => self.held(line, node),
        }
    }
}

/// Takes bytes that are fewer than five for a head whose number is their count.
#[derive(Clone, Copy)]
struct Counts(Key);

impl Judge for Counts {
    ghost use Rattle.std.specs.Prelude.{Some, None, length, nat_lt, if◌then◌else◌};

    ghost judges = { λ judge _ bytes. if nat_lt (length bytes) 5 then Some (record { seq = length bytes; name = judge.0 }) else None };

    fn judge(&self, _key: &Key, bytes: &[u8]) -> Option<Judged> {
        if bytes.len() < 5 {
            Some(Judged {
                seq: bytes.len() as u32,
                name: self.0,
            })
        } else {
            None
        }
    }
}

/// Writes what a get or a put came to.
fn put_end<T: Told + Drop>(line: &mut Line<'_>, end: Result<T, Miss>) {
    match end {
        Ok(found) => found.put(line),
        Err(miss) => put_miss(line, &miss),
    }
}

/// Drives a machine to its result, and writes that. The line fails where the machine goes on.
macro_rules! drive {
    ($line:expr, $machine:expr, $owners:expr) => {{
        for _ in 0..MOST_STEPS {
            let Ok(want) = $machine.next() else { break };
            match want {
                Want::Ask(node, ask) => {
                    let answer = $owners.answer($line, node, ask);
                    $line.done($machine.heard(answer));
                }
                Want::Done(end) => return put_end($line, end),
            }
        }
        $line.fail();
    }};
}

fn drive_get_block(line: &mut Line<'_>, machine: &mut GetBlock, owners: &mut Owners) {
    drive!(line, machine, owners)
}

fn drive_get_head(line: &mut Line<'_>, machine: &mut GetHead<Counts>, owners: &mut Owners) {
    drive!(line, machine, owners)
}

fn drive_put(line: &mut Line<'_>, machine: &mut PutPost, owners: &mut Owners) {
    drive!(line, machine, owners)
}

/// Writes what the put of the post comes to.
fn post_trial(
    line: &mut Line<'_>,
    post: Post,
    replicas: u32,
    entries: &Peers,
    owners: &mut Owners,
) {
    match PutPost::start(line.alloc, post, replicas, entries) {
        Ok(mut machine) => drive_put(line, &mut machine, owners),
        Err(_) => line.fail(),
    }
}

/// Writes what the get or the put of that name comes to: of the block `block`, and of heads, of which `head` is put, under
/// the name of `owner`.
fn put_trial(line: &mut Line<'_>, what: &str, replicas: u32, entries: &Peers, owners: &mut Owners) {
    let block = name_of(b"block".as_slice());
    let owner = name_of(b"owner".as_slice());
    match what {
        "get-block" => match GetBlock::start(line.alloc, block, replicas, entries) {
            Ok(mut machine) => drive_get_block(line, &mut machine, owners),
            Err(_) => line.fail(),
        },
        "get-head" => match GetHead::start(line.alloc, Counts(owner), owner, replicas, entries) {
            Ok(mut machine) => drive_get_head(line, &mut machine, owners),
            Err(_) => line.fail(),
        },
        "put-block" => {
            let bytes = Bytes::from_word(line, "626c6f636b");
            let post = Post {
                key: block,
                bytes,
                kind: PostKind::Block,
            };
            post_trial(line, post, replicas, entries, owners)
        }
        "put-head" => {
            let bytes = Bytes::from_word(line, "68656164");
            let post = Post {
                key: owner,
                bytes,
                kind: PostKind::Head,
            };
            post_trial(line, post, replicas, entries, owners)
        }
        _ => line.fail(),
    }
}

/// Writes the answer to a line that such a word begins: what the get or the put comes to, and the owners that were asked.
pub fn answer(line: &mut Line<'_>, what: &str) {
    let replicas: u32 = line.read();
    let mut owners = Owners {
        owners: line.list(),
        asked: Vec::new(line.alloc),
    };
    // A silent node and, where there are owners, the one that knows them.
    let nodes = [peer(101), peer(ENTRY)];
    let count = if owners.owners.is_empty() { 1 } else { 2 };
    let entries = Peers::of(line.peers_of(&nodes[..count]));
    put_trial(line, what, replicas, &entries, &mut owners);
    line.put_peers("; asked ", &owners.asked);
}
