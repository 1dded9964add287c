//! A mesh of one node, asked by a client that knows no more of it than that it is a mesh.

use crate::line::{Line, peer};
use dht_ids::{Answer, Ask, Mesh, Peer, Peers, StoreFault};
use ivy_base::{Key, Memory};
use std::alloc::Global;

/// A mesh of one node, which holds nothing.
#[derive(Drop)]
struct Lone(Peer);

impl Mesh for Lone {
    ghost use Rattle.std.specs.Prelude.{[], ◌∷◌, None};

    ghost silences = { λ _. 0 };

    ghost trail = { λ _. None };

    ghost owners_of_a_key = { λ _. 1 };

    ghost made = { λ mesh. mesh.0 ∷ [] };

    fn ask(&mut self, alloc: Global, _node: &Peer, ask: &Ask) -> Result<Answer, Memory> {
        match ask {
            Ask::Route(_) => match self.entries(alloc) {
                Ok(owners) => Ok(Answer::Route {
                    nearer: Peers::of(Vec::new(alloc)),
                    owners,
                }),
                Err(Memory) => Err(Memory),
            },
            Ask::PutBlock(..) | Ask::PutHead(..) => Ok(Answer::Refused(StoreFault::Full)),
            Ask::Get(_) => Ok(Answer::Nothing),
            Ask::Near | Ask::Notify(_) => unreachable!(),
        }
    }

    fn replicas(&self) -> u32 {
        1
    }

    fn entries(&self, alloc: Global) -> Result<Peers, Memory> {
        match vec![in alloc; self.0] {
            Ok(entries) => Ok(Peers::of(entries)),
            Err(_) => Err(Memory),
        }
    }
}

/// Writes the routes that all nodes name, by any mesh, and how many nodes own a key.
fn put_mesh<M: Mesh>(line: &mut Line<'_>, mesh: &mut M, key: Key) {
    let none = Peers::of(Vec::new(line.alloc));
    let entries = line.made_or(mesh.entries(line.alloc), none);
    for node in entries.as_slice() {
        let answer = mesh.ask(line.alloc, node, &Ask::Route(key));
        line.put_made(&answer);
    }
    line.put_number(" of ", mesh.replicas() as u64);
}

/// Writes the answer to a line.
pub fn answer(line: &mut Line<'_>) {
    let key: Key = line.read();
    put_mesh(line, &mut Lone(peer(0)), key);
}
