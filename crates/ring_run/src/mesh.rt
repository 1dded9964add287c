//! A live ring as a mesh of one thread.

ghost use Rattle.std.specs.Prelude.{◌≡◌, ◌≢◌, []};

use crate::LiveRing;
use dht_ids::{Answer, Ask, Mesh, Peer, Peers};
use ivy_base::Memory;
use std::alloc::Global;
use std::sync::Wait;

/// A live ring as a mesh of one thread, which counts silences and tells no trail.
#[derive(Drop)]
pub struct LiveMesh<'a, R: Wait> {
    rt: &'a R,
    ring: &'a LiveRing,
    silences: u64,
}

impl<'a, R: Wait> LiveMesh<'a, R> {
    /// A mesh over the ring, in which nothing was silent yet.
    pub fn over(rt: &'a R, ring: &'a LiveRing) -> LiveMesh<'a, R>
        ensures owners { ⟦<LiveMesh<'a, R> as Mesh>⟧.owners_of_a_key result ≡ ring.now.replicas }
        ensures made { ⟦<LiveMesh<'a, R> as Mesh>⟧.made result ≡ ring.now.made }
        ensures nodes { ⟦<LiveMesh<'a, R> as Mesh>⟧.made result ≢ [] }
        ensures silences { ⟦<LiveMesh<'a, R> as Mesh>⟧.silences result ≡ 0 }
    {
        ring.is_sound();
        LiveMesh {
            rt,
            ring,
            silences: 0,
        }
    }
}

impl<'a, R: Wait> Mesh for LiveMesh<'a, R> {
    ghost use Rattle.std.specs.Prelude.{None};

    ghost silences = { λ m. m.silences };

    ghost trail = { λ _. None };

    ghost owners_of_a_key = { λ m. m.ring.now.replicas };

    ghost made = { λ m. m.ring.now.made };

    fn ask(&mut self, alloc: Global, node: &Peer, ask: &Ask) -> Result<Answer, Memory> {
        let answer = self.ring.ask(self.rt, alloc, node, ask)?;
        if let Answer::Silent = answer {
            self.silences = self.silences.saturating_add(1);
        }
        Ok(answer)
    }

    fn replicas(&self) -> u32 {
        self.ring.replicas()
    }

    fn entries(&self, alloc: Global) -> Result<Peers, Memory> {
        self.ring.made(alloc)
    }
}
