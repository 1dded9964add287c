//! The nodes of a world as a mesh.

ghost use Rattle.std.specs.Prelude.{◌≡◌, ◌≢◌, ◌≤◌, ◌==◌, ◌&&◌, [], Some, IfOk, OnErr};
ghost use Rattle.std.specs.Ordering.{eq_by_cmp};
ghost use Rattle.ivy_base.specs.Naming.{key_cmp};
ghost use Rattle.dht_ids.specs.Asked.{IsAnswerTo, IsForData};
ghost use Rattle.dht_ids.specs.declared.ask.Answer.TheVariants as answer;
ghost use Rattle.dhash_model.specs.Signed.{hss_judged};
ghost use Rattle.ring_nodes.specs.NodesState.{made_peers};
ghost use Rattle.world_mesh.specs.Trails.{Becomes, LeadsTo, entries_of};

use crate::begun::Begun;
use crate::telling::{copy_of, entry_of};
use dht_ids::{Answer, Ask, Heard, Mesh, Peer, Peers};
use ivy_base::{Key, Memory};
use log_heads::HssJudge;
use ring_nodes::RingNodes;
use std::alloc::Global;
use std::marker::{Model, PhantomData};

/// The nodes of a world as a mesh that tells its trail. Contracts see how many nodes own a key, the nodes, the trail, and how
/// often no answer came.
pub struct WorldMesh<B: Begun> {
    replicas: u32,
    nodes: RingNodes,
    trail: Vec<Heard>,
    silences: u64,
    begun: PhantomData<B>,
}

/// One function, so that whatever drops a mesh calls it and isn't proved over all of its parts once more.
impl<B: Begun> Drop for WorldMesh<B> {
    fn drop(self) {
        let WorldMesh {
            replicas: _,
            nodes: _,
            trail: _,
            silences: _,
            begun: _,
        } = self;
    }
}

impl<B: Begun> Model for WorldMesh<B> {
    ghost use Rattle.dhash_model.specs.Signed.{hss_judged};
    ghost use Rattle.world_mesh.specs.Trails.{IsMesh, MeshState};

    ghost Value = { MeshState };

    ghost view = { λ m. record { replicas = m.replicas; nodes = m.nodes; trail = m.trail.items; silences = m.silences } };

    ghost invariant = { λ m. IsMesh hss_judged B.nodes (record { replicas = m.replicas; nodes = m.nodes; trail = m.trail.items; silences = m.silences }) };
}

impl<B: Begun> WorldMesh<B> {
    /// A mesh over these nodes, of which `replicas`, 1 to 8, own a key. Nothing was asked yet. It takes no memory.
    pub fn over(alloc: Global, nodes: RingNodes, replicas: u32) -> WorldMesh<B>
        requires begun { nodes ≡ B.nodes }
        requires few { (1 ≤ replicas) × (replicas ≤ 8) }
        ensures made { result ≡ record { replicas = replicas; nodes = nodes; trail = []; silences = 0 } }
        ensures some { nodes.nodes ≢ [] → entries_of nodes ≢ [] }
    {
        WorldMesh {
            replicas,
            nodes,
            trail: Vec::new(alloc),
            silences: 0,
            begun: PhantomData,
        }
    }

    /// The asks so far and their answers, in order. They lead from the nodes with which the mesh was made to those that it has.
    pub fn trail(&self) -> &[Heard]
        ensures trail { result.now ≡ self.now.trail }
        ensures leads { LeadsTo hss_judged B.nodes result.now self.now.nodes }
    {
        self.trail.as_slice()
    }

    /// The nodes, with all that was put at them.
    pub fn into_nodes(self) -> RingNodes
        ensures nodes { result ≡ self.nodes }
        ensures leads { LeadsTo hss_judged B.nodes self.trail result }
    {
        let WorldMesh {
            replicas: _,
            nodes,
            trail: _,
            silences: _,
            begun: _,
        } = self;
        nodes
    }
}

/// What becomes of an ask for data: silence where the peer was never made, and else its fate among the nodes. The error is: out
/// of memory, or 2^64 asks, and all is as before then.
fn given_by(nodes: &mut RingNodes, alloc: Global, node: &Peer, ask: &Ask) -> Result<Answer, Memory>
    requires { IsForData ask.now }
    ensures becomes { IfOk result (λ given. Becomes hss_judged nodes.old node.now ask.now given nodes.new) }
    ensures form { IfOk result (IsAnswerTo ask.now) }
    ensures unchanged { OnErr result (nodes.new ≡ nodes.old) }
    ensures made { made_peers nodes.new ≡ made_peers nodes.old }
{
    nodes.are_sound();
    match nodes.numbered(node.number) {
        Some(peer) if is_peer(&peer, node) => nodes.ask(alloc, &HssJudge, node, ask),
        _ => Ok(Answer::Silent),
    }
}

/// Whether both are one identifier.
fn is_id(a: &Key, b: &Key) -> bool
    ensures { result ≡ eq_by_cmp key_cmp a.now b.now }
{
    a == b
}

/// Whether both are one peer.
fn is_peer(a: &Peer, b: &Peer) -> bool
    ensures { result ≡ (a.now.number == b.now.number && eq_by_cmp key_cmp a.now.id b.now.id) }
{
    a.number == b.number && is_id(&a.id, &b.id)
}

impl<B: Begun> Mesh for WorldMesh<B> {
    ghost use Rattle.std.specs.Prelude.{Some};
    ghost use Rattle.world_mesh.specs.Trails.{entries_of};

    ghost silences = { λ m. m.silences };

    ghost trail = { λ m. Some m.trail };

    ghost owners_of_a_key = { λ m. m.replicas };

    ghost made = { λ m. entries_of m.nodes };

    fn ask(&mut self, alloc: Global, node: &Peer, ask: &Ask) -> Result<Answer, Memory> {
        self.nodes.are_sound();
        self.trail.reserve(1)?;
        let answer = given_by(&mut self.nodes, alloc, node, ask)?;
        let got = copy_of(alloc, &answer)?;
        if self.trail.push(entry_of(node, ask, got)).is_err() {
            unreachable!();
        }
        if let Answer::Silent = answer {
            self.silences = self.silences.saturating_add(1);
        }
        Ok(answer)
    }

    fn replicas(&self) -> u32 {
        self.replicas
    }

    fn entries(&self, alloc: Global) -> Result<Peers, Memory> {
        self.nodes.are_sound();
        self.nodes.entries(alloc)
    }
}
