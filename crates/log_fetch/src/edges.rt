//! What is known of the newest held records.

ghost use Rattle.std.specs.Prelude.{◌≡◌, ◌↔◌, IsTrue, IfOk, IfSome, None};
ghost use Rattle.log_model.specs.Vector.{stamp_at};
ghost use Rattle.log_fetch.specs.Edges.{AreEdges, edges_of, edge_in};

use ivy_base::{Key, Memory};
use log_records::Edge as Known;
use std::alloc::Global;
use std::marker::Model;
use version_vectors::Vector;

/// What is known of the newest held record of a log.
#[derive(Drop)]
pub struct Edge {
    /// The log's head key.
    pub log: Key,
    /// The record's vector, which knows nothing of its own log.
    pub vector: Vector,
}

/// What is known of the newest held records, ascending by log, of each log once. Contracts see a list of logs and edges.
#[derive(Drop)]
pub struct Edges {
    edges: Vec<Edge>,
}

impl Model for Edges {
    ghost use Rattle.std.specs.Prelude.{List};
    ghost use Rattle.ivy_base.specs.declared.key.Key.{Key};
    ghost use Rattle.log_model.specs.Fetched.{Edge as Held};
    ghost use Rattle.log_fetch.specs.Edges.{AreEdges, edges_of};

    ghost Value = { List (Key × Held) };

    ghost view = { λ e. edges_of e.edges.items };

    ghost invariant = { λ e. AreEdges (edges_of e.edges.items) };
}

impl Edges {
    /// The edges of a vector, which is not copied.
    pub fn of(items: Vec<Edge>) -> Edges
        requires { AreEdges (edges_of items.items) }
        ensures { result ≡ edges_of items.items }
    {
        Edges { edges: items }
    }

    /// The edges as a slice, ascending by log.
    pub fn as_slice(&self) -> &[Edge]
        ensures value { edges_of result.now ≡ self.now }
        ensures legal { AreEdges self.now }
    {
        self.edges.as_slice()
    }

    /// A copy of these edges and of what they have. The error is: out of memory.
    pub fn copy(&self, alloc: Global) -> Result<Edges, Memory>
        ensures { IfOk result (λ copy. copy ≡ self.now) }
    {
        Ok(Edges {
            edges: copies(alloc, &self.edges)?,
        })
    }

    /// A copy of what is known of the log's newest held record, where it is known. The error is: out of memory.
    pub fn at(&self, alloc: Global, log: &Key) -> Result<Option<Known>, Memory>
        ensures value { IfOk result (λ edge. edge ≡ edge_in self.now log.now) }
        ensures own { IfOk result (λ edge. IfSome edge (λ e. stamp_at e.vector log.now ≡ None)) }
    {
        known_at(alloc, &self.edges, log)
    }
}

/// Copies of the edges. The error is: out of memory.
fn copies(alloc: Global, edges: &[Edge]) -> Result<Vec<Edge>, Memory>
    ensures { IfOk result (λ copies. copies.items ≡ edges.now) }
{
    let mut copies = Vec::with_capacity(alloc, edges.len())?;
    for edge in edges {
        copies.push(copy_of(alloc, edge)?)?;
    }
    Ok(copies)
}

/// A copy of the edge. The error is: out of memory.
fn copy_of(alloc: Global, edge: &Edge) -> Result<Edge, Memory>
    ensures { IfOk result (λ copy. copy ≡ edge.now) }
{
    Ok(Edge {
        log: edge.log,
        vector: edge.vector.copy(alloc)?,
    })
}

/// A copy of what is known of the log's newest held record. The error is: out of memory.
fn known_at(alloc: Global, edges: &[Edge], log: &Key) -> Result<Option<Known>, Memory>
    requires { AreEdges (edges_of edges.now) }
    ensures value { IfOk result (λ edge. edge ≡ edge_in (edges_of edges.now) log.now) }
    ensures own { IfOk result (λ edge. IfSome edge (λ e. stamp_at e.vector log.now ≡ None)) }
{
    'edges: for edge in edges {
        if is_one(&edge.log, log) {
            return Ok(Some(Known::of_vector(edge.vector.copy(alloc)?)));
        }
    }
    Ok(None)
}

/// Whether the keys are one.
fn is_one(key: &Key, other: &Key) -> bool
    ensures { IsTrue result ↔ (key.now ≡ other.now) }
{
    key == other
}
