//! A mesh over the nodes of a world, which tells its trail.
//!
//! Layer: over the nodes of `ring_nodes` and the judge of `log_heads`, by the definitions of `world_model`; below trials of
//! whatever asks through a mesh.
//! For the layers above: a [`WorldMesh`] keeps the trait `dht_ids::Mesh` over `ring_nodes::RingNodes`. Its trail has each ask and
//! its answer, in order. The trail leads from the nodes with which the mesh was made to those that it has now (`LeadsTo` in
//! `specs/Trails.antt`): each answer is what `world_model` gives on the nodes at that point, and the nodes after it are what it
//! leaves. So it is with nodes that were stopped, asks that are lost and blocks that were damaged before, as `RingNodes` has
//! them. A peer that was never made is silent.
//!
//! The nodes with which a mesh was made are named by a type parameter ([`Begun`]), so that a caller that lends the mesh to
//! another function still knows them: it calls a function of its own with that parameter at `Brand`, and its proof picks them.
//!
//! Costs: room for one entry more is taken before each ask, and an answer is copied once more for the trail. Nothing is ever
//! dropped from a trail.
#![tactic(auto)]

mod begun;
mod mesh;
mod telling;

pub use begun::Begun;
pub use mesh::WorldMesh;
