//! A node of the ring: what it knows of others, what it answers of that, and what it makes of what it hears.
//!
//! Layer: over `dht_ids`, `ring_model` and `dhash_model`, whose definitions the contracts cite; below whatever keeps
//! nodes, which carries the asks and decides who hears what.
//! For the layers above: contracts see a [`Node`] as itself, r and its links, and each method is an equation in the
//! words of `ring_model`: [`Node::answer`] gives the route of the definitions, [`Node::stabilise`] the renewed list,
//! [`Node::notify`] what a notice leaves. They hold for any peers in any answer, also for peers that were never made.
//! [`Node::settled`] makes a node of a settled ring. Where memory is short a node stays as it was. By what nodes answer
//! that know one peer at a place, look-ups find the owners of a key ([`answer_laws`]). Definitions: `State` and
//! `IsSettledNode` of `dhash_model`, and `specs/State.antt` (what a node answers); the laws: `specs/Laws.antt`.
//!
//! Costs, counted in comparisons of identifiers: a route takes one for each finger and entry of the list and for each
//! peer that it is put after; a settled node takes n log n to sort the members and log n for each finger.
#![tactic(auto)]

mod laws;
mod near;
mod node;
mod route;
mod settle;

pub use laws::answer_laws;
pub use node::Node;
pub use settle::FINGERS;
