//! What the nodes of the ring and their callers share: peers and their identifiers, distances on the circle, asks and
//! answers, posts and their acknowledgements, the judge of heads, signatures, and the trait of whatever carries asks.
//!
//! Layer: over `ivy_base` and `ring_model`, whose definitions the contracts cite; below everything that stores, signs
//! or asks.
//! For the layers above: [`node_id`] is the SHA-1 that the definition gives; [`distance`], [`between`] and
//! [`finger_start`] are arithmetic modulo 2^160 on the identifiers' numbers, and [`order`], [`same`] and [`inside`]
//! compare these numbers; a [`Judge`] gives the same answer for the same arguments; a [`Mesh`] answers in the form
//! of the ask, and Silent only where its count of silences rose, and names its nodes by ascending numbers. Contracts see
//! [`Peers`], [`Posts`], [`Acks`] and [`Heads`] as lists, and a [`Signature`] as its bytes. Definitions: `specs/Peers.antt`
//! (identifiers and places of nodes), `specs/Asked.antt` (what nodes may be asked, what they answer and what a mesh tells),
//! and `ring_model`'s `specs/Circle.antt` and `specs/Arc.antt`.
#![tactic(auto)]

pub mod ask;
pub mod circle;
pub mod judge;
pub mod lists;
pub mod mesh;
pub mod peer;
pub mod post;
pub mod signature;

pub use ask::{Answer, Ask, AskKind, Heard, StoreFault, Want};
pub use circle::{between, distance, finger_start, inside, order, same};
pub use judge::{Judge, Judged};
pub use lists::{Acks, Heads, Peers, Posts};
pub use mesh::Mesh;
pub use peer::{Peer, node_id};
pub use post::{Ack, Post, PostKind};
pub use signature::{LoadFault, SignFault, Signature};
