//! What a ring of nodes is, what its look-ups and its rounds of maintenance do, and the laws that they keep.
//!
//! Layer: definitions and laws, over the keys of `ivy_base`; no code of the program. All of it is generic in the
//! nodes, of which it knows the places alone.
//! For the layers above: what a node computes of its links is a route, and by routes a look-up in a covered ring finds
//! the owners of a key ([`lookup_laws`]), a round after few stops or after a join makes the ring settled again
//! ([`round_laws`]), and blocks stay at their owners ([`block_laws`]).
//! Definitions: `specs/Circle.antt` (identifiers), `specs/Arc.antt`, `specs/Members.antt` (the order on the circle,
//! owners), `specs/Ring.antt` (covered and settled rings), `specs/Route.antt`, `specs/Lookup.antt`,
//! `specs/Pass.antt`, `specs/Round.antt`, `specs/Change.antt` (stops and joins), `specs/Blocks.antt`,
//! `specs/Gets.antt` (gets and puts); the laws:
//! `specs/Laws.antt`.
#![tactic(auto)]

mod laws;

pub use laws::{Placed, block_laws, lookup_laws, round_laws};
