//! A service: a participant's agent, whose links are served on threads, from its keeper to its end.
//!
//! Layer: over `ivy_serving`; below the top call.
//! For the layer above: [`serve`] gets a keeper by name, opens an agent in the view of its log alone, tells the port, serves
//! the links of the ports, and gives the keeper back. `Goes` (`specs/Service.antt`) has a case for each way that it may go,
//! with its status.
//! - Status 0 comes only where the line `serving PORT` was told, the ports came to their end, each link that they gave was
//!   given back once, the keeper was given back, and no session wanted memory.
//! - Status 8 comes only where the ports or the keepers failed, and then the ports' count of ends didn't rise. Links that were
//!   given came back then too.
//! - Status 5 comes only where the sink failed, before any link was given. Any other end means out of memory, status 6. The
//!   keeper isn't given back where memory ran out for the gate.
//!
//! Definitions: `specs/Opening.antt` (the agent as it is opened), `specs/Service.antt` (the rest).
//! Costs: the agent's key is grown by the caller; a ring of five nodes is made before the ports are asked to listen. The key and
//! the ring share verdicts (`RememberedKey` of `ring_run`), so no node verifies a head that the agent sealed.
#![tactic(auto)]

mod opening;
mod service;

pub use service::serve;
