//! Serving: each link on a thread of its own, by one gate and over one ring that runs.
//!
//! Layer: over `ivy_server`, whose sessions serve a link, `agent_gate`, `ring_run` and the ports of `ivy_io`, by the desk of
//! `job_desk`; below the top call.
//! For the layers above: [`serve_links`] serves each link that the ports give, until there is no further one or none can be
//! accepted, and says so by `ServesLinks` (`specs/Serving.antt`).
//! - The ports went from their first state to their last by exactly these calls: they gave these links, took each back once,
//!   and stopped once, with the result that is returned. After a failure too all links that were out came back.
//! - Each link was served from its first byte to its end, as `IsServed` of `ivy_server` says it (`IsServedLink` in
//!   `specs/Jobs.antt`): by the agents behind the gate, over the nodes of the ring, at moments of a clock of its own.
//! - Each link had a pass of one part that had made no call. The turns that it was answered are the calls of this pass, which
//!   the gate's history has, each once, once it is closed.
//! - The passes that come back are of the gate, and have the parts of those that were given.
//! - Whether a session wanted memory is told, and the counts of the ports tell why it ended.
//!
//! [`serve_link`] serves one link, on the caller's thread, and says the same of it (`IsServedLink`).
//!
//! The ports stay with the caller's thread. Their type is `Send` all the same: a link that goes to a thread is typed by it, and
//! the prover takes no thread whose types rest on a bound that is assumed of the caller's thread alone.
//!
//! Not said: that two links are served at once, and what a thread that waits does. While 16 links are served no further one is
//! accepted. A link that ended is hung up by its thread, and given back before the next one is accepted.
//!
//! Definitions: `specs/Jobs.antt` (a link that is served), `specs/Serving.antt` (all links). Within: `specs/Desks.antt`.
//! Lemmas: `proofs/Standing.antt` and `proofs/Counting.antt` (a chain of calls, call by call), `proofs/Linking.antt`,
//! `proofs/Passing.antt`, `proofs/Refusing.antt`, and `proofs/Crossing.antt` (what goes to another thread).
//! Costs: a pass more for each link, 16 bytes, kept until the end. A gate has parts for 2^32 - 1 links.
#![tactic(auto)]

mod fault;
mod job;
mod link_desk;
mod one_pass;
mod serving;

pub use fault::ServeFault;
pub use job::serve_link;
pub use serving::{LinksServed, serve_links};
