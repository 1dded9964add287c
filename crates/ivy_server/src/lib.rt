//! A server: it serves the calls of a link, one after the other, by whoever takes the turns.
//!
//! Layer: over `ivy_session`, `Turns` of `ivy_agent`, the frames of `rpc_wire`, and the traits of `ivy_io` and
//! `dht_ids`, by the definitions of `server_model`; below the top call.
//!
//! For the layers above: [`serve_session`] serves a link, and says what it did as a `Link` of the definitions
//! (`IsServed` in `specs/Served.antt`).
//! - The bytes written are the replies to the messages of the bytes read, in order, each as one fragment.
//! - The turns are those of the pass (`specs/Passes.antt`), each at a moment that the clock gave for it.
//! - The asks went through the mesh, which tells them where it tells its trail.
//! - A link whose session is cut ends with Memory after its reply. Else it ends with Memory only before a byte was read,
//!   within a reply, or with bytes read that aren't served. So after Done no session was cut.
//! - It waits where the turns wait, and for the source and the sink, which no bound shows.
//!
//! Laws (`specs/Laws.antt`): over `Single` a link is that of one agent ([`links_of_one_agent`]), and whole calls end
//! with Done, where nothing fails and memory is left ([`whole_calls_are_done`]).
//!
//! Within: `specs/Sessions.antt` (a session in code on its way, and one message) and `specs/Streams.antt` (a link on its
//! way). What is said of a session alone, whoever drives it, is in the lemmas of `ivy_session`.
//!
//! Lemmas, each file on those before it:
//! - `proofs/Ways.antt`, `proofs/Marks.antt`, `proofs/Whole.antt`: ways and marks one after another, and sessions that
//!   aren't cut;
//! - `proofs/Asks.antt`, `proofs/Turns.antt`, `proofs/Ends.antt`, `proofs/Steps.antt`: whatever a session wants next, it
//!   is an act of the definitions;
//! - `proofs/Messages.antt`, `proofs/Streams.antt`, `proofs/Sending.antt`, `proofs/Waiting.antt`: messages, replies and
//!   pieces;
//! - `proofs/OneAgent.antt`, `proofs/WholeCalls.antt`: the laws.
//!
//! Costs: a link has one cache, one list of the nodes and one piece of 65,536 bytes. Each message copies the list, and
//! each reply is copied once more, so that it goes out in one write with its header.
#![tactic(auto)]

mod driving;
mod laws;
mod message;
mod serve;

pub use laws::{links_of_one_agent, whole_calls_are_done};
pub use serve::serve_session;
pub use server_model::Ended;
