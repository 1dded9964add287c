//! What a server makes of a stream of calls: the messages read, what each session does, and the bytes written.
//!
//! Layer: definitions and one plain data type, over `session_model`, `agent_model` and the frames of `rpc_wire`; below
//! whatever serves links, on one thread or on several.
//!
//! Definitions, in reading order:
//! - `specs/Acts.antt`: what a session does that others see;
//! - `specs/Takers.antt`: whoever takes the turns, and the mesh that is asked;
//! - `specs/Driving.antt`: the way of one session, act by act;
//! - `specs/Serving.antt`: a message, and messages one after the other;
//! - `specs/Links.antt`: a whole link, with a case for each end;
//! - `specs/Alone.antt`: who takes the turns is one agent, which nobody shares.
#![tactic(auto)]

mod ended;

pub use ended::Ended;
