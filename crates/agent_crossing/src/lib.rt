//! Which agents and gates may cross threads: proofs alone, and no code.
//!
//! Layer: over `agent_gate`; below whatever runs a gate on several threads.
//! Types that hold a map of shared parts, as an engine's tree does, aren't found to be `Send` by themselves. They are proved
//! to be so type by type: `proofs/TreeSent.antt` (trees), `proofs/EngineSent.antt` (engines), and `proofs/Crossing.antt`.
//! For the layers above, of a keeper and a signer that are `Send`:
//! - `agent_send`: an agent may go to another thread, and so may a gate (`gate_send`) and a pass (`pass_send`);
//! - `gate_sync`: a gate may be shared.
//!
//! A goal that something which has these in it may cross is answered by
//! `search (denote.Param.Send.sendable, gate_sync, pass_send) depth 30`. The bounds on the keeper and the signer are found,
//! and aren't to be listed.
#![tactic(auto)]
