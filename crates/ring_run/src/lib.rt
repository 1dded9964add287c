//! A ring that runs: nodes behind locks, which several threads ask at once.
//!
//! Layer: over the nodes of `ring_nodes`, the judge of `log_heads` and the keys of `hss_keys`, by the definitions of `world_model`;
//! below servers.
//! For the layers above: contracts see a [`LiveRing`] as how many nodes own a key, the nodes that were made and those that
//! live (`specs/Live.antt`). What an ask gives is `Gives`: silence exactly where the peer doesn't live, and else what a
//! live node answers, whatever it knows and holds. A lock tells nothing of its value but what the value's type keeps, here
//! byte counts and sorted lists, so a session verifies every block again. What a [`LiveNode`] answers, and how it changes,
//! is said by [`LiveNode::answer`], which is all that an ask does under the node's lock. [`LiveRing::join`] and
//! [`LiveRing::stop`] have the ring to themselves (`specs/Changes.antt`). [`LiveRing::round`] makes a round of maintenance
//! by such asks, while others ask; of what it leaves nothing is said. A [`LiveMesh`] is a live ring for one thread, with a
//! count of silences. [`LiveRing::is_sound`] says what holds of a ring at all times. The laws of asks: [`live_laws`], in
//! `specs/Laws.antt`.
//!
//! No lock is held while another is waited for.
//!
//! The nodes judge heads as [`HssJudge`](log_heads::HssJudge) does, but verify no signature that they have a verdict on. A
//! verdict is a signature that is accepted, kept with its message and its public key, and all three are compared byte by byte.
//! There are two ways to one: it was verified, or a [`RememberedKey`] made it, which shares the ring's [`Verdicts`]. So a head
//! that such a key sealed isn't verified at all, and another one once, though several owners judge it. That is of cost alone:
//! 64 verdicts are kept, a newer one in place of an older one, and whoever finds a lock taken or no memory does without.
//!
//! The name of a content block that is put is tested before the node is locked. The ring keeps the last 64 such blocks with
//! their names, so that of one put at several owners the first computes the name, and the others compare the bytes.
//!
//! Costs: a node is found by a walk over the live ones, 256 at most. An ask holds the lock of its node alone, for as long
//! as the node takes to answer. A round makes the asks that one of `ring_nodes` makes, and copies all blocks of a node under
//! its lock before they are put.
#![tactic(auto)]

mod changing;
mod fault;
mod laws;
mod mesh;
mod names;
mod remembered_key;
mod remembering;
mod ring;
mod rounds;
mod seat;
mod upkeep;
mod verdicts;

pub use fault::JoinFault;
pub use laws::live_laws;
pub use mesh::LiveMesh;
pub use remembered_key::RememberedKey;
pub use ring::LiveRing;
pub use ring_nodes::RingNode as LiveNode;
pub use verdicts::Verdicts;
