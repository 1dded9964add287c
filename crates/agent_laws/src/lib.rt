//! Laws of agents: what an agent knows and holds after a turn, whatever it signs with.
//!
//! Layer: over `turn_laws` and the definitions of `agent_model`; below the laws of a world and whoever shares an agent.
//! The lemmas stand in `proofs/`: `Floors.antt` has a floor with a front joined into it, what it names and how far it goes;
//! `Sets.antt` has the set that a turn
//! leaves, and `Plans.antt` that a plan of operations has some.
#![tactic(auto)]

ghost use Rattle.agent_laws.specs.Laws.{JoinedFloorNames, SavesWhatItWrites, WrittenIsHeld};

/// A law and no code: a floor into which the front of a larger closed set was joined names that set; and where all of a set is
/// held, so is all of it with what a turn on it writes.
pub fn agents_know_what_they_take()
    ensures floor { JoinedFloorNames }
    ensures held { WrittenIsHeld }
{}

/// A law and no code: a turn tries to save exactly where it writes records, since a plan of operations has some.
pub fn turns_save_what_they_write()
    ensures { SavesWhatItWrites }
{}
