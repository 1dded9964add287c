//! What one turn of an agent answers and comes to know.
//!
//! Layer: definitions and laws, over the sets of records of `log_model` and the procedures of `nfs_model`; no
//! code of the program.
//!
//! For the layers above: a turn is `IsTurn`, a function of what the agent knows, the candidates, the call and
//! the moment. The functions are the laws that the definitions keep.
//!
//! Definitions: `specs/Turn.antt`, `specs/Known.antt` (what an agent knows, and by which heads),
//! `specs/Candidates.antt`, `specs/Basis.antt` (a tree in place of records).
#![tactic(auto)]

ghost use Rattle.turn_model.specs.Basis.{KeptTreeIsReplay};
ghost use Rattle.turn_model.specs.Turn.{PlanMayBeWritten, TurnIsUnique, TurnKeepsKnown, TurnIsOnKnown};
ghost use Rattle.turn_model.specs.Candidates.{OnlyMemberHasNothingNew};

/// An agent that holds all that it knows, below its basis or as records above it, keeps the tree that
/// replaying it from nothing gives.
pub fn kept_trees()
    ensures { KeptTreeIsReplay }
{}

/// What a call of well-formed arguments plans may be written, if enough numbers are left: each operation may
/// stand in the record that it gets.
pub fn planned_records()
    ensures { PlanMayBeWritten }
{}

/// A turn is a function of what the agent knew, the candidates, the call and the moment. Its set has all that
/// the agent knew. Where nothing new is available the turn is on just that; so it is for its view's only
/// member.
pub fn known_sets()
    ensures one { TurnIsUnique }
    ensures kept { TurnKeepsKnown }
    ensures on_known { TurnIsOnKnown }
    ensures alone { OnlyMemberHasNothingNew }
{}
