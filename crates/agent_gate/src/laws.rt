//! What follows for histories of an agent.

ghost use Rattle.hash_signature_model.specs.Saved.{hss};
ghost use Rattle.agent_gate.specs.Taking.{KeyStays, LastIsTaken, SignsOn, StaysInView, kind_of};
ghost use Rattle.agent_gate.specs.Folding.{FreshStaysFresh, HistoriesFold, HoldsWhatIsKnown};

use hss_keys::Signs;
use ivy_io::Keeper;

/// A law and no code: the last of some turns was taken from an agent that had taken the others, all are in one view, and all
/// have one key.
pub fn last_is_taken<K: Keeper, S: Signs>()
    ensures last { LastIsTaken (kind_of S.signing S.is_whole K.saves) }
    ensures view { StaysInView (kind_of S.signing S.is_whole K.saves) }
    ensures key { KeyStays (kind_of S.signing S.is_whole K.saves) }
{}

/// A law and no code: without a snapshot to load, a fresh basis stays fresh.
pub fn fresh<K: Keeper, S: Signs>()
    ensures { FreshStaysFresh (kind_of S.signing S.is_whole K.saves) }
{}

/// A law and no code: where no names collide and each refresh is grounded, a history is legal. Folding the turn of the
/// definitions over it gives each reply and front, and what the agent knows, its leaves, its number and its fault.
pub fn histories_fold<K: Keeper, S: Signs>()
    ensures { HistoriesFold (kind_of S.signing S.is_whole K.saves) }
{}

/// A law and no code: where a legal history began with a fresh basis and no snapshot to load, all that is known is held from
/// the first entry on. Until then the agent holds what the opening agent held.
pub fn holds_what_is_known<K: Keeper, S: Signs>()
    ensures { HoldsWhatIsKnown (kind_of S.signing S.is_whole K.saves) }
{}

/// A law and no code: hierarchical signatures leave their key as it is, and one fewer is left with each.
pub fn leaves_are_counted()
    ensures { SignsOn hss }
{}
