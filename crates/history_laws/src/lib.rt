//! Laws of the histories of an agent behind a gate: where that of a new agent starts, and that it is legal.
//!
//! Layer: over `agent_gate`, whose law says how a history folds from where it starts; below whoever opens a gate.
//! Definitions: `specs/Starting.antt`.
#![tactic(auto)]

ghost use Rattle.agent_gate.specs.Taking.{kind_of};
ghost use Rattle.history_laws.specs.Starting.{NewHistoriesFold, NewStandsAtStart};

use hss_keys::Signs;
use ivy_io::Keeper;

/// A law and no code: an agent that was just made, and has then entered a view, is a member of it, and stands where a fold
/// starts that knows the first record of its own log alone. It holds nothing, and has no snapshot to load.
pub fn new_stands_at_start<K: Keeper, S: Signs>()
    ensures { NewStandsAtStart (kind_of S.signing S.is_whole K.saves) }
{}

/// A law and no code: where no names collide and each refresh is grounded, the turns of an agent that was just made and
/// entered a view are a legal history, which folds from the first record of its log. From the first entry on it holds all that
/// is known.
pub fn new_histories_fold<K: Keeper, S: Signs>()
    ensures { NewHistoriesFold (kind_of S.signing S.is_whole K.saves) }
{}
