//! What follows for links.

ghost use Rattle.ivy_server.specs.Laws.{AloneIsOneAgent, WholeCallsAreDone};
ghost use Rattle.ivy_server.specs.Passes.{by_passes, passes};

use hss_keys::Signs;
use ivy_agent::Turns;
use ivy_io::{Clock, Keeper};

/// A law and no code: over `Single`, whose pass is the agent, a link is that of one agent, by the definitions.
pub fn links_of_one_agent<K: Keeper, S: Signs>()
    ensures { AloneIsOneAgent S.signing S.is_whole K.saves }
{}

/// A law and no code: where neither source nor sink fails, whole messages within the limit, each of them a call, end a link
/// with Done, or because memory ran out.
pub fn whole_calls_are_done<K: Keeper, S: Signs, T: Turns<K, S>, C: Clock>(turns: &T)
    ensures { WholeCallsAreDone (by_passes (passes S.signing S.is_whole K.saves (T.comes turns.now) (T.leaves turns.now))) C.gives }
{}
