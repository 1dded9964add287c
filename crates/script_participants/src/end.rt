//! How entering a view ends, and how starting again does.

ghost use Rattle.script_participants.specs.Ends.{EndsFor};
ghost use Rattle.script_participants.specs.Restarting.{IsLostFor};

use ivy_agent::{EnterFault, RestartFault};
use ivy_base::Memory;

/// How entering a view ends.
#[derive(Clone, Copy)]
pub enum EnterEnd {
    /// The agent is in the view.
    Entered,
    /// The log isn't a member's, or the view doesn't take in what the agent knows. Nothing has changed.
    Refused,
    /// The keeper failed, now or before. The agent stays in its view, and saves no more.
    Failed,
}

/// How starting again ends.
#[derive(Clone, Copy)]
pub enum RestartEnd {
    /// The agent has started again.
    Restarted,
    /// The agent is in no view. Nothing has changed.
    Outside,
    /// The keeper holds nothing, or no agent's bytes. Nothing has changed.
    Lost,
}

/// How it ends for an agent that isn't in the view. The error is: out of memory.
pub(crate) fn end_of(fault: EnterFault) -> Result<EnterEnd, Memory>
    ensures { EndsFor fault result }
{
    match fault {
        EnterFault::NotMember => Ok(EnterEnd::Refused),
        EnterFault::NotNamed(_) => Ok(EnterEnd::Refused),
        EnterFault::Keeper => Ok(EnterEnd::Failed),
        EnterFault::Memory => Err(Memory),
    }
}

/// How it ends for an agent that hasn't started again. The error is: out of memory.
pub(crate) fn lost_for(fault: RestartFault) -> Result<RestartEnd, Memory>
    ensures { IsLostFor fault result }
{
    match fault {
        RestartFault::Nothing => Ok(RestartEnd::Lost),
        RestartFault::Malformed => Ok(RestartEnd::Lost),
        RestartFault::Keeper => Ok(RestartEnd::Lost),
        RestartFault::Memory => Err(Memory),
    }
}
