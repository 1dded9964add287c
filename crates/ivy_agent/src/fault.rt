//! What keeps an agent from being made, from starting again, from entering a view, and from a snapshot.

use ivy_base::Key;
use std::fmt;
use thiserror::Error;

/// Why no agent was made.
#[derive(Clone, Copy, Debug, Error)]
pub enum MakeFault {
    /// The key signs nothing more.
    #[error("the key signs nothing more")]
    Spent,
    /// The keeper failed, and its count of faults rose.
    #[error("the keeper failed")]
    Keeper,
    /// Out of memory. No clause ties this to a cause.
    #[error("out of memory")]
    Memory,
}

/// Why no agent started again.
#[derive(Clone, Copy, Debug, Error)]
pub enum RestartFault {
    /// Nothing was saved.
    #[error("nothing was saved")]
    Nothing,
    /// What was saved are no agent's bytes.
    #[error("what was saved are no agent's bytes")]
    Malformed,
    /// The keeper failed, and its count of faults rose.
    #[error("the keeper failed")]
    Keeper,
    /// Out of memory. No clause ties this to a cause.
    #[error("out of memory")]
    Memory,
}

/// Why a view wasn't entered.
#[derive(Clone, Copy, Error)]
pub enum EnterFault {
    /// The agent's log isn't a member's of the view.
    #[error("the agent's log isn't a member's of the view")]
    NotMember,
    /// The agent knows records of the log with that head key, which the view doesn't name, or has as a member's where it was
    /// a former member's.
    #[error("the view doesn't take in a log that the agent knows")]
    NotNamed(Key),
    /// The keeper failed now, and its count of faults rose, or it had failed before.
    #[error("the keeper failed, now or before")]
    Keeper,
    /// Out of memory. No clause ties this to a cause.
    #[error("out of memory")]
    Memory,
}

/// As it is displayed: a key has no text of its own.
impl fmt::Debug for EnterFault {
    fn fmt<W: fmt::Write>(&self, f: &mut fmt::Formatter<W>) -> fmt::Result {
        fmt::Display::fmt(self, f)
    }
}

/// Why there is no new snapshot.
#[derive(Clone, Copy, Debug, Error)]
pub enum SnapFault {
    /// The keeper failed now, and its count of faults rose, or it had failed before.
    #[error("the keeper failed, now or before")]
    Keeper,
    /// Out of memory. No clause ties this to a cause.
    #[error("out of memory")]
    Memory,
}
