//! What a turn is asked, as a history has it.

use ivy_base::Moment;
use log_fetch::{Asked, Refresh};

/// What a turn is asked. No value of it is made: it stands in histories alone.
pub struct TurnRequest {
    /// What the refresh brought.
    pub refresh: Refresh,
    /// The call, and who makes it.
    pub asked: Asked,
    /// The moment.
    pub now: Moment,
}
