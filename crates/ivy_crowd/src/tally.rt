//! What a crowd came to.

use ivy_base::Key;

/// What a crowd came to.
#[derive(Clone, Copy)]
pub struct Tally {
    /// How many turns were answered: the length of the one history.
    pub turns: u64,
    /// How many names the root has then.
    pub files: u64,
    /// The name of the newest record of the participant's log.
    pub last: Key,
    /// The greatest number that a head of the log has which the ring gives, and 0 where it gives none. No clause ties it: what a
    /// node holds under its lock nobody says.
    pub stored: u32,
}
