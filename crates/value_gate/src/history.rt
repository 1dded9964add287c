//! What a history is made of.

/// One turn of a history. No value of it is made: it stands in contracts alone.
pub struct Entry<T> {
    /// The number of the pass that took the turn.
    pub pass: u64,
    /// The number of the turn among those of its pass, counted from 1.
    pub call: u64,
    /// What was asked, and what was replied.
    pub turn: T,
}
