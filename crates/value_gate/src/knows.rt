//! What a pass knows.

use crate::history::Entry;
use std::collections::LinkedList;

/// A pass that was joined to another, and makes no calls any more. No value of it is made.
pub struct Gone<T> {
    /// Its number.
    pub number: u64,
    /// All its calls, in their order.
    pub calls: LinkedList<Entry<T>>,
}

/// What a pass knows. No value of it is made: it stands in contracts and in the rule alone.
///
/// A note carries parts and what was seen from one pass to another. It has no number and makes no calls. A pass that was
/// joined to another is spent, which is a note of nothing.
pub struct Knows<A, T> {
    /// The value that the gate was opened with; `None` in a note.
    pub opening: Option<A>,
    /// The number of the pass.
    pub number: u64,
    /// The pass's own calls, in their order.
    pub calls: LinkedList<Entry<T>>,
    /// Whether the pass is inside, with the value.
    pub inside: bool,
    /// The parts that the pass has.
    pub parts: u64,
    /// The history that the pass has seen.
    pub seen: LinkedList<Entry<T>>,
    /// What the pass had seen when something was last joined to it.
    pub own: LinkedList<Entry<T>>,
    /// What that which was joined to it had seen.
    pub met: LinkedList<Entry<T>>,
    /// The passes that were joined to it, and to these.
    pub gone: LinkedList<Gone<T>>,
}
