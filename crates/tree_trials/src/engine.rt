//! Trials of the replay engine.

mod making;
mod taking;
mod trial;

pub use trial::Trial;
