//! Trials of snapshots.

mod forging;
mod growing;
mod loading;
mod trial;
mod trying;

pub use trial::Trial;
