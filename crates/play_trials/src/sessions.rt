//! Calls of agents and fetches, session by session, over a table of nodes.

mod calling;
mod driving;
mod fetching;
mod reading;
mod showing;
mod table;
mod trial;
mod writer;

pub use trial::Trial;
