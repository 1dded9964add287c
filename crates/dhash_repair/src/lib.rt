//! What a node does, ask by ask, so that its blocks lie with their owners: each is put at the owners of its key, one after
//! the other, and those may go that others hold now.
//!
//! Layer: over the puts of `dhash_client` and the posts of `dht_ids`; below whatever carries asks.
//! For the layers above: a [`Repair`] puts the blocks in the order in which they are given, a head as a head and any other
//! block by its name. Each put begins its look-up at the node itself, which isn't asked to hold what it holds: it counts, at
//! its place among the owners, as having answered so. Whoever drives it keeps the asks that were made, each with its answer;
//! after them the machine may be in its state (`RepairIsAfter` in `specs/Repairing.antt`), as it may at the start after none.
//! Each `next` names the node that is to be heard and leaves the asks as they are, or says which blocks may go, and then the
//! asks are a whole repair (`IsRepair` in `specs/Repairs.antt`); each `heard` makes the ask and its answer the next. A block
//! may go exactly where its put was acknowledged and the node is none of the owners that were asked or counted. Each answer
//! leaves less (`repair_left`), so that a driver ends.
//! Definitions: `specs/Repairs.antt`, `specs/Repairing.antt` and `specs/Putting.antt` (the put of one block).
//!
//! Costs: the blocks are moved in, and a put takes its block over and hashes it once for what is said of it. A block is
//! copied once for each ask of an owner, the node itself among them.
#![tactic(auto)]

mod put;
mod repair;

pub use repair::Repair;
