//! What the changing procedures of NFS version 3 do (RFC 1813, section 3.3): SETATTR, WRITE, CREATE, MKDIR, SYMLINK,
//! REMOVE, RMDIR, RENAME and LINK are planned on a tree, and answered once their operations stand.
//!
//! Layer: above `nfs3_objects` (handles, attributes, permission); below whatever serves calls and writes records.
//! For the layers above: [`plan`] and [`finish`] are exactly the definitions' (`nfs_model`'s `specs/Changing.antt`), of the
//! trees, the view, the caller and the arguments as contracts see these; a [`Plan`] is the plan `seen` of
//! `specs/Seen.antt`. That the operations may stand in records is a law of `turn_model` (`planned_records`), that they are
//! one to three and that replies are short are laws of `nfs_laws`.
//!
//! Inside, `creating`, `setting` and `naming` plan a few procedures each; `checks` and `times` answer what their checks
//! ask, and `refusals` makes the plans that refuse. A procedure's checks stand in one table each, in their order, and the
//! first that fails decides; `specs/Checks.antt` has these tables by their names.
//!
//! Costs: a plan takes some look-ups in the tree's maps, and memory for its operations or its reply alone: the names, a
//! link's text, and of a WRITE one copy of the bytes that are taken. A RENAME of a directory that has
//! entries also climbs from its target to the top.
#![tactic(auto)]

mod checks;
mod creating;
pub mod finishing;
mod naming;
pub mod ops;
pub mod planning;
pub mod plans;
mod refusals;
mod setting;
mod times;

pub use finishing::finish;
pub use ops::Ops;
pub use planning::plan;
pub use plans::Plan;
