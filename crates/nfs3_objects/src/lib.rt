//! What the procedures of NFS version 3 ask of an object: its handle, its attributes, who may do what with it, and
//! whether a name may stand in it (RFC 1813, section 2.5).
//!
//! Layer: above `fs_tree`, `view_blocks` and `rpc_wire`, and below the crates that answer and plan (`nfs3_reads`,
//! `nfs3_writes`).
//! For the layers above: each function is the word of `nfs_model` that has its name (`specs/Objects.antt` and
//! `specs/Checks.antt` there), of the tree, the view and the caller as contracts see these; [`bare_tail`] is `turn_model`'s.
//! [`object_of`] finds the object of a handle or gives the handle's fault; a [`LiveObject`] is the object `seen` of
//! `specs/Seen.antt`.
//!
//! Costs: each question is a look-up or two in the tree's maps. Only [`handle_of`] takes memory, for its 44 bytes.
#![tactic(auto)]

pub mod fattr;
pub mod kinds;
pub mod names;
pub mod object;
pub mod permission;

pub use fattr::{attributes, attributes_at, before_at, cache_data, leading_number, no_cache_data};
pub use kinds::{bare_tail, is_changing};
pub use names::{is_dot, is_dot_dot, name_fault};
pub use object::{LiveObject, handle_of, live_object, object_of};
pub use permission::{is_in_group, is_owner, may_read, may_search, may_write};
