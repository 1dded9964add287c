//! What the reading procedures of NFS version 3 answer (RFC 1813, section 3.3): GETATTR, LOOKUP, ACCESS, READLINK, READ,
//! MKNOD, READDIR, READDIRPLUS, FSSTAT, FSINFO, PATHCONF and COMMIT, none of which changes the tree.
//!
//! Layer: above `nfs3_objects` (handles, attributes, permission) and `fs_tree` (trees); below whatever serves calls.
//! For the layers above: [`answer`] is exactly the definition's (`nfs_model`'s `specs/Reading.antt` and `specs/Pages.antt`), of
//! the tree, the view, the caller and the arguments as contracts see these. That pages put together are the listing, and how
//! long a reply is, are laws of `nfs_laws`.
//!
//! Inside, `finding` answers LOOKUP, `contents` READ and READLINK, `rights` ACCESS, `numbers` what is answered with
//! attributes and numbers alone, `page` READDIR and READDIRPLUS, and `answering` chooses among them. Below `page`, `listing` is
//! all that a directory has, `entries` a run of its entries and `cuts` the parts of one, of which a page is made, and `measure`
//! how long entries are.
//!
//! Costs: each answer takes a look-up or two in the tree's maps, and memory for what it gives alone: a LOOKUP the handle, a
//! READ one copy of its bytes, a READLINK one of the text. A page lists the whole directory and hashes it once for the
//! verifier, in the time of its names; attributes and handles are made for the entries of the page alone.
#![tactic(auto)]

pub mod answering;
mod contents;
mod cuts;
mod entries;
mod finding;
mod listing;
mod measure;
mod numbers;
mod page;
mod refusal;
mod rights;

pub use answering::answer;
