//! What was saved of an agent, read again from its bytes, so that it can start again.
//!
//! Layer: a format above `agent_model`, whose `specs/SavedBytes.antt` says what may be saved and how it is spelled, over
//! `xdr_codec`, `block_parts`, `version_vectors`, `view_blocks`, `dht_ids` and `hss_keys`, whose readers read its parts;
//! below `ivy_agent`, which saves these bytes and starts again from them.
//! For the layers above: [`read_saved`] takes exactly the bytes that are saved of something that may be (`IsKept`), which is
//! one agent's alone, and gives that; of all other bytes it says that there is none. [`Saved::read`] does so for each kind
//! of keys that [`hss_keys::Signs`]; where such a key's own saved bytes may have 2^32 or more, which no word counts, it speaks of
//! the others.
//!
//! Inside, the bytes are read from left to right by one small function for each part: `parts`, `view`, `posts`. Then the key
//! is loaded, which tells its public key, and `testing` tests what depends on that: that the own log is counted as far as
//! the floor says, and that the view has the own key as a member's and names each log of the floor.
//! Definitions: `specs/Saves.antt` (what is read, and of which bytes). Of `specs/Parts.antt` and `specs/Refusals.antt` only
//! the functions inside speak.
//!
//! Costs: memory is taken for what was read, never for what a count announces; each block is copied and hashed once. The
//! key's trees are grown last, where all else but the tests of the public key has passed.
#![tactic(auto)]

mod fault;
mod parts;
mod posts;
mod saved;
mod testing;
mod view;

pub use parts::SAVED_TAG;
pub use saved::{Saved, read_saved};
