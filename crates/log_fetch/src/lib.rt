//! What a refresh starts from, what it brings and notes, and how: the fetch of all logs of a view.
//!
//! Layer: over the definitions of `session_model`, `log_records` (whose batches test and carry the chains)
//! and `dhash_client` (whose gets ask the ring). Also over `fs_tree`, `view_blocks`, `version_vectors`,
//! `dht_ids`, `rpc_wire` and `nfs_model`. Below sessions, and below agents, which give standings and take
//! refreshes.
//!
//! For the layers above: a [`Standing`], a [`Refresh`] and an [`Asked`] are those of `agent_model` and
//! `turn_model`. [`Notes`] are what `session_model` notes, and why a refresh failed (`specs/Standings.antt`).
//! [`Turned`] and [`TurnFault`] are what an agent's turn hands to its session. Its posts are [`NamedPosts`]: where
//! it is known that they have their names, that is a post's key, and only heads are hashed, and of these none
//! that is known ([`KnownName`]). [`NamedPosts::name_of`] is exactly a block's name, whatever is known.
//! [`Edges`] always ascend by log, and none of them knows anything of its own log, so a chain can be tested over
//! each ([`Edges::at`]).
//!
//! A [`Fetch`] is driven.
//! - [`Fetch::next`] says which node is to be asked, and [`Fetch::heard`] takes its answer. The last answer
//!   ends a get, and a block that it brought is handed out.
//! - Between gets an available block can be given instead of being got ([`Fetch::wanted`], [`Fetch::give`]).
//!   [`Fetch::failed`] says whether something couldn't be had.
//! - The contracts speak of the parts brought so far and the asks of the current get (`FetchIsAfter` in
//!   `specs/Fetching.antt`). Each get is for exactly what `session_model` says is wanted next, and each part
//!   is a whole get of it, or a block that was given. The result is what the definition of the members' fetch
//!   gives (`FetchesAll`), with its notes and chains.
//! - The chains were added under the view, with the floor and the edges, and are of its members.
//! - Each answer, and each block that is given, leaves fewer asks to the whole fetch (`fetch_left`). The
//!   fetch starts from what is held; a snapshot isn't loaded here.
//! - [`Fetch::gets`] is exactly how many heads and records it began to get, up to `u64::MAX`. A block that
//!   was given isn't counted. The count never exceeds the sum of three numbers. The first is the members other
//!   than the own log. The second is, over all members, the floor's number less the one held. The third is,
//!   over the heads that were tried, each head's number less the one held (`most_gets` in
//!   `specs/Counting.antt`). That is a law of the definitions ([`gets_are_few`]). So a fetch ends in that many
//!   gets, whatever the nodes answer.
//! - A [`Get`] can be driven alone, too, as those of a snapshot's blocks are. [`Progress`] says whether it is
//!   over. A [`Waiting`] keeps the ask that is to be heard, since asking the get for it again might find the
//!   get over.
//!
//! One log is fetched backwards by names from each of its heads, until the records of one of them are a chain
//! that goes on from what is held.
//! - No machine of these asks a node: each says which block it wants, and is given it, wherever it came from.
//! - [`heads_to_try`] gives the heads in the order in which they are tried, and after them the floor's entry.
//! - A [`Trial`] goes through them and wants one block after the other. [`Trial::settle`] puts the records of
//!   a head whose walk is over into a batch, or passes over the head with its fault. It stops where a block
//!   is wanted or the log is finished.
//! - A [`Walk`] is the way back under one head.
//! - Whatever blocks were given, the progress is that of the definitions' `Tries` and `Walks`
//!   (`specs/Walking.antt`, `specs/Trying.antt`, `specs/Concluding.antt`, `specs/Order.antt`; inside
//!   `specs/Reading.antt`).
//! - `proofs/Driven.antt` has what a driver cites: how a log's fetch begins, which block it wants then, and
//!   that it stops where that can't be had.
//! - Each block given leaves fewer records to come, and each head passed over fewer heads. `trial_left`
//!   bounds the blocks that may still be wanted, and both make it less.
//! - A record that makes an inode of another number than it may is fetched through, as in the definitions,
//!   though no chain can hold it. Only bytes that aren't of the grammar end a walk.
//!
//! Within:
//! - [`log::open`] begins with a log whose heads were got and [`log::go_on`] goes on with a block that was
//!   wanted, by `Tries` of `session_model` (`specs/Logs.antt`).
//! - `gather` goes over the members, whatever is brought and however it came; `Gathers` in
//!   `specs/Gathering.antt` is its progress.
//! - A [`Get`] gets what is wanted from the ring. Its trail is a whole get of `session_model` (`Gets`), with
//!   what it brings (`specs/Gets.antt`; `proofs/Getting.antt` has how it begins). Each answer leaves fewer
//!   asks.
//! - `fetch` is both together (`specs/Stepping.antt`).
//!
//! Costs: view, floor and edges are copied once at the start. An edge is searched among those of at most
//! sixteen logs, and copied for each head that is tested. A block that a get brought is read where it is,
//! once, and not copied. A head's records are hashed once more when they are tested, since a record doesn't
//! keep its name. Heads are few, and are put in order one by one.
#![tactic(auto)]

pub mod asked;
pub mod edges;
pub mod fetch;
mod gather;
pub mod get;
pub mod log;
pub mod names;
pub mod note;
mod order;
mod reading;
pub mod refresh;
pub mod standing;
pub mod trial;
pub mod turned;
pub mod walk;

pub use asked::Asked;
pub use edges::{Edge, Edges};
pub use fetch::{Fetch, Fetched, gets_are_few};
pub use get::{Came, Get, Progress, Waiting};
pub use names::{KnownName, NamedPosts};
pub use note::{Note, Notes};
pub use order::heads_to_try;
pub use refresh::Refresh;
pub use standing::Standing;
pub use trial::{Concluded, Settled, Trial};
pub use turned::{TurnFault, Turned};
pub use walk::Walk;
