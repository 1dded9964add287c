//! The refresh of a view: the snapshot first, where there is one to load, and then all logs.
//!
//! Layer: over `log_fetch`, which fetches the logs, and `snapshot_loading`, which loads a snapshot that is
//! given block by block. Sessions above carry its asks to nodes and its result to an agent.
//!
//! For the layers above: a [`ViewRefresh`] is driven as a fetch is.
//! - [`ViewRefresh::next`] says which node is to be asked, and [`ViewRefresh::heard`] takes its answer. The
//!   last answer ends a get, and a block that it brought is handed out.
//! - Between gets a pending block is taken instead of being got ([`ViewRefresh::take_pending`]), and another
//!   one that is available can be given ([`ViewRefresh::wanted`], [`ViewRefresh::give`]).
//! - [`ViewRefresh::failed`] says whether something that is needed couldn't be had.
//! - The contracts speak of the parts brought so far and the asks of the current get (`RefreshIsAfter` in
//!   `specs/Behind.antt`). Each ask is the next one of a get of exactly what the refresh wants by its
//!   definition (`Refreshes` of `session_model`). The result is what that definition gives, with its notes
//!   (`specs/Steps.antt`).
//! - A snapshot that can't be had, or is none, counts as there being none: then the logs are fetched over
//!   what is held. Otherwise they are fetched over the snapshot's front, where the floor knows all that it
//!   covers.
//! - Each answer, and each block that is given, leaves fewer asks to the whole refresh (`refresh_left` in
//!   `specs/States.antt`).
//!
//! Within: a [`ViewRefresh`] is in one of few states. Each step takes the state out of its place and puts its
//! result there (`specs/Parts.antt` has what each part of a step does). `IsSound` in `specs/States.antt` is
//! the invariant of a state. An unfinished snapshot wants a block by what was brought of it. The get of that
//! block has made some asks, so a block that it brings has its name. `pending` looks for blocks among the
//! posts.
//!
//! Lemmas of a fetch, whatever it starts from: `proofs/Reaching.antt` and `Fetches.antt` (how it stands),
//! `Bringing.antt` (what a miss says), `Nobody.antt` (where no node is known) and `Asking.antt` (its next
//! ask). Lemmas of a refresh: `Standing.antt` (the snapshot's part with the logs'); `Starting.antt`,
//! `Beginning.antt`, `Wanting.antt`, `Giving.antt` and `Hearing.antt` (its steps). Further `Placing.antt`
//! (from state to state), `Falling.antt` and `Counting.antt`, `Laws.antt` and `Wants.antt`.
//!
//! Costs: view, floor and edges are copied once, as the fetch begins. Each block of the snapshot is copied
//! once, since it is kept until all are there and is handed out beside that.
#![tactic(auto)]

mod pending;
pub mod refresh;

pub use refresh::{Refreshed, ViewRefresh};
