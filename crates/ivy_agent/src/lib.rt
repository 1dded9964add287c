//! A participant's agent, over a keeper that saves it and a key that signs its log. It opens its log or
//! starts again from what was saved, enters a view, stands for a session, takes turns, and settles what was
//! published.
//!
//! Layer: below whatever drives agents; over
//! - `agent_model`, whose definitions the contracts cite;
//! - `ivy_io`, whose [`ivy_io::Keeper`] saves, `hss_keys`, whose [`hss_keys::Signs`] signs, and
//!   `agent_saves`, which reads what was saved;
//! - `replay_engine`, which holds records and their tree, and `turn_taking`, which says what is new;
//! - `log_fetch`, whose standings sessions begin with and whose refreshes turns take;
//! - `nfs3_reads` and `nfs3_writes`, which answer and plan on a tree.
//!
//! For the layers above: contracts see an [`Agent`] as the agent of the definitions and its keeper
//! (`specs/Holders.antt`).
//! - [`Agent::create`] signs one head, and gives the agent that opens its log only once it is saved
//!   (`specs/Making.antt`).
//! - [`Agent::enter`] is `entering` of the definitions, for some answer to whether the save fails, with what
//!   is saved (`specs/Entering.antt`).
//! - Of the keeper both say: it is what a save of exactly those bytes leaves, or, where nothing is saved,
//!   what it was. What is saved may be saved (`IsKept`), so no other agent has those bytes. After a save that
//!   failed an agent saves no more.
//! - [`Agent::restart`] gives `restored` of what the keeper holds, if those are the bytes of something that
//!   may be saved. Otherwise it says that the keeper holds nothing, holds no agent's bytes, or failed.
//! - [`Agent::restore`] does so with bytes, and leaves the keeper as it is. [`Agent::start_again`] does so in
//!   place, over a keeper in memory (`specs/Restarting.antt`).
//! - [`Agent::standing`] is `standing_in` and [`Agent::settle`] is `settled`. [`Agent::owner`] is the agent's
//!   public key and [`Agent::view`] its view.
//! - [`Agent::snap`] is `snapping`, for some answer to whether the save fails, with what is saved
//!   (`specs/Snapping.antt`). Where what is held is more than a snapshot has room for, that counts as running
//!   out of memory.
//! - [`Agent::plan_fault`] plans that a save of a keeper in memory fails.
//! - [`Agent::turn`] is a `Turns` of the definitions, for some answer to whether the save fails; where
//!   nothing is saved, for either answer (`TakesTurn` in `specs/Turns.antt`). It is `Behind`, `BelowTide`, or
//!   a reply with how many records were applied, the agent then, and what was saved.
//! - So if no two different blocks have one name, the reply is the definition's, for every set that the agent
//!   may know. A turn also says that the reply has at most 32,772 bytes, and that there was a step for each
//!   record applied.
//! - The keeper is blamed only with cause, whatever kind it is (`specs/Causes.antt`). Where no agent is made,
//!   or none starts again, its count of faults rose in the call. Where a view isn't entered, where there is
//!   no new snapshot, and where a turn replies SERVERFAULT, it rose in the call or had risen before.
//! - Running out of memory leaves the agent and the keeper as they were, and is tied to no cause. It also
//!   comes where the saved key, a block or a list has 2^32 parts or more, which no word counts. In a turn it
//!   also comes where the front of what was taken doesn't end in the own log where the floor does; that takes
//!   a hash collision.
//!
//! What a turn answers on the tree that it took:
//! - [`serve`] says what a call's turn replies without writing, or which operations it is to write
//!   (`serve_on`, `specs/Serving.antt`). It goes by the tree, by how far the own log goes and by what
//!   `turn_model`'s turn goes by, and by no set.
//! - [`turns_are_served`] is the law that a turn of `turn_model` on a set (`turn_on`) is what is served on
//!   its replay.
//! - Whether a save fails is known only once it is tried. Where nothing is to be written the reply is the
//!   same in both cases. Where something is, a failed save makes the reply the fault of the server and leaves
//!   the set.
//! - [`write_records`] makes of the operations the records of `turn_model` (`linked`) and the posts of
//!   `agent_model` (`record_post`). [`write_over`] makes those over a front (`written_over`,
//!   `specs/Appended.antt`).
//! - [`written_records_go_on`]: whatever the names, these are good records, the next ones of the own log, and
//!   stand after all that is held, which stays closed. Where all of a set is held, the set with what its turn
//!   appends is held then.
//! - [`front_with`] is the front with the newest of them ([`newest_of`]). It is the front of the set, and of
//!   what is held, with all of them ([`fronts_have_the_newest`]).
//! - After running out of memory nothing was made. `specs/Newest.antt`, `specs/Given.antt` (what the code's
//!   types stand for), `specs/Laws.antt`.
//!
//! [`Turns`] is what a session wants of its agent, by a pass: a standing, a turn, and the settling of what
//! was published. The agent that a pass reaches may be open, since others may have been there before. Each
//! call is that call of one agent that the pass may reach, in the view that all these are in, and leaves that
//! agent as the call does (`specs/Calls.antt`). The turns that were answered by a pass may be told. A call may
//! wait for the agent. With [`Single`] the pass is the agent itself ([`turn_alone`]). Lemmas to cite:
//! `proofs/Views.antt` (a turn leaves an agent in its view) and `proofs/Bounds.antt`. The latter: what a
//! refresh brings may be given to a turn, since the tree of a loaded basis has the bounds of an agent's.
//!
//! The invariant is `IsSound` (`specs/Holders.antt`); it holds whatever the names of blocks.
//! - The front of what is held is kept. Before a view nothing is held.
//! - In a view the held records are closed over the basis's front, and the basis's tree has the bounds that
//!   records keep to (`specs/Bounds.antt`).
//! - That front, and the front of all that is held, name logs of the view alone and go no further in the own
//!   log than the floor.
//! - What would be saved may be saved, as far as the key itself can tell, so no other agent has these bytes.
//!
//! Inside, `opening` makes the parts of an agent that opens its log, `saving` the bytes and the save.
//! `entering` tests a view and saves in it, `standing` finds the newest records' edges, `settling` says which
//! posts are acknowledged, and `keys` compares keys. For a turn:
//! - `grounds` says what it goes on from, `taking` takes what is new and has it answered, `outcome` replies
//!   or has records written;
//! - `drafts` makes and signs these, `posting` makes what is published of them, `writing` holds and saves
//!   them, `answering` makes the result.
//! - `snapping` makes the posts of a snapshot and has them saved.
//!
//! Other definitions: `specs/Saves.antt` (how a save ends), `specs/Edges.antt` (edges from the newest record
//! on), and a file for each step of a turn.
//!
//! Costs:
//! - A save is one allocation beside those of the saved key and of the view's block, and copies each pending
//!   block once.
//! - Entering a view and starting again make an empty tree; the latter also grows the key's trees.
//! - A standing copies the view, the vectors and the pending posts, and looks at the owners of the newest held
//!   records. It hashes nothing: the view has its members' head keys.
//! - A snapshot copies all that is held once, and compares each of its blocks with each pending one.
//! - A turn hands out its posts as posts that have their names, so no record's block is hashed again for them. Of
//!   heads it hashes one that is pending, unless it was the one hashed last.
//! - Settling hashes a head only where an acknowledgement has its key, and not the one hashed last. It takes no
//!   memory.
//! - A call is answered, or planned, once; the tree isn't copied. Each record is written and hashed once: its
//!   name goes into the next record and its post, and its block into the post.
#![tactic(auto)]

pub mod agent;
mod answering;
mod drafts;
mod entering;
pub mod fault;
mod grounds;
mod keys;
pub mod laws;
mod opening;
mod outcome;
mod posting;
mod saving;
pub mod serving;
mod settling;
mod single;
mod snapping;
mod standing;
mod taking;
mod turns;
pub mod writing;
pub mod written;

pub use agent::Agent;
pub use fault::{EnterFault, MakeFault, RestartFault, SnapFault};
pub use laws::{fronts_have_the_newest, turns_are_served, written_records_go_on};
pub use serving::{On, Served, serve};
pub use single::{Single, turn_alone};
pub use turns::Turns;
pub use written::{Before, Written, front_with, newest_of, write_over, write_records};
