//! Sessions: one call of a participant, or the publishing of its posts alone.
//!
//! Layer: over `view_refresh` (the refresh, an agent's snapshot first), `log_fetch` (what sessions and agents
//! hand to each other) and the puts of `dhash_client`. Also over the readers and writers of messages
//! (`rpc_wire`, `nfs3_args`, `nfs3_replies`) and `block_cache`. Below a server and a world, which carry its
//! asks to nodes and its turns to an agent.
//!
//! For the layers above: [`Session::next`] says what a [`Session`] wants next.
//! - It asks a node, and [`Session::heard`] hands it the answer.
//! - It wants its agent's turn, and [`Session::turned`] hands it the result.
//! - It wants its agent to drop posts that were acknowledged; then it is done.
//! - Each of these is a step of the session of `session_model` (`NextIs`, `HeardIs`, `TurnedIs` in
//!   `specs/Stepping.antt`), for every session of the definitions that it may represent (`IsSession` in
//!   `specs/States.antt`).
//! - When it begins, and after each answer and each turn, it waits for a node only where the current get or
//!   put has made asks (`HasAsked`). Then no turn is awaited.
//! - The turn is given a basis where the session began with a snapshot to load and that one counts. After a
//!   refused turn the session begins again without one.
//! - A number falls with each answer, turn and settling (`session_left`); `next` never raises it.
//! - If memory runs out before the turn, the answer is SYSTEM_ERR, for which the memory was taken first.
//!   After the turn running out of memory changes no reply, and [`Session::is_cut`] says that posts are left.
//!   It is so exactly from the step on that ends the publishing, or leaves it out (`specs/Cutting.antt`).
//!
//! Messages are those of ONC RPC (RFC 5531, section 9) around NFS version 3 and MOUNT (RFC 1813).
//! - [`read_message`] gives the reply of a message that reaches no turn (`IsByMessage` in
//!   `specs/Replies.antt` of `session_model`). Otherwise it gives what the message asks for, within the
//!   bounds of calls (`specs/Reading.antt`).
//! - [`missed`] is the reply where the refresh failed (`missed_reply`).
//! - A [`ReplyRoom`] is taken before a turn. With it the turn's result, or SYSTEM_ERR, is written without
//!   taking memory.
//! - `reading` goes through what a call may be refused for, in the order of `specs/Admitting.antt`. `alone`
//!   answers NULL and MOUNT, `heads` writes messages, and `missing` has the tails of refusals.
//!
//! A [`Publishing`] puts records first, then blocks of snapshots, then heads, within a kind in the order
//! given. It puts no head once a record wasn't acknowledged.
//! - Its driver keeps the trail of the current put. After that trail the machine may be in its state
//!   (`PublishingIsAfter` in `specs/Publishing.antt`); `stage_of` is the stage of a session that publishes
//!   so. It begins with `publishing` of the posts and no trail (`proofs/Driven.antt`).
//! - Each `next` names the node to be heard, for the first post that is left, and leaves stage and trail as
//!   they are. Where no post is left it gives the acknowledgements.
//! - Each `heard` adds the ask and its answer to the trail. Then the put goes on, or the trail is a whole put
//!   and the session is in the stage after it (`PutHears`; `puts_on` and `puts` of a session's `Hears`).
//! - Only where no node is known are puts over without an ask, in `next` (`Passes`). Each answer leaves fewer
//!   asks (`puts_left`).
//! - `specs/Putting.antt` is the put of one post, `specs/Kinds.antt` their order.
//!
//! Definitions: `specs/States.antt`, `specs/Stepping.antt`, `specs/Left.antt` (the number that falls),
//! `specs/Cutting.antt` (where a session is cut).
//! Within: `specs/Taking.antt` (what a refresh takes of the blocks available, hears, and comes to),
//! `specs/Ending.antt`, and `specs/InPlace.antt` (stages that are changed in place).
//!
//! Lemmas, each file on those before it:
//! - `proofs/Refreshes.antt`: how a refresh stands, in the words of sessions;
//! - `proofs/AskSteps.antt` and `proofs/Nobody.antt`: what a put asks, and that nobody is asked where no node
//!   is known;
//! - `proofs/Bringing.antt`: what is kept of what was brought;
//! - `proofs/Taken.antt` and `proofs/Available.antt`: the blocks that are available without an ask;
//! - `proofs/Hears.antt`, `proofs/Failing.antt`, `proofs/Advancing.antt`, and over them `proofs/Calls.antt`,
//!   `proofs/Puts.antt`, `proofs/Begins.antt`, `proofs/Turns.antt`;
//! - `proofs/InPlace.antt`, `proofs/Refreshed.antt`, `proofs/TurnsInPlace.antt`: stages that are changed in
//!   place;
//! - `proofs/Falling.antt` and `proofs/Cutting.antt`: the number that falls, and where a session is cut.
//!
//! For whoever drives a session, over its contracts:
//! - `proofs/Staying.antt` and `proofs/Ended.antt`: what stays of a session, and sessions that are over;
//! - `proofs/Hearing.antt`: whatever is answered may be heard, and what is asked is for data;
//! - `proofs/Wanted.antt`: what was available is taken, and then a node is asked, or a turn;
//! - `proofs/Called.antt`: what a turn is asked is what the message asks for.
//!
//! Costs:
//! - A block that a get brought is hashed once more, for its name in the cache. The entry nodes are copied
//!   for each refresh and for what publishes.
//! - A message is read once, and only the arguments and the reply take memory. A room is two allocations, and
//!   the result is copied into it once.
//! - The posts are copied once, since the agent keeps its own until they are settled. A put takes over its
//!   post's block. The acknowledgement has the name that the agent's turn told: its block isn't hashed here. Where
//!   posts are published alone nothing is told of their names. They are copied once more, and hashed once each.
//! - An ask owns its bytes. So for each ask of an owner the block is copied once to be kept until it is
//!   heard, and once each time that it is wanted.
//! - A put that begins takes the next post in constant time; one of a record that fails passes over those
//!   that are left.
#![tactic(auto)]

mod alone;
mod asking;
mod hand;
mod heads;
mod missing;
mod named;
mod order;
mod publishing;
mod put;
pub mod reading;
mod refreshing;
pub mod room;
pub mod served;
pub mod session;

pub use missing::missed;
pub use publishing::Publishing;
pub use reading::{Reading, read_message};
pub use room::ReplyRoom;
pub use served::Served;
pub use session::{Next, Session};
