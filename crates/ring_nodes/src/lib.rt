//! The nodes of a ring in memory, which are asked one at a time, and rounds of maintenance among them.
//!
//! Layer: over the nodes of `chord_core`, the stores of `node_store`, the machines of `dhash_client` and the repair of
//! `dhash_repair`, by the definitions of `world_model`; below worlds.
//! For the layers above: contracts see [`RingNodes`] as the nodes in the order in which they were made, how many asks were
//! made, and which asks are lost (`specs/NodesState.antt`). What they say is about each world that has these nodes
//! (`IsNodesOf`), and the world after it is the same with the new nodes (`with_nodes`): each ask has its fate
//! ([`RingNodes::ask`]), [`RingNodes::settle`] makes the nodes of a settled ring, and [`RingNodes::join`],
//! [`RingNodes::stop`], [`RingNodes::lose`], [`RingNodes::damage`] and [`RingNodes::held`] are what the lines of these names
//! do and show. [`RingNodes::look_up`] looks a key up through one node, and [`RingNodes::put_block`] puts a content block at
//! the owners of its key, ask by ask. [`RingNodes::live_in_order`], [`RingNodes::before`], [`RingNodes::first`],
//! [`RingNodes::posts`], [`RingNodes::forget`], [`RingNodes::renew`], [`RingNodes::fix_finger`] and
//! [`RingNodes::drop_blocks`] are what a round reads and changes.
//! A session begins its look-ups at [`RingNodes::entries`]; [`RingNodes::numbered`] and [`RingNodes::owner_of`] give the
//! peer that a script names. Each node has the identifier of its number, no two stand at one place, and each knows of nodes
//! alone that were made. No call but `settle` and `join` changes which peers there are, and each error leaves everything as
//! it was, but for asks that a look-up, a put or a join made.
//!
//! A [`RingNode`] is one node by itself, for those that keep nodes in another way: [`RingNode::answer`] is all that an ask does to
//! it, [`settled_nodes`], [`RingNode::alone`] and [`RingNode::joined`] make nodes, [`in_order`] and [`from_key`] put peers in the
//! order of their places, and [`put_numbered`] puts one where it belongs by its number.
//!
//! [`round`] makes a whole round over the live nodes (`specs/Rounds.antt` of `world_model`). Its four parts go over the live
//! peers in the order of their places as the round began: [`forget_silent`], [`renew_lists`], [`fix_fingers`] and
//! [`move_blocks`]. Each asks nodes alone that were made, and changes who was made in nothing. Where memory is short a part may
//! be half done.
//! Definitions: `specs/Parts.antt` has the steps of single nodes in a round; `specs/NodesState.antt`, `specs/Joining.antt`, `specs/Looking.antt`, `specs/Upkeep.antt`, and `world_model`'s
//! `specs/Nodes.antt`, `specs/Fates.antt`, `specs/Ring.antt`, `specs/Rounds.antt` and `specs/Faults.antt`.
//!
//! Costs: a node is found by a walk over the nodes, and the entries are put in order for each call (256 nodes at most). An
//! answer to a get copies the block once, as a put does; damage copies it once. `held` and `posts` copy all blocks of a node.
//! In a round a node's part takes, in each pass, an ask of the first entry of its list that answers, of those before it, and of
//! the first of the new list; a look-up for each of its 160 fingers; and for each of its blocks a look-up and the asks of at
//! most its owners. All blocks of a node are copied before they are put, and each once more for each ask of an owner.
#![tactic(auto)]

mod fingers;
mod forgetting;
mod heard;
mod joining;
mod lookup;
mod node;
mod nodes;
mod order;
mod repairing;
mod settle;
mod stabilising;
mod whole_put;
mod whole_round;

pub use fingers::fix_fingers;
pub use forgetting::forget_silent;
pub use joining::{Join, MOST_NODES};
pub use node::RingNode;
pub use nodes::{RingNodes, put_numbered};
pub use order::{from_key, in_order};
pub use repairing::move_blocks;
pub use settle::settled_nodes;
pub use stabilising::renew_lists;
pub use whole_round::round;
