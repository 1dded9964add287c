//! An ordered map whose copies share what they have in common, so that a copy costs no more than a pointer.
//!
//! Layer: over `ivy_base`, of which it takes the error and the keys; below whatever keeps maps of which older states live on. For
//! the layers above: contracts see a [`SharedMap`] as the list of its entries in the order of their keys, and each method says by
//! the words of the kit's finite maps (`find`, `put`, `where_key` of `FinMap.Entries`) what it makes of that list;
//! [`SharedMap::len`] and [`SharedMap::get`] say that its keys ascend. Where memory is short a map stays as it was. A [`MapKey`]
//! has a total order and gives an equal key, since a node that is copied keeps its key; what is [`Sought`] is a key or a borrowed
//! form of one; an [`EntryTest`] is a test of entries; an [`Edit`] changes a [`MapValue`] where it stands, and says by a relation
//! of its own what it makes; an [`Amend`] does so without memory, so that two values can be changed together; an [`Attempt`] is
//! what is done together with an insertion. So whoever keeps several maps changes all or none, and no copy is wanted for that.
//! Lemmas to cite: `proofs/Sides`, what a search, a change and a removal make of entries on both sides of one, over any total
//! order.
//!
//! Inside, `tree` is a tree whose parts may have many owners, `joining` makes new nodes over two sides so that they stay
//! balanced, `finding` goes down to a key and copies the nodes on its way, `placing` puts an entry in place, `settling` turns
//! nodes in place, `updating` changes a value in place and `pairing` two, `attempting` is what is done together with a change,
//! `listing` borrows entries in a row, `testing` looks at each entry, `key` says what a key is, and `map` keeps the keys in
//! order.
//! Definitions: `specs/Trees.antt`, and `specs/Edits.antt` for changes of values. Heights are part of the invariant: the
//! two sides of each node differ by two at most, and the height is at most twice the binary logarithm of the number of
//! entries and one, whatever the order of insertions and removals, so at most 128. The code aims at sides that differ by one:
//! that they differ by two is left to an insertion in place which can't turn a node since that has other owners.
//!
//! Costs: a copy takes constant time and no memory. A search takes a comparison for each level of the tree. An insertion or an
//! update changes a node on its way in place where it has one owner, and copies it where copies share it. A removal copies each
//! node on its way, and at most two more beside each; so does an insertion that goes into a side that is two higher than the
//! other. All else stays shared with the copies, so a copy that is kept costs the memory of the nodes that were made since. A
//! list takes the time of what it gives, and that of a search where it begins at a key.
#![tactic(auto)]

mod attempting;
mod finding;
mod joining;
mod key;
mod listing;
mod map;
mod pairing;
mod placing;
mod settling;
mod testing;
mod tree;
mod updating;

pub use attempting::Attempt;
pub use key::{MapKey, Sought};
pub use map::SharedMap;
pub use pairing::Amend;
pub use testing::EntryTest;
pub use updating::{Edit, MapValue};
