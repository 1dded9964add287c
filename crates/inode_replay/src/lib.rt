//! What an inode is and contains, and what the records of a log make of it.
//!
//! Layer: over `ivy_base`, `tree_model`, whose definitions the contracts cite, and `shared_map`, in which bytes and marks stand;
//! below whatever keeps the inodes of a tree. It knows of no names and of no inode's number.
//! For the layers above: contracts see a [`Content`] as the inode of `tree_model` (`specs/Tree.antt` there) with the places
//! of it that a Write wrote, one Boolean for each byte. [`Content::fresh`] is the inode that a record adds,
//! [`Content::apply_content`] changes it as a Write or a SetAttrs does, [`Content::touch`] as a change of a directory's
//! entries does, [`Content::stored`] counts the places that are written, and no clause says how bytes and places are kept.
//! Where memory is short an inode stays as it was. Definitions: `specs/Contents.antt` says what a record makes of one
//! inode, `specs/Kept.antt` what it makes of its places. Lemmas to cite: `proofs/Applied`, that the one is what `apply` of
//! `tree_model` makes of that inode in a tree.
//!
//! Inside, `body` keeps the bytes: a regular file's in `file_bytes`, in pieces with marks beside them (`specs/Bodies.antt`
//! says which bytes and places those are), a symbolic link's text in one block that copies share, and a directory has none.
//! What changes both bytes and marks is done to a copy of the marks first.
//!
//! [`SharedBytes`] is seen as the list of its bytes, and [`SharedMarks`] as the list of its marks, true where a place is marked;
//! each method says by an equation what it makes of that list. Where memory is short both stay as they were, since what touches
//! several pieces or ranges is done to a copy, which takes the place of the whole at the end. `pieces` keeps pieces of 8,192
//! bytes at most under their numbers, which `number` makes keys of a map, `edits` replaces and reads a part of a piece, and
//! `bytes` puts the pieces together. A piece that isn't there, and places after a piece's end, are zeros. No piece ends after
//! the size, so that bytes that were cut off don't come back when the size grows again. `ranges` says how a range of marks is
//! kept, under its end with its start as the value, and finds the first one from a place on; `marks` takes ranges out and puts
//! them in. No two ranges share a place or touch, none is empty, and none ends after the size, so each row is kept in one way,
//! and the number of marked places changes by the length of each range that comes or goes.
//! Definitions: `specs/Pieces.antt`, `specs/Marks.antt`. Lemmas: `proofs/Rows` (pieces in a row, and one of them changed),
//! `proofs/FoundPieces` (what a change of the map makes of the pieces), `proofs/Onward` (lists that are changed part by part),
//! `proofs/FoundRanges` (what the map's entries say of ranges and places), `proofs/Changes` (a range put in or taken out),
//! `proofs/MarkPlaces` (lists of marks, place by place), `proofs/Steps` (the two together).
//!
//! Costs: a copy takes constant time and no memory. A Write copies the pieces of 8,192 bytes that it touches, and a gap that it
//! fills costs nothing; a SetAttrs that cuts a file takes a search for each 8,192 bytes that it cuts off; a read takes the time
//! of what it gives, and a search for each piece. Marking takes a search and a removal for each range that it joins, one search
//! more and one insertion, whatever the number of places; each search makes a list of one entry. So a mark right after the last
//! range, as where a file is written in order, copies only nodes of the map on the way to that range, and the row keeps one
//! range. Cutting off takes a search and a removal for each range that is cut off, and an insertion where one is kept in part.
//! Places that are put after the end take neither time nor memory.
#![tactic(auto)]

mod attr;
mod body;
mod bytes;
mod content;
mod edits;
mod file_bytes;
mod marks;
mod number;
mod pieces;
mod ranges;

pub use attr::Attr;
pub use bytes::SharedBytes;
pub use content::Content;
pub use marks::SharedMarks;
