//! Reads the lines of a script.
//!
//! Layer: over the definitions of `script_model`, below the machine that plays a script.
//! For the layer above: [`read_command`] is exactly `command_of` of `script_model`'s `specs/Lines.antt`, the definition of
//! which command a line is; its only error is: out of memory.
//! What the definition means for the text of a line is proved beside it: a line is its words joined by blanks
//! (`proofs/WordLaws.antt`), a number is what `decimal` writes of it and nothing else (`proofs/NumberLaws.antt`), the
//! digits that are written of some bytes are read as these bytes (`proofs/HexLaws.antt`), and some lines are computed
//! (`proofs/Examples.antt`).
#![tactic(auto)]

mod agents;
mod calls;
mod hex_digits;
mod keys;
mod lines;
mod names;
mod nodes;
mod numbers;
mod pieces;
mod sets;
mod setup;
mod shows;
mod words;

pub use lines::read_command;
