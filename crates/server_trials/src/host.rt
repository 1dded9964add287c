//! What is outside the program, each once: files, and a link of the loopback. Nothing of this can be said by a contract.

pub mod files;
pub mod links;
