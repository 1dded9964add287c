//! What a session is: which blocks its refresh wants and which nodes it asks, what it makes of its turn, what
//! it publishes, and what it replies.
//!
//! Layer: definitions and no code, over `agent_model` and the gets and puts of `dhash_model`; below the
//! world.
//!
//! Definitions, in reading order:
//! - `specs/Brought.antt`: what a refresh was brought;
//! - `specs/Walks.antt`: the records of one log;
//! - `specs/Refreshing.antt`: what is wanted next;
//! - `specs/Asking.antt`: gets and puts in progress;
//! - `specs/Sessions.antt`: a session and its asks;
//! - `specs/Replies.antt`: what is replied;
//! - `specs/Executions.antt`: beginning, turn and end.
#![tactic(auto)]
