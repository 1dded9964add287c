//! What an agent is: what is saved of it, the views that it may enter, its standing, and its turns.
//!
//! Layer: definitions and no code, over those of turns (`turn_model`) and of chains that were fetched
//! (`log_model`); below sessions. An agent signs with anything that has the functions of `Signing`; the
//! world's agents sign with keys of `hash_signature_model`. An agent is what its code keeps, and no more. It keeps no records
//! that it knows below its basis, so what a turn is by the definition is said for every set that the agent
//! may know.
//!
//! For the layers above: an agent's making, its return from what was saved, its entering of a view, settling
//! and snapshots are functions on `Agent`. They also say what is to be saved; whether the save fails is given
//! to them. A turn is the relation `Turns`. It says what is signed and saved in each case, and what is
//! answered if no two different blocks have one name.
//!
//! Definitions, in reading order: `specs/Agent.antt`, `specs/Views.antt`, `specs/SavedBytes.antt` (the bytes
//! that are saved), `specs/Standing.antt`, `specs/Candidates.antt`, `specs/Turning.antt`, `specs/Others.antt`
//! (settling and snapshots).
#![tactic(auto)]
