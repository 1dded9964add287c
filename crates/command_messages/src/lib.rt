//! The messages that the pieces of a script's calls are, and what the result of a call gives to the pieces of later ones: the
//! handle of a new or found object, and the verifier of a page.
//!
//! Layer: over `script_model`, which has the words, `nfs3_objects`, which makes handles, and `nfs3_replies`, which reads results;
//! below the world of a script.
//! For the layer above: [`message`] gives exactly the bytes of the definition (`message_of` of `script_model`'s
//! `specs/Messages.antt`), for calls of NFS and of MOUNT, and none where a piece has no bytes or they are too many for a
//! message. No memory is taken for the latter. [`parts_of`] reads the bytes of a result once more, as what a turn gives is bytes,
//! and keeps its parts (`specs/Reading.antt`: `GivesParts`), where they are a reply of the call's procedure.
//!
//! Inside, `lengths` tells how many bytes there are, `spelling` appends those of each piece, and `replies` has what earlier
//! replies gave; `parts` takes that out of a result, of which `numbers` names the procedure.
//!
//! Costs: a result is read whole, so what READ gives is copied once.
#![tactic(auto)]

mod lengths;
pub mod messages;
mod numbers;
mod parts;
mod replies;
mod spelling;

pub use messages::message;
pub use parts::parts_of;
pub use replies::ReplyParts;
