//! RPC's messages (RFC 5531), and the stream that carries them.
//!
//! Layer: above `xdr_codec`.
//! For the layers above: [`read_call`] says exactly by the bytes whether a message is a call, of which version, and whose;
//! it takes no memory. [`write_head`] appends exactly the front of a reply, up to the result of a success, and says how
//! much room that takes. [`FrameReader`] gets the messages of a stream, each of up to 65,536 bytes and in any fragments,
//! however the stream is cut into pieces; a piece is taken wholly or, when out of memory, not at all.
//!
//! Costs: each byte fed is looked at and copied once, whatever the pieces. No memory is taken for a length that no bytes
//! stand after, none for fragments that are empty, and none by `take`.
//!
//! Definitions: the messages are `wire_model`'s; `specs/Callers.antt` has what a reader gives of a message,
//! `specs/Parts.antt` a call's parts in their order, `specs/ReplyHead.antt` the heads, and [`heads_are_fronts`] is the law
//! that ties them to whole replies. `specs/Frames.antt` has fragments, messages and the split of a stream,
//! `specs/FrameReading.antt` what a reader holds and what its calls mean for the bytes that it was fed, and
//! [`frames_are_unambiguous`] are the laws (`specs/FrameLaws.antt`): a stream is split in one way only, and cutting is
//! free.
#![tactic(auto)]

pub mod call;
pub mod frames;
pub mod reply;
mod stream;

pub use call::{Call, Caller, Heading, read_call};
pub use frames::{Cut, FrameFault, FrameReader, frames_are_unambiguous};
pub use reply::{LONGEST_HEAD, ReplyHead, heads_are_fronts, write_head};
pub use stream::LONGEST_MESSAGE;
