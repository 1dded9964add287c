//! Record marking: the messages of a stream, in whatever pieces it comes (RFC 5531, section 11).

ghost use Rattle.std.specs.Prelude.{◌≡◌, ℕ, List, [], ◌∷◌, ◌++◌, MatchOption, MatchResult};
ghost use Rattle.rpc_wire.specs.Frames.{IsSplit};
ghost use Rattle.rpc_wire.specs.FrameReading.{Exceeded, IsAfter, HasFed};
ghost use Rattle.rpc_wire.specs.FrameLaws.{WholeAreSplit, SplitsAreUnique, TooLongAreUnique, NeverBoth, EachHasMessages, RestsAreBeginnings, AllAreGotten, CuttingIsFree};

use crate::stream::Stream;
use ivy_base::{Bytes, Memory};
use std::alloc::Global;
use std::marker::Model;
use thiserror::Error;

/// Why a piece of a stream brings no further messages.
#[derive(Clone, Copy, Debug, Error)]
pub enum FrameFault {
    /// A fragment's header makes a message longer than 65,536 bytes.
    #[error("a message is longer than 65,536 bytes")]
    TooLong,
    /// Out of memory. No clause ties this to a cause.
    #[error("out of memory")]
    Memory,
}

/// Bytes of a message that isn't whole are held.
#[derive(Clone, Copy)]
pub struct Cut;

/// Reads a stream of messages in fragments, each message of up to 65,536 bytes (RFC 5531, section 11).
///
/// Contracts see the whole messages that wait and the part of a further one that is held. `IsAfter` says what these are
/// by all bytes that were fed and all messages that were taken: however the bytes were cut into pieces, the messages
/// taken and those that wait are those of the bytes ([`crate::frames_are_unambiguous`]).
///
/// Each byte is looked at and copied once, and no memory is taken for bytes that a header only announces.
#[derive(Drop)]
pub struct FrameReader {
    stream: Stream,
}

impl Model for FrameReader {
    ghost use Rattle.rpc_wire.specs.FrameReading.{Frames};
    ghost use Rattle.rpc_wire.specs.Streams.{frames_of};

    ghost Value = { Frames };

    ghost view = { λ r. frames_of r.stream };
}

impl FrameReader {
    /// A reader that was fed nothing. It takes no memory.
    pub fn new(alloc: Global) -> FrameReader
        ensures { IsAfter [] [] result }
    {
        FrameReader {
            stream: Stream::new(alloc),
        }
    }

    /// Takes a further piece of the stream, wholly or not at all.
    ///
    /// The fault is `TooLong` exactly where all bytes fed have a header that makes a message longer than 65,536 bytes:
    /// the messages in front of it can be taken, and the reader gets no further ones. `Memory` leaves the reader as it
    /// was.
    pub fn feed(&mut self, alloc: Global, piece: &[u8]) -> Result<(), FrameFault>
        ensures fed { (fed : List ℕ) (taken : List (List ℕ)) → IsAfter fed taken self.old → HasFed result (fed ++ piece.now) taken self.new }
        ensures memory { result ≡ Err FrameFault.Memory → self.new ≡ self.old }
        ensures for_good { self.old.part ≡ Exceeded → (result ≡ Err FrameFault.TooLong) × (self.new ≡ self.old) }
    {
        match self.stream.read_whole(alloc, piece) {
            Err(Memory) => Err(FrameFault::Memory),
            Ok(()) if self.stream.is_too_long() => Err(FrameFault::TooLong),
            Ok(()) => Ok(()),
        }
    }

    /// Takes the oldest whole message that wasn't taken: `None` exactly where none waits. It takes no memory.
    pub fn take(&mut self) -> Option<Bytes>
        ensures oldest { MatchOption result ((self.old.waiting ≡ []) × (self.new.waiting ≡ [])) (λ message. self.old.waiting ≡ message ∷ self.new.waiting) }
        ensures part { self.new.part ≡ self.old.part }
    {
        self.stream.take()
    }

    /// Whether the stream may end here: `Cut` exactly where bytes of a message that isn't whole are held, a header or a
    /// part of it too, or a message is too long.
    pub fn finish(&self) -> Result<(), Cut>
        ensures { (fed : List ℕ) (taken : List (List ℕ)) → IsAfter fed taken self.now
            → MatchResult result (λ _. IsSplit fed (taken ++ self.now.waiting) []) (λ _. IsSplit fed (taken ++ self.now.waiting) [] → ⊥) }
    {
        if self.stream.is_between() {
            Ok(())
        } else {
            Err(Cut)
        }
    }
}

/// A law and no code: what a stream says.
///
/// Bytes are whole messages and the beginning of a further one, or have a message that is too long, and never both; either
/// way they determine the messages. Whatever pieces a new reader is fed, and whatever is taken between, the messages taken
/// and those that wait are those of all bytes fed, so it doesn't matter how the bytes were cut.
pub fn frames_are_unambiguous()
    ensures whole { WholeAreSplit }
    ensures split { SplitsAreUnique }
    ensures too_long { TooLongAreUnique }
    ensures never_both { NeverBoth }
    ensures each { EachHasMessages }
    ensures rests { RestsAreBeginnings }
    ensures gotten { AllAreGotten }
    ensures cutting { CuttingIsFree }
{}
