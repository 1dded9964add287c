//! What a reader of frames holds of its stream.

ghost use Rattle.std.specs.Prelude.{◌≡◌, ◌↔◌, ℕ, ◌<◌, Bool, List, [], ◌∷◌, length, IsTrue, IsOk, IfOk, OnOk, OnErr, MatchOption};
ghost use Rattle.rpc_wire.specs.FrameReading.{Exceeded, Feeds};
ghost use Rattle.rpc_wire.specs.Streams.{frames_of, nothing, standing, Grows, IsGrown, FeedsSome, AfterHeader};

use ivy_base::{Bytes, Memory};
use std::alloc::Global;
use std::collections::VecDeque;
use std::mem;

/// The most bytes of a message.
pub const LONGEST_MESSAGE: usize = 65_536;

/// The bit of a header that marks a message's last fragment.
const LAST: u32 = 0x8000_0000;

/// Where a stream stands.
#[derive(Clone, Copy)]
pub enum Place {
    /// Between two messages.
    Between,
    /// In a header, after its first byte, its first two or its first three.
    One(u8),
    Two(u8, u8),
    Three(u8, u8, u8),
    /// In a fragment of which so many bytes are to come. Where none is, a further fragment of the message follows.
    Inside { last: bool, left: usize },
    /// After a header that makes its message too long.
    TooLong,
}

/// The whole messages that were not yet taken, and of a further one the bytes so far and where the stream stands.
#[derive(Drop)]
pub struct Stream {
    whole: VecDeque<Bytes>,
    body: Vec<u8>,
    place: Place,
}

impl Stream {
    /// A stream of which nothing was read.
    pub fn new(alloc: Global) -> Stream
        ensures { frames_of result ≡ nothing }
    {
        Stream {
            whole: VecDeque::new(alloc),
            body: Vec::new(alloc),
            place: Place::Between,
        }
    }

    /// Whether a message is too long.
    pub fn is_too_long(&self) -> bool
        ensures { IsTrue result ↔ ((frames_of self.now).part ≡ Exceeded) }
    {
        matches!(self.place, Place::TooLong)
    }

    /// Whether nothing is held of a message that isn't whole.
    pub fn is_between(&self) -> bool
        ensures { IsTrue result ↔ (self.now.place ≡ Place.Between) }
    {
        matches!(self.place, Place::Between)
    }

    /// Takes the oldest whole message.
    pub fn take(&mut self) -> Option<Bytes>
        ensures oldest { MatchOption result ((self.old.whole.items ≡ []) × (self.new.whole.items ≡ [])) (λ message. self.old.whole.items ≡ message ∷ self.new.whole.items) }
        ensures body { self.new.body ≡ self.old.body }
        ensures place { self.new.place ≡ self.old.place }
    {
        self.whole.pop_front()
    }

    /// Reads the piece, or leaves all as it was.
    pub fn read_whole(&mut self, alloc: Global, piece: &[u8]) -> Result<(), Memory>
        ensures ok { OnOk result (Feeds piece.now (frames_of self.old) (frames_of self.new)) }
        ensures err { OnErr result (frames_of self.new ≡ frames_of self.old) }
        ensures for_good { self.old.place ≡ Place.TooLong → IsOk result × (frames_of self.new ≡ frames_of self.old) }
    {
        let (whole, body, place) = (self.whole.len(), self.body.len(), self.place);
        match self.read(alloc, piece) {
            Ok(()) => Ok(()),
            Err(fault) => {
                self.undo(whole, body, place);
                Err(fault)
            }
        }
    }

    /// Reads the piece.
    fn read(&mut self, alloc: Global, piece: &[u8]) -> Result<(), Memory>
        ensures ok { OnOk result (Feeds piece.now (frames_of self.old) (frames_of self.new)) }
        ensures grown { IsGrown self.old self.new }
        ensures for_good { self.old.place ≡ Place.TooLong → IsOk result × (frames_of self.new ≡ frames_of self.old) }
    {
        let mut rest = piece;
        'steps: while !rest.is_empty() {
            rest = self.step(alloc, rest)?;
        }
        Ok(())
    }

    /// Takes back what was read since so many messages were whole, and the body had so many bytes.
    fn undo(&mut self, whole: usize, body: usize, place: Place)
        ensures messages { (messages : List (List ℕ)) (bytes : List ℕ) → length messages ≡ whole → length bytes ≡ body → Grows messages bytes self.old
            → (self.new.whole.items ≡ messages) × (self.new.body.items ≡ bytes) }
        ensures place { self.new.place ≡ place }
    {
        if whole < self.whole.len() {
            self.whole.truncate(whole + 1);
            if let Some(message) = self.whole.pop_back() {
                self.body = message.into_vec();
            }
        }
        self.body.truncate(body);
        self.place = place;
    }

    /// Reads a byte of a header, or some bytes of a fragment: what is left of the piece.
    fn step<'a>(&mut self, alloc: Global, piece: &'a [u8]) -> Result<&'a [u8], Memory>
        requires { 0 < length piece.now }
        ensures ok { IfOk result (λ rest. FeedsSome piece.now rest.now (frames_of self.old) (frames_of self.new)) }
        ensures grown { IsGrown self.old self.new }
        ensures for_good { self.old.place ≡ Place.TooLong → IsOk result × (self.new ≡ self.old) }
    {
        match self.place {
            Place::Inside { last, left } if left > 0 => {
                let count = left.min(piece.len());
                self.body.extend_from_slice(&piece[..count])?;
                self.stand_inside(alloc, last, left - count)?;
                Ok(&piece[count..])
            }
            _ => {
                self.read_byte(alloc, piece[0])?;
                Ok(&piece[1..])
            }
        }
    }

    /// Reads a byte of a header.
    fn read_byte(&mut self, alloc: Global, byte: u8) -> Result<(), Memory>
        requires { (last : Bool) (left : ℕ) → self.old.place ≡ Place.Inside last left → left ≡ 0 }
        ensures ok { OnOk result (Feeds (byte ∷ []) (frames_of self.old) (frames_of self.new)) }
        ensures grown { IsGrown self.old self.new }
        ensures for_good { self.old.place ≡ Place.TooLong → IsOk result × (self.new ≡ self.old) }
    {
        match self.place {
            Place::Between | Place::Inside { .. } => self.place = Place::One(byte),
            Place::One(a) => self.place = Place::Two(a, byte),
            Place::Two(a, b) => self.place = Place::Three(a, b, byte),
            Place::Three(a, b, c) => self.begin(alloc, [a, b, c, byte])?,
            Place::TooLong => {}
        }
        Ok(())
    }

    /// Begins the fragment that this header announces.
    fn begin(&mut self, alloc: Global, header: [u8; 4]) -> Result<(), Memory>
        ensures ok { OnOk result (AfterHeader self.old.whole.items self.old.body.items header (frames_of self.new)) }
        ensures grown { IsGrown self.old self.new }
    {
        let word = u32::from_be_bytes(header);
        let last = word >= LAST;
        let size = (if last { word - LAST } else { word }) as usize;
        if self.body.len().saturating_add(size) > LONGEST_MESSAGE {
            self.place = Place::TooLong;
            return Ok(());
        }
        self.stand_inside(alloc, last, size)
    }

    /// Stands in a fragment of which so many bytes are to come. Where it is the last and none is, the message is whole.
    fn stand_inside(&mut self, alloc: Global, last: bool, left: usize) -> Result<(), Memory>
        ensures ok { OnOk result (frames_of self.new ≡ standing self.old.whole.items self.old.body.items last left) }
        ensures grown { IsGrown self.old self.new }
    {
        if !last || left > 0 {
            self.place = Place::Inside { last, left };
            return Ok(());
        }
        self.whole.reserve(1)?;
        let body = mem::replace(&mut self.body, Vec::new(alloc));
        self.whole.push_back_reserved(Bytes::of(body));
        self.place = Place::Between;
        Ok(())
    }
}
