//! Signatures that are known to be accepted.

ghost use Rattle.std.specs.Prelude.{IsTrue};
ghost use Rattle.hss_keys.specs.Hss.{HssAccepts};

use ivy_base::{Memory, PubKey};
use std::alloc::Global;
use std::marker::Model;
use std::sync::{Arc, Mutex};

/// How many signatures are remembered at most.
const SEATS: usize = 64;

/// A signature that is accepted. Contracts see the public key, the message and the signature.
#[derive(Drop)]
struct Verdict {
    owner: PubKey,
    message: Vec<u8>,
    signature: Vec<u8>,
}

impl Model for Verdict {
    ghost use Rattle.std.specs.Prelude.{ℕ, List};
    ghost use Rattle.ivy_base.specs.declared.key.PubKey.{PubKey};
    ghost use Rattle.hss_keys.specs.Hss.{HssAccepts};

    ghost Value = { PubKey × List ℕ × List ℕ };

    ghost view = { λ v. (v.owner, v.message.items, v.signature.items) };

    ghost invariant = { λ v. HssAccepts v.owner.0 v.message.items v.signature.items };
}

impl Verdict {
    /// The verdict on a signature that is accepted. None means out of memory.
    fn of(alloc: Global, owner: &PubKey, message: &[u8], signature: &[u8]) -> Option<Verdict>
        requires { HssAccepts owner.now.0 message.now signature.now }
    {
        let message = message.to_vec(alloc).ok()?;
        let signature = signature.to_vec(alloc).ok()?;
        Some(Verdict {
            owner: *owner,
            message,
            signature,
        })
    }

    /// Whether it is on that signature of that message under that key. All bytes are compared.
    fn is_on(&self, owner: &PubKey, message: &[u8], signature: &[u8]) -> bool
        ensures { IsTrue result → HssAccepts owner.now.0 message.now signature.now }
    {
        self.owner == *owner
            && self.message.as_slice() == message
            && self.signature.as_slice() == signature
    }
}

/// A seat has one verdict at most.
type Seat = Mutex<Option<Verdict>>;

/// Signatures that are known to be accepted, 64 at most, for whoever judges heads or makes signatures. All that are shared of one
/// know the same. Whoever finds a seat taken does without it, so nobody waits.
#[derive(Drop)]
pub struct Verdicts {
    alloc: Global,
    seats: Arc<Vec<Seat>, Global>,
}

impl Verdicts {
    /// Nothing is known yet. The error is: out of memory.
    pub fn new(alloc: Global) -> Result<Verdicts, Memory> {
        let mut seats = Vec::with_capacity(alloc, SEATS)?;
        for _ in 0..SEATS {
            seats.push(Mutex::new(None))?;
        }
        Ok(Verdicts {
            alloc,
            seats: Arc::new(alloc, seats)?,
        })
    }

    /// The same verdicts, for another holder: what either keeps both know. It allocates nothing. The error is: out of memory: too
    /// many hold them.
    pub fn share(&self) -> Result<Verdicts, Memory> {
        Ok(Verdicts {
            alloc: self.alloc,
            seats: Arc::try_clone(&self.seats)?,
        })
    }

    /// Whether it is known that the signature of the message is accepted under the key.
    pub(crate) fn have(&self, owner: &PubKey, message: &[u8], signature: &[u8]) -> bool
        ensures { IsTrue result → HssAccepts owner.now.0 message.now signature.now }
    {
        match self.seats.get(seat_of(message)) {
            Some(seat) => has(seat, owner, message, signature),
            None => false,
        }
    }

    /// Keeps a signature that is accepted in place of what its seat had, where the seat is free and there is memory.
    pub(crate) fn keep(&self, owner: &PubKey, message: &[u8], signature: &[u8])
        requires { HssAccepts owner.now.0 message.now signature.now }
    {
        if let Some(seat) = self.seats.get(seat_of(message)) {
            put(self.alloc, seat, owner, message, signature);
        }
    }
}

/// The seat of a message, by its last byte. A head's message ends with the name of a record, whose bytes are spread evenly.
fn seat_of(message: &[u8]) -> usize {
    match message.last() {
        Some(byte) => usize::from(*byte) % SEATS,
        None => 0,
    }
}

/// Whether the seat is free and has that signature.
fn has(seat: &Seat, owner: &PubKey, message: &[u8], signature: &[u8]) -> bool
    ensures { IsTrue result → HssAccepts owner.now.0 message.now signature.now }
{
    let Some(guard) = seat.try_lock() else {
        return false;
    };
    match &*guard {
        Some(verdict) => verdict.is_on(owner, message, signature),
        None => false,
    }
}

/// Puts a signature into the seat, where that is free and there is memory.
fn put(alloc: Global, seat: &Seat, owner: &PubKey, message: &[u8], signature: &[u8])
    requires { HssAccepts owner.now.0 message.now signature.now }
{
    let Some(verdict) = Verdict::of(alloc, owner, message, signature) else {
        return;
    };
    if let Some(mut guard) = seat.try_lock() {
        *guard = Some(verdict);
    }
}
