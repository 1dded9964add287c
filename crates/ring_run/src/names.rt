//! Blocks whose names are known.

ghost use Rattle.std.specs.Prelude.{◌≡◌, IsTrue};
ghost use Rattle.ivy_base.specs.Naming.{name};
ghost use Rattle.ring_nodes.specs.Puts.{IsNamed};

use dht_ids::Ask;
use ivy_base::{Key, Memory, name_of};
use std::alloc::Global;
use std::marker::Model;
use std::sync::Mutex;

/// How many blocks are remembered at most.
const SEATS: usize = 64;

/// A block with its name. Contracts see both.
#[derive(Drop)]
struct Named {
    key: Key,
    bytes: Vec<u8>,
}

impl Model for Named {
    ghost use Rattle.std.specs.Prelude.{◌≡◌, ℕ, List};
    ghost use Rattle.ivy_base.specs.declared.key.Key.{Key};
    ghost use Rattle.ivy_base.specs.Naming.{name};

    ghost Value = { Key × List ℕ };

    ghost view = { λ n. (n.key, n.bytes.items) };

    ghost invariant = { λ n. n.key ≡ name n.bytes.items };
}

impl Named {
    /// The block with that name. None means out of memory.
    fn of(alloc: Global, key: &Key, bytes: &[u8]) -> Option<Named>
        requires { key.now ≡ name bytes.now }
    {
        let bytes = bytes.to_vec(alloc).ok()?;
        Some(Named { key: *key, bytes })
    }

    /// Whether it is that block with that name. All bytes are compared.
    fn is(&self, key: &Key, bytes: &[u8]) -> bool
        ensures { IsTrue result → key.now ≡ name bytes.now }
    {
        self.key == *key && self.bytes.as_slice() == bytes
    }
}

/// A seat has one block at most.
type Seat = Mutex<Option<Named>>;

/// Blocks that were put under their names, 64 at most, for all nodes of a ring: of a block that is put at several owners the name
/// is computed once. Whoever finds a seat taken does without it, so nobody waits.
#[derive(Drop)]
pub(crate) struct Names {
    alloc: Global,
    seats: Vec<Seat>,
}

impl Names {
    /// Nothing is known yet. The error is: out of memory.
    pub(crate) fn new(alloc: Global) -> Result<Names, Memory> {
        let mut seats = Vec::with_capacity(alloc, SEATS)?;
        for _ in 0..SEATS {
            seats.push(Mutex::new(None))?;
        }
        Ok(Names { alloc, seats })
    }

    /// Whether the ask puts a content block, and under its name. The name is computed where it isn't known, and kept.
    pub(crate) fn know(&self, ask: &Ask) -> bool
        ensures { IsTrue result → IsNamed ask.now }
    {
        match ask {
            Ask::PutBlock(key, bytes) => self.is_name(key, bytes.as_slice()),
            _ => false,
        }
    }

    /// Whether that is the name of the bytes.
    fn is_name(&self, key: &Key, bytes: &[u8]) -> bool
        ensures { IsTrue result → key.now ≡ name bytes.now }
    {
        let Some(seat) = self.seats.get(usize::from(key.0[19]) % SEATS) else {
            return false;
        };
        if has(seat, key, bytes) {
            return true;
        }
        if !is_one(&name_of(bytes), key) {
            return false;
        }
        put(self.alloc, seat, key, bytes);
        true
    }
}

/// Whether both are one name.
fn is_one(a: &Key, b: &Key) -> bool
    ensures { IsTrue result → b.now ≡ a.now }
{
    a == b
}

/// Whether the seat is free and has that block with that name.
fn has(seat: &Seat, key: &Key, bytes: &[u8]) -> bool
    ensures { IsTrue result → key.now ≡ name bytes.now }
{
    let Some(guard) = seat.try_lock() else {
        return false;
    };
    match &*guard {
        Some(named) => named.is(key, bytes),
        None => false,
    }
}

/// Puts a block with its name into the seat, where that is free and there is memory.
fn put(alloc: Global, seat: &Seat, key: &Key, bytes: &[u8])
    requires { key.now ≡ name bytes.now }
{
    let Some(named) = Named::of(alloc, key, bytes) else {
        return;
    };
    if let Some(mut guard) = seat.try_lock() {
        *guard = Some(named);
    }
}
