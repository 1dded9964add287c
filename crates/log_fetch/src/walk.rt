//! A walk along one log, backwards by names.

ghost use Rattle.std.specs.Prelude.{◌≡◌, ◌≢◌, ◌<◌, IfOk, OnOk};
ghost use Rattle.log_records.specs.Records.{record_of};
ghost use Rattle.log_fetch.specs.Walking.{begun, wanted_of, HasBeenGiven, AreOwned, kept_of, kept_with, oldest_first};

use crate::reading::{Reading, read};
use ivy_base::{Key, Memory, PubKey};
use log_records::Record;
use std::alloc::Global;
use std::marker::Model;

/// A walk along one log from a record's name backwards: each block gives the name of the record before it.
///
/// Contracts see the owner, how many records may still come, the name of the next one, and those that came, the newest
/// first; none once one came that can be in no chain.
#[derive(Drop)]
pub struct Walk {
    owner: PubKey,
    left: u32,
    next: Key,
    found: Option<Vec<Record>>,
}

impl Model for Walk {
    ghost use Rattle.log_fetch.specs.Walking.{Walking, AreOwned, kept_of};

    ghost Value = { Walking };

    ghost view = { λ w. record { owner = w.owner; left = w.left; next = w.next; found = kept_of w.found } };

    ghost invariant = { λ w. AreOwned w.owner (kept_of w.found) };
}

impl Walk {
    /// A walk along the owner's log from that name, so many records back.
    pub fn back(alloc: Global, owner: PubKey, count: u32, newest: Key) -> Walk
        ensures { result ≡ begun owner count newest }
    {
        Walk {
            owner,
            left: count,
            next: newest,
            found: Some(Vec::new(alloc)),
        }
    }

    /// Whose log it is.
    pub fn owner(&self) -> &PubKey
        ensures { result.now ≡ self.now.owner }
    {
        &self.owner
    }

    /// The name of the block that is to come next, while there is one.
    pub fn wanted(&self) -> Option<Key>
        ensures { result ≡ wanted_of self.now }
    {
        if self.left > 0 { Some(self.next) } else { None }
    }

    /// Takes the block that is wanted. The error is: out of memory; the walk isn't used after it.
    pub fn give(&mut self, alloc: Global, bytes: &[u8]) -> Result<(), Memory>
        requires { self.old.left ≢ 0 }
        ensures given { IfOk result (λ _. HasBeenGiven self.old self.new bytes.now) }
        ensures left { OnOk result (self.new.left < self.old.left) }
    {
        match read(alloc, bytes, &self.owner)? {
            Reading::Good(good) => {
                self.next = good.prev;
                keep(&mut self.found, good)?;
                self.left -= 1;
            }
            Reading::Misnumbered(before) => {
                self.next = before;
                self.found = None;
                self.left -= 1;
            }
            Reading::Garbled => {
                self.found = None;
                self.left = 0;
            }
        }
        Ok(())
    }

    /// The records that came, oldest first; none where one of them can be in no chain.
    pub fn into_chain(self) -> Option<Vec<Record>>
        ensures chain { kept_of result ≡ oldest_first self.found }
        ensures owned { AreOwned self.owner (kept_of result) }
    {
        let mut found = self.found?;
        found.reverse();
        Some(found)
    }
}

/// Keeps one record more, which is the oldest. The error is: out of memory.
fn keep(found: &mut Option<Vec<Record>>, oldest: Record) -> Result<(), Memory>
    ensures kept { OnOk result (kept_of found.new ≡ kept_with (kept_of found.old) (record_of oldest)) }
    ensures owned { AreOwned oldest.owner (kept_of found.old) → AreOwned oldest.owner (kept_of found.new) }
{
    if let Some(found) = found {
        found.push(oldest)?;
    }
    Ok(())
}
