//! All who write logs.

ghost use Rattle.std.specs.Prelude.{◌≡◌, ◌<◌, ◌++◌, [], ◌∷◌, codes, length, find, map, position, get_or, option_map, IfOk, OnOk, OnErr};
ghost use Rattle.std.specs.Borrow.{sem};
ghost use Rattle.std.specs.List.{flat_map};
ghost use Rattle.std.specs.Ordering.{eq_by_cmp};
ghost use Rattle.std.specs.Str.{bytes_eq};
ghost use Rattle.ivy_base.specs.Naming.{owner_cmp};
ghost use Rattle.log_records.specs.Records.{record_of, records_of};
ghost use Rattle.world_model.specs.Agents.{own_hss_key};
ghost use Rattle.world_model.specs.Shows.{order_text};
ghost use Rattle.world_model.specs.Logs.{keys_of};
ghost use Rattle.world_model.specs.World.{World, Participant as Seen, name_of_owner, participant};

mod clashing;

use crate::participant::Participant;
use crate::text::counted_line;
use ivy_base::{Bytes, Memory, PubKey};
use log_records::{MOST_WEIGHED, Record};
use std::alloc::Global;
use std::marker::Model;

/// The participants in the order of their lines.
#[derive(Drop)]
pub struct Participants {
    all: Vec<Participant>,
}

impl Model for Participants {
    ghost use Rattle.std.specs.Prelude.{List};
    ghost use Rattle.script_participants.specs.ParticipantState.{ParticipantState};

    ghost Value = { List ParticipantState };

    ghost view = { λ p. p.all.items };
}

impl Participants {
    ghost use Rattle.script_participants.specs.ParticipantState.{HasParticipants, state_of};
    ghost use Rattle.script_participants.specs.RecordLines.{line_of, lines_of, owner_name};
    ghost use Rattle.script_participants.specs.Lending.{LendsOne};

    /// Nobody. It takes no memory.
    pub fn new(alloc: Global) -> Participants
        ensures { result ≡ [] }
    {
        Participants {
            all: Vec::new(alloc),
        }
    }

    /// Puts a participant after the others. The error is: out of memory; nothing is changed then, and the participant is dropped.
    pub fn push(&mut self, one: Participant) -> Result<(), Memory>
        ensures pushed { OnOk result (self.new ≡ self.old ++ one ∷ []) }
        ensures unchanged { OnErr result (self.new ≡ self.old) }
    {
        self.all.push(one)?;
        Ok(())
    }

    /// The participant of that name.
    pub fn named(&self, name: &[u8]) -> Option<&Participant>
        ensures found { option_map (λ p. p.now) result ≡ find (λ p. bytes_eq p.name name.now) self.now }
        ensures named { (w : World) → HasParticipants w self.now → option_map (λ p. p.now) result ≡ option_map state_of (participant w name.now) }
    {
        find_named(self.all.as_slice(), name)
    }

    /// Where the participant of that name is.
    pub fn place_of(&self, name: &[u8]) -> Option<usize>
        ensures { result ≡ position (λ p. bytes_eq p.name name.now) self.now }
    {
        self.all
            .iter()
            .position(|participant| participant.name() == name)
    }

    /// The participant at a place, to be changed.
    pub fn at(&mut self, place: usize) -> &mut Participant
        requires { place < length self.old }
        ensures value { result.now ≡ get_or self.old place result.now }
        ensures* lends { sem 𝓛 (LendsOne self.entry place result) }
    {
        &mut self.all[place]
    }

    /// The public keys of the logs of these names, where each is there. The error is: out of memory.
    pub fn keys_of(&self, alloc: Global, names: &[Bytes]) -> Result<Option<Vec<PubKey>>, Memory>
        ensures { IfOk result (λ keys. (w : World) → HasParticipants w self.now → option_map (λ k. k.items) keys ≡ keys_of w names.now) }
    {
        let mut keys = Vec::with_capacity(alloc, names.len())?;
        'names: for name in names {
            let Some(participant) = self.named(name.as_slice()) else {
                return Ok(None);
            };
            keys.push(participant.owner())?;
        }
        Ok(Some(keys))
    }

    /// The name of the first log of that key, and nothing where there is none.
    pub fn name_of_owner(&self, owner: &PubKey) -> &[u8]
        ensures owner { result.now ≡ owner_name self.now owner.now }
        ensures named { (w : World) → HasParticipants w self.now → result.now ≡ name_of_owner w owner.now }
    {
        match find_writer(self.all.as_slice(), owner) {
            Some(participant) => participant.name(),
            None => &[],
        }
    }

    /// What the line `order` shows of a participant: how many records it holds, and then each of them, in their order. The error
    /// is: out of memory; it also comes where a record's vector has more than 2^31 entries.
    pub fn order_text(&self, alloc: Global, one: &Participant) -> Result<Vec<u8>, Memory>
        ensures { IfOk result (λ text. (w : World) (p : Seen) → HasParticipants w self.now → state_of p ≡ one.now → text.items ≡ codes "order " ++ order_text w p) }
    {
        let held = one.order();
        let mut text = counted_line(alloc, b"order ".as_slice(), one.name(), held.len() as u64)?;
        self.put_records(alloc, &mut text, held)?;
        Ok(text)
    }

    /// Appends a line for each record. The error is that of [`Participants::order_text`].
    fn put_records(
        &self,
        alloc: Global,
        text: &mut Vec<u8>,
        records: &[Record],
    ) -> Result<(), Memory>
        ensures { OnOk result (text.new.items ≡ text.old.items ++ lines_of self.now (records_of records.now)) }
    {
        'records: for record in records {
            self.put_record(alloc, text, record)?;
        }
        Ok(())
    }

    /// Appends a record's line: its weight, its log's name and its number. The error is that of [`Participants::order_text`].
    fn put_record(&self, alloc: Global, text: &mut Vec<u8>, one: &Record) -> Result<(), Memory>
        ensures { OnOk result (text.new.items ≡ text.old.items ++ line_of self.now (record_of one.now)) }
    {
        if one.vector.len() > MOST_WEIGHED {
            return Err(Memory);
        }
        let weight = one.rank().weight;
        let seq = one.seq;
        let front = format!(in alloc; "{weight} ")?;
        let back = format!(in alloc; " {seq}\n")?;
        text.extend_from_slice(front.as_bytes())?;
        text.extend_from_slice(self.name_of_owner(&one.owner))?;
        text.extend_from_slice(back.as_bytes())?;
        Ok(())
    }
}

/// Whether the keys are one.
fn is_same(a: &PubKey, b: &PubKey) -> bool
    ensures { result ≡ eq_by_cmp owner_cmp a.now b.now }
{
    a == b
}

/// Whether the log has that key.
fn is_of(one: &Participant, owner: &PubKey) -> bool
    ensures { result ≡ eq_by_cmp owner_cmp owner.now (own_hss_key one.now.agent) }
{
    is_same(owner, &one.owner())
}

/// The participant of that name.
fn find_named<'a>(all: &'a [Participant], name: &[u8]) -> Option<&'a Participant>
    ensures { option_map (λ p. p.now) result ≡ find (λ p. bytes_eq p.name name.now) all.now }
{
    all.iter().find(|one| one.name() == name)
}

/// The participant of the first log of that key.
fn find_writer<'a>(all: &'a [Participant], owner: &PubKey) -> Option<&'a Participant>
    ensures { option_map (λ p. p.now) result ≡ find (λ p. eq_by_cmp owner_cmp owner.now (own_hss_key p.agent)) all.now }
{
    all.iter().find(|one| is_of(one, owner))
}
