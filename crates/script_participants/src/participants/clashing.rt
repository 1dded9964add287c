//! What is shown of records in conflict.

ghost use Rattle.std.specs.Prelude.{◌≡◌, ◌++◌, [], ◌∷◌, codes, length, option_map, IfOk, OnOk};
ghost use Rattle.std.specs.Fmt.{decimal};
ghost use Rattle.conflict_list.specs.Conflicts.{seen, seen_all};
ghost use Rattle.world_model.specs.Shows.{conflicts_shown, touched_text};
ghost use Rattle.world_model.specs.World.{World, Participant as Seen};

use crate::participant::Participant;
use crate::participants::Participants;
use crate::text::counted_line;
use conflict_list::{Clash, ListFault, conflicts};
use ivy_base::Memory;
use std::alloc::Global;
use version_vectors::Rank;

impl Participants {
    ghost use Rattle.script_participants.specs.ParticipantState.{HasParticipants, state_of};
    ghost use Rattle.script_participants.specs.RecordLines.{owner_name};
    ghost use Rattle.script_participants.specs.Texts.{Shows, clash_line_of, clash_lines_of};

    /// What the line `conflicts` shows of a participant: how many pairs of the records that it holds are in conflict, and then
    /// each pair, in their order. There is none where these are more than 1,000,000. The error is: out of memory; it also comes
    /// where 2^32 records or more are held.
    pub fn conflicts_text(
        &self,
        alloc: Global,
        one: &Participant,
    ) -> Result<Option<Vec<u8>>, Memory>
        ensures { IfOk result (λ text. (w : World) (p : Seen) → HasParticipants w self.now → state_of p ≡ one.now → Shows (codes "conflicts") (option_map (λ t. t.items) text) (conflicts_shown w p)) }
    {
        match conflicts(alloc, one.order()) {
            Ok(list) => Ok(Some(self.list_text(alloc, one.name(), list.as_slice())?)),
            Err(ListFault::TooMany) => Ok(None),
            Err(ListFault::Memory) => Err(Memory),
        }
    }

    /// What is shown of such a list, of the log of that name. The error is: out of memory.
    fn list_text(&self, alloc: Global, name: &[u8], list: &[Clash]) -> Result<Vec<u8>, Memory>
        ensures { IfOk result (λ text. text.items ≡ codes "conflicts " ++ name.now ++ 32 ∷ decimal (length list.now) ++ 10 ∷ clash_lines_of self.now (seen_all list.now)) }
    {
        let mut text = counted_line(alloc, b"conflicts ".as_slice(), name, list.len() as u64)?;
        self.put_clashes(alloc, &mut text, list)?;
        Ok(text)
    }

    /// Appends a line for each pair. The error is: out of memory.
    fn put_clashes(&self, alloc: Global, text: &mut Vec<u8>, list: &[Clash]) -> Result<(), Memory>
        ensures { OnOk result (text.new.items ≡ text.old.items ++ clash_lines_of self.now (seen_all list.now)) }
    {
        'clashes: for clash in list {
            self.put_clash(alloc, text, clash)?;
        }
        Ok(())
    }

    /// Appends the line of a pair. The error is: out of memory.
    fn put_clash(&self, alloc: Global, text: &mut Vec<u8>, clash: &Clash) -> Result<(), Memory>
        ensures { OnOk result (text.new.items ≡ text.old.items ++ clash_line_of self.now (seen clash.now)) }
    {
        self.put_place(alloc, text, &clash.first)?;
        self.put_place(alloc, text, &clash.second)?;
        text.extend_from_slice(touched(clash.bytes))?;
        text.push(b'\n')?;
        Ok(())
    }

    /// Appends the name of a record's log, its number there, and a blank. The error is: out of memory.
    fn put_place(&self, alloc: Global, text: &mut Vec<u8>, one: &Rank) -> Result<(), Memory>
        ensures { OnOk result (text.new.items ≡ text.old.items ++ owner_name self.now one.now.owner ++ 32 ∷ decimal one.now.seq ++ 32 ∷ []) }
    {
        let seq = one.seq;
        let number = format!(in alloc; " {seq} ")?;
        text.extend_from_slice(self.name_of_owner(&one.owner))?;
        text.extend_from_slice(number.as_bytes())?;
        Ok(())
    }
}

/// The word for what both records touch.
fn touched(bytes: bool) -> &'static [u8]
    ensures { result.now ≡ touched_text bytes }
{
    if bytes {
        b"bytes".as_slice()
    } else {
        b"name".as_slice()
    }
}
