//! Lines of participants by which sessions go on or are gone.

ghost use Rattle.std.specs.Prelude.{◌≡◌, codes, not, filter, IfOk};
ghost use Rattle.std.specs.Str.{bytes_eq};
ghost use Rattle.hash_signature_model.specs.Saved.{AreLevels};
ghost use Rattle.dhash_model.specs.Signed.{hss_judged};
ghost use Rattle.world_model.specs.Logs.{LogLine, RestartLine, SnapLine, failed_text, snap_text, use_line};
ghost use Rattle.world_model.specs.World.{participant};
ghost use Rattle.script_machine.specs.Ends.{left_open, shows_nothing};
ghost use Rattle.script_machine.specs.WorldState.{HasWorld, LineDoes};

use crate::machine::ScriptMachine;
use hash_signature_model::Set;
use ivy_base::{Bytes, Key, Memory};
use script_driver::Taken;
use script_world::SnapEnd;
use std::alloc::Global;

impl ScriptMachine {
    /// The line `log`: a participant of that name comes, whose agent opens the log of the key that these give, and publishes all
    /// that it has to. The error is: out of memory.
    pub(crate) fn begin_log(
        &mut self,
        alloc: Global,
        name: &Bytes,
        id: &[u8; 16],
        seed: &[u8; 32],
        sets: &[Set],
    ) -> Result<Taken, Memory>
        requires world { HasWorld self.old }
        requires levels { AreLevels sets.now }
        ensures { IfOk result (λ taken. LineDoes (λ w outcome. LogLine hss_judged w name.now id.now seed.now sets.now outcome) self.old taken self.new) }
    {
        let new_participant = name.copy(alloc)?;
        if !self
            .parts
            .begin_log(alloc, new_participant, id, seed, sets)?
        {
            return Ok(Taken::Refused);
        }
        self.parts.publish(alloc, name.as_slice())?;
        Ok(Taken::Went(Vec::new(alloc)))
    }

    /// The line `use`: a participant enters a view, and its sessions are gone then; where its keeper fails that is shown. The
    /// error is: out of memory.
    pub(crate) fn use_view(
        &mut self,
        alloc: Global,
        log: &[u8],
        view: &[u8],
    ) -> Result<Taken, Memory>
        ensures { IfOk result (λ taken. LineDoes (λ w outcome. outcome ≡ use_line w log.now view.now) self.old taken self.new) }
    {
        let taken = self.parts.use_view(alloc, log, view)?;
        self.end_sessions(log, &taken);
        Ok(taken)
    }

    /// The line `restart`: a participant's agent starts again from what its keeper saved, and its sessions are gone then. The
    /// error is: out of memory.
    pub(crate) fn restart(&mut self, alloc: Global, log: &[u8]) -> Result<Taken, Memory>
        ensures { IfOk result (λ taken. LineDoes (λ w outcome. RestartLine w (participant w.0 log.now) outcome) self.old taken self.new) }
    {
        let taken = self.parts.restart(alloc, log)?;
        self.end_sessions(log, &taken);
        Ok(taken)
    }

    /// The line `snap`: a participant's agent makes a snapshot of all that it holds, saves it, and publishes all that it has to;
    /// the root's name is shown, or that the keeper failed. The error is: out of memory.
    pub(crate) fn snap(&mut self, alloc: Global, log: &[u8]) -> Result<Taken, Memory>
        requires { HasWorld self.old }
        ensures { IfOk result (λ taken. LineDoes (λ w outcome. SnapLine hss_judged w (participant w.0 log.now) outcome) self.old taken self.new) }
    {
        match self.parts.begin_snap(alloc, log)? {
            SnapEnd::Made(root) => {
                self.parts.publish(alloc, log)?;
                Ok(Taken::Went(snap_text(alloc, log, &root)?))
            }
            SnapEnd::Failed => Ok(Taken::Went(snap_failed(alloc, log)?)),
            SnapEnd::Refused => Ok(Taken::Refused),
        }
    }

    /// That participant's open sessions are gone where its line went on. Where its keeper fails something is shown, and they stay.
    fn end_sessions(&mut self, log: &[u8], taken: &Taken)
        ensures parts { self.new.parts ≡ self.old.parts }
        ensures sessions { self.new.sessions ≡ left_open log.now taken.now self.old.sessions }
    {
        if shows_nothing(taken) {
            self.close_all_of(log);
        }
    }

    /// The open sessions of that participant are gone.
    fn close_all_of(&mut self, log: &[u8])
        ensures parts { self.new.parts ≡ self.old.parts }
        ensures sessions { self.new.sessions ≡ filter (λ o. not (bytes_eq o.by log.now)) self.old.sessions }
    {
        self.sessions.retain(|session| session.by.as_slice() != log);
    }
}

/// Whether a line went on, and showed nothing.
fn shows_nothing(taken: &Taken) -> bool
    ensures { result ≡ shows_nothing taken.now }
{
    match taken {
        Taken::Went(text) => text.is_empty(),
        _ => false,
    }
}

/// What the line `snap` shows of the snapshot with that root, of the participant of that name. The error is: out of memory.
fn snap_text(alloc: Global, name: &[u8], root: &Key) -> Result<Vec<u8>, Memory>
    ensures { IfOk result (λ text. text.items ≡ snap_text name.now root.now) }
{
    let digits = hex::encode(alloc, &root.0)?;
    let mut text = b"snap ".as_slice().to_vec(alloc)?;
    text.extend_from_slice(name)?;
    text.push(b' ')?;
    text.extend_from_slice(digits.as_bytes())?;
    text.push(b'\n')?;
    Ok(text)
}

/// What is shown where the line `snap` failed for the participant of that name. The error is: out of memory.
fn snap_failed(alloc: Global, name: &[u8]) -> Result<Vec<u8>, Memory>
    ensures { IfOk result (λ text. text.items ≡ failed_text (codes "snap") name.now) }
{
    let mut text = b"snap ".as_slice().to_vec(alloc)?;
    text.extend_from_slice(name)?;
    text.extend_from_slice(b" failed\n".as_slice())?;
    Ok(text)
}
