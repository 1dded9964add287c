//! Lines of calls.

ghost use Rattle.std.specs.Prelude.{◌≡◌, ◌++◌, [], ◌∷◌, position, IfOk, OnOk};
ghost use Rattle.std.specs.Str.{bytes_eq};
ghost use Rattle.dhash_model.specs.Signed.{hss_judged};
ghost use Rattle.world_model.specs.Calls.{AsLine, FinishLine, OpenLine, StepLine, is_step_count, sending_of};
ghost use Rattle.world_model.specs.World.{session_named};
ghost use Rattle.script_world.specs.Running.{HasConfigurationIn};
ghost use Rattle.script_machine.specs.Ends.{EndsIn};
ghost use Rattle.script_machine.specs.WorldState.{HasWorld, LineDoes};

use crate::machine::{OpenSession, ScriptMachine};
use ivy_base::{Bytes, Memory};
use script_driver::Taken;
use script_model::Piece;
use script_world::{OpenCall, Parts};
use std::alloc::Global;

/// The most steps of a line.
const MOST_STEPS: u64 = 1_000_000;

impl ScriptMachine {
    /// The line `as`: one whole call. The error is: out of memory.
    pub(crate) fn call(
        &mut self,
        alloc: Global,
        log: &[u8],
        pieces: &[Piece],
    ) -> Result<Taken, Memory>
        requires { HasWorld self.old }
        ensures { IfOk result (λ taken. LineDoes (λ w outcome. AsLine hss_judged w (sending_of w.0 log.now pieces.now) outcome) self.old taken self.new) }
    {
        let Some(call) = self.parts.begin_call(alloc, log, pieces)? else {
            return Ok(Taken::Refused);
        };
        let text = run_to_end(&mut self.parts, alloc, log, call)?;
        Ok(Taken::Went(text))
    }

    /// The line `open`: a session begins, of that name. The error is: out of memory.
    pub(crate) fn open(
        &mut self,
        alloc: Global,
        name: &Bytes,
        log: &Bytes,
        pieces: &[Piece],
    ) -> Result<Taken, Memory>
        requires { HasWorld self.old }
        ensures { IfOk result (λ taken. LineDoes (λ w outcome. OpenLine hss_judged w name.now (sending_of w.0 log.now pieces.now) outcome) self.old taken self.new) }
    {
        if self.place_of(name.as_slice()).is_some() {
            return Ok(Taken::Refused);
        }
        let Some(call) = self.parts.begin_call(alloc, log.as_slice(), pieces)? else {
            return Ok(Taken::Refused);
        };
        push_session(&mut self.sessions, alloc, name, log, call)?;
        Ok(Taken::Went(Vec::new(alloc)))
    }

    /// The line `step`: a session that is open goes so many steps, 1 to 1,000,000. The error is: out of memory.
    pub(crate) fn step(&mut self, alloc: Global, name: &[u8], count: u64) -> Result<Taken, Memory>
        requires { HasWorld self.old }
        ensures { IfOk result (λ taken. LineDoes (λ w outcome. StepLine hss_judged w name.now count (session_named w.0 name.now) outcome) self.old taken self.new) }
    {
        let Some(place) = self.place_of(name) else {
            return Ok(Taken::Refused);
        };
        if !is_step_count(count) {
            return Ok(Taken::Refused);
        }
        let session = &mut self.sessions[place];
        self.parts
            .step_on(alloc, session.by.as_slice(), &mut session.call, count)?;
        Ok(Taken::Went(Vec::new(alloc)))
    }

    /// The line `end` of a session: it goes to its end, and is no longer open. The error is: out of memory.
    pub(crate) fn finish(&mut self, alloc: Global, name: &[u8]) -> Result<Taken, Memory>
        requires { HasWorld self.old }
        ensures { IfOk result (λ taken. LineDoes (λ w outcome. FinishLine hss_judged w name.now (session_named w.0 name.now) outcome) self.old taken self.new) }
    {
        let Some(place) = self.place_of(name) else {
            return Ok(Taken::Refused);
        };
        let OpenSession { name: _, by, call } = self.sessions.remove(place);
        let text = run_to_end(&mut self.parts, alloc, by.as_slice(), call)?;
        Ok(Taken::Went(text))
    }

    /// Where the open session of that name is.
    fn place_of(&self, name: &[u8]) -> Option<usize>
        ensures { result ≡ position (λ o. bytes_eq o.name name.now) self.now.sessions }
    {
        self.sessions
            .iter()
            .position(|session| session.name.as_slice() == name)
    }
}

/// Whether a line may have so many steps.
fn is_step_count(count: u64) -> bool
    ensures { result ≡ is_step_count count }
{
    count > 0 && count <= MOST_STEPS
}

/// A session of that name and participant comes after the open ones. The error is: out of memory.
fn push_session(
    sessions: &mut Vec<OpenSession>,
    alloc: Global,
    name: &Bytes,
    by: &Bytes,
    call: OpenCall,
) -> Result<(), Memory>
    ensures { OnOk result (sessions.new.items ≡ sessions.old.items ++ record { name = name.now; by = by.now; call = call } ∷ []) }
{
    let name = name.copy(alloc)?;
    let by = by.copy(alloc)?;
    sessions.push(OpenSession { name, by, call })?;
    Ok(())
}

/// A participant's session goes to its end, and leaves to later lines what its reply gives. The result is what is shown of it.
/// The error is: out of memory.
fn run_to_end(
    parts: &mut Parts,
    alloc: Global,
    name: &[u8],
    mut call: OpenCall,
) -> Result<Vec<u8>, Memory>
    requires { HasConfigurationIn parts.old name.now call }
    ensures { IfOk result (λ text. EndsIn name.now parts.old call parts.new text.items) }
{
    parts.run_out(alloc, name, &mut call)?;
    let text = call.shown(alloc)?;
    parts.take_reply(call.into_given())?;
    Ok(text)
}
