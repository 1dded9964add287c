//! How a script's world takes a line.

ghost use Rattle.std.specs.Prelude.{◌≡◌, ◌≢◌, [], IfOk, Some, None};
ghost use Rattle.dhash_model.specs.Signed.{hss_judged};
ghost use Rattle.script_model.specs.declared.command.Command.TheVariants as command;
ghost use Rattle.world_model.specs.Logs.{Played};
ghost use Rattle.world_model.specs.Step.{Does, IvyStep, MayDo, MayDoFirst};
ghost use Rattle.world_laws.proofs.LineFits.{Fits};
ghost use Rattle.script_machine.specs.Limits.{is_full, meets_limit};
ghost use Rattle.script_machine.specs.WorldState.{HasWorld, LineDoes, RepresentsWorld};

use crate::machine::ScriptMachine;
use command_lines::read_command;
use ivy_base::{Bytes, Memory};
use log_heads::HssJudge;
use script_driver::Taken;
use script_model::Command;
use std::alloc::Global;

/// The most bytes of all blocks that were met.
const MOST_BYTES: u64 = 16_777_216;

impl ScriptMachine {
    /// Takes a line: what was done is what the line may do by the step, in each world that the machine may stand for. The error
    /// is: out of memory.
    pub(crate) fn take_line(&mut self, alloc: Global, line: &[u8]) -> Result<Taken, Memory>
        requires kept { HasWorld self.old }
        ensures { IfOk result (λ taken. LineDoes (λ w outcome. IvyStep w line.now outcome) self.old taken self.new) }
    {
        match read_command(alloc, line)? {
            Some(command) => {
                let taken = self.take_command(alloc, &command);
                let_go(command);
                taken
            }
            None => Ok(self.refuse()),
        }
    }

    /// What a line does that is no command: it is refused, or meets the limit.
    fn refuse(&self) -> Taken
        ensures { LineDoes (λ w outcome. MayDoFirst w None outcome) self.now result self.now }
    {
        if self.is_full() {
            Taken::Exceeded
        } else {
            Taken::Refused
        }
    }

    /// Takes a line's command, which meets the limit where too much was met, unless it is the end. The error is: out of memory.
    fn take_command(&mut self, alloc: Global, command: &Command) -> Result<Taken, Memory>
        requires fits { Fits command.now }
        requires kept { HasWorld self.old }
        ensures { IfOk result (λ taken. LineDoes (λ w outcome. MayDoFirst w (Some command.now) outcome) self.old taken self.new) }
    {
        if self.meets_limit(command) {
            return Ok(Taken::Exceeded);
        }
        self.obey(alloc, command)
    }

    /// Whether a command meets the limit.
    fn meets_limit(&self, command: &Command) -> bool
        ensures { (w : Played) → RepresentsWorld self.now w → result ≡ meets_limit w command.now }
    {
        match command {
            Command::End => false,
            _ => self.is_full(),
        }
    }

    /// Whether more bytes were met than a script may meet.
    fn is_full(&self) -> bool
        ensures { (w : Played) → RepresentsWorld self.now w → result ≡ is_full w }
    {
        self.parts.bytes_met() > MOST_BYTES
    }

    /// Obeys a command. The error is: out of memory.
    fn obey(&mut self, alloc: Global, command: &Command) -> Result<Taken, Memory>
        requires fits { Fits command.now }
        requires kept { HasWorld self.old }
        ensures { IfOk result (λ taken. LineDoes (λ w outcome. MayDo w (Some command.now) outcome) self.old taken self.new) }
    {
        match command {
            Command::Ring { nodes, replicas } => self.parts.ring(alloc, *nodes, *replicas),
            Command::Log {
                log,
                id,
                seed,
                sets,
            } => self.begin_log(alloc, log, id, seed, sets.as_slice()),
            Command::View {
                view,
                members,
                former,
            } => self.make_view(alloc, view, members.as_slice(), former.as_slice()),
            Command::Use { log, view } => { self.use_view(alloc, log.as_slice(), view.as_slice()) }
            Command::At { sec, nsec } => Ok(self.parts.at(alloc, *sec, *nsec)),
            Command::As { log, pieces } => { self.call(alloc, log.as_slice(), pieces.as_slice()) }
            Command::Open {
                session,
                log,
                pieces,
            } => self.open(alloc, session, log, pieces.as_slice()),
            Command::Step { session, count } => self.step(alloc, session.as_slice(), *count),
            Command::Finish { session } => self.finish(alloc, session.as_slice()),
            Command::Join { node } => self.parts.join(alloc, &HssJudge, *node),
            Command::Stop { node } => self.parts.stop(alloc, node),
            Command::Round => self.parts.round(alloc, &HssJudge),
            Command::Lose { count } => self.parts.lose(alloc, *count),
            Command::Damage {
                node,
                key,
                offset,
                byte,
            } => self.parts.damage(alloc, node, key, *offset, *byte),
            Command::Snap { log } => self.snap(alloc, log.as_slice()),
            Command::Restart { log } => self.restart(alloc, log.as_slice()),
            Command::Keep { log, count, new } => {
                self.parts.keep(alloc, log.as_slice(), *count, *new)
            }
            Command::Show { shown } => self.parts.show(alloc, shown),
            Command::Nothing => Ok(Taken::Went(Vec::new(alloc))),
            Command::End => Ok(Taken::Ended),
        }
    }

    /// The line `view`: makes a view of that name, of the members' and the former members' logs. A line names a member at least.
    /// The error is: out of memory, or 2^64 asks.
    fn make_view(
        &mut self,
        alloc: Global,
        view: &Bytes,
        members: &[Bytes],
        former: &[Bytes],
    ) -> Result<Taken, Memory>
        requires { members.now ≢ [] }
        ensures { IfOk result (λ taken. LineDoes (λ w outcome. Does hss_judged w (command.View view.now members.now former.now) outcome) self.old taken self.new) }
    {
        let name = view.copy(alloc)?;
        self.parts
            .make_view(alloc, &HssJudge, name, members, former)
    }
}

/// Lets a command go. One function, so that what lets one go isn't proved over all kinds of them.
fn let_go(_command: Command) {}
