//! A script's world as a machine.

ghost use Rattle.std.specs.Prelude.{◌≡◌, IfOk};
ghost use Rattle.world_model.specs.Logs.{Played};
ghost use Rattle.script_machine.specs.WorldState.{RepresentsWorld};
ghost use Rattle.stage_laws.specs.Promise.{PromisedStep};

use ivy_base::{Bytes, Memory};
use script_driver::{Machine, Taken};
use script_world::{OpenCall, Parts};
use std::alloc::Global;
use std::marker::Model;

/// A session by its name in the script, and whose it is.
#[derive(Drop)]
pub(crate) struct OpenSession {
    pub name: Bytes,
    pub by: Bytes,
    pub call: OpenCall,
}

impl Model for OpenSession {
    ghost use Rattle.script_machine.specs.WorldState.{OpenState};

    ghost Value = { OpenState };

    ghost view = { λ o. record { name = o.name; by = o.by; call = o.call } };
}

/// A script's world, which takes the script's lines: all its parts, and the open sessions in the order of their lines. Contracts see
/// it as the world in code.
pub struct ScriptMachine {
    pub(crate) parts: Parts,
    pub(crate) sessions: Vec<OpenSession>,
}

/// One function, so that whatever drops a world calls this and isn't proved over all of its parts once more.
impl Drop for ScriptMachine {
    fn drop(self) {
        let ScriptMachine {
            parts: _,
            sessions: _,
        } = self;
    }
}

impl Model for ScriptMachine {
    ghost use Rattle.script_machine.specs.WorldState.{WorldState};

    ghost Value = { WorldState };

    ghost view = { λ m. record { parts = m.parts; sessions = m.sessions.items } };
}

impl ScriptMachine {
    ghost use Rattle.world_model.specs.GhostState.{empty_ghost_state};
    ghost use Rattle.world_model.specs.World.{empty_world};

    /// The machine before the first line, whose world is empty. It takes no memory.
    pub fn new(alloc: Global) -> ScriptMachine
        ensures { RepresentsWorld result (empty_world, empty_ghost_state) }
    {
        ScriptMachine {
            parts: Parts::new(alloc),
            sessions: Vec::new(alloc),
        }
    }
}

impl Machine for ScriptMachine {
    ghost use Rattle.script_machine.specs.WorldState.{KeepsAll};
    ghost use Rattle.stage_laws.proofs.Promised.{promised_is_total, promised_keeps, promised_long_lines_stop};

    ghost AbstractState = { Played };

    ghost represents = { λ machine state. RepresentsWorld machine state };

    ghost step = { PromisedStep };

    ghost keeps = { KeepsAll };

    fn take(&mut self, alloc: Global, line: &[u8]) -> Result<Taken, Memory> {
        self.take_line(alloc, line)
    }

    ghost step_keeps = { promised_keeps };

    ghost is_total = { promised_is_total };

    ghost long_stops = { promised_long_lines_stop };
}
