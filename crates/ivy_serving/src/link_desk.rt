//! Where links come from and go back to, with the passes that they are served with.

use crate::fault::ServeFault;
use crate::job::{LinkDone, LinkJob};
use agent_gate::{Gate, Pass};
use hss_keys::Signs;
use ivy_io::{Clock, Keeper, OpenFault, Ports};
use ivy_server::Ended;
use job_desk::Desk;
use ring_run::LiveRing;
use std::alloc::Global;
use std::marker::Model;

/// Ports that are lent, and the passes. There is room for the pass of each link that is out, and for the first one.
#[derive(Drop)]
pub(crate) struct LinkDesk<'a, K: Keeper + Drop, S: Signs + Drop, P: Ports, C: Clock> {
    pub(crate) alloc: Global,
    pub(crate) gate: &'a Gate<K, S>,
    pub(crate) ring: &'a LiveRing,
    pub(crate) clock: &'a C,
    pub(crate) ports: &'a mut P,
    /// The pass of which each link's is split.
    pub(crate) first: Pass<K, S>,
    /// Those of links that came back.
    pub(crate) passes: Vec<Pass<K, S>>,
    /// Whether a session wanted memory.
    pub(crate) lacked: bool,
    /// How many links are out.
    pub(crate) out: usize,
}

impl<'a, K: Keeper + Drop, S: Signs + Drop, P: Ports, C: Clock> Model for LinkDesk<'a, K, S, P, C> {
    ghost use Rattle.std.specs.Prelude.{◌+◌, ◌≤◌, IsSomeAnd, vec_len};
    ghost use Rattle.std.specs.Vec.{vec_capacity};
    ghost use Rattle.value_gate.specs.Passes.{IsPassOf};
    ghost use Rattle.ivy_serving.specs.Desks.{DeskState};

    ghost Value = { DeskState P K S };

    ghost view = { λ d. record {
      ports = d.ports.now;
      first = d.first;
      passes = d.passes.items;
      lacked = d.lacked;
      base = record { gate = d.gate.now; ring = d.ring.now; moment = C.moment d.clock.now };
      out = d.out;
      place = d.ports.ghost_name;
    } };

    ghost invariant = { λ d. (vec_len d.passes + d.out + 1 ≤ vec_capacity d.passes) × IsPassOf d.gate.now d.first
        × IsSomeAnd d.gate.now.opening.agent.view (λ view. Unit {0}) };
}

impl<'a, K: Keeper + Drop, S: Signs + Drop, P: Ports, C: Clock> Desk for LinkDesk<'a, K, S, P, C> {
    ghost use Rattle.ivy_serving.specs.Desks.{GivesAt, RefusesAt, TakesAt};
    ghost use Rattle.ivy_serving.specs.Serving.{ports_of};

    type Job = LinkJob<'a, K, S, P, C>;

    type Fault = ServeFault;

    ghost place = { λ d. d.place };

    ghost gives = { GivesAt (ports_of P.links P.faults P.ends P.gives P.takes) C.moment };

    ghost refuses = { RefusesAt (ports_of P.links P.faults P.ends P.gives P.takes) };

    ghost takes = { TakesAt (ports_of P.links P.faults P.ends P.gives P.takes) };

    ghost out = { λ d. d.out };

    fn accept(&mut self) -> Result<Option<LinkJob<'a, K, S, P, C>>, ServeFault> {
        if self.first.parts() < 2 {
            return Err(ServeFault::NoPart);
        }
        if self.passes.reserve(self.out + 2).is_err() {
            return Err(ServeFault::Memory);
        }
        let Ok(clock) = self.clock.another(self.alloc) else {
            return Err(ServeFault::Memory);
        };
        match self.ports.accept(self.alloc) {
            Ok(Some((reads, writes))) => {
                self.out += 1;
                Ok(Some(LinkJob {
                    alloc: self.alloc,
                    gate: self.gate,
                    ring: self.ring,
                    reads,
                    writes,
                    pass: self.gate.split(&mut self.first),
                    clock,
                }))
            }
            Ok(None) => Ok(None),
            Err(OpenFault::Failed) => Err(ServeFault::Failed),
            Err(OpenFault::Memory) => Err(ServeFault::Memory),
        }
    }

    fn take(&mut self, done: LinkDone<K, S, P, C>) {
        let LinkDone {
            how,
            reads,
            writes,
            pass,
            clock: _,
        } = done;
        self.out -= 1;
        self.passes.push_reserved(pass);
        self.lacked |= matches!(how, Ended::Memory);
        self.ports.give_back(reads, writes);
    }
}
