//! Ports in memory, whose links are known, and of which planned calls fail.

ghost use Rattle.std.specs.Prelude.{◌≡◌, ◌≤◌, ◌↔◌, None, Some, [], IfOk, IfErr, OnErr, OnOk, IsErr, Contains, MatchBool};
ghost use Rattle.ivy_io.specs.Causes.{counted};
ghost use Rattle.ivy_io.specs.Faults.{EndsCount, Refuses};
ghost use Rattle.ivy_io.specs.Links.{GivesNext, fresh_links, next_link, taken_back};
ghost use Rattle.ivy_io.specs.PortsStates.{after_accept, after_call, after_fault, listening, with_returned};

use crate::{Failing, MemSink, MemSource, OpenFault, Ports};
use ivy_base::Memory;
use std::alloc::Global;
use std::collections::VecDeque;
use std::marker::Model;

/// Ports in memory. Each call of `listen` and of `accept` succeeds, unless it is planned to fail; the links are given in
/// order, whatever port is listened to, and those that come back are listed. There is room for as many as were given, so one
/// that comes back where none is out is dropped.
#[derive(Drop)]
pub struct MemPorts {
    links: VecDeque<(MemSource, MemSink)>,
    /// How many links were given and didn't come back.
    out: usize,
    /// Those that came back, with room for all.
    served: Vec<(MemSource, MemSink)>,
    port: Option<u16>,
    fails: Failing,
    calls: u64,
    faults: u64,
    ends: u64,
}

impl Model for MemPorts {
    ghost use Rattle.std.specs.Prelude.{◌+◌, ◌≤◌, length};
    ghost use Rattle.std.specs.Vec.{vec_capacity};
    ghost use Rattle.ivy_io.specs.PortsStates.{PortsState};

    ghost Value = { PortsState };

    ghost view = { λ p. record { links = record { left = p.links.items; out = p.out; served = p.served.items }; port = p.port; failing = p.fails; calls = p.calls; faults = p.faults; ends = p.ends } };

    ghost invariant = { λ p. length p.links.items + p.out + length p.served.items ≤ vec_capacity p.served };
}

impl MemPorts {
    /// Ports that give these links. `fails` has the numbers, from 1, of the calls of `listen` and `accept` that fail. The
    /// error is: out of memory.
    pub fn new(
        alloc: Global,
        links: Vec<(MemSource, MemSink)>,
        fails: Failing,
    ) -> Result<MemPorts, Memory>
        ensures { IfOk result (λ ports. ports ≡ record { links = fresh_links links.items; port = None; failing = fails; calls = 0; faults = 0; ends = 0 }) }
    {
        let served = Vec::with_capacity(alloc, links.len())?;
        Ok(MemPorts {
            links: VecDeque::from_vec(links),
            out: 0,
            served,
            port: None,
            fails,
            calls: 0,
            faults: 0,
            ends: 0,
        })
    }

    /// The links that came back, in the order in which they did.
    pub fn served(&self) -> &[(MemSource, MemSink)]
        ensures { result.now ≡ self.now.links.served }
    {
        self.served.as_slice()
    }

    /// Counts a call, and says whether it fails, which is a fault.
    fn next_fails(&mut self) -> bool
        ensures counted { MatchBool result (Contains self.old.failing (counted self.old.calls) × (self.new ≡ after_fault self.old)) (¬ Contains self.old.failing (counted self.old.calls) × (self.new ≡ after_call self.old)) }
        ensures later { self.old.faults ≤ self.new.faults }
    {
        self.calls = self.calls.saturating_add(1);
        if !self.fails.as_slice().contains(&self.calls) {
            return false;
        }
        self.faults = self.faults.saturating_add(1);
        true
    }
}

impl Ports for MemPorts {
    type Reads = MemSource;

    type Writes = MemSink;

    ghost links = { λ p. Some p.links };

    ghost faults = { λ p. p.faults };

    ghost ends = { λ p. p.ends };

    ghost gives = { λ p link new. (link ≡ next_link p.links) × (new ≡ after_accept p) };

    ghost takes = { λ p reads writes new. new ≡ with_returned (reads, writes) p };

    fn listen(&mut self, _alloc: Global, port: u16) -> Result<(), OpenFault>
        ensures links { Some self.new.links ≡ Some self.old.links }
        ensures ends { self.new.ends ≡ self.old.ends }
        ensures refused { IfErr result (λ fault. Refuses (λ p. p.faults) self.old self.new fault) }
        ensures later { self.old.faults ≤ self.new.faults }

        // Exactly the planned calls fail, and nothing else changes then.
        ensures planned { IsErr result ↔ Contains self.old.failing (counted self.old.calls) }
        ensures err { OnErr result (self.new ≡ after_fault self.old) }
        ensures ok { OnOk result (self.new ≡ listening port self.old) }
    {
        if self.next_fails() {
            return Err(OpenFault::Failed);
        }
        self.port = Some(port);
        Ok(())
    }

    fn accept(&mut self, _alloc: Global) -> Result<Option<(MemSource, MemSink)>, OpenFault>
        ensures is { IfOk result (λ link. (link ≡ next_link self.old.links) × (self.new ≡ after_accept self.old)) }
        ensures links { IfOk result (λ link. GivesNext (Some self.old.links) (Some self.new.links) link) }
        ensures none { OnErr result (Some self.new.links ≡ Some self.old.links) }
        ensures ends { EndsCount self.old.ends self.new.ends result }
        ensures never_falls { self.old.ends ≤ self.new.ends }
        ensures refused { IfErr result (λ fault. Refuses (λ p. p.faults) self.old self.new fault) }
        ensures later { self.old.faults ≤ self.new.faults }

        // Exactly the planned calls fail, and nothing else changes then.
        ensures planned { IsErr result ↔ Contains self.old.failing (counted self.old.calls) }
        ensures err { OnErr result (self.new ≡ after_fault self.old) }
    {
        if self.next_fails() {
            return Err(OpenFault::Failed);
        }
        match self.links.pop_front() {
            Some(link) => {
                self.out += 1;
                Ok(Some(link))
            }
            None => {
                self.ends = self.ends.saturating_add(1);
                Ok(None)
            }
        }
    }

    fn give_back(&mut self, reads: MemSource, writes: MemSink)
        ensures is { self.new ≡ with_returned (reads, writes) self.old }
        ensures links { Some self.new.links ≡ Some (taken_back (reads, writes) self.old.links) }
        ensures ends { self.new.ends ≡ self.old.ends }
        ensures later { self.old.faults ≤ self.new.faults }
    {
        if self.out == 0 {
            return;
        }
        self.out -= 1;
        if self.served.push((reads, writes)).is_err() {
            unreachable!();
        }
    }
}
